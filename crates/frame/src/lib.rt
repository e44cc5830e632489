// What a frame is made of: the start and end bytes, and substitution both ways. A 10, 13 or 94 of a
// message travels as 94 and the byte plus 64.
#![tactic(auto)]

ghost use Rattle.frame.specs.Frame.{Measures, Restores, Substitutes, is_special, opens, substitute};
ghost use Rattle.frame.specs.Frame.{restore as restore_of};
ghost use Rattle.lent.specs.Lent.{over_at};
ghost use Rattle.std.specs.Prelude.{◌≡◌, ◌-◌, length};

pub const START: u8 = 13;

pub const END: u8 = 10;

pub const SUBSTITUTION: u8 = 94;

// How long a message is once it is substituted. Its telegram has the start and the end byte more.
pub fn substituted_length(message: &[u8]) -> usize
    ensures { Measures message.now result }
{
    message.iter().map(|byte| byte_length(*byte)).sum()
}

// Lays the message, substituted, over the room's places from `at` on, as much of it as there is
// room for. Every other byte of the room stays.
pub fn substitute_at(message: &[u8], room: &mut [u8], at: usize)
    ensures { Substitutes message.now at room.old room.new }
{
    let mut to = at;
    for byte in message {
        if room.len() <= to {
            return;
        }
        to += substitute_one(*byte, room, to);
    }
}

// Turns the substitutions among these bytes back, into the room's first places, as much as there
// is room for. Answers how many bytes that makes, with room or without.
pub fn restore(bytes: &[u8], room: &mut [u8]) -> usize
    ensures { Restores bytes.now room.old result room.new }
{
    let mut after = false;
    let mut n = 0;
    for byte in bytes {
        let turned = restore_one(after, *byte, room, n);
        n += turned.more;
        after = turned.after;
    }
    n
}

fn byte_length(byte: u8) -> usize
    ensures { result ≡ length (substitute byte) }
{
    if special(byte) { 2 } else { 1 }
}

// Lays one byte of a message over the room at a place, substituted where it must be, and answers
// how many bytes that takes.
fn substitute_one(byte: u8, room: &mut [u8], at: usize) -> usize
    ensures { (result ≡ length (substitute byte)) × (room.new ≡ over_at at (substitute byte) room.old) }
{
    if special(byte) {
        lent::lay_at(&[SUBSTITUTION, byte + 64], room, at);
        2
    } else {
        lent::lay_at(&[byte], room, at);
        1
    }
}

// What one byte is turned back to: how many bytes that is, and whether it is a 94 that opens a pair.
#[derive(Clone, Copy)]
struct Turned {
    more: usize,
    after: bool,
}

// Lays what one byte is turned back to, which may be nothing. `after` says that such a 94 came last.
fn restore_one(after: bool, byte: u8, room: &mut [u8], at: usize) -> Turned
    ensures { (result.more ≡ length (restore_of after byte)) × (result.after ≡ opens after byte)
        × (room.new ≡ over_at at (restore_of after byte) room.old) }
{
    if after {
        lent::lay_at(&[less_64(byte)], room, at);
        return Turned {
            more: 1,
            after: false,
        };
    }
    if byte == SUBSTITUTION {
        return Turned {
            more: 0,
            after: true,
        };
    }
    lent::lay_at(&[byte], room, at);
    Turned {
        more: 1,
        after: false,
    }
}

// A byte under 64 is no substitute; it counts as 64.
fn less_64(byte: u8) -> u8
    ensures { result ≡ byte - 64 }
{
    if byte < 64 { 0 } else { byte - 64 }
}

fn special(byte: u8) -> bool
    ensures { result ≡ is_special byte }
{
    matches!(byte, END | START | SUBSTITUTION)
}
