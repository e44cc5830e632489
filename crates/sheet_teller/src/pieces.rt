// The text of one setting, piece by piece: each answers the place behind it. What is required of
// places, and how far a piece goes at most, is for the sums: none of them wraps.
ghost use Rattle.std.specs.Prelude.{◌≡◌, cond, ◌++◌, leb, length, replicate, ◌+◌, ◌≤◌, ◌<◌};
ghost use Rattle.setting.specs.Setting.{setting};
ghost use Rattle.text.specs.Text.{decimal, Puts};
ghost use Rattle.sheet_line.specs.Line.{line_of};
ghost use Rattle.sheet_teller.specs.Teller.{hex_digit, hex_of, call_of, piece_of};
ghost use Rattle.sheet_teller.specs.Parts.{asked_text, timed_text};

use crate::{Form, Order};
use setting::Head;

// A setting in its form, with a newline.
pub(crate) fn piece_at(form: Form, head: Head, value: &[u8], room: &mut [u8], at: usize) -> usize
    requires { (at ≤ 1000000) × (length value.now ≤ 240) }
    ensures { Puts (piece_of form (setting head value.now)) at room.old result room.new × (result ≤ at + 6000) }
{
    match form {
        Form::Lines => {
            let end = line_at(head, value, room, at);
            word(b"\n", room, end)
        }
        Form::Calls(order) => {
            let end = call_at(order, head, value, room, at);
            word(b"\n", room, end)
        }
    }
}

// The line of a setting.
fn line_at(head: Head, value: &[u8], room: &mut [u8], at: usize) -> usize
    requires { at ≤ 1000000 }
    ensures { Puts (line_of (setting head value.now)) at room.old result room.new × (result ≤ at + 5700) }
{
    let from = least(at, room.len());
    at + sheet_line::write(head, value, &mut room[from..])
}

fn least(a: usize, b: usize) -> usize
    ensures { result ≡ cond (leb a b) a b }
{
    if a <= b { a } else { b }
}

// The call that sets the register.
fn call_at(order: Order, head: Head, value: &[u8], room: &mut [u8], at: usize) -> usize
    requires { (at ≤ 1000000) × (length value.now ≤ 240) }
    ensures { Puts (call_of order (setting head value.now)) at room.old result room.new × (result ≤ at + 1700) }
{
    let a = asked_at(order.job, head, room, at);
    let b = hex_at(value, room, a);
    let c = timed_at(order, room, b);
    zeros_at(28 + 4 * value.len(), room, c)
}

// What is asked, up to the data: `desk.open JOB MODULE 5 REGISTER `.
fn asked_at(job: u32, head: Head, room: &mut [u8], at: usize) -> usize
    requires { at ≤ 1000000 }
    ensures { Puts (asked_text job head) at room.old result room.new × (result ≤ at + 91) }
{
    let a = numbered(b"desk.open ", job, room, at);
    let b = numbered(b" ", head.unit as u32, room, a);
    let c = numbered(b" 5 ", head.register as u32, room, b);
    word(b" ", room, c)
}

// What stands behind the data, up to the buffer: ` WAIT 0 CLOCK `.
fn timed_at(order: Order, room: &mut [u8], at: usize) -> usize
    requires { at ≤ 1001000 }
    ensures { Puts (timed_text order) at room.old result room.new × (result ≤ at + 61) }
{
    let a = numbered(b" ", order.wait, room, at);
    let b = numbered(b" 0 ", order.clock, room, a);
    word(b" ", room, b)
}

// A word and a number.
fn numbered(text: &[u8], n: u32, room: &mut [u8], at: usize) -> usize
    requires { (at ≤ 1010000) × (length text.now ≤ 10) }
    ensures { Puts (text.now ++ decimal n) at room.old result room.new × (result ≤ at + 30) }
{
    let end = word(text, room, at);
    end + text::decimal_at(n as u64, room, end)
}

fn word(text: &[u8], room: &mut [u8], at: usize) -> usize
    requires { (at ≤ 1010000) × (length text.now ≤ 10) }
    ensures { Puts text.now at room.old result room.new }
{
    lent::lay_at(text, room, at);
    at + text.len()
}

// Bytes in hex.
fn hex_at(bytes: &[u8], room: &mut [u8], at: usize) -> usize
    requires { (at ≤ 1010000) × (length bytes.now ≤ 240) }
    ensures { Puts (hex_of bytes.now) at room.old result room.new × (result ≤ at + 480) }
{
    let mut to = at;
    for byte in bytes {
        lent::lay_at(&[hex_digit(*byte / 16), hex_digit(*byte % 16)], room, to);
        to += 2;
    }
    to
}

fn hex_digit(d: u8) -> u8
    requires { d < 16 }
    ensures { result ≡ hex_digit d }
{
    if d < 10 { 48 + d } else { 87 + d }
}

// So many zeros.
fn zeros_at(n: usize, room: &mut [u8], at: usize) -> usize
    requires { (at ≤ 1010000) × (n ≤ 1000) }
    ensures { Puts (replicate n 48) at room.old result room.new }
{
    for i in 0..n {
        lent::lay_at(b"0", room, at + i);
    }
    at + n
}
