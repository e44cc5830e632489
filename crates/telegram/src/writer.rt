// The frame writer.
ghost use Rattle.telegram.specs.Write.{Writes, Sends, message_for};
ghost use Rattle.lent.specs.Lent.{over};
ghost use Rattle.std.specs.Prelude.{◌≡◌, ◌≤◌, length};

use crate::{DATA_AT, Fault, LONGEST, MOST_DATA, SHORTEST, TOGGLE_BITS};
use frame::{END, START};

// Writes a telegram into the room's first bytes and answers its length. The rest of the room
// stays, and a refusal leaves all of it.
pub fn write(
    destination: u8,
    source: u8,
    sort: u8,
    register: u8,
    data: &[u8],
    room: &mut [u8],
) -> Result<usize, Fault>
    ensures { Writes destination source sort register «data».now room.old result room.new }
{
    if MOST_DATA < data.len() {
        return Err(Fault::LongMessage);
    }
    if destination == 0 || source == 0 {
        return Err(Fault::ZeroAddress);
    }
    if TOGGLE_BITS < sort {
        return Err(Fault::UnknownType);
    }
    let mut message = [0u8; LONGEST];
    compose(destination, source, sort, register, data, &mut message);
    let n = data.len() + SHORTEST;
    send(&message[0..n], room)
}

// Lays the message over the space's first bytes: the four fields, the data, and the remainder of
// these with its high byte first.
fn compose(destination: u8, source: u8, sort: u8, register: u8, data: &[u8], space: &mut [u8])
    requires { (length «data».now ≤ 240) × (length space.old ≡ 246) }
    ensures { space.new ≡ over (message_for destination source sort register «data».now) space.old }
{
    lent::lay_at(&[destination, source, sort, register], space, 0);
    lent::lay_at(data, space, DATA_AT);
    let n = data.len() + DATA_AT;
    let check = remainder::remainder(&space[0..n]);
    lent::lay_at(&[(check / 256) as u8, (check % 256) as u8], space, n);
}

// Writes the telegram of a message, substituted, where there is room for it.
fn send(message: &[u8], room: &mut [u8]) -> Result<usize, Fault>
    requires { length message.now ≤ 246 }
    ensures { Sends message.now room.old result room.new }
{
    let n = frame::substituted_length(message) + 2;
    if room.len() < n {
        return Err(Fault::NoRoom);
    }
    lent::lay_at(&[START], room, 0);
    frame::substitute_at(message, room, 1);
    lent::lay_at(&[END], room, n - 1);
    Ok(n)
}
