// The exports of the telegram writer, the value writer and the catalogue.
ghost use Rattle.kamzhor.specs.Values.{GivesWritten, GivesStored, GivesEntry};

use kamzhor::host_values::{EntryAnswer, SizeAnswer};

// Writes the telegram into the room's first bytes.
#[unsafe(no_mangle)]
pub extern "C" fn kamzhor_write_frame(
    destination: u8,
    source: u8,
    sort: u8,
    register: u8,
    data: &[u8],
    room: &mut [u8],
) -> SizeAnswer
    ensures { GivesWritten destination source sort register «data».now room.old result room.new }
{
    kamzhor::host_values::kamzhor_write_frame(destination, source, sort, register, data, room)
}

// Writes a value into the room's first bytes, minus the magnitude where the sign is not 0. No kind is
// cut down to a byte: 257 is no kind, as 8 is none.
#[unsafe(no_mangle)]
pub extern "C" fn kamzhor_write_value(
    kind: u64,
    negative: u32,
    magnitude: u64,
    room: &mut [u8],
) -> u32
    ensures { GivesStored kind negative magnitude room.old result room.new }
{
    kamzhor::host_values::kamzhor_write_value(kind, negative, magnitude, room)
}

// The catalogue's row for a register of a type of module.
#[unsafe(no_mangle)]
pub extern "C" fn kamzhor_find_register(model: u8, register: u8) -> EntryAnswer
    ensures { GivesEntry model register result }
{
    kamzhor::host_values::kamzhor_find_register(model, register)
}
