// The exports of the settings sheets.
ghost use Rattle.kamzhor.specs.Sheet.{GivesSheet, GivesCheck, GivesRecord, GivesRemoved, GivesModuleRemoved, GivesAdded};

use kamzhor::host_sheet::{CheckAnswer, RecordAnswer};
use kamzhor::host_values::SizeAnswer;
use setting::Head;

// Writes the sheet of these settings into the room's first bytes.
#[unsafe(no_mangle)]
pub extern "C" fn kamzhor_sheet_write(rows: &[u8], values: &[u8], room: &mut [u8]) -> SizeAnswer
    ensures { GivesSheet rows.now values.now room.old result room.new }
{
    kamzhor::host_sheet::kamzhor_sheet_write(rows, values, room)
}

// Checks a whole sheet.
#[unsafe(no_mangle)]
pub extern "C" fn kamzhor_sheet_check(sheet: &[u8]) -> CheckAnswer
    ensures { GivesCheck sheet.now result }
{
    kamzhor::host_sheet::kamzhor_sheet_check(sheet)
}

// Reads the record at an index, from 0, and puts its value into the room's first bytes.
#[unsafe(no_mangle)]
pub extern "C" fn kamzhor_sheet_read(sheet: &[u8], index: usize, room: &mut [u8]) -> RecordAnswer
    ensures { GivesRecord sheet.now index room.old result room.new }
{
    kamzhor::host_sheet::kamzhor_sheet_read(sheet, index, room)
}

// Removes the record at an index of the sheet in the room's first bytes.
#[unsafe(no_mangle)]
pub extern "C" fn kamzhor_sheet_remove(room: &mut [u8], size: usize, index: usize) -> SizeAnswer
    ensures { GivesRemoved room.old size index result room.new }
{
    kamzhor::host_sheet::kamzhor_sheet_remove(room, size, index)
}

// Removes all records of a module of the sheet in the room's first bytes.
#[unsafe(no_mangle)]
pub extern "C" fn kamzhor_sheet_remove_module(room: &mut [u8], size: usize, unit: u8) -> SizeAnswer
    ensures { GivesModuleRemoved room.old size unit result room.new }
{
    kamzhor::host_sheet::kamzhor_sheet_remove_module(room, size, unit)
}

// Adds a setting, in order.
#[unsafe(no_mangle)]
pub extern "C" fn kamzhor_sheet_add(
    room: &mut [u8],
    size: usize,
    head: Head,
    value: &[u8],
) -> SizeAnswer
    ensures { GivesAdded room.old size head value.now result room.new }
{
    kamzhor::host_sheet::kamzhor_sheet_add(room, size, head, value)
}
