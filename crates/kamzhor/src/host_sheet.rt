// Settings sheets for the C host: each call is the library's own, told in numbers.
ghost use Rattle.kamzhor.specs.Sheet.{GivesSheet, GivesCheck, GivesRecord, GivesRemoved, GivesModuleRemoved, GivesAdded};
ghost use Rattle.kamzhor.specs.Sheet.{sheet_given, check_given, record_given, edit_given};
ghost use Rattle.std.specs.Prelude.{◌≡◌};

use crate::host_values::SizeAnswer;
use setting::Head;

// How many records a right sheet has.
#[repr(C)]
#[derive(Clone, Copy)]
pub struct CheckAnswer {
    pub refusal: u32,
    pub count: u64,
}

// What a record names, and how many bytes its value has.
#[repr(C)]
#[derive(Clone, Copy)]
pub struct RecordAnswer {
    pub refusal: u32,
    pub head: Head,
    pub size: u64,
}

// Writes the sheet of these settings into the room's first bytes.
#[unsafe(no_mangle)]
pub extern "C" fn kamzhor_sheet_write(rows: &[u8], values: &[u8], room: &mut [u8]) -> SizeAnswer
    ensures { GivesSheet rows.now values.now room.old result room.new }
{
    of_writing(sheet_writer::write(rows, values, room))
}

// Checks a whole sheet.
#[unsafe(no_mangle)]
pub extern "C" fn kamzhor_sheet_check(sheet: &[u8]) -> CheckAnswer
    ensures { GivesCheck sheet.now result }
{
    of_checked(sheet::check(sheet))
}

// Reads the record at an index, from 0, and puts its value into the room's first bytes.
#[unsafe(no_mangle)]
pub extern "C" fn kamzhor_sheet_read(sheet: &[u8], index: usize, room: &mut [u8]) -> RecordAnswer
    ensures { GivesRecord sheet.now index room.old result room.new }
{
    of_reading(sheet::read(sheet, index, room))
}

// Removes the record at an index of the sheet in the room's first bytes.
#[unsafe(no_mangle)]
pub extern "C" fn kamzhor_sheet_remove(room: &mut [u8], size: usize, index: usize) -> SizeAnswer
    ensures { GivesRemoved room.old size index result room.new }
{
    of_editing(sheet_editor::remove(room, size, index))
}

// Removes the record at an index of the sheet in the room's first bytes.
// Removes all records of a module.
#[unsafe(no_mangle)]
pub extern "C" fn kamzhor_sheet_remove_module(room: &mut [u8], size: usize, unit: u8) -> SizeAnswer
    ensures { GivesModuleRemoved room.old size unit result room.new }
{
    of_editing(sheet_editor::remove_module(room, size, unit))
}

// Adds a setting, in order.
#[unsafe(no_mangle)]
pub extern "C" fn kamzhor_sheet_add(
    room: &mut [u8],
    size: usize,
    head: Head,
    value: &[u8],
) -> SizeAnswer
    ensures { GivesAdded room.old size head value.now result room.new }
{
    of_editing(sheet_editor::add(room, size, head, value))
}

fn of_writing(writing: Result<usize, setting::Fault>) -> SizeAnswer
    ensures { result ≡ sheet_given writing }
{
    match writing {
        Err(fault) => crate::host_values::no_size(setting::number(fault)),
        Ok(size) => crate::host_values::size_of(size),
    }
}

fn of_checked(checked: Result<usize, setting::Fault>) -> CheckAnswer
    ensures { result ≡ check_given checked }
{
    match checked {
        Err(fault) => CheckAnswer {
            refusal: setting::number(fault) as u32,
            count: 0,
        },
        Ok(count) => CheckAnswer {
            refusal: 0,
            count: count as u64,
        },
    }
}

fn of_reading(reading: Result<sheet::Record, setting::Fault>) -> RecordAnswer
    ensures { result ≡ record_given reading }
{
    match reading {
        Err(fault) => RecordAnswer {
            refusal: setting::number(fault) as u32,
            head: Head {
                unit: 0,
                register: 0,
                kind: 0,
                count: 0,
            },
            size: 0,
        },
        Ok(record) => {
            let head = record.head;
            RecordAnswer {
                refusal: 0,
                head,
                size: record.size as u64,
            }
        }
    }
}

fn of_editing(editing: Result<usize, sheet_editor::Fault>) -> SizeAnswer
    ensures { result ≡ edit_given editing }
{
    match editing {
        Err(fault) => crate::host_values::no_size(sheet_editor::number(fault)),
        Ok(edited) => crate::host_values::size_of(edited),
    }
}
