// A settings sheet made of a text, one setting added by a line of text, and a record found by its
// module and register. docs/SHEETS.md says what a text is, and `specs/Maker.antt` the same in
// definitions.
#![tactic(auto)]

mod gathering;

ghost use Rattle.std.specs.Prelude.{◌≡◌, ◌<◌, MatchOption, Err};
ghost use Rattle.first.specs.First.{first_place};
ghost use Rattle.setting.specs.Setting.{rows_in, heads};
ghost use Rattle.sheet_editor.specs.Editor.{sheet_refusal, same_key};
ghost use Rattle.sheet_maker.specs.Maker.{Makes, AddsLine, Finds, Keys, NumbersKey, wrong_answer, key_for, is_key};

use setting::{Head, ROW};
use sheet::HEADER;

// How many of a text's lines are bad, or why no sheet is written.
#[derive(Clone, Copy)]
pub enum NotMade {
    Wrong(usize),
    Refused(setting::Fault),
}

// What is wrong with the new setting's line, or why the sheet stays as it is.
#[derive(Clone, Copy)]
pub enum NotAdded {
    Wrong(sheet_line::Fault),
    Refused(sheet_editor::Fault),
}

// By key, from 0 on, which is a value that its room is too short for.
const NUMBERS: [u8; 11] = [57, 0, 0, 69, 0, 69, 69, 69, 43, 79, 68];

// The paper's number of a key, 0 where the papers have none for it.
pub fn number(key: u8) -> u8
    ensures { NumbersKey key result }
{
    let at = key as usize;
    if at < 11 { NUMBERS[at] } else { 0 }
}

// The key of what is wrong with a line, from 1 on; 0 for a room that is too short for its value.
pub fn key(fault: sheet_line::Fault) -> u8
    ensures { Keys fault result }
{
    match fault {
        sheet_line::Fault::FewWords => 1,
        sheet_line::Fault::NoNumber(_) => 2,
        sheet_line::Fault::NoModule => 3,
        sheet_line::Fault::NoRegister => 4,
        sheet_line::Fault::NoKind => 5,
        sheet_line::Fault::BadCount => 6,
        sheet_line::Fault::OtherCount => 7,
        sheet_line::Fault::NotFitting(_) => 8,
        sheet_line::Fault::NoRoom => 0,
    }
}

// Writes the sheet of a text into the room's first bytes, and answers how long it is. Of each bad line
// three numbers go into the list: which line it is, which word, and its key; a text with a bad line
// writes no sheet. All else of the list and of the room stays.
pub fn make(text: &[u8], list: &mut [u64], room: &mut [u8]) -> Result<usize, NotMade>
    ensures { Makes text.now list.old room.old result list.new room.new }
{
    let mut rows = [0u8; 1024];
    let mut values = [0u8; 30720];
    let page = gathering::gather(text, &mut rows, &mut values, list);
    if 0 < page.wrong {
        return Err(NotMade::Wrong(page.wrong));
    }
    let many = ROW * page.many;
    let size = page.size;
    sheet_writer::write(&rows[0..many], &values[0..size], room).map_err(NotMade::Refused)
}

// Adds the setting of a line to the sheet that is the room's first `size` bytes, where it stands in
// order. Answers the new length. Bytes past it stay, and all of the room where nothing was added.
pub fn add(room: &mut [u8], size: usize, line: &[u8]) -> Result<usize, NotAdded>
    ensures { AddsLine room.old size line.now result room.new }
{
    let mut value = [0u8; 240];
    match sheet_line::read(line, &mut value) {
        Ok(None) => Err(not_added(&room[..], size, sheet_line::Fault::FewWords)),
        Err(fault) => Err(not_added(&room[..], size, fault)),
        Ok(Some(record)) => {
            let head = record.head;
            let long = record.size;
            sheet_editor::add(room, size, head, &value[0..long]).map_err(NotAdded::Refused)
        }
    }
}

// Nothing is added: because of the sheet, or else because of the line.
fn not_added(room: &[u8], size: usize, wrong: sheet_line::Fault) -> NotAdded
    ensures { wrong_answer (sheet_refusal room.now size) wrong ≡ Err result }
{
    if room.len() < size {
        return NotAdded::Refused(sheet_editor::Fault::Overstated);
    }
    match sheet::check(&room[0..size]) {
        Err(fault) => NotAdded::Refused(sheet_editor::Fault::WrongSheet(fault)),
        Ok(_) => NotAdded::Wrong(wrong),
    }
}

// The record of a module and register, from 0 on; as many as there are where none is, and 0 of a
// sheet that is not right.
pub fn find(sheet: &[u8], unit: u8, register: u8) -> usize
    ensures { Finds sheet.now unit register result }
{
    match sheet::check(sheet) {
        Err(_) => 0,
        Ok(n) => {
            let end = HEADER + ROW * n;
            first_of(&sheet[HEADER..end], unit, register).unwrap_or(n)
        }
    }
}

// The first row of a module and register.
fn first_of(rows: &[u8], unit: u8, register: u8) -> Option<usize>
    ensures { MatchOption result (rows_in rows.now ≡ first_place (is_key unit register (heads rows.now)) (rows_in rows.now)) (λ k. (k ≡ first_place (is_key unit register (heads rows.now)) (rows_in rows.now)) × (k < rows_in rows.now)) }
{
    (0..rows.len() / ROW).find(|k| is_of(setting::head_at(rows, *k), unit, register))
}

fn is_of(head: Head, unit: u8, register: u8) -> bool
    ensures { result ≡ same_key head (key_for unit register) }
{
    if head.unit == unit {
        return head.register == register;
    }
    false
}
