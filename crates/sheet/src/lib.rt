// Settings sheets: checking one, and reading a record of it. `specs/Sheet.antt` says what a sheet is.
#![tactic(auto)]

ghost use Rattle.std.specs.Prelude.{◌≡◌, ◌+◌, ◌*◌, ◌≤◌, length};
ghost use Rattle.std.proofs.Math.Option.{none};
ghost use Rattle.sheet.specs.Sheet.{Checks, Reads, ChecksRecords, Shows, field_at, count_in, is_wrong_header, is_misplaced, check_refusal};
ghost use Rattle.setting.specs.Setting.{rows_in};

use setting::{Fault, Head, MOST, ROW};

// How many bytes the header has.
pub const HEADER: usize = 12;

// The only version there is.
const VERSION: usize = 1;

// What a record names, and how many bytes its value has.
#[derive(Clone, Copy)]
pub struct Record {
    pub head: Head,
    pub size: usize,
}

// Checks a whole sheet and answers how many records it has.
pub fn check(sheet: &[u8]) -> Result<usize, Fault>
    ensures { Checks sheet.now result }
{
    if sheet.len() < HEADER {
        return Err(Fault::ShortSheet);
    }
    if field(sheet, 0, 2) != VERSION {
        return Err(Fault::OtherVersion);
    }
    if is_wrong_header(sheet) {
        return Err(Fault::WrongHeader);
    }
    check_records(sheet)
}

// The number that so many bytes from a place on are, lowest first.
fn field(sheet: &[u8], at: usize, size: usize) -> usize
    requires { (at + size ≤ length sheet.now) × (size ≤ 8) }
    ensures { result ≡ field_at at size sheet.now }
{
    let end = at + size;
    values::load(&sheet[at..end]) as usize
}

// Whether the count or an offset is wrong, or the sheet does not reach to the values.
fn is_wrong_header(sheet: &[u8]) -> bool
    requires { 12 ≤ length sheet.now }
    ensures { result ≡ is_wrong_header sheet.now }
{
    let n = field(sheet, 2, 2);
    if MOST < n {
        return true;
    }
    if field(sheet, 4, 4) != HEADER {
        return true;
    }
    let end = field(sheet, 8, 4);
    if end != HEADER + ROW * n {
        return true;
    }
    sheet.len() < end
}

// The records of a sheet whose header is right.
fn check_records(sheet: &[u8]) -> Result<usize, Fault>
    requires { (count_in sheet.now ≤ 128) × (12 + 8 * count_in sheet.now ≤ length sheet.now) }
    ensures { ChecksRecords sheet.now result }
{
    let n = field(sheet, 2, 2);
    let end = HEADER + ROW * n;
    let rows = &sheet[HEADER..end];
    let fall = setting::first_fall(rows);
    let unfit = setting::first_unfit(rows);
    if fall < n {
        return Err(Fault::OutOfOrder);
    }
    if unfit < n {
        return Err(Fault::NotAllowed);
    }
    if is_misplaced(rows, sheet.len() - end) {
        return Err(Fault::WrongPlaces);
    }
    Ok(n)
}

// Whether a value does not begin where the one before it ends, or the last does not end the `size`
// bytes behind the records.
fn is_misplaced(rows: &[u8], size: usize) -> bool
    requires { length rows.now ≤ 1024 }
    ensures { result ≡ is_misplaced (rows_in rows.now) rows.now size }
{
    let n = rows.len() / ROW;
    let mut end = 0;
    for k in 0..n {
        if setting::tail_at(rows, k) != end {
            return true;
        }
        end += setting::measure(setting::head_at(rows, k));
    }
    size != end
}

// Answers the record at an index, from 0 on, with its value in the room's first bytes. The rest of
// the room stays, and a refusal leaves all of it.
pub fn read(sheet: &[u8], index: usize, room: &mut [u8]) -> Result<Record, Fault>
    ensures { Reads sheet.now index room.old result room.new }
{
    let n = check(sheet)?;
    show(sheet, n, index, room)
}

// The same of a right sheet with n records.
fn show(sheet: &[u8], n: usize, index: usize, room: &mut [u8]) -> Result<Record, Fault>
    requires { (check_refusal sheet.now ≡ none) × (n ≡ count_in sheet.now) }
    ensures { Shows sheet.now index room.old result room.new }
{
    if n <= index {
        return Err(Fault::NoSuchRecord);
    }
    let end = HEADER + ROW * n;
    let rows = &sheet[HEADER..end];
    let head = setting::head_at(rows, index);
    let size = setting::measure(head);
    if room.len() < size {
        return Err(Fault::NoRoom);
    }
    let from = end + setting::tail_at(rows, index);
    let to = from + size;
    lent::lay_at(&sheet[from..to], room, 0);
    Ok(Record {
        head: head,
        size: size,
    })
}
