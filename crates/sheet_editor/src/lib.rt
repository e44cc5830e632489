// Settings thrown out of a sheet, and one added, within the buffer that the sheet stands in: the bytes
// that stay are moved, and nothing is copied elsewhere. `specs/Editor.antt` says what comes of it, and
// `sheet/specs/Sheet.antt` what a sheet is.
#![tactic(auto)]

ghost use Rattle.std.specs.Prelude.{◌≡◌, cond, ◌&&◌, ◌+◌, ◌-◌, ◌*◌, ◌≤◌, ltb, length, take, drop};
ghost use Rattle.std.proofs.Math.Option.{none};
ghost use Rattle.first.specs.First.{first_place};
ghost use Rattle.setting.specs.Setting.{setting, head, length_of, heads, tails, not_below};
ghost use Rattle.sheet.specs.Sheet.{check_refusal, count_in, held};
ghost use Rattle.sheet_editor.specs.Editor.{Removes, RemovesModule, Adds, Numbers, RemovesFrom, RemovesModuleFrom, AddsTo, Edits, judgement, same_key, cut_out, put_in};

use setting::{Head, MOST, ROW};
use sheet::HEADER;

// The highest module address.
const LAST: u8 = 160;

// Why a sheet stays as it is.
#[derive(Clone, Copy)]
pub enum Fault {
    // the stated length is over the buffer
    Overstated,
    // the sheet isn't right
    WrongSheet(setting::Fault),
    // nothing to remove
    NothingThere,
    // the new setting's module, kind, count or value length is not allowed
    NotAllowed,
    // its module and register are there already
    AlreadyThere,
    // there are 128 records already
    Full,
    // the buffer is too short for the longer sheet
    NoRoom,
}

// The paper's number of a refusal.
pub fn number(fault: Fault) -> u8
    ensures { Numbers fault result }
{
    match fault {
        Fault::Overstated => 80,
        Fault::WrongSheet(wrong) => setting::number(wrong),
        Fault::NothingThere => 77,
        Fault::NotAllowed => 69,
        Fault::AlreadyThere => 78,
        Fault::Full => 79,
        Fault::NoRoom => 80,
    }
}

// Removes the record at an index, from 0 on, of the sheet that is the room's first `size` bytes.
// Answers how long the sheet is now. Bytes past it stay, and a refusal leaves all of the room.
pub fn remove(room: &mut [u8], size: usize, index: usize) -> Result<usize, Fault>
    ensures { Removes room.old size index result room.new }
{
    let n = judge(&room[..], size)?;
    remove_from(room, size, n, index)
}

// Removes all records of a module and answers how long the sheet is now.
pub fn remove_module(room: &mut [u8], size: usize, unit: u8) -> Result<usize, Fault>
    ensures { RemovesModule room.old size unit result room.new }
{
    let n = judge(&room[..], size)?;
    remove_module_from(room, size, n, unit)
}

// Adds a setting where it stands in order and answers how long the sheet is now.
pub fn add(room: &mut [u8], size: usize, head: Head, value: &[u8]) -> Result<usize, Fault>
    ensures { Adds room.old size head value.now result room.new }
{
    let n = judge(&room[..], size)?;
    add_to(room, size, n, head, value)
}

// Checks the sheet that is the room's first `size` bytes: how many records a right one has, or why
// nothing is done.
fn judge(room: &[u8], size: usize) -> Result<usize, Fault>
    ensures { result ≡ judgement room.now size }
{
    let end = room.len();
    if end < size {
        return Err(Fault::Overstated);
    }
    sheet::check(&room[0..size]).map_err(Fault::WrongSheet)
}

// The same of a right sheet with n records.
fn remove_from(room: &mut [u8], size: usize, n: usize, index: usize) -> Result<usize, Fault>
    requires { (size ≤ length room.old) × (check_refusal (take size room.old) ≡ none) × (n ≡ count_in (take size room.old)) }
    ensures { RemovesFrom (held (take size room.old)) room.old index result room.new }
{
    if n <= index {
        return Err(Fault::NothingThere);
    }
    cut(room, size, n, index, index + 1)
}

fn remove_module_from(room: &mut [u8], size: usize, n: usize, unit: u8) -> Result<usize, Fault>
    requires { (size ≤ length room.old) × (check_refusal (take size room.old) ≡ none) × (n ≡ count_in (take size room.old)) }
    ensures { RemovesModuleFrom (held (take size room.old)) room.old unit result room.new }
{
    if LAST < unit {
        return Err(Fault::NothingThere);
    }
    let from = first_of(&room[..], n, unit);
    let to = first_of(&room[..], n, unit + 1);
    if to <= from {
        return Err(Fault::NothingThere);
    }
    cut(room, size, n, from, to)
}

fn add_to(room: &mut [u8], size: usize, n: usize, head: Head, value: &[u8]) -> Result<usize, Fault>
    requires { (size ≤ length room.old) × (check_refusal (take size room.old) ≡ none) × (n ≡ count_in (take size room.old)) }
    ensures { AddsTo (held (take size room.old)) room.old (setting head value.now) result room.new }
{
    if !setting::is_allowed(head) {
        return Err(Fault::NotAllowed);
    }
    if value.len() != setting::measure(head) {
        return Err(Fault::NotAllowed);
    }
    let at = place(&room[..], n, head);
    if is_there(&room[..], n, at, head) {
        return Err(Fault::AlreadyThere);
    }
    if MOST <= n {
        return Err(Fault::Full);
    }
    if room.len() - size < ROW + value.len() {
        return Err(Fault::NoRoom);
    }
    put(room, size, n, at, head, value)
}

// The first record of a module or of one above it; n where there is none. No Option, since the place is
// also where the records before it end, which `cut` is given.
fn first_of(room: &[u8], n: usize, unit: u8) -> usize
    requires { (n ≤ 128) × (12 + 8 * n ≤ length room.now) }
    ensures { result ≡ first_place (not_below (head unit 0 0 0) (heads (take (8 * n) (drop 12 room.now)))) n }
{
    place(
        room,
        n,
        Head {
            unit,
            register: 0,
            kind: 0,
            count: 0,
        },
    )
}

// Where among n records a setting stands, or would stand: a place each time, so no Option.
fn place(room: &[u8], n: usize, head: Head) -> usize
    requires { (n ≤ 128) × (12 + 8 * n ≤ length room.now) }
    ensures { result ≡ first_place (not_below head (heads (take (8 * n) (drop 12 room.now)))) n }
{
    let end = HEADER + ROW * n;
    setting::place_of(&room[HEADER..end], head)
}

// Whether the record there is of the same module and register.
fn is_there(room: &[u8], n: usize, at: usize, head: Head) -> bool
    requires { (n ≤ 128) × (12 + 8 * n ≤ length room.now) }
    ensures { result ≡ (ltb at n && same_key (heads (take (8 * n) (drop 12 room.now)) at) head) }
{
    if n <= at {
        return false;
    }
    let end = HEADER + ROW * n;
    let there = setting::head_at(&room[HEADER..end], at);
    if there.unit != head.unit {
        return false;
    }
    there.register == head.register
}

// How long the values of the first k of n records are, all of them where k is n.
fn start_of(room: &[u8], size: usize, n: usize, k: usize) -> usize
    requires { (n ≤ 128) × (12 + 8 * n ≤ size) × (size ≤ length room.now) }
    ensures { result ≡ cond (ltb k n) (tails (take (8 * n) (drop 12 room.now)) k) (size - (12 + 8 * n)) }
{
    let end = HEADER + ROW * n;
    if k < n {
        return setting::tail_at(&room[HEADER..end], k);
    }
    size - end
}

// Cuts out the records from one place up to another, with their values. The records behind them and
// the values before theirs are one stretch, and the values behind theirs another: both go down. Then
// come the offsets, so that none of the old ones is left past the end.
fn cut(room: &mut [u8], size: usize, n: usize, from: usize, to: usize) -> Result<usize, Fault>
    requires { (size ≤ length room.old) × (check_refusal (take size room.old) ≡ none) × (n ≡ count_in (take size room.old)) × (from ≤ to) × (to ≤ n) }
    ensures { Edits none (cut_out from to (held (take size room.old))) room.old result room.new }
{
    let end = HEADER + ROW * n;
    let first = start_of(&room[..], size, n, from);
    let last = start_of(&room[..], size, n, to);
    let left = n - (to - from);
    lent::move_within(
        room,
        HEADER + ROW * to,
        HEADER + ROW * from,
        ROW * (n - to) + first,
    );
    lent::move_within(
        room,
        end + last,
        HEADER + ROW * left + first,
        size - (end + last),
    );
    sheet_writer::lay_again(left as u8, room);
    Ok(HEADER + ROW * left + first + (size - (end + last)))
}

// Puts a setting in at a place. The values behind its own go up first, then the records behind it with
// the values before its own, which leaves room for its record and for its value.
fn put(
    room: &mut [u8],
    size: usize,
    n: usize,
    at: usize,
    head: Head,
    value: &[u8],
) -> Result<usize, Fault>
    requires { (size ≤ length room.old) × (check_refusal (take size room.old) ≡ none) × (n ≡ count_in (take size room.old)) × (at ≤ n) × (n + 1 ≤ 128) × (size + (8 + length value.now) ≤ length room.old) × (length value.now ≡ length_of head) }
    ensures { Edits none (put_in at (setting head value.now) (held (take size room.old))) room.old result room.new }
{
    let end = HEADER + ROW * n;
    let first = start_of(&room[..], size, n, at);
    let row = HEADER + ROW * at;
    let place = end + first + ROW;
    lent::move_within(room, end + first, place + value.len(), size - (end + first));
    lent::move_within(room, row, row + ROW, end + first - row);
    lent::lay_at(
        &[head.unit, head.register, head.kind, head.count, 0, 0, 0, 0],
        room,
        row,
    );
    lent::lay_at(value, room, place);
    sheet_writer::lay_again((n + 1) as u8, room);
    Ok(size + ROW + value.len())
}
