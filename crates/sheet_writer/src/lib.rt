// Writing a settings sheet. `specs/Writer.antt` says how settings are handed over, and
// `sheet/specs/Sheet.antt` what their sheet is.
#![tactic(auto)]

ghost use Rattle.std.specs.Prelude.{◌≡◌, false, ◌+◌, ◌*◌, ◌/◌, ◌≤◌, length, take, drop};
ghost use Rattle.lent.specs.Lent.{over_at};
ghost use Rattle.setting.specs.Setting.{rows_in, heads};
ghost use Rattle.sheet.specs.Sheet.{header_for, record_for, sheet_of};
ghost use Rattle.sheet_writer.specs.Writer.{Writes, Lays, LaysAgain, handed, is_misstated, laid_from};

use setting::{Fault, Head, MOST, ROW};
use sheet::HEADER;

// Writes the sheet of these settings into the room's first bytes and answers its length. The rest of
// the room stays, and a refusal leaves all of it. A row names each setting and says how long its
// value is; the values stand one after the other.
pub fn write(rows: &[u8], values: &[u8], room: &mut [u8]) -> Result<usize, Fault>
    ensures { Writes rows.now values.now room.old result room.new }
{
    let n = rows.len() / ROW;
    if MOST < n {
        return Err(Fault::TooMany);
    }
    if setting::first_fall(rows) < n {
        return Err(Fault::OutOfOrder);
    }
    if setting::first_unfit(rows) < n {
        return Err(Fault::NotAllowed);
    }
    if is_misstated(rows, values.len()) {
        return Err(Fault::NotAllowed);
    }
    lay(rows, values, room)
}

// Whether the last row is not whole, a value's length is not what its row says, or the values are
// not so long together.
fn is_misstated(rows: &[u8], size: usize) -> bool
    requires { length rows.now / 8 ≤ 128 }
    ensures { result ≡ is_misstated rows.now size }
{
    let n = rows.len() / ROW;
    if rows.len() != ROW * n {
        return true;
    }
    let mut end = 0;
    for k in 0..n {
        let length = setting::measure(setting::head_at(rows, k));
        if setting::tail_at(rows, k) != length {
            return true;
        }
        end += length;
    }
    size != end
}

// Lays the sheet of settings that are allowed, where there is room for it.
fn lay(rows: &[u8], values: &[u8], room: &mut [u8]) -> Result<usize, Fault>
    requires { (length rows.now / 8 ≤ 128) × (is_misstated rows.now (length values.now) ≡ false) }
    ensures { Lays (sheet_of (handed rows.now values.now)) room.old result room.new }
{
    let n = rows.len() / ROW;
    let end = HEADER + ROW * n;
    let size = end + values.len();
    if room.len() < size {
        return Err(Fault::NoRoom);
    }
    lay_header(n, room);
    lay_records(rows, room);
    lent::lay_at(values, room, end);
    Ok(size)
}

// Lays the header of a sheet with n records.
fn lay_header(n: usize, room: &mut [u8])
    requires { n ≤ 255 }
    ensures { room.new ≡ over_at 0 (header_for n) room.old }
{
    let end = HEADER + ROW * n;
    let low = (end % 256) as u8;
    let high = (end / 256) as u8;
    lent::lay_at(&[1, 0, n as u8, 0, 12, 0, 0, 0, low, high, 0, 0], room, 0);
}

// Lays a record for each row, with the lengths of the values before it as its value's offset.
fn lay_records(rows: &[u8], room: &mut [u8])
    requires { length rows.now / 8 ≤ 128 }
    ensures { room.new ≡ over_at 12 (laid_from (heads rows.now) 0 (rows_in rows.now)) room.old }
{
    let n = rows.len() / ROW;
    let mut offset = 0;
    for k in 0..n {
        let head = setting::head_at(rows, k);
        lay_record(head, offset, room, HEADER + ROW * k);
        offset += setting::measure(head);
    }
}

// Lays a record from a place on.
fn lay_record(head: Head, offset: usize, room: &mut [u8], at: usize)
    ensures { room.new ≡ over_at at (record_for head offset) room.old }
{
    let first = (offset % 256) as u8;
    let second = (offset / 256 % 256) as u8;
    let third = (offset / 256 / 256 % 256) as u8;
    let last = (offset / 256 / 256 / 256 % 256) as u8;
    lent::lay_at(
        &[
            head.unit,
            head.register,
            head.kind,
            head.count,
            first,
            second,
            third,
            last,
        ],
        room,
        at,
    );
}

// Lays the header of a sheet with n records, and each record with the offset that its value has, where
// the rows stand already and their values behind them. A room that is too short for them stays.
pub fn lay_again(n: u8, room: &mut [u8])
    ensures { LaysAgain n room.old room.new }
{
    let many = n as usize;
    if room.len() < HEADER + ROW * many {
        return;
    }
    lay_offsets(many, room);
    lay_header(many, room);
}

// Lays each of n records again, with the lengths of the values before it as its value's offset.
fn lay_offsets(n: usize, room: &mut [u8])
    requires { (n ≤ 255) × (12 + 8 * n ≤ length room.old) }
    ensures { room.new ≡ over_at 12 (laid_from (heads (take (8 * n) (drop 12 room.old))) 0 n) room.old }
{
    let end = HEADER + ROW * n;
    let mut offset = 0;
    for k in 0..n {
        let head = setting::head_at(&room[HEADER..end], k);
        lay_record(head, offset, room, HEADER + ROW * k);
        offset += setting::measure(head);
    }
}
