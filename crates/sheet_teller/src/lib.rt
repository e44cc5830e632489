// A settings sheet told as text: a line for each setting, or a call for each of its write requests.
// docs/SHEETS.md says what the text is, and `specs/Teller.antt` the same in definitions.
#![tactic(auto)]

mod pieces;

ghost use Rattle.std.specs.Prelude.{◌≡◌, length};
ghost use Rattle.std.proofs.Math.Option.{none};
ghost use Rattle.lent.specs.Lent.{over};
ghost use Rattle.sheet.specs.Sheet.{check_refusal, count_in, held};
ghost use Rattle.sheet_teller.specs.Teller.{Shows, Asks, Numbers, pieces_of};

use setting::ROW;
use sheet::HEADER;

// Who asks for the registers of a sheet to be set, how long each reply is waited for, and at what
// clock reading.
#[derive(Clone, Copy)]
pub struct Order {
    pub job: u32,
    pub wait: u32,
    pub clock: u32,
}

// What a setting is told as.
#[derive(Clone, Copy)]
enum Form {
    Lines,
    Calls(Order),
}

// Why a sheet is not told.
#[derive(Clone, Copy)]
pub enum Fault {
    // the sheet isn't right
    WrongSheet(setting::Fault),
    // the job is 0
    NoJob,
    // the waiting time is not 1 to 60000 ms
    WrongWait,
}

// The paper's number of a refusal.
pub fn number(fault: Fault) -> u8
    ensures { Numbers fault result }
{
    match fault {
        Fault::WrongSheet(wrong) => setting::number(wrong),
        Fault::NoJob => 10,
        Fault::WrongWait => 14,
    }
}

// Lays the text of a sheet over the room's first bytes, as much of it as there is room for, and
// answers how long it is. The rest of the room stays, and a refusal leaves all of it.
pub fn show(sheet: &[u8], room: &mut [u8]) -> Result<usize, Fault>
    ensures { Shows sheet.now room.old result room.new }
{
    let n = sheet::check(sheet).map_err(Fault::WrongSheet)?;
    Ok(lay_all(sheet, n, Form::Lines, room))
}

// The same with the calls that set the registers of a sheet, each a request of a job.
pub fn requests(sheet: &[u8], order: Order, room: &mut [u8]) -> Result<usize, Fault>
    ensures { Asks sheet.now order room.old result room.new }
{
    let n = sheet::check(sheet).map_err(Fault::WrongSheet)?;
    if order.job == 0 {
        return Err(Fault::NoJob);
    }
    if order.wait < 1 {
        return Err(Fault::WrongWait);
    }
    if 60000 < order.wait {
        return Err(Fault::WrongWait);
    }
    Ok(lay_all(sheet, n, Form::Calls(order), room))
}

// The text of a right sheet with n records.
fn lay_all(sheet: &[u8], n: usize, form: Form, room: &mut [u8]) -> usize
    requires { (check_refusal sheet.now ≡ none) × (n ≡ count_in sheet.now) }
    ensures { (result ≡ length (pieces_of form (held sheet.now))) × (room.new ≡ over (pieces_of form (held sheet.now)) room.old) }
{
    let end = HEADER + ROW * n;
    let rows = &sheet[HEADER..end];
    let mut from = end;
    let mut to = 0;
    for k in 0..n {
        let head = setting::head_at(rows, k);
        let next = from + setting::measure(head);
        to = pieces::piece_at(form, head, &sheet[from..next], room, to);
        from = next;
    }
    to
}
