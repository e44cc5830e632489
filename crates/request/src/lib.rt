// A request before it is sent: rows 10 to 14, which need no desk. specs/ says what each call answers.
#![tactic(auto)]

ghost use Rattle.request.specs.Request.{Asks, Numbers, one_to, is_request, is_wrong_data};
ghost use Rattle.std.specs.Prelude.{◌≡◌};

use telegram::{CLEAR_BITS, MOST_DATA, READ, SET_BITS, TOGGLE_BITS, WRITE};

// What a job asks of a module, but for the data: `unit` is the module, `sort` the type of the
// telegram, `wait` how long its reply is waited for, in milliseconds, `folder` where the job files
// what comes, 0 for nowhere.
#[repr(C)]
#[derive(Clone, Copy)]
pub struct Request {
    pub job: u32,
    pub unit: u8,
    pub sort: u8,
    pub register: u8,
    pub wait: u32,
    pub folder: u32,
}

// Why a request may not be sent.
#[derive(Clone, Copy)]
pub enum Fault {
    NoJob,
    NotAModule,
    NotARequest,
    WrongData,
    WrongWait,
}

// The paper's number of a refusal.
pub fn number(fault: Fault) -> u8
    ensures { Numbers fault result }
{
    match fault {
        Fault::NoJob => 10,
        Fault::NotAModule => 11,
        Fault::NotARequest => 12,
        Fault::WrongData => 13,
        Fault::WrongWait => 14,
    }
}

// Rows 10 to 14: what can be said of a request before any address is looked for.
pub fn judge(asked: Request, data: &[u8]) -> Result<(), Fault>
    ensures { Asks asked «data».now result }
{
    if asked.job == 0 {
        return Err(Fault::NoJob);
    }
    if !one_to(160, asked.unit as u32) {
        return Err(Fault::NotAModule);
    }
    if !is_request(asked.sort) {
        return Err(Fault::NotARequest);
    }
    if wrong_data(asked.sort, data.len()) {
        return Err(Fault::WrongData);
    }
    if !one_to(60000, asked.wait) {
        return Err(Fault::WrongWait);
    }
    Ok(())
}

// Whether x is 1 to `most`.
fn one_to(most: u32, x: u32) -> bool
    ensures { result ≡ one_to most x }
{
    1 <= x && x <= most
}

fn is_request(sort: u8) -> bool
    ensures { result ≡ is_request sort }
{
    matches!(sort, READ | WRITE | SET_BITS | CLEAR_BITS | TOGGLE_BITS)
}

fn wrong_data(sort: u8, size: usize) -> bool
    ensures { result ≡ is_wrong_data sort size }
{
    MOST_DATA < size || sort == READ && 0 < size
}
