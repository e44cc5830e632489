// Who is on the line: a scan at the start of a shift, above the desk and on its promises only. It asks
// module by module, 1 to 160, for register 61h, and keeps what became of each of these tickets.
// specs/ says what each call answers.
#![tactic(auto)]

ghost use Rattle.scan.specs.Scan.{Makes, Steps, HearsReply, HearsClosing, Looks, Passes, Stays, answer_of, is_its_own, turn_over, now_out};
ghost use Rattle.std.specs.Prelude.{◌≡◌};

pub use desk::Desk;
use desk::{AfterOpen, Booked, Closed, Opened, Request};
use telegram::{DATAGRAM, READ};

// How many module addresses there are, and so how many turns.
pub const TURNS: u8 = 160;

// What became of a turn: nobody answered; a datagram came; a nack, a check error or a busy came.
const ABSENT: u8 = 0;

const ANSWERED: u8 = 1;

const OBJECTED: u8 = 2;

// What each module is asked for, and how long its answer is waited for, in milliseconds.
const MODULE_TYPE: u8 = 0x61;

const WAIT: u32 = 100;

// A scan so far, for a job. It learns what became of its ticket only by what the desk answers, so every
// booked, cancelled and expired ticket is told to it, whoever made that call.
#[repr(C)]
#[derive(Clone, Copy)]
pub struct Scan {
    pub job: u32,
    // how many turns are over: the module after these is asked next
    pub turns: u8,
    // the host address of the ticket that is out, 0 where none is
    pub out: u8,
    // what became of the turns that are over, module 1's first; 0 for all others
    pub results: [u8; 160],
}

// How far a step came.
#[derive(Clone, Copy)]
pub enum Stage {
    // a ticket was opened: its host address, the module that it asks, the length of its telegram
    Asked(u8, u8, usize),
    // the ticket on that address is still out
    Waiting(u8),
    // all 160 turns are over
    Done,
}

// A step's answer, with the scan and the desk as they are afterwards.
#[derive(Clone, Copy)]
pub struct AfterStep {
    pub scan: Scan,
    pub desk: Desk,
    // where the desk refused, the turn is tried again
    pub answer: Result<Stage, desk::Fault>,
    // how many addresses the desk considered; 0 where it was not asked
    pub count: u8,
}

#[derive(Clone, Copy)]
pub enum Found {
    NotYet,
    Absent,
    // 1 for a datagram, 2 for a nack, a check error or a busy
    Present(u8),
}

// A scan before its first turn.
pub fn make(job: u32) -> Scan
    ensures { Makes job result }
{
    Scan {
        job,
        turns: 0,
        out: 0,
        results: [ABSENT; 160],
    }
}

// Takes the scan on: asks the next module where no ticket is out. A refusal leaves scan, desk and room
// as they were, and is no turn.
pub fn step(scan: Scan, desk: Desk, clock: u32, room: &mut [u8]) -> AfterStep
    ensures { Steps scan desk clock room.old result room.new }
{
    if TURNS <= scan.turns {
        return stays(scan, desk, Ok(Stage::Done));
    }
    if scan.out != 0 {
        return stays(scan, desk, Ok(Stage::Waiting(scan.out)));
    }
    let unit = scan.turns + 1;
    let asked = Request {
        job: scan.job,
        unit,
        sort: READ,
        register: MODULE_TYPE,
        wait: WAIT,
        folder: 0,
    };
    let none = [0u8; 1];
    passed_on(
        scan,
        unit,
        desk::open(desk, asked, &none[0..0], clock, room),
    )
}

// Nothing was asked.
fn stays(scan: Scan, desk: Desk, answer: Result<Stage, desk::Fault>) -> AfterStep
    ensures { Stays scan desk answer result }
{
    AfterStep {
        scan,
        desk,
        answer,
        count: 0,
    }
}

// What the desk answered, asked for that module, and the scan that goes by it.
fn passed_on(scan: Scan, unit: u8, opened: AfterOpen) -> AfterStep
    ensures { Passes scan unit opened result }
{
    let desk = opened.desk;
    let answer = opened.answer;
    match answer {
        Ok(Opened { address, size: n }) => AfterStep {
            scan: now_out(scan, address),
            desk,
            answer: Ok(Stage::Asked(address, unit, n)),
            count: opened.count,
        },
        Err(fault) => AfterStep {
            scan,
            desk,
            answer: Err(fault),
            count: opened.count,
        },
    }
}

fn now_out(scan: Scan, address: u8) -> Scan
    ensures { result ≡ now_out scan address }
{
    let results = scan.results;
    Scan {
        job: scan.job,
        turns: scan.turns,
        out: address,
        results,
    }
}

// Tells the scan what the desk answered to a reply. Its own ticket, if it was that, has its answer.
pub fn told_reply(scan: Scan, answer: Result<Booked, desk::Fault>) -> Scan
    ensures { HearsReply scan answer result }
{
    let Ok(Booked { address, sort, .. }) = answer else {
        return scan;
    };
    if is_its_own(scan, address) {
        return turn_over(scan, answer_of(sort));
    }
    scan
}

// Tells the scan what the desk answered to cancel or expire. Its own ticket, if it was that, had none.
pub fn told_closing(scan: Scan, answer: Result<Closed, desk::Fault>) -> Scan
    ensures { HearsClosing scan answer result }
{
    let Ok(Closed { address, .. }) = answer else {
        return scan;
    };
    if is_its_own(scan, address) {
        return turn_over(scan, ABSENT);
    }
    scan
}

// Whether the ticket on the address is the one that is out.
fn is_its_own(scan: Scan, address: u8) -> bool
    ensures { result ≡ is_its_own scan address }
{
    if scan.out == 0 {
        return false;
    }
    scan.out == address
}

fn answer_of(sort: u8) -> u8
    ensures { result ≡ answer_of sort }
{
    if sort == DATAGRAM { ANSWERED } else { OBJECTED }
}

// The turn is over, with that result; nothing is out any more.
fn turn_over(scan: Scan, res: u8) -> Scan
    ensures { result ≡ turn_over scan res }
{
    if TURNS <= scan.turns {
        return scan;
    }
    let mut results = scan.results;
    let at = scan.turns as usize;
    results[at] = res;
    Scan {
        job: scan.job,
        turns: scan.turns + 1,
        out: 0,
        results,
    }
}

// What the scan found at a module address.
pub fn look(scan: Scan, unit: u8) -> Found
    ensures { Looks scan unit result }
{
    if unit == 0 {
        return Found::NotYet;
    }
    if scan.turns < unit {
        return Found::NotYet;
    }
    if TURNS < unit {
        return Found::NotYet;
    }
    let at = (unit - 1) as usize;
    let result = scan.results[at];
    if result == ABSENT {
        return Found::Absent;
    }
    Found::Present(result)
}
