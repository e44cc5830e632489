// What stands on a host address: a ticket that waits for its reply, or what is kept of one that was
// cancelled or expired, or nothing. Which reply fits it, rows 61 and 17 to 20, when it is due, when
// the address may be given out, and whom it keeps off its folder. specs/ says what each call answers.
#![tactic(auto)]

ghost use Rattle.ticket.specs.Due.{TellsDue};
ghost use Rattle.ticket.specs.Folder.{TellsBarred};
ghost use Rattle.ticket.specs.Fit.{Judges, Numbers, kind_fits, register_fits, wanted_for};
ghost use Rattle.ticket.specs.Rest.{TellsResting};
ghost use Rattle.std.specs.Prelude.{◌≡◌};

use request::Request;
use telegram::{ACK, BUSY, DATAGRAM, READ};

// A ticket is live while it is open. Of one that was cancelled or expired is kept that it was, and
// when, until the address is given out again; all else is zero.
#[repr(C)]
#[derive(Clone, Copy)]
pub struct Ticket {
    pub live: bool,
    pub asked: Request,
    // the clock when it was opened
    pub opened: u32,
    pub withdrawn: bool,
    // the clock when it was cancelled or expired
    pub closed: u32,
}

pub const NO_TICKET: Ticket = Ticket {
    live: false,
    asked: Request {
        job: 0,
        unit: 0,
        sort: 0,
        register: 0,
        wait: 0,
        folder: 0,
    },
    opened: 0,
    withdrawn: false,
    closed: 0,
};

// For how many milliseconds an address rests.
const REST: u32 = 1000;

// Why a reply does not fit.
#[derive(Clone, Copy)]
pub enum Fault {
    // the last ticket there was cancelled or expired
    Withdrawn,
    NoTicket,
    OtherModule,
    OtherKind,
    OtherRegister,
}

// The paper's number of a refusal.
pub fn number(fault: Fault) -> u8
    ensures { Numbers fault result }
{
    match fault {
        Fault::Withdrawn => 61,
        Fault::NoTicket => 17,
        Fault::OtherModule => 18,
        Fault::OtherKind => 19,
        Fault::OtherRegister => 20,
    }
}

// Whether the address rests after a cancel or an expiry.
pub fn is_resting(ticket: Ticket, clock: u32) -> bool
    ensures { TellsResting ticket clock result }
{
    let age = std::num::wrapping_sub_u32(clock, ticket.closed);
    ticket.withdrawn && age < REST
}

// Rows 61 and 17 to 20, of what a telegram says and what stands on its destination.
pub fn judge(ticket: Ticket, t: telegram::Fields) -> Result<(), Fault>
    ensures { Judges ticket t result }
{
    let asked = ticket.asked;
    let source = t.source;
    let unit = asked.unit;
    let kind = kind_fits(asked.sort, t.sort);
    let register = register_fits(asked.register, t.sort, t.register);
    if !ticket.live {
        if ticket.withdrawn {
            return Err(Fault::Withdrawn);
        }
        return Err(Fault::NoTicket);
    }
    if source != unit {
        return Err(Fault::OtherModule);
    }
    if !kind {
        return Err(Fault::OtherKind);
    }
    if !register {
        return Err(Fault::OtherRegister);
    }
    Ok(())
}

// A nack, a check error and a busy answer every request; a read has a datagram, a write an ack.
fn kind_fits(asked: u8, answered: u8) -> bool
    ensures { result ≡ kind_fits asked answered }
{
    answered <= BUSY || answered == wanted(asked)
}

// What a request is answered by where nothing is amiss.
fn wanted(asked: u8) -> u8
    ensures { result ≡ wanted_for asked }
{
    if asked == READ { DATAGRAM } else { ACK }
}

// A reply carries the register that was asked; one that is no datagram may carry 0.
fn register_fits(asked: u8, answered: u8, register: u8) -> bool
    ensures { result ≡ register_fits asked answered register }
{
    register == asked || answered <= ACK && register == 0
}

// Whether the ticket has waited its time.
pub fn is_due(ticket: Ticket, clock: u32) -> bool
    ensures { TellsDue ticket clock result }
{
    let asked = ticket.asked;
    let age = std::num::wrapping_sub_u32(clock, ticket.opened);
    ticket.live && asked.wait <= age
}

// Whether the ticket keeps a job off a folder: it is open for another job and holds that folder.
pub fn bars(ticket: Ticket, job: u32, folder: u32) -> bool
    ensures { TellsBarred ticket job folder result }
{
    let asked = ticket.asked;
    ticket.live && asked.folder == folder && asked.job != job
}
