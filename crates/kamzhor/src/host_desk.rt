// The desk for the C host: each call is the desk's own, told in numbers.
ghost use Rattle.kamzhor.specs.Desk.{GivesDesk, GivesOpen, GivesReply, GivesCancel, GivesExpire, GivesSweep, GivesSeen};
ghost use Rattle.kamzhor.specs.Desk.{open_given, open_told, reply_given, reply_told, close_given, close_told, sweep_told, not_open, seen_given, booking_meant, closing_meant};
ghost use Rattle.std.specs.Prelude.{◌≡◌};

use desk::Desk;
use request::Request;

// An opening. `refusal` is the paper's number, or 0; `address` the host address that was given,
// `considered` how many addresses were, and `size` how long the request telegram is.
#[repr(C)]
#[derive(Clone, Copy)]
pub struct OpenAnswer {
    pub refusal: u32,
    pub address: u8,
    pub considered: u8,
    pub size: u64,
}

// A reply: whose ticket it was, its folder and host address, what came, and with refusal 3 the place
// in the frame of the first faulty 94.
#[repr(C)]
#[derive(Clone, Copy)]
pub struct ReplyAnswer {
    pub refusal: u32,
    pub job: u32,
    pub folder: u32,
    pub address: u8,
    pub sort: u8,
    pub size: u64,
    pub place: u64,
}

// A cancel or an expiry: whose ticket was closed, its folder and host address.
#[repr(C)]
#[derive(Clone, Copy)]
pub struct CloseAnswer {
    pub refusal: u32,
    pub job: u32,
    pub folder: u32,
    pub address: u8,
}

// What stands on a host address: `state` is 1 for an open ticket, 2 where the last one was cancelled
// or expired, 0 for neither. What is not said is 0.
#[repr(C)]
#[derive(Clone, Copy)]
pub struct SeenAnswer {
    pub state: u32,
    pub asked: Request,
    pub opened: u32,
    pub closed: u32,
}

#[repr(C)]
#[derive(Clone, Copy)]
pub struct AfterDeskOpen {
    pub desk: Desk,
    pub answer: OpenAnswer,
}

#[repr(C)]
#[derive(Clone, Copy)]
pub struct AfterDeskReply {
    pub desk: Desk,
    pub answer: ReplyAnswer,
}

#[repr(C)]
#[derive(Clone, Copy)]
pub struct AfterDeskClose {
    pub desk: Desk,
    pub answer: CloseAnswer,
}

#[repr(C)]
#[derive(Clone, Copy)]
pub struct AfterDeskSweep {
    pub desk: Desk,
    pub count: u64,
}

// A desk without a ticket.
#[unsafe(no_mangle)]
pub extern "C" fn kamzhor_desk_fresh() -> Desk
    ensures { GivesDesk result }
{
    desk::fresh()
}

// Opens a ticket, and writes the request telegram from its host address into the room.
#[unsafe(no_mangle)]
pub extern "C" fn kamzhor_after_desk_open(
    desk: Desk,
    asked: Request,
    data: &[u8],
    clock: u32,
    room: &mut [u8],
) -> AfterDeskOpen
    ensures { GivesOpen desk asked «data».now clock room.old result room.new }
{
    of_open(desk::open(desk, asked, data, clock, room))
}

// Books a frame on the ticket of its destination, and puts its data into the room.
#[unsafe(no_mangle)]
pub extern "C" fn kamzhor_after_desk_reply(
    desk: Desk,
    frame: &[u8],
    room: &mut [u8],
) -> AfterDeskReply
    ensures { GivesReply desk frame.now room.old result room.new }
{
    of_reply(desk::reply(desk, frame, room))
}

// Closes that job's ticket on the address.
#[unsafe(no_mangle)]
pub extern "C" fn kamzhor_after_desk_cancel(
    desk: Desk,
    job: u32,
    address: u8,
    clock: u32,
) -> AfterDeskClose
    ensures { GivesCancel desk job address clock result }
{
    of_close(desk::cancel(desk, job, address, clock))
}

// Closes the due ticket with the lowest address.
#[unsafe(no_mangle)]
pub extern "C" fn kamzhor_after_desk_expire(desk: Desk, clock: u32) -> AfterDeskClose
    ensures { GivesExpire desk clock result }
{
    of_close(desk::expire(desk, clock))
}

// Closes the due ticket with the lowest address.
// Closes every due ticket, as long as the list has room: three numbers each, job, address and folder.
#[unsafe(no_mangle)]
pub extern "C" fn kamzhor_after_desk_expire_all(
    desk: Desk,
    clock: u32,
    list: &mut [u32],
) -> AfterDeskSweep
    ensures { GivesSweep desk clock list.old result list.new }
{
    of_sweep(overdue::expire_all(desk, clock, list))
}

// What stands on an address.
#[unsafe(no_mangle)]
pub extern "C" fn kamzhor_look_at_desk(desk: Desk, address: u8) -> SeenAnswer
    ensures { GivesSeen desk address result }
{
    of_seen(desk::look(desk, address))
}

fn of_open(after: desk::AfterOpen) -> AfterDeskOpen
    ensures { result ≡ open_told after }
{
    let desk = after.desk;
    let answer = after.answer;
    AfterDeskOpen {
        desk,
        answer: of_opening(answer, after.count),
    }
}

pub(crate) fn of_opening(answer: Result<desk::Opened, desk::Fault>, considered: u8) -> OpenAnswer
    ensures { result ≡ open_given answer considered }
{
    match answer {
        Err(fault) => OpenAnswer {
            refusal: desk::number(fault) as u32,
            address: 0,
            considered,
            size: 0,
        },
        Ok(opened) => OpenAnswer {
            refusal: 0,
            address: opened.address,
            considered,
            size: opened.size as u64,
        },
    }
}

fn of_reply(after: desk::AfterReply) -> AfterDeskReply
    ensures { result ≡ reply_told after }
{
    let desk = after.desk;
    let answer = after.answer;
    AfterDeskReply {
        desk,
        answer: of_booking(answer),
    }
}

fn of_booking(answer: Result<desk::Booked, desk::Fault>) -> ReplyAnswer
    ensures { result ≡ reply_given answer }
{
    match answer {
        Err(fault) => ReplyAnswer {
            refusal: desk::number(fault) as u32,
            job: 0,
            folder: 0,
            address: 0,
            sort: 0,
            size: 0,
            place: desk::place(fault) as u64,
        },
        Ok(booked) => ReplyAnswer {
            refusal: 0,
            job: booked.job,
            folder: booked.folder,
            address: booked.address,
            sort: booked.sort,
            size: booked.size as u64,
            place: 0,
        },
    }
}

fn of_close(after: desk::AfterClose) -> AfterDeskClose
    ensures { result ≡ close_told after }
{
    let desk = after.desk;
    let answer = after.answer;
    AfterDeskClose {
        desk,
        answer: of_closing(answer),
    }
}

fn of_closing(answer: Result<desk::Closed, desk::Fault>) -> CloseAnswer
    ensures { result ≡ close_given answer }
{
    match answer {
        Err(fault) => CloseAnswer {
            refusal: desk::number(fault) as u32,
            job: 0,
            folder: 0,
            address: 0,
        },
        Ok(closed) => CloseAnswer {
            refusal: 0,
            job: closed.job,
            folder: closed.folder,
            address: closed.address,
        },
    }
}

fn of_sweep(after: overdue::Swept) -> AfterDeskSweep
    ensures { result ≡ sweep_told after }
{
    let desk = after.desk;
    AfterDeskSweep {
        desk,
        count: after.count as u64,
    }
}

fn of_seen(seen: desk::Seen) -> SeenAnswer
    ensures { result ≡ seen_given seen }
{
    match seen {
        desk::Seen::Nothing => not_open(0, 0),
        desk::Seen::Withdrawn(clock) => not_open(2, clock),
        desk::Seen::Open(ticket) => {
            let asked = ticket.asked;
            SeenAnswer {
                state: 1,
                asked,
                opened: ticket.opened,
                closed: 0,
            }
        }
    }
}

fn not_open(state: u32, closed: u32) -> SeenAnswer
    ensures { result ≡ not_open state closed }
{
    SeenAnswer {
        state,
        asked: Request {
            job: 0,
            unit: 0,
            sort: 0,
            register: 0,
            wait: 0,
            folder: 0,
        },
        opened: 0,
        closed,
    }
}

// What the desk answered to a reply, from its numbers. Which refusal it was, nobody asks.
pub(crate) fn meant_booking(reply: ReplyAnswer) -> Result<desk::Booked, desk::Fault>
    ensures { result ≡ booking_meant reply }
{
    if reply.refusal == 0 {
        return Ok(desk::Booked {
            job: reply.job,
            address: reply.address,
            sort: reply.sort,
            size: reply.size as usize,
            folder: reply.folder,
        });
    }
    Err(desk::Fault::NothingDue)
}

// What it answered to a cancel or an expiry.
pub(crate) fn meant_closing(closing: CloseAnswer) -> Result<desk::Closed, desk::Fault>
    ensures { result ≡ closing_meant closing }
{
    if closing.refusal == 0 {
        return Ok(desk::Closed {
            job: closing.job,
            address: closing.address,
            folder: closing.folder,
        });
    }
    Err(desk::Fault::NothingDue)
}
