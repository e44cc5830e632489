// The exports of the desk.
ghost use Rattle.kamzhor.specs.Desk.{GivesDesk, GivesOpen, GivesReply, GivesCancel, GivesExpire, GivesSweep, GivesSeen};

use desk::Desk;
use kamzhor::host_desk::{
    AfterDeskClose, AfterDeskOpen, AfterDeskReply, AfterDeskSweep, SeenAnswer,
};
use request::Request;

// A desk without a ticket.
#[unsafe(no_mangle)]
pub extern "C" fn kamzhor_desk_fresh() -> Desk
    ensures { GivesDesk result }
{
    kamzhor::host_desk::kamzhor_desk_fresh()
}

// Opens a ticket, and writes the request telegram from its host address into the room.
#[unsafe(no_mangle)]
pub extern "C" fn kamzhor_after_desk_open(
    desk: Desk,
    asked: Request,
    data: &[u8],
    clock: u32,
    room: &mut [u8],
) -> AfterDeskOpen
    ensures { GivesOpen desk asked «data».now clock room.old result room.new }
{
    kamzhor::host_desk::kamzhor_after_desk_open(desk, asked, data, clock, room)
}

// Books a frame on the ticket of its destination, and puts its data into the room.
#[unsafe(no_mangle)]
pub extern "C" fn kamzhor_after_desk_reply(
    desk: Desk,
    frame: &[u8],
    room: &mut [u8],
) -> AfterDeskReply
    ensures { GivesReply desk frame.now room.old result room.new }
{
    kamzhor::host_desk::kamzhor_after_desk_reply(desk, frame, room)
}

// Closes that job's ticket on the address.
#[unsafe(no_mangle)]
pub extern "C" fn kamzhor_after_desk_cancel(
    desk: Desk,
    job: u32,
    address: u8,
    clock: u32,
) -> AfterDeskClose
    ensures { GivesCancel desk job address clock result }
{
    kamzhor::host_desk::kamzhor_after_desk_cancel(desk, job, address, clock)
}

// Closes the due ticket with the lowest address.
#[unsafe(no_mangle)]
pub extern "C" fn kamzhor_after_desk_expire(desk: Desk, clock: u32) -> AfterDeskClose
    ensures { GivesExpire desk clock result }
{
    kamzhor::host_desk::kamzhor_after_desk_expire(desk, clock)
}

// Closes every due ticket, as long as the list has room: three numbers each, job, address and folder.
#[unsafe(no_mangle)]
pub extern "C" fn kamzhor_after_desk_expire_all(
    desk: Desk,
    clock: u32,
    list: &mut [u32],
) -> AfterDeskSweep
    ensures { GivesSweep desk clock list.old result list.new }
{
    kamzhor::host_desk::kamzhor_after_desk_expire_all(desk, clock, list)
}

// What stands on an address.
#[unsafe(no_mangle)]
pub extern "C" fn kamzhor_look_at_desk(desk: Desk, address: u8) -> SeenAnswer
    ensures { GivesSeen desk address result }
{
    kamzhor::host_desk::kamzhor_look_at_desk(desk, address)
}
