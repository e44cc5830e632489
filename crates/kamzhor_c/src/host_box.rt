// The exports of the filter box.
ghost use Rattle.kamzhor.specs.Filters.{GivesBox, GivesEdge, GivesAttenuation, GivesMonitor, GivesStatus, GivesBoxReply, GivesBoxClose, GivesMoving, GivesWhich};
ghost use Rattle.varia.specs.declared.Pass.TheVariants.{Short, Long};

use desk::Desk;
use kamzhor::host_box::{AfterBoxAsk, HostBox};
use kamzhor::host_desk::{CloseAnswer, ReplyAnswer};

// The box of a job at a module, both edges unknown.
#[unsafe(no_mangle)]
pub extern "C" fn kamzhor_box_fresh(job: u32, unit: u8) -> HostBox
    ensures { GivesBox job unit result }
{
    kamzhor::host_box::kamzhor_box_fresh(job, unit)
}

// Asks to set the short-pass edge.
#[unsafe(no_mangle)]
pub extern "C" fn kamzhor_after_box_set_short(
    filters: HostBox,
    desk: Desk,
    tenths: u16,
    wait: u32,
    clock: u32,
    room: &mut [u8],
) -> AfterBoxAsk
    ensures { GivesEdge Short filters desk tenths wait clock room.old result room.new }
{
    kamzhor::host_box::kamzhor_after_box_set_short(filters, desk, tenths, wait, clock, room)
}

// Asks to set the long-pass edge.
#[unsafe(no_mangle)]
pub extern "C" fn kamzhor_after_box_set_long(
    filters: HostBox,
    desk: Desk,
    tenths: u16,
    wait: u32,
    clock: u32,
    room: &mut [u8],
) -> AfterBoxAsk
    ensures { GivesEdge Long filters desk tenths wait clock room.old result room.new }
{
    kamzhor::host_box::kamzhor_after_box_set_long(filters, desk, tenths, wait, clock, room)
}

// Asks to set the attenuation.
#[unsafe(no_mangle)]
pub extern "C" fn kamzhor_after_box_attenuate(
    filters: HostBox,
    desk: Desk,
    permille: u16,
    wait: u32,
    clock: u32,
    room: &mut [u8],
) -> AfterBoxAsk
    ensures { GivesAttenuation filters desk permille wait clock room.old result room.new }
{
    kamzhor::host_box::kamzhor_after_box_attenuate(filters, desk, permille, wait, clock, room)
}

// Asks for the monitor's reading.
#[unsafe(no_mangle)]
pub extern "C" fn kamzhor_after_box_read_monitor(
    filters: HostBox,
    desk: Desk,
    wait: u32,
    clock: u32,
    room: &mut [u8],
) -> AfterBoxAsk
    ensures { GivesMonitor filters desk wait clock room.old result room.new }
{
    kamzhor::host_box::kamzhor_after_box_read_monitor(filters, desk, wait, clock, room)
}

// Asks for the status.
#[unsafe(no_mangle)]
pub extern "C" fn kamzhor_after_box_read_status(
    filters: HostBox,
    desk: Desk,
    wait: u32,
    clock: u32,
    room: &mut [u8],
) -> AfterBoxAsk
    ensures { GivesStatus filters desk wait clock room.old result room.new }
{
    kamzhor::host_box::kamzhor_after_box_read_status(filters, desk, wait, clock, room)
}

// Every booked reply is told to the box; a refused one leaves it.
#[unsafe(no_mangle)]
pub extern "C" fn kamzhor_after_box_reply(filters: HostBox, answer: ReplyAnswer) -> HostBox
    ensures { GivesBoxReply filters answer result }
{
    kamzhor::host_box::kamzhor_after_box_reply(filters, answer)
}

// So is every cancel and expiry.
#[unsafe(no_mangle)]
pub extern "C" fn kamzhor_after_box_close(filters: HostBox, answer: CloseAnswer) -> HostBox
    ensures { GivesBoxClose filters answer result }
{
    kamzhor::host_box::kamzhor_after_box_close(filters, answer)
}

// Whether a filter is moving, by what was read of the status: 1 or 0.
#[unsafe(no_mangle)]
pub extern "C" fn kamzhor_box_moving(status: u16) -> u32
    ensures { GivesMoving status result }
{
    kamzhor::host_box::kamzhor_box_moving(status)
}

// Which string has the two bytes to be displayed: 1 the fresh one, 2 the kept one, or 64.
#[unsafe(no_mangle)]
pub extern "C" fn kamzhor_which_to_display<'a>(fresh: &'a [u8], kept: &'a [u8]) -> u32
    ensures { GivesWhich fresh.now kept.now result }
{
    kamzhor::host_box::kamzhor_which_to_display(fresh, kept)
}
