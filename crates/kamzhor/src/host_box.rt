// A filter box for the C host: the box is numbers, and each call is the box's own, told in numbers.
ghost use Rattle.kamzhor.specs.Filters.{GivesBox, GivesEdge, GivesAttenuation, GivesMonitor, GivesStatus, GivesBoxReply, GivesBoxClose, GivesMoving, GivesWhich};
ghost use Rattle.kamzhor.specs.Filters.{edge_meant, out_meant, box_meant, edge_told, pass_told, out_told, box_told, ask_given, ask_told};
ghost use Rattle.varia.specs.declared.Pass.TheVariants.{Short, Long};
ghost use Rattle.std.specs.Prelude.{◌≡◌};

use crate::host_desk::{CloseAnswer, OpenAnswer, ReplyAnswer};
use desk::Desk;
use varia::FilterBox;

// An edge, in tenths of a nanometre; `known` is 1 where it is known, and else both are 0.
#[repr(C)]
#[derive(Clone, Copy)]
pub struct HostEdge {
    pub known: u16,
    pub tenths: u16,
}

// Which edge a request is out for, 1 the short-pass one, 2 the long-pass one; its ticket's host
// address, and the value that it asks for. All are 0 where none is out.
#[repr(C)]
#[derive(Clone, Copy)]
pub struct HostOut {
    pub edge: u8,
    pub address: u8,
    pub tenths: u16,
}

#[repr(C)]
#[derive(Clone, Copy)]
pub struct HostBox {
    pub job: u32,
    pub unit: u8,
    pub short: HostEdge,
    pub long: HostEdge,
    pub out: HostOut,
}

#[repr(C)]
#[derive(Clone, Copy)]
pub struct AfterBoxAsk {
    pub filters: HostBox,
    pub desk: Desk,
    pub answer: OpenAnswer,
}

// The box of a job at a module, both edges unknown.
#[unsafe(no_mangle)]
pub extern "C" fn kamzhor_box_fresh(job: u32, unit: u8) -> HostBox
    ensures { GivesBox job unit result }
{
    of_box(varia::make(job, unit))
}

// Asks to set the short-pass edge.
#[unsafe(no_mangle)]
pub extern "C" fn kamzhor_after_box_set_short(
    filters: HostBox,
    desk: Desk,
    tenths: u16,
    wait: u32,
    clock: u32,
    room: &mut [u8],
) -> AfterBoxAsk
    ensures { GivesEdge Short filters desk tenths wait clock room.old result room.new }
{
    of_ask(varia::set_short(meant_box(filters), desk, tenths, wait, clock, room))
}

// Asks to set the long-pass edge.
#[unsafe(no_mangle)]
pub extern "C" fn kamzhor_after_box_set_long(
    filters: HostBox,
    desk: Desk,
    tenths: u16,
    wait: u32,
    clock: u32,
    room: &mut [u8],
) -> AfterBoxAsk
    ensures { GivesEdge Long filters desk tenths wait clock room.old result room.new }
{
    of_ask(varia::set_long(meant_box(filters), desk, tenths, wait, clock, room))
}

// Asks to set the attenuation.
#[unsafe(no_mangle)]
pub extern "C" fn kamzhor_after_box_attenuate(
    filters: HostBox,
    desk: Desk,
    permille: u16,
    wait: u32,
    clock: u32,
    room: &mut [u8],
) -> AfterBoxAsk
    ensures { GivesAttenuation filters desk permille wait clock room.old result room.new }
{
    of_ask(varia::attenuate(meant_box(filters), desk, permille, wait, clock, room))
}

// Asks for the monitor's reading.
#[unsafe(no_mangle)]
pub extern "C" fn kamzhor_after_box_read_monitor(
    filters: HostBox,
    desk: Desk,
    wait: u32,
    clock: u32,
    room: &mut [u8],
) -> AfterBoxAsk
    ensures { GivesMonitor filters desk wait clock room.old result room.new }
{
    of_ask(varia::read_monitor(meant_box(filters), desk, wait, clock, room))
}

// Asks for the status.
#[unsafe(no_mangle)]
pub extern "C" fn kamzhor_after_box_read_status(
    filters: HostBox,
    desk: Desk,
    wait: u32,
    clock: u32,
    room: &mut [u8],
) -> AfterBoxAsk
    ensures { GivesStatus filters desk wait clock room.old result room.new }
{
    of_ask(varia::read_status(meant_box(filters), desk, wait, clock, room))
}

// Every booked reply is told to the box; a refused one leaves it.
#[unsafe(no_mangle)]
pub extern "C" fn kamzhor_after_box_reply(filters: HostBox, answer: ReplyAnswer) -> HostBox
    ensures { GivesBoxReply filters answer result }
{
    of_box(varia::told_reply(meant_box(filters), crate::host_desk::meant_booking(answer)))
}

// So is every cancel and expiry.
#[unsafe(no_mangle)]
pub extern "C" fn kamzhor_after_box_close(filters: HostBox, answer: CloseAnswer) -> HostBox
    ensures { GivesBoxClose filters answer result }
{
    of_box(varia::told_closing(meant_box(filters), crate::host_desk::meant_closing(answer)))
}

// Whether a filter is moving, by what was read of the status: 1 or 0.
#[unsafe(no_mangle)]
pub extern "C" fn kamzhor_box_moving(status: u16) -> u32
    ensures { GivesMoving status result }
{
    crate::host_values::yes(varia::moving(status)) as u32
}

// Which string has the two bytes to be displayed: 1 the fresh one, 2 the kept one, or 64.
#[unsafe(no_mangle)]
pub extern "C" fn kamzhor_which_to_display<'a>(fresh: &'a [u8], kept: &'a [u8]) -> u32
    ensures { GivesWhich fresh.now kept.now result }
{
    let mut which: u32 = 0;
    let _ = varia::display(fresh, kept, &mut which);
    which
}

fn meant_box(filters: HostBox) -> FilterBox
    ensures { result ≡ box_meant filters }
{
    let short = filters.short;
    let long = filters.long;
    let out = filters.out;
    FilterBox {
        job: filters.job,
        unit: filters.unit,
        short: meant_edge(short),
        long: meant_edge(long),
        out: meant_out(out),
    }
}

fn meant_edge(edge: HostEdge) -> Option<u16>
    ensures { result ≡ edge_meant edge }
{
    if edge.known == 0 {
        return None;
    }
    Some(edge.tenths)
}

fn meant_out(out: HostOut) -> Option<varia::Sent>
    ensures { result ≡ out_meant out }
{
    if out.edge == 1 {
        return Some(varia::Sent {
            address: out.address,
            pass: varia::Pass::Short,
            tenths: out.tenths,
        });
    }
    if out.edge == 2 {
        return Some(varia::Sent {
            address: out.address,
            pass: varia::Pass::Long,
            tenths: out.tenths,
        });
    }
    None
}

fn of_ask(after: varia::AfterAsk) -> AfterBoxAsk
    ensures { result ≡ ask_told after }
{
    AfterBoxAsk {
        filters: of_box(after.filters),
        desk: after.desk,
        answer: of_asking(after.answer, after.count),
    }
}

fn of_asking(answer: Result<desk::Opened, varia::Fault>, considered: u8) -> OpenAnswer
    ensures { result ≡ ask_given answer considered }
{
    match answer {
        Err(fault) => OpenAnswer {
            refusal: varia::number(fault) as u32,
            address: 0,
            considered,
            size: 0,
        },
        Ok(opened) => OpenAnswer {
            refusal: 0,
            address: opened.address,
            considered,
            size: opened.size as u64,
        },
    }
}

fn of_box(filters: FilterBox) -> HostBox
    ensures { result ≡ box_told filters }
{
    let short = filters.short;
    let long = filters.long;
    let out = filters.out;
    HostBox {
        job: filters.job,
        unit: filters.unit,
        short: of_edge(short),
        long: of_edge(long),
        out: of_out(out),
    }
}

fn of_edge(edge: Option<u16>) -> HostEdge
    ensures { result ≡ edge_told edge }
{
    match edge {
        None => HostEdge {
            known: 0,
            tenths: 0,
        },
        Some(tenths) => HostEdge { known: 1, tenths },
    }
}

fn of_out(out: Option<varia::Sent>) -> HostOut
    ensures { result ≡ out_told out }
{
    match out {
        None => HostOut {
            edge: 0,
            address: 0,
            tenths: 0,
        },
        Some(
            varia::Sent {
                address,
                pass,
                tenths,
            },
        ) => HostOut {
            edge: of_pass(pass),
            address,
            tenths,
        },
    }
}

fn of_pass(pass: varia::Pass) -> u8
    ensures { result ≡ pass_told pass }
{
    match pass {
        varia::Pass::Short => 1,
        varia::Pass::Long => 2,
    }
}
