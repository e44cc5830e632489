// A scan of the line for the C host: each call is the scan's own, told in numbers.
ghost use Rattle.kamzhor.specs.Scan.{GivesScan, GivesScanStep, GivesScanReply, GivesScanClose, GivesFound};
ghost use Rattle.kamzhor.specs.Scan.{scan_given, scan_told, found_given};
ghost use Rattle.std.specs.Prelude.{◌≡◌};

use crate::host_desk::{CloseAnswer, ReplyAnswer};
use desk::Desk;
use scan::Scan;

// A step. `state` is 1 where a module was asked: `unit`, from the host address `address`, by a
// telegram of `size` bytes; 2 where the ticket on `address` is still out; 3 where all turns are over;
// 0 where the desk refused.
#[repr(C)]
#[derive(Clone, Copy)]
pub struct ScanAnswer {
    pub refusal: u32,
    pub state: u8,
    pub address: u8,
    pub unit: u8,
    pub considered: u8,
    pub size: u64,
}

#[repr(C)]
#[derive(Clone, Copy)]
pub struct AfterScanStep {
    pub scan: Scan,
    pub desk: Desk,
    pub answer: ScanAnswer,
}

// A scan before its first turn.
#[unsafe(no_mangle)]
pub extern "C" fn kamzhor_scan_fresh(job: u32) -> Scan
    ensures { GivesScan job result }
{
    scan::make(job)
}

// Asks the next module, if the last one's turn is over.
#[unsafe(no_mangle)]
pub extern "C" fn kamzhor_after_scan_step(
    scan: Scan,
    desk: Desk,
    clock: u32,
    room: &mut [u8],
) -> AfterScanStep
    ensures { GivesScanStep scan desk clock room.old result room.new }
{
    of_step(scan::step(scan, desk, clock, room))
}

// Every booked reply is told to the scan; a refused one leaves it.
#[unsafe(no_mangle)]
pub extern "C" fn kamzhor_after_scan_reply(scan: Scan, answer: ReplyAnswer) -> Scan
    ensures { GivesScanReply scan answer result }
{
    scan::told_reply(scan, crate::host_desk::meant_booking(answer))
}

// So is every cancel and expiry.
#[unsafe(no_mangle)]
pub extern "C" fn kamzhor_after_scan_close(scan: Scan, answer: CloseAnswer) -> Scan
    ensures { GivesScanClose scan answer result }
{
    scan::told_closing(scan, crate::host_desk::meant_closing(answer))
}

// What was found at a module: 0 absent, 1 a datagram, 2 another answer, 3 not yet.
#[unsafe(no_mangle)]
pub extern "C" fn kamzhor_look_at_scan(scan: Scan, unit: u8) -> u32
    ensures { GivesFound scan unit result }
{
    of_found(scan::look(scan, unit))
}

fn of_step(after: scan::AfterStep) -> AfterScanStep
    ensures { result ≡ scan_told after }
{
    let scan = after.scan;
    let desk = after.desk;
    let answer = after.answer;
    AfterScanStep {
        scan,
        desk,
        answer: of_stepping(answer, after.count),
    }
}

fn of_stepping(answer: Result<scan::Stage, desk::Fault>, considered: u8) -> ScanAnswer
    ensures { result ≡ scan_given answer considered }
{
    match answer {
        Err(fault) => ScanAnswer {
            refusal: desk::number(fault) as u32,
            state: 0,
            address: 0,
            unit: 0,
            considered,
            size: 0,
        },
        Ok(scan::Stage::Asked(address, unit, size)) => ScanAnswer {
            refusal: 0,
            state: 1,
            address,
            unit,
            considered,
            size: size as u64,
        },
        Ok(scan::Stage::Waiting(address)) => ScanAnswer {
            refusal: 0,
            state: 2,
            address,
            unit: 0,
            considered,
            size: 0,
        },
        Ok(scan::Stage::Done) => ScanAnswer {
            refusal: 0,
            state: 3,
            address: 0,
            unit: 0,
            considered,
            size: 0,
        },
    }
}

fn of_found(found: scan::Found) -> u32
    ensures { result ≡ found_given found }
{
    match found {
        scan::Found::NotYet => 3,
        scan::Found::Absent => 0,
        scan::Found::Present(result) => result as u32,
    }
}
