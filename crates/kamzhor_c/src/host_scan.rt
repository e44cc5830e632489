// The exports of the scan.
ghost use Rattle.kamzhor.specs.Scan.{GivesScan, GivesScanStep, GivesScanReply, GivesScanClose, GivesFound};

use desk::Desk;
use kamzhor::host_desk::{CloseAnswer, ReplyAnswer};
use kamzhor::host_scan::AfterScanStep;
use scan::Scan;

// A scan before its first turn.
#[unsafe(no_mangle)]
pub extern "C" fn kamzhor_scan_fresh(job: u32) -> Scan
    ensures { GivesScan job result }
{
    kamzhor::host_scan::kamzhor_scan_fresh(job)
}

// Asks the next module, if the last one's turn is over.
#[unsafe(no_mangle)]
pub extern "C" fn kamzhor_after_scan_step(
    scan: Scan,
    desk: Desk,
    clock: u32,
    room: &mut [u8],
) -> AfterScanStep
    ensures { GivesScanStep scan desk clock room.old result room.new }
{
    kamzhor::host_scan::kamzhor_after_scan_step(scan, desk, clock, room)
}

// Every booked reply is told to the scan; a refused one leaves it.
#[unsafe(no_mangle)]
pub extern "C" fn kamzhor_after_scan_reply(scan: Scan, answer: ReplyAnswer) -> Scan
    ensures { GivesScanReply scan answer result }
{
    kamzhor::host_scan::kamzhor_after_scan_reply(scan, answer)
}

// So is every cancel and expiry.
#[unsafe(no_mangle)]
pub extern "C" fn kamzhor_after_scan_close(scan: Scan, answer: CloseAnswer) -> Scan
    ensures { GivesScanClose scan answer result }
{
    kamzhor::host_scan::kamzhor_after_scan_close(scan, answer)
}

// What was found at a module: 0 absent, 1 a datagram, 2 another answer, 3 not yet.
#[unsafe(no_mangle)]
pub extern "C" fn kamzhor_look_at_scan(scan: Scan, unit: u8) -> u32
    ensures { GivesFound scan unit result }
{
    kamzhor::host_scan::kamzhor_look_at_scan(scan, unit)
}
