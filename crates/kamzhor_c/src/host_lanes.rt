// The exports of the lanes.
ghost use Rattle.kamzhor.specs.Lanes.{GivesLanes, GivesJoin, GivesGrant, GivesWithdraw};

use desk::Desk;
use kamzhor::host_lanes::{AfterLanesGrant, AfterLanesJoin, AfterLanesWithdraw};
use lanes::Lanes;
use request::Request;

// Empty lanes.
#[unsafe(no_mangle)]
pub extern "C" fn kamzhor_lanes_fresh() -> Lanes
    ensures { GivesLanes result }
{
    kamzhor::host_lanes::kamzhor_lanes_fresh()
}

// A request joins its job's lane.
#[unsafe(no_mangle)]
pub extern "C" fn kamzhor_after_lanes_join(
    lanes: Lanes,
    asked: Request,
    data: &[u8],
) -> AfterLanesJoin
    ensures { GivesJoin lanes asked «data».now result }
{
    kamzhor::host_lanes::kamzhor_after_lanes_join(lanes, asked, data)
}

// The next lane's oldest request is opened at the desk.
#[unsafe(no_mangle)]
pub extern "C" fn kamzhor_after_lanes_grant(
    lanes: Lanes,
    desk: Desk,
    clock: u32,
    room: &mut [u8],
) -> AfterLanesGrant
    ensures { GivesGrant lanes desk clock room.old result room.new }
{
    kamzhor::host_lanes::kamzhor_after_lanes_grant(lanes, desk, clock, room)
}

// Takes the job's waiting request at that place, from 1, out of its lane.
#[unsafe(no_mangle)]
pub extern "C" fn kamzhor_after_lanes_withdraw(
    lanes: Lanes,
    job: u32,
    at: usize,
) -> AfterLanesWithdraw
    ensures { GivesWithdraw lanes job at result }
{
    kamzhor::host_lanes::kamzhor_after_lanes_withdraw(lanes, job, at)
}
