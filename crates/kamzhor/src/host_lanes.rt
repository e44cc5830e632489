// The lanes for the C host: each call is the lanes' own, told in numbers.
ghost use Rattle.kamzhor.specs.Lanes.{GivesLanes, GivesJoin, GivesGrant, GivesWithdraw};
ghost use Rattle.kamzhor.specs.Lanes.{join_given, join_told, grant_number, grant_given, grant_told, withdraw_given, withdraw_told};
ghost use Rattle.std.specs.Prelude.{◌≡◌};

use desk::Desk;
use lanes::Lanes;
use request::Request;

// Where a request joined: the lane and the place in it, both from 1.
#[repr(C)]
#[derive(Clone, Copy)]
pub struct JoinAnswer {
    pub refusal: u32,
    pub lane: u8,
    pub place: u8,
}

// A grant: the job whose request was opened, the host address that it was given, how many addresses
// were considered, and how long its telegram is. With refusal 75 `job` is the one whose request was
// taken out.
#[repr(C)]
#[derive(Clone, Copy)]
pub struct GrantAnswer {
    pub refusal: u32,
    pub job: u32,
    pub address: u8,
    pub considered: u8,
    pub size: u64,
}

#[repr(C)]
#[derive(Clone, Copy)]
pub struct AfterLanesJoin {
    pub lanes: Lanes,
    pub answer: JoinAnswer,
}

#[repr(C)]
#[derive(Clone, Copy)]
pub struct AfterLanesGrant {
    pub lanes: Lanes,
    pub desk: Desk,
    pub answer: GrantAnswer,
}

#[repr(C)]
#[derive(Clone, Copy)]
pub struct AfterLanesWithdraw {
    pub lanes: Lanes,
    pub refusal: u32,
}

// Empty lanes.
#[unsafe(no_mangle)]
pub extern "C" fn kamzhor_lanes_fresh() -> Lanes
    ensures { GivesLanes result }
{
    lanes::fresh()
}

// A request joins its job's lane.
#[unsafe(no_mangle)]
pub extern "C" fn kamzhor_after_lanes_join(
    lanes: Lanes,
    asked: Request,
    data: &[u8],
) -> AfterLanesJoin
    ensures { GivesJoin lanes asked «data».now result }
{
    of_join(lanes::join(lanes, asked, data))
}

// The next lane's oldest request is opened at the desk.
#[unsafe(no_mangle)]
pub extern "C" fn kamzhor_after_lanes_grant(
    lanes: Lanes,
    desk: Desk,
    clock: u32,
    room: &mut [u8],
) -> AfterLanesGrant
    ensures { GivesGrant lanes desk clock room.old result room.new }
{
    of_grant(lanes::grant(lanes, desk, clock, room))
}

// Takes the job's waiting request at that place, from 1, out of its lane.
#[unsafe(no_mangle)]
pub extern "C" fn kamzhor_after_lanes_withdraw(
    lanes: Lanes,
    job: u32,
    at: usize,
) -> AfterLanesWithdraw
    ensures { GivesWithdraw lanes job at result }
{
    of_withdraw(lanes::withdraw(lanes, job, at))
}

fn of_join(after: lanes::AfterJoin) -> AfterLanesJoin
    ensures { result ≡ join_told after }
{
    let lanes = after.lanes;
    let answer = after.answer;
    AfterLanesJoin {
        lanes,
        answer: of_joining(answer),
    }
}

fn of_joining(answer: Result<lanes::Joined, lanes::Fault>) -> JoinAnswer
    ensures { result ≡ join_given answer }
{
    match answer {
        Err(fault) => JoinAnswer {
            refusal: lanes::number(fault) as u32,
            lane: 0,
            place: 0,
        },
        Ok(joined) => JoinAnswer {
            refusal: 0,
            lane: joined.lane,
            place: joined.place,
        },
    }
}

fn of_grant(after: lanes::AfterGrant) -> AfterLanesGrant
    ensures { result ≡ grant_told after }
{
    let lanes = after.lanes;
    let desk = after.desk;
    let answer = after.answer;
    AfterLanesGrant {
        lanes,
        desk,
        answer: of_granting(answer, after.count),
    }
}

fn of_granting(answer: Result<lanes::Turn, lanes::Fault>, considered: u8) -> GrantAnswer
    ensures { result ≡ grant_given answer considered }
{
    match answer {
        Err(fault) => not_granted(lanes::number(fault), 0, considered),
        Ok(lanes::Turn::TakenOut(job)) => not_granted(75, job, considered),
        Ok(lanes::Turn::Granted(job, address, size)) => GrantAnswer {
            refusal: 0,
            job,
            address,
            considered,
            size: size as u64,
        },
    }
}

fn not_granted(refusal: u8, job: u32, considered: u8) -> GrantAnswer
    ensures { result ≡ grant_number refusal job considered }
{
    GrantAnswer {
        refusal: refusal as u32,
        job,
        address: 0,
        considered,
        size: 0,
    }
}

fn of_withdraw(after: lanes::AfterWithdraw) -> AfterLanesWithdraw
    ensures { result ≡ withdraw_told after }
{
    let lanes = after.lanes;
    let answer = after.answer;
    AfterLanesWithdraw {
        lanes,
        refusal: of_withdrawing(answer),
    }
}

fn of_withdrawing(answer: Result<(), lanes::Fault>) -> u32
    ensures { result ≡ withdraw_given answer }
{
    match answer {
        Err(fault) => lanes::number(fault) as u32,
        Ok(()) => 0,
    }
}
