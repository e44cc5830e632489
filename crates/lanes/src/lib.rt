// Sixteen lanes in front of the desk, so that no job can fill the line: each lane is for one job and
// holds up to four requests in order of arrival, and a grant opens the oldest request of the next
// lane. They stand above the desk, on its promises. specs/ says what each call answers.
#![tactic(auto)]

ghost use Rattle.lanes.specs.Lanes.{Fresh, Numbers, lane_at, is_theirs, is_empty, waiting_with, with_last, with_lane, next_at, without};
ghost use Rattle.lanes.specs.Lanes.{own_lane, empty_lane, FirstOf16};
ghost use Rattle.desk.specs.Desk.{under};
ghost use Rattle.lanes.specs.Join.{Joins, NotJoined, lane_for};
ghost use Rattle.lanes.specs.Grant.{Grants, Serves, NotGranted, OpensWith, OpensWaiting, next_distance, takes_out, moves_on, served_from, from_desk};
ghost use Rattle.lanes.specs.Withdraw.{Withdraws, NotWithdrawn};
ghost use Rattle.std.specs.Prelude.{◌≡◌, ◌+◌, ◌%◌, ◌≤◌, ◌<◌, length, MatchOption};

use desk::{AfterOpen, Opened};
pub use desk::{Desk, Request};

// A request that waits, and its data: the first `size` of the bytes, the others are zero.
#[repr(C)]
#[derive(Clone, Copy)]
pub struct Waiting {
    pub asked: Request,
    pub size: u8,
    pub bytes: [u8; 240],
}

// The first `size` of these requests wait, the oldest first, and the lane belongs to their job. The
// other places are zero. An empty lane belongs to nobody.
#[repr(C)]
#[derive(Clone, Copy)]
pub struct Lane {
    pub size: u8,
    pub waiting: [Waiting; 4],
}

// Lane n, from 1 to 16, stands at the place n less 1; `last` is the place of the lane last served.
#[repr(C)]
#[derive(Clone, Copy)]
pub struct Lanes {
    pub last: u8,
    pub lanes: [Lane; 16],
}

// Why a call on the lanes was refused.
#[derive(Clone, Copy)]
pub enum Fault {
    // what is asked may not be sent
    Denied(request::Fault),
    // the job has no lane, and none is empty
    NoLaneFree,
    LaneFull,
    // a grant's buffer is shorter than the longest telegram
    ShortBuffer,
    NothingWaiting,
    NoSuchRequest,
    // the desk's own refusal
    AtDesk(desk::Fault),
}

// Where a request joined: the lane, from 1, and the place in it, from 1.
#[derive(Clone, Copy)]
pub struct Joined {
    pub lane: u8,
    pub place: u8,
}

// What came of a lane's turn.
#[derive(Clone, Copy)]
pub enum Turn {
    // the job whose request was opened, the host address that it was given, and the length of its
    // telegram
    Granted(u32, u8, usize),
    // the job whose request was taken out, because another job holds its folder: told as the desk's 75
    TakenOut(u32),
}

// A call's answer, with the lanes as they are afterwards.
#[derive(Clone, Copy)]
pub struct AfterJoin {
    pub lanes: Lanes,
    pub answer: Result<Joined, Fault>,
}

#[derive(Clone, Copy)]
pub struct AfterGrant {
    pub lanes: Lanes,
    pub desk: Desk,
    pub answer: Result<Turn, Fault>,
    // how many addresses the desk considered; 0 where it was not asked
    pub count: u8,
}

#[derive(Clone, Copy)]
pub struct AfterWithdraw {
    pub lanes: Lanes,
    pub answer: Result<(), Fault>,
}

// The longest telegram.
const LONGEST: usize = 494;

const NOBODY: Waiting = Waiting {
    asked: Request {
        job: 0,
        unit: 0,
        sort: 0,
        register: 0,
        wait: 0,
        folder: 0,
    },
    size: 0,
    bytes: [0; 240],
};

const EMPTY: Lane = Lane {
    size: 0,
    waiting: [NOBODY; 4],
};

// Empty lanes, of which the 16th was served last.
pub fn fresh() -> Lanes
    ensures { Fresh result }
{
    Lanes {
        last: 15,
        lanes: [EMPTY; 16],
    }
}

// The paper's number of a refusal.
pub fn number(fault: Fault) -> u8
    ensures { Numbers fault result }
{
    match fault {
        Fault::Denied(denied) => request::number(denied),
        Fault::NoLaneFree => 71,
        Fault::LaneFull => 72,
        Fault::ShortBuffer => 73,
        Fault::NothingWaiting => 74,
        Fault::NoSuchRequest => 55,
        Fault::AtDesk(refused) => desk::number(refused),
    }
}

// Puts a request behind those that wait in its job's lane, or into the lowest empty lane where the
// job has none. Its waiting time starts only when it is opened.
pub fn join(lanes: Lanes, asked: Request, data: &[u8]) -> AfterJoin
    ensures { Joins lanes asked «data».now result }
{
    if let Err(fault) = request::judge(asked, data) {
        return not_joined(lanes, Fault::Denied(fault));
    }
    let Some((place, lane)) = lane_to_join(lanes, asked.job) else {
        return not_joined(lanes, Fault::NoLaneFree);
    };
    if 4 <= lane.size {
        return not_joined(lanes, Fault::LaneFull);
    }
    AfterJoin {
        lanes: with_lane(lanes, place, with_last(lane, waiting_with(asked, data))),
        answer: Ok(Joined {
            lane: place + 1,
            place: lane.size + 1,
        }),
    }
}

fn not_joined(lanes: Lanes, fault: Fault) -> AfterJoin
    ensures { NotJoined fault lanes result }
{
    AfterJoin {
        lanes,
        answer: Err(fault),
    }
}

// The lane that a request of the job goes to, behind its place, if there is one. The lanes come by value:
// to be lent to the search they are copied, and that copy is gone when the answer is there.
fn lane_to_join(lanes: Lanes, job: u32) -> Option<(u8, Lane)>
    ensures { MatchOption result (16 ≤ lane_for lanes job) (λ it. (it.0 ≡ lane_for lanes job) × (it.0 < 16) × (it.1 ≡ lane_at lanes it.0)) }
{
    let Some(place) = lane_for(&lanes, job) else {
        return None;
    };
    Some((place, lane_at(&lanes, place)))
}

// The place of the lane that a request of the job goes to, if there is one.
fn lane_for(lanes: &Lanes, job: u32) -> Option<u8>
    ensures { result ≡ under 16 (lane_for lanes.now job) }
{
    own_lane(lanes, job).or_else(|| empty_lane(lanes))
}

// Opens the oldest request of the first lane with something waiting after the lane last served, going
// round, and writes its telegram into the room's first bytes. Where another job holds its folder the
// request is taken out instead; that was the lane's turn too, and desk and room stay.
pub fn grant(lanes: Lanes, desk: Desk, clock: u32, room: &mut [u8]) -> AfterGrant
    ensures { Grants lanes desk clock room.old result room.new }
{
    if room.len() < LONGEST {
        return not_granted(lanes, desk, Fault::ShortBuffer);
    }
    let Some(distance) = next_distance(&lanes) else {
        return not_granted(lanes, desk, Fault::NothingWaiting);
    };
    let place = ((lanes.last as u16 + 1 + distance as u16) % 16) as u8;
    serve(lanes, desk, place, clock, room)
}

// Opens the oldest request of the lane at a place. Where the desk goes on to the next, so do the lanes.
fn serve(lanes: Lanes, desk: Desk, place: u8, clock: u32, room: &mut [u8]) -> AfterGrant
    requires { (place < 16) × (1 ≤ (lane_at lanes place).size) }
    ensures { Serves lanes desk place clock room.old result room.new }
{
    let lane = lane_at(&lanes, place);
    let oldest = lane.waiting[0];
    let after = open_waiting(desk, oldest, clock, room);
    let answer = after.answer;
    let next = after.desk;
    AfterGrant {
        lanes: served_from(lanes, place, lane, moves_on(answer)),
        desk: next,
        answer: from_desk(oldest.asked.job, answer),
        count: after.count,
    }
}

fn not_granted(lanes: Lanes, desk: Desk, fault: Fault) -> AfterGrant
    ensures { NotGranted fault lanes desk result }
{
    AfterGrant {
        lanes,
        desk,
        answer: Err(fault),
        count: 0,
    }
}

// Opens a ticket for a request that waited, with its data.
fn open_waiting(desk: Desk, waiting: Waiting, clock: u32, room: &mut [u8]) -> AfterOpen
    ensures { OpensWaiting desk waiting clock room.old result room.new }
{
    let asked = waiting.asked;
    let bytes = waiting.bytes;
    let n = waiting.size as usize % 241;
    open_with(desk, asked, &bytes, n, clock, room)
}

fn open_with(
    desk: Desk,
    asked: Request,
    bytes: &[u8; 240],
    n: usize,
    clock: u32,
    room: &mut [u8],
) -> AfterOpen
    requires { n ≤ 240 }
    ensures { OpensWith desk asked bytes.now n clock room.old result room.new }
{
    let all = &bytes[..];
    desk::open(desk, asked, &all[0..n], clock, room)
}

// Whether a grant that the desk answered so has had its turn.
fn moves_on(answer: Result<Opened, desk::Fault>) -> bool
    ensures { result ≡ moves_on answer }
{
    match answer {
        Ok(_) => true,
        Err(fault) => takes_out(fault),
    }
}

// Whether a request that the desk refused so leaves its lane.
fn takes_out(fault: desk::Fault) -> bool
    ensures { result ≡ takes_out fault }
{
    matches!(fault, desk::Fault::FolderHeld)
}

// The lanes once the lane at a place had its turn, or as they were.
fn served_from(lanes: Lanes, place: u8, lane: Lane, moves: bool) -> Lanes
    requires { (place < 16) × (1 ≤ lane.size) }
    ensures { result ≡ served_from lanes place lane moves }
{
    if moves {
        let mut next = with_lane(lanes, place, without(lane, 0));
        next.last = place;
        return next;
    }
    lanes
}

// The desk's answer, with the job.
fn from_desk(job: u32, answer: Result<Opened, desk::Fault>) -> Result<Turn, Fault>
    ensures { result ≡ from_desk job answer }
{
    match answer {
        Ok(Opened { address, size: n }) => Ok(Turn::Granted(job, address, n)),
        Err(fault) => {
            if takes_out(fault) {
                return Ok(Turn::TakenOut(job));
            }
            Err(Fault::AtDesk(fault))
        }
    }
}

// Takes a waiting request of the job out of its lane, by its place there, from 1. Later ones move up.
pub fn withdraw(lanes: Lanes, job: u32, at: usize) -> AfterWithdraw
    ensures { Withdraws lanes job at result }
{
    let Some(place) = own_lane(&lanes, job) else {
        return not_withdrawn(lanes);
    };
    let lane = lane_at(&lanes, place);
    if at == 0 {
        return not_withdrawn(lanes);
    }
    if (lane.size as usize) < at {
        return not_withdrawn(lanes);
    }
    AfterWithdraw {
        lanes: with_lane(lanes, place, without(lane, at - 1)),
        answer: Ok(()),
    }
}

fn not_withdrawn(lanes: Lanes) -> AfterWithdraw
    ensures { NotWithdrawn lanes result }
{
    AfterWithdraw {
        lanes,
        answer: Err(Fault::NoSuchRequest),
    }
}

// What follows alone reads or stores in the arrays.

// The place of the job's lane, if it has one.
fn own_lane(lanes: &Lanes, job: u32) -> Option<u8>
    ensures { result ≡ under 16 (own_lane lanes.now job) }
{
    distance_to(lanes, 0, |lane| is_theirs(lane, job))
}

// The lowest place of an empty lane, if one is.
fn empty_lane(lanes: &Lanes) -> Option<u8>
    ensures { result ≡ under 16 (empty_lane lanes.now) }
{
    distance_to(lanes, 0, is_empty)
}

// How far behind the lane last served the next one is in which something waits, if any does.
fn next_distance(lanes: &Lanes) -> Option<u8>
    ensures { result ≡ under 16 (next_distance lanes.now) }
{
    let last = lanes.last as usize;
    distance_to(lanes, last + 1, |lane| !is_empty(lane))
}

// How far from a place, going round, the first lane is for which the test holds, if it does for one.
fn distance_to<F: Fn(Lane) -> bool>(lanes: &Lanes, from: usize, holds: F) -> Option<u8>
    requires { (from ≤ 256) × F.IsAlwaysCallable holds }
    ensures { FirstOf16 (λ k. F.post holds (lane_at lanes.now ((from + k) % 16))) result }
{
    (0..16).find(|&k| holds(lanes.lanes[(from + k as usize) % 16]))
}

fn lane_at(lanes: &Lanes, place: u8) -> Lane
    requires { place < 16 }
    ensures { result ≡ lane_at lanes.now place }
{
    let at = place as usize;
    lanes.lanes[at]
}

fn is_empty(lane: Lane) -> bool
    ensures { result ≡ is_empty lane }
{
    lane.size == 0
}

// Whether the lane is the job's.
fn is_theirs(lane: Lane, job: u32) -> bool
    ensures { result ≡ is_theirs lane job }
{
    let front = lane.waiting[0];
    lane.size != 0 && front.asked.job == job
}

fn waiting_with(asked: Request, data: &[u8]) -> Waiting
    requires { length «data».now ≤ 240 }
    ensures { result ≡ waiting_with asked «data».now }
{
    let mut bytes = [0u8; 240];
    lent::lay_at(data, &mut bytes, 0);
    Waiting {
        asked,
        size: data.len() as u8,
        bytes,
    }
}

// The lane with one more request behind the others.
fn with_last(lane: Lane, newest: Waiting) -> Lane
    requires { lane.size < 4 }
    ensures { result ≡ with_last lane newest }
{
    let mut waiting = lane.waiting;
    let end = lane.size as usize;
    waiting[end] = newest;
    Lane {
        size: lane.size + 1,
        waiting,
    }
}

// The lane without the request at a place: those behind it move up.
fn without(lane: Lane, gone: usize) -> Lane
    requires { 1 ≤ lane.size }
    ensures { result ≡ without lane gone }
{
    let first = next_at(lane, gone, 0);
    let second = next_at(lane, gone, 1);
    let third = next_at(lane, gone, 2);
    let fourth = next_at(lane, gone, 3);
    Lane {
        size: lane.size - 1,
        waiting: [first, second, third, fourth],
    }
}

// What stands at a place once the request at `gone` has left.
fn next_at(lane: Lane, gone: usize, place: usize) -> Waiting
    requires { place < 4 }
    ensures { result ≡ next_at lane gone place }
{
    if place < gone {
        return lane.waiting[place];
    }
    if place < 3 {
        return lane.waiting[place + 1];
    }
    NOBODY
}

fn with_lane(lanes: Lanes, place: u8, lane: Lane) -> Lanes
    requires { place < 16 }
    ensures { result ≡ with_lane lanes place lane }
{
    let mut all = lanes.lanes;
    let at = place as usize;
    all[at] = lane;
    Lanes {
        last: lanes.last,
        lanes: all,
    }
}
