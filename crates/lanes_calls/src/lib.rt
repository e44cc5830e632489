// The calls on the lanes in front of the desk. Each takes lanes and desk and gives them back as they
// are afterwards. A part of the test tool `rehearsal`.
#![tactic(auto)]

use desk::{Desk, Request};
use lanes::{AfterGrant, Fault, Joined, Lane, Lanes, Turn, Waiting};
use words::{Words, count, word32};

#[derive(Clone, Copy)]
pub struct Hall {
    pub lanes: Lanes,
    pub desk: Desk,
}

// The same after a call, and how long the answer is.
#[derive(Clone, Copy)]
pub struct Told {
    pub hall: Hall,
    pub at: usize,
}

// The most that a number of 32 and one of 64 bits can be.
const MOST_32: u64 = 4294967295;

const MOST_64: u64 = 18446744073709551615;

// The call that the word last taken names.
pub fn answer(hall: Hall, w: Words, line: &[u8], out: &mut [u8]) -> Told {
    if words::is(w, line, b"lane.join") {
        return join(hall, w, line, out);
    }
    if words::is(w, line, b"lane.grant") {
        return grant(hall, w, line, out);
    }
    if words::is(w, line, b"lane.withdraw") {
        return withdraw(hall, w, line, out);
    }
    if words::is(w, line, b"lane.dump") {
        return dump(hall, w, line, out);
    }
    bad(hall, out)
}

// lane.join JOB MODULE TYPE REG DATA WAIT FOLDER
fn join(hall: Hall, w: Words, line: &[u8], out: &mut [u8]) -> Told {
    let mut data = [0u8; words::MOST];
    let ask = desk_calls::take_ask(w, line);
    let p = words::bytes(ask.words, line, &mut data);
    let a = words::number(p, line, MOST_32);
    let b = words::number(a, line, MOST_32);
    if words::done(b, line) {
        let n = count(p.value, &data);
        let mut asked = ask.asked;
        asked.wait = word32(a.value);
        asked.folder = word32(b.value);
        return join_now(hall, asked, &data[..n], out);
    }
    bad(hall, out)
}

fn join_now(hall: Hall, asked: Request, data: &[u8], out: &mut [u8]) -> Told {
    let lanes = hall.lanes;
    let after = lanes::join(lanes, asked, data);
    let answer = after.answer;
    let next = after.lanes;
    with_lanes(hall, next, joined(answer, out))
}

fn joined(answer: Result<Joined, Fault>, out: &mut [u8]) -> usize {
    match answer {
        Err(fault) => answers::refused(out, lanes::number(fault)),
        Ok(Joined { lane, place }) => {
            answers::form(out, b"ok lane=# at=#", &[lane as u64, place as u64])
        }
    }
}

// lane.grant CLOCK BUF
fn grant(hall: Hall, w: Words, line: &[u8], out: &mut [u8]) -> Told {
    let mut room = [0u8; words::MOST];
    let a = words::number(w, line, MOST_32);
    let p = words::bytes(a, line, &mut room);
    if words::done(p, line) {
        let m = count(p.value, &room);
        return grant_now(hall, word32(a.value), &mut room[..m], out);
    }
    bad(hall, out)
}

fn grant_now(hall: Hall, clock: u32, room: &mut [u8], out: &mut [u8]) -> Told {
    let lanes = hall.lanes;
    let desk = hall.desk;
    let after = lanes::grant(lanes, desk, clock, room);
    granted(after, room, out)
}

fn granted(after: AfterGrant, room: &[u8], out: &mut [u8]) -> Told {
    let answer = after.answer;
    let at = granting(answer, after.count, out);
    let lanes = after.lanes;
    let desk = after.desk;
    Told {
        hall: Hall { lanes, desk },
        at: answers::buffer(out, at, room),
    }
}

// The desk's refusals come with its count, the lanes' own without one. A request that was taken out is
// told as the desk's refusal, with its job.
fn granting(answer: Result<Turn, Fault>, considered: u8, out: &mut [u8]) -> usize {
    match answer {
        Err(fault) => refused(fault, considered, out),
        Ok(Turn::TakenOut(job)) => answers::form(
            out,
            b"no # job=# count=#",
            &[
                desk::number(desk::Fault::FolderHeld) as u64,
                job as u64,
                considered as u64,
            ],
        ),
        Ok(Turn::Granted(job, address, n)) => answers::form(
            out,
            b"ok job=# address=# n=# count=#",
            &[job as u64, address as u64, n as u64, considered as u64],
        ),
    }
}

fn refused(fault: Fault, considered: u8, out: &mut [u8]) -> usize {
    match fault {
        Fault::AtDesk(at_desk) => answers::refused_count(out, desk::number(at_desk), considered),
        _ => answers::refused(out, lanes::number(fault)),
    }
}

// lane.withdraw JOB PLACE
fn withdraw(hall: Hall, w: Words, line: &[u8], out: &mut [u8]) -> Told {
    let a = words::number(w, line, MOST_32);
    let b = words::number(a, line, MOST_64);
    if words::done(b, line) {
        let lanes = hall.lanes;
        let after = lanes::withdraw(lanes, word32(a.value), b.value as usize);
        let answer = after.answer;
        let next = after.lanes;
        return with_lanes(hall, next, withdrawn(answer, out));
    }
    bad(hall, out)
}

fn withdrawn(answer: Result<(), Fault>, out: &mut [u8]) -> usize {
    match answer {
        Err(fault) => answers::refused(out, lanes::number(fault)),
        Ok(()) => answers::ok(out),
    }
}

// lane.dump
fn dump(hall: Hall, w: Words, line: &[u8], out: &mut [u8]) -> Told {
    if words::done(w, line) {
        let lanes = hall.lanes;
        return Told {
            hall: hall,
            at: all(lanes, out),
        };
    }
    bad(hall, out)
}

// The lanes, with a bar between two.
fn all(lanes: Lanes, out: &mut [u8]) -> usize {
    let mut at = answers::form(out, b"ok last=# lanes=", &[lanes.last as u64 + 1]);
    for (k, lane) in lanes.lanes.iter().enumerate() {
        if 0 < k {
            at = answers::text(out, at, b"|");
        }
        at = one(*lane, out, at);
    }
    at
}

// What waits in a lane, the oldest first; `-` for nothing.
fn one(lane: Lane, out: &mut [u8], from: usize) -> usize {
    if lane.size == 0 {
        return answers::text(out, from, b"-");
    }
    let mut at = from;
    for request in lane.waiting.iter().take(lane.size as usize) {
        let next = answers::comma(out, from, at);
        at = waiting(*request, out, next);
    }
    at
}

fn waiting(w: Waiting, out: &mut [u8], at: usize) -> usize {
    let asked = w.asked;
    let bytes = w.bytes;
    let n = w.size as usize % 241;
    let a = answers::number(out, at, asked.job as u64);
    let b = desk_calls::what_fields(asked, out, a);
    let c = answers::text(out, b, b":");
    let d = data(&bytes, n, out, c);
    let e = answers::field(out, d, b":", asked.wait as u64);
    answers::field(out, e, b":", asked.folder as u64)
}

// The first n of the bytes.
fn data(bytes: &[u8; 240], n: usize, out: &mut [u8], at: usize) -> usize {
    let all = &bytes[..];
    if n <= all.len() {
        return answers::hex(out, at, &all[0..n]);
    }
    at
}

fn with_lanes(hall: Hall, lanes: Lanes, at: usize) -> Told {
    let desk = hall.desk;
    Told {
        hall: Hall { lanes, desk },
        at: at,
    }
}

fn bad(hall: Hall, out: &mut [u8]) -> Told {
    Told {
        hall: hall,
        at: answers::bad_line(out),
    }
}
