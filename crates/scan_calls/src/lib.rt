// The calls on the scan. Each takes the scan and the desk and gives them back as they are afterwards.
// And who is told what the desk answered. A part of the test tool `rehearsal`.
#![tactic(auto)]

use desk::{Closed, Desk, Fault};
use desk_calls::Heard;
use scan::{Found, Scan, Stage};
use varia::FilterBox;
use words::{Words, count, word32};

// What there is: the desk, the scan, and whether one was made.
#[derive(Clone, Copy)]
pub struct Shift {
    pub desk: Desk,
    pub scan: Scan,
    pub made: bool,
}

// The same after a call, and how long the answer is.
#[derive(Clone, Copy)]
pub struct Scanned {
    pub shift: Shift,
    pub at: usize,
}

// The most that a number of 32 bits can be.
const MOST_32: u64 = 4294967295;

// The call that the word last taken names.
pub fn answer(shift: Shift, w: Words, line: &[u8], out: &mut [u8]) -> Scanned {
    if words::is(w, line, b"scan.step") {
        return step(shift, w, line, out);
    }
    if words::is(w, line, b"scan.new") {
        return renew(shift, w, line, out);
    }
    let scan = shift.scan;
    Scanned {
        shift: shift,
        at: dump(scan, shift.made, w, line, out),
    }
}

// scan.new JOB
fn renew(shift: Shift, w: Words, line: &[u8], out: &mut [u8]) -> Scanned {
    let a = words::number(w, line, MOST_32);
    if words::done(a, line) {
        let desk = shift.desk;
        return Scanned {
            shift: Shift {
                desk,
                scan: scan::make(word32(a.value)),
                made: true,
            },
            at: answers::ok(out),
        };
    }
    bad(shift, out)
}

// scan.step CLOCK BUF
fn step(shift: Shift, w: Words, line: &[u8], out: &mut [u8]) -> Scanned {
    let mut room = [0u8; words::MOST];
    let a = words::number(w, line, MOST_32);
    let p = words::bytes(a, line, &mut room);
    if words::done(p, line) {
        if shift.made {
            let m = count(p.value, &room);
            return step_now(shift, word32(a.value), &mut room[..m], out);
        }
        return Scanned {
            shift: shift,
            at: no_scan(out),
        };
    }
    bad(shift, out)
}

// The answer to a step, with the whole buffer.
fn step_now(shift: Shift, clock: u32, room: &mut [u8], out: &mut [u8]) -> Scanned {
    let scan = shift.scan;
    let desk = shift.desk;
    let after = scan::step(scan, desk, clock, room);
    let answer = after.answer;
    let at = stepped(answer, after.count, out);
    let next = after.scan;
    let left = after.desk;
    Scanned {
        shift: Shift {
            desk: left,
            scan: next,
            made: true,
        },
        at: answers::buffer(out, at, room),
    }
}

fn stepped(answer: Result<Stage, Fault>, count: u8, out: &mut [u8]) -> usize {
    match answer {
        Ok(Stage::Asked(address, unit, n)) => answers::form(
            out,
            b"ok address=# module=# n=# count=#",
            &[address as u64, unit as u64, n as u64, count as u64],
        ),
        Ok(Stage::Waiting(address)) => answers::form(out, b"ok waiting=#", &[address as u64]),
        Ok(Stage::Done) => answers::text(out, 0, b"ok done=1"),
        Err(fault) => answers::refused_count(out, desk::number(fault), count),
    }
}

// scan.dump
fn dump(scan: Scan, made: bool, w: Words, line: &[u8], out: &mut [u8]) -> usize {
    if words::is(w, line, b"scan.dump") {
        if words::done(w, line) {
            if made {
                return dumped(scan, out);
            }
            return no_scan(out);
        }
    }
    answers::bad_line(out)
}

fn dumped(scan: Scan, out: &mut [u8]) -> usize {
    let over = (scan.turns / scan::TURNS) as u64;
    let a = answers::form(out, b"ok done=# turns=# out=", &[over, scan.turns as u64]);
    let b = is_out(scan.out, out, a);
    let c = answers::text(out, b, b" results=");
    if scan.turns == 0 {
        return answers::text(out, c, b"-");
    }
    results(scan, out, c)
}

// The address that is out, `-` for none.
fn is_out(address: u8, out: &mut [u8], at: usize) -> usize {
    if address == 0 {
        return answers::text(out, at, b"-");
    }
    answers::number(out, at, address as u64)
}

// A letter for each turn that is over.
fn results(scan: Scan, out: &mut [u8], from: usize) -> usize {
    let mut at = from;
    for unit in 1..=scan::TURNS {
        at = result(scan::look(scan, unit), out, at);
    }
    at
}

fn result(found: Found, out: &mut [u8], at: usize) -> usize {
    match found {
        Found::NotYet => at,
        Found::Absent => answers::text(out, at, b"a"),
        Found::Present(n) => answers::number(out, at, n as u64),
    }
}

fn no_scan(out: &mut [u8]) -> usize {
    answers::text(out, 0, b"no scan")
}

fn bad(shift: Shift, out: &mut [u8]) -> Scanned {
    Scanned {
        shift: shift,
        at: answers::bad_line(out),
    }
}

// Who is told what the desk answered, whoever asked: the filter box and the scan.
#[derive(Clone, Copy)]
pub struct Hearers {
    pub filters: FilterBox,
    pub scan: Scan,
}

pub fn told(hearers: Hearers, heard: Heard) -> Hearers {
    let filters = hearers.filters;
    let scan = hearers.scan;
    match heard {
        Heard::Reply(booking) => Hearers {
            filters: varia::told_reply(filters, booking),
            scan: scan::told_reply(scan, booking),
        },
        Heard::Closing(closing) => told_closing(hearers, closing),
        _ => hearers,
    }
}

fn told_closing(hearers: Hearers, closing: Result<Closed, Fault>) -> Hearers {
    let filters = hearers.filters;
    let scan = hearers.scan;
    Hearers {
        filters: varia::told_closing(filters, closing),
        scan: scan::told_closing(scan, closing),
    }
}

// Of each ticket that was closed: a job, an address and a folder each, and what is no address is no
// ticket.
pub fn told_all(hearers: Hearers, closed: &[u32]) -> Hearers {
    let (entries, _) = closed.as_chunks::<3>();
    let mut next = hearers;
    for [job, address, folder] in entries {
        next = told_one(next, *job, *address, *folder);
    }
    next
}

fn told_one(hearers: Hearers, job: u32, address: u32, folder: u32) -> Hearers {
    if 255 < address {
        return hearers;
    }
    told_closing(
        hearers,
        Ok(Closed {
            job,
            address: (address % 256) as u8,
            folder,
        }),
    )
}
