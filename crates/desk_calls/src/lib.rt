// The calls on the desk. Each takes the desk and gives it back as it is afterwards. A part of the
// test tool `rehearsal`.
#![tactic(auto)]

use desk::{AfterClose, Booked, Closed, Desk, Fault, Opened, Request, Seen, Ticket};
use words::{Words, byte, count, word32};

// What others hear of a call: what the desk answered about a ticket, or that it is a new desk.
#[derive(Clone, Copy)]
pub enum Heard {
    Nothing,
    Reply(Result<Booked, Fault>),
    Closing(Result<Closed, Fault>),
    Anew,
}

// The desk after a call, what is heard of it, and how long its answer is.
#[derive(Clone, Copy)]
pub struct Told {
    pub desk: Desk,
    pub heard: Heard,
    pub at: usize,
}

// The most that a number of 32 bits can be.
const MOST: u64 = 4294967295;

// The call that the word last taken names.
pub fn answer(d: Desk, w: Words, line: &[u8], out: &mut [u8]) -> Told {
    if words::is(w, line, b"desk.open") {
        return open(d, w, line, out);
    }
    if words::is(w, line, b"desk.reply") {
        return reply(d, w, line, out);
    }
    if words::is(w, line, b"desk.cancel") {
        return cancel(d, w, line, out);
    }
    if words::is(w, line, b"desk.expire") {
        return expire(d, w, line, out);
    }
    if words::is(w, line, b"desk.new") {
        return renew(d, w, line, out);
    }
    if words::is(w, line, b"desk.dump") {
        return dump(d, w, line, out);
    }
    bad(d, out)
}

// desk.new
fn renew(d: Desk, w: Words, line: &[u8], out: &mut [u8]) -> Told {
    if words::done(w, line) {
        return Told {
            desk: desk::fresh(),
            heard: Heard::Anew,
            at: answers::ok(out),
        };
    }
    bad(d, out)
}

// desk.open JOB MODULE TYPE REG DATA WAIT FOLDER CLOCK BUF
fn open(d: Desk, w: Words, line: &[u8], out: &mut [u8]) -> Told {
    let mut data = [0u8; words::MOST];
    let mut room = [0u8; words::MOST];
    let ask = take_ask(w, line);
    let p = words::bytes(ask.words, line, &mut data);
    let times = take_times(p, line);
    let q = words::bytes(times.words, line, &mut room);
    if words::done(q, line) {
        let n = count(p.value, &data);
        let m = count(q.value, &room);
        return open_now(d, ask, &data[..n], times, &mut room[..m], out);
    }
    bad(d, out)
}

// Up to the data: job, module, type and register; the waiting time and the folder are still 0.
#[derive(Clone, Copy)]
pub struct Ask {
    pub words: Words,
    pub asked: Request,
}

pub fn take_ask(w: Words, line: &[u8]) -> Ask {
    let a = words::number(w, line, MOST);
    let b = words::number(a, line, 255);
    let c = words::number(b, line, 255);
    let d = words::number(c, line, 255);
    Ask {
        words: d,
        asked: Request {
            job: word32(a.value),
            unit: byte(b.value),
            sort: byte(c.value),
            register: byte(d.value),
            wait: 0,
            folder: 0,
        },
    }
}

// Behind the data: the waiting time, the folder and the clock.
#[derive(Clone, Copy)]
struct Times {
    words: Words,
    wait: u32,
    folder: u32,
    clock: u32,
}

fn take_times(w: Words, line: &[u8]) -> Times {
    let a = words::number(w, line, MOST);
    let b = words::number(a, line, MOST);
    let c = words::number(b, line, MOST);
    Times {
        words: c,
        wait: word32(a.value),
        folder: word32(b.value),
        clock: word32(c.value),
    }
}

fn open_now(d: Desk, ask: Ask, data: &[u8], times: Times, room: &mut [u8], out: &mut [u8]) -> Told {
    let mut asked = ask.asked;
    asked.wait = times.wait;
    asked.folder = times.folder;
    let after = desk::open(d, asked, data, times.clock, room);
    let answer = after.answer;
    let at = opened(answer, after.count, out);
    let next = after.desk;
    Told {
        desk: next,
        heard: Heard::Nothing,
        at: answers::buffer(out, at, room),
    }
}

fn opened(answer: Result<Opened, Fault>, count: u8, out: &mut [u8]) -> usize {
    match answer {
        Err(fault) => answers::refused_count(out, desk::number(fault), count),
        Ok(Opened { address, size }) => answers::form(
            out,
            b"ok address=# n=# count=#",
            &[address as u64, size as u64, count as u64],
        ),
    }
}

// desk.reply FRAME BUF
fn reply(d: Desk, w: Words, line: &[u8], out: &mut [u8]) -> Told {
    let mut frame = [0u8; words::MOST];
    let mut room = [0u8; words::MOST];
    let p = words::bytes(w, line, &mut frame);
    let q = words::bytes(p, line, &mut room);
    if words::done(q, line) {
        let n = count(p.value, &frame);
        let m = count(q.value, &room);
        return reply_now(d, &frame[..n], &mut room[..m], out);
    }
    bad(d, out)
}

fn reply_now(d: Desk, frame: &[u8], room: &mut [u8], out: &mut [u8]) -> Told {
    let after = desk::reply(d, frame, room);
    let answer = after.answer;
    let at = booked(answer, out);
    let next = after.desk;
    Told {
        desk: next,
        heard: Heard::Reply(answer),
        at: answers::buffer(out, at, room),
    }
}

fn booked(answer: Result<Booked, Fault>, out: &mut [u8]) -> usize {
    match answer {
        Err(fault) => answers::refused_at(out, desk::number(fault), desk::place(fault)),
        Ok(ticket) => answers::form(
            out,
            b"ok job=# address=# type=# n=# folder=#",
            &[
                ticket.job as u64,
                ticket.address as u64,
                ticket.sort as u64,
                ticket.size as u64,
                ticket.folder as u64,
            ],
        ),
    }
}

// desk.cancel JOB ADDRESS CLOCK
fn cancel(d: Desk, w: Words, line: &[u8], out: &mut [u8]) -> Told {
    let a = words::number(w, line, MOST);
    let b = words::number(a, line, 255);
    let c = words::number(b, line, MOST);
    if words::done(c, line) {
        return closed(
            desk::cancel(d, word32(a.value), byte(b.value), word32(c.value)),
            out,
        );
    }
    bad(d, out)
}

// desk.expire CLOCK
fn expire(d: Desk, w: Words, line: &[u8], out: &mut [u8]) -> Told {
    let a = words::number(w, line, MOST);
    if words::done(a, line) {
        return closed(desk::expire(d, word32(a.value)), out);
    }
    bad(d, out)
}

fn closed(after: AfterClose, out: &mut [u8]) -> Told {
    let answer = after.answer;
    let next = after.desk;
    Told {
        desk: next,
        heard: Heard::Closing(answer),
        at: closing(answer, out),
    }
}

fn closing(answer: Result<Closed, Fault>, out: &mut [u8]) -> usize {
    match answer {
        Err(fault) => answers::refused(out, desk::number(fault)),
        Ok(ticket) => answers::form(
            out,
            b"ok job=# address=# folder=#",
            &[
                ticket.job as u64,
                ticket.address as u64,
                ticket.folder as u64,
            ],
        ),
    }
}

// desk.dump
fn dump(d: Desk, w: Words, line: &[u8], out: &mut [u8]) -> Told {
    if words::done(w, line) {
        let at = answers::ok(out);
        let next = answers::field(out, at, b" turn=", 161 + d.turn as u64);
        let from = answers::text(out, next, b" tickets=");
        let behind = addresses(d, out, from, false);
        let last = answers::text(out, behind, b" closed=");
        return Told {
            desk: d,
            heard: Heard::Nothing,
            at: addresses(d, out, last, true),
        };
    }
    bad(d, out)
}

// The open tickets, or the addresses whose last one was cancelled or expired, by rising address;
// `-` for none.
fn addresses(d: Desk, out: &mut [u8], from: usize, closed: bool) -> usize {
    let mut at = from;
    for address in 161..=255 {
        at = standing(d, address, out, from, at, closed);
    }
    if at == from {
        return answers::text(out, from, b"-");
    }
    at
}

// What stands on an address: the ticket, or the clock when the last one was cancelled or expired,
// whichever is asked for; or nothing.
fn standing(d: Desk, address: u8, out: &mut [u8], from: usize, at: usize, closed: bool) -> usize {
    match desk::look(d, address) {
        Seen::Nothing => at,
        Seen::Open(t) => {
            if closed {
                return at;
            }
            let next = named(address, out, from, at);
            ticket_fields(t, out, next)
        }
        Seen::Withdrawn(clock) => {
            if closed {
                let next = named(address, out, from, at);
                return answers::field(out, next, b":", clock as u64);
            }
            at
        }
    }
}

// The address, behind a comma unless it is the first.
fn named(address: u8, out: &mut [u8], from: usize, at: usize) -> usize {
    let next = answers::comma(out, from, at);
    answers::number(out, next, address as u64)
}

fn ticket_fields(t: Ticket, out: &mut [u8], at: usize) -> usize {
    let asked = t.asked;
    let a = request_fields(asked, out, at);
    let b = answers::field(out, a, b":", asked.wait as u64);
    let c = answers::field(out, b, b":", t.opened as u64);
    answers::field(out, c, b":", asked.folder as u64)
}

fn request_fields(asked: Request, out: &mut [u8], at: usize) -> usize {
    let a = answers::field(out, at, b":", asked.job as u64);
    what_fields(asked, out, a)
}

// What is asked: module, type and register.
pub fn what_fields(asked: Request, out: &mut [u8], at: usize) -> usize {
    let a = answers::field(out, at, b":", asked.unit as u64);
    let b = answers::field(out, a, b":", asked.sort as u64);
    answers::field(out, b, b":", asked.register as u64)
}

fn bad(d: Desk, out: &mut [u8]) -> Told {
    Told {
        desk: d,
        heard: Heard::Nothing,
        at: answers::bad_line(out),
    }
}
