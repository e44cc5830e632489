// The calls on the receiver and on the tally that is lent to it. Each takes the line and gives it back
// as it is afterwards. A part of the test tool `rehearsal`.
#![tactic(auto)]

ghost use Rattle.std.specs.Prelude.{◌≤◌, length};

use lines::Event;
use receiver::Receiver;
use tally::{Answer, Tally};
use words::{Words, count, word32};

// Room for a line, and for what is left to say at the end.
const ROOM: usize = 256;

// The line as it is listened to: the receiver, the tally, and how many lines of each kind there were
// since the receiver was made.
#[derive(Clone, Copy)]
pub struct Line {
    pub receiver: Receiver,
    pub tally: Tally,
    pub ok: u64,
    pub refused: u64,
    pub dropped: u64,
}

// The line after a call, and how long its answer is.
#[derive(Clone, Copy)]
pub struct Heard {
    pub line: Line,
    pub at: usize,
}

// The most that a number of 64 and one of 32 bits can be.
const MOST_64: u64 = 18446744073709551615;

const MOST_32: u64 = 4294967295;

// A line of which nothing was heard yet, whose next byte has that place.
pub fn begin(place: u64, tally: Tally) -> Line {
    Line {
        receiver: receiver::fresh(place),
        tally,
        ok: 0,
        refused: 0,
        dropped: 0,
    }
}

// The call that the word last taken names.
pub fn answer(l: Line, w: Words, line: &[u8], out: &mut [u8]) -> Heard {
    if words::is(w, line, b"rx.feed") {
        return feed(l, w, line, out);
    }
    if words::is(w, line, b"rx.new") {
        return renew(l, w, line, out);
    }
    if words::is(w, line, b"tally.set") {
        return set(l, w, line, out);
    }
    Heard {
        line: l,
        at: answer_kept(l, w, line, out),
    }
}

// The calls that change nothing.
fn answer_kept(l: Line, w: Words, line: &[u8], out: &mut [u8]) -> usize {
    if words::is(w, line, b"rx.end") {
        return end(l, w, line, out);
    }
    if words::is(w, line, b"tally.get") {
        return get(l.tally, w, line, out);
    }
    answers::bad_line(out)
}

// rx.new PLACE. The tally is its lender's, and stays.
fn renew(l: Line, w: Words, line: &[u8], out: &mut [u8]) -> Heard {
    let place = words::number(w, line, MOST_64);
    if words::done(place, line) {
        let tally = l.tally;
        return Heard {
            line: begin(place.value, tally),
            at: answers::ok(out),
        };
    }
    bad(l, out)
}

// tally.set READ REFUSED DROPPED
fn set(l: Line, w: Words, line: &[u8], out: &mut [u8]) -> Heard {
    let a = words::number(w, line, MOST_32);
    let b = words::number(a, line, MOST_32);
    let c = words::number(b, line, MOST_32);
    if words::done(c, line) {
        let tally = Tally {
            read: word32(a.value),
            refused: word32(b.value),
            dropped: word32(c.value),
        };
        let mut next = l;
        next.tally = tally;
        return Heard {
            line: next,
            at: answers::ok(out),
        };
    }
    bad(l, out)
}

// tally.get
fn get(tally: Tally, w: Words, line: &[u8], out: &mut [u8]) -> usize {
    if words::done(w, line) {
        return answers::form(
            out,
            b"ok read=# refused=# dropped=#",
            &[
                tally.read as u64,
                tally.refused as u64,
                tally.dropped as u64,
            ],
        );
    }
    answers::bad_line(out)
}

// rx.feed BYTES
fn feed(l: Line, w: Words, line: &[u8], out: &mut [u8]) -> Heard {
    let mut chunk = [0u8; words::MOST];
    let p = words::bytes(w, line, &mut chunk);
    if words::done(p, line) {
        let n = count(p.value, &chunk);
        return feed_now(l, &chunk[..n], out);
    }
    bad(l, out)
}

// A chunk so far: how much of it was taken, where the text of its lines ends, and the number of the
// refusal that ended it, 0 for none.
#[derive(Clone, Copy)]
struct Fed {
    line: Line,
    taken: usize,
    at: usize,
    refusal: u8,
}

// The chunk is taken twice from the same line: the first time to know what the answer begins with, the
// second time to write the lines behind that.
fn feed_now(l: Line, chunk: &[u8], out: &mut [u8]) -> Heard {
    let first = take(l, chunk, out, 0);
    let from = begun(first.refusal, first.taken, out);
    let fed = take(l, chunk, out, from);
    let next = fed.line;
    Heard {
        line: next,
        at: parted(from, fed.at),
    }
}

fn begun(refusal: u8, taken: usize, out: &mut [u8]) -> usize {
    if refusal == 0 {
        return answers::text(out, 0, b"ok lines=");
    }
    let a = answers::refused(out, refusal);
    let b = answers::field(out, a, b" taken=", taken as u64);
    answers::text(out, b, b" lines=")
}

// Step after step, until one takes nothing.
fn take(l: Line, chunk: &[u8], out: &mut [u8], from: usize) -> Fed {
    let start = Fed {
        line: l,
        taken: 0,
        at: from,
        refusal: 0,
    };
    let mut fed = step(start, chunk, out);
    let mut before = 0;
    // Goes on by what each step took, which no range does.
    while before < fed.taken {
        before = fed.taken;
        fed = step(fed, chunk, out);
    }
    fed
}

// One step, on what is left of the chunk, with the tally lent; its line behind those so far, ended by
// `;`.
fn step(fed: Fed, chunk: &[u8], out: &mut [u8]) -> Fed
    ensures { result.taken ≤ length chunk.now }
{
    let from = count(fed.taken as u64, chunk);
    let before = fed.line;
    let lent = before.tally;
    let receiver = before.receiver;
    let counted = tally::lend_step(lent, receiver, &chunk[from..]);
    let stepped = counted.stepped;
    let answer = stepped.answer;
    let tally = counted.tally;
    let next = stepped.receiver;
    let taken = std::num::wrapping_add_usize(from, stepped.taken);
    Fed {
        line: behind(before, tally, next, answer),
        taken: count(taken as u64, chunk),
        at: told(answer, out, fed.at),
        refusal: refusal_of(answer),
    }
}

// The line behind a step.
fn behind(before: Line, tally: Tally, receiver: Receiver, answer: Answer) -> Line {
    match answer {
        Ok(Some(line)) => {
            let event = line.event;
            totalled(before, tally, receiver, event)
        }
        _ => Line {
            receiver,
            tally,
            ok: before.ok,
            refused: before.refused,
            dropped: before.dropped,
        },
    }
}

fn totalled(before: Line, tally: Tally, receiver: Receiver, event: Event) -> Line {
    let mut ok = before.ok;
    let mut refused = before.refused;
    let mut dropped = before.dropped;
    match event {
        Event::Read(_) => ok = std::num::wrapping_add_u64(ok, 1),
        Event::Refused(_) => refused = std::num::wrapping_add_u64(refused, 1),
        _ => dropped = std::num::wrapping_add_u64(dropped, 1),
    }
    Line {
        receiver,
        tally,
        ok,
        refused,
        dropped,
    }
}

fn refusal_of(answer: Answer) -> u8 {
    match answer {
        Err(fault) => tally::number(fault),
        _ => 0,
    }
}

// A step's line, where it has one.
fn told(answer: Answer, out: &mut [u8], at: usize) -> usize {
    match answer {
        Ok(Some(line)) => {
            let event = line.event;
            let mut room = [0u8; ROOM];
            let size = lines::line(line.place, event, &mut room);
            let n = count(size as u64, &room);
            shown(&room[..n], b";", out, at)
        }
        _ => at,
    }
}

// Where an answer ends whose lines are parted by `;`: before the last one, if there is one.
fn parted(from: usize, at: usize) -> usize {
    if from < at { at - 1 } else { at }
}

// rx.end
fn end(l: Line, w: Words, line: &[u8], out: &mut [u8]) -> usize {
    if words::done(w, line) {
        let mut room = [0u8; ROOM];
        let size = lines::ending(
            0 < l.receiver.size,
            l.receiver.start,
            l.ok,
            l.refused,
            l.dropped,
            &mut room,
        );
        let n = count(size as u64, &room);
        let from = answers::text(out, 0, b"ok text=");
        return shown(&room[..n], b"\\n", out, from);
    }
    answers::bad_line(out)
}

// Text with something else for each newline.
fn shown(text: &[u8], newline: &[u8], out: &mut [u8], from: usize) -> usize {
    let mut at = from;
    for b in text {
        at = byte(*b, newline, out, at);
    }
    at
}

fn byte(b: u8, newline: &[u8], out: &mut [u8], at: usize) -> usize {
    if b == b'\n' {
        return answers::text(out, at, newline);
    }
    answers::text(out, at, &[b])
}

fn bad(l: Line, out: &mut [u8]) -> Heard {
    Heard {
        line: l,
        at: answers::bad_line(out),
    }
}
