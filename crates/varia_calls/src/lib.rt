// The calls on the filter box. Each takes the box and the desk and gives them back as they are
// afterwards. A part of the test tool `rehearsal`.
#![tactic(auto)]

use desk::{Desk, Opened};
use varia::{AfterAsk, Fault, FilterBox, Pass, Sent};
use words::{Words, byte, count, word32};

// What there is: the desk, the box, and whether one was made.
#[derive(Clone, Copy)]
pub struct Rig {
    pub desk: Desk,
    pub filters: FilterBox,
    pub made: bool,
}

// The same after a call, and how long the answer is.
#[derive(Clone, Copy)]
pub struct Filtered {
    pub rig: Rig,
    pub at: usize,
}

// The most that a number of 16 and one of 32 bits can be.
const MOST_16: u64 = 65535;

const MOST_32: u64 = 4294967295;

// The call that the word last taken names.
pub fn answer(rig: Rig, w: Words, line: &[u8], out: &mut [u8]) -> Filtered {
    let asking = named(w, line);
    if is_asking(asking) {
        return ask(rig, asking, w, line, out);
    }
    if words::is(w, line, b"varia.new") {
        return renew(rig, w, line, out);
    }
    let filters = rig.filters;
    Filtered {
        rig: rig,
        at: answer_kept(filters, rig.made, w, line, out),
    }
}

// What is asked for.
#[derive(Clone, Copy)]
enum Wanted {
    Short,
    Long,
    Attenuation,
    Monitor,
    Status,
    Nothing,
}

fn named(w: Words, line: &[u8]) -> Wanted {
    if words::is(w, line, b"varia.short") {
        return Wanted::Short;
    }
    if words::is(w, line, b"varia.long") {
        return Wanted::Long;
    }
    if words::is(w, line, b"varia.att") {
        return Wanted::Attenuation;
    }
    if words::is(w, line, b"varia.monitor") {
        return Wanted::Monitor;
    }
    if words::is(w, line, b"varia.status") {
        return Wanted::Status;
    }
    Wanted::Nothing
}

fn is_asking(wanted: Wanted) -> bool {
    match wanted {
        Wanted::Nothing => false,
        _ => true,
    }
}

// The calls that leave box and desk as they are.
fn answer_kept(filters: FilterBox, made: bool, w: Words, line: &[u8], out: &mut [u8]) -> usize {
    if words::is(w, line, b"varia.display") {
        return display(made, w, line, out);
    }
    if words::is(w, line, b"varia.moving") {
        return moving(made, w, line, out);
    }
    if words::is(w, line, b"varia.dump") {
        return dump(filters, made, w, line, out);
    }
    answers::bad_line(out)
}

// varia.new JOB MODULE
fn renew(rig: Rig, w: Words, line: &[u8], out: &mut [u8]) -> Filtered {
    let a = words::number(w, line, MOST_32);
    let b = words::number(a, line, 255);
    if words::done(b, line) {
        let desk = rig.desk;
        return Filtered {
            rig: Rig {
                desk,
                filters: varia::make(word32(a.value), byte(b.value)),
                made: true,
            },
            at: answers::ok(out),
        };
    }
    bad(rig, out)
}

// varia.short, varia.long or varia.att VALUE WAIT CLOCK BUF; varia.monitor or varia.status WAIT
// CLOCK BUF
fn ask(rig: Rig, wanted: Wanted, w: Words, line: &[u8], out: &mut [u8]) -> Filtered {
    let mut room = [0u8; words::MOST];
    let terms = take_terms(wanted, w, line);
    let p = words::bytes(terms.words, line, &mut room);
    if words::done(p, line) {
        if rig.made {
            let m = count(p.value, &room);
            return ask_now(rig, wanted, terms, &mut room[..m], out);
        }
        return none(rig, out);
    }
    bad(rig, out)
}

// Up to the buffer: the value, where there is one, the waiting time and the clock.
#[derive(Clone, Copy)]
struct Terms {
    words: Words,
    value: u16,
    wait: u32,
    clock: u32,
}

fn take_terms(wanted: Wanted, w: Words, line: &[u8]) -> Terms {
    let a = take_value(wanted, w, line);
    let b = words::number(a, line, MOST_32);
    let c = words::number(b, line, MOST_32);
    Terms {
        words: c,
        value: half(a.value),
        wait: word32(b.value),
        clock: word32(c.value),
    }
}

fn take_value(wanted: Wanted, w: Words, line: &[u8]) -> Words {
    match wanted {
        Wanted::Monitor => w,
        Wanted::Status => w,
        _ => words::number(w, line, MOST_16),
    }
}

// The lowest 16 bits.
fn half(n: u64) -> u16 {
    (n % 65536) as u16
}

fn ask_now(rig: Rig, wanted: Wanted, terms: Terms, room: &mut [u8], out: &mut [u8]) -> Filtered {
    let after = wanted_of(rig, wanted, terms.value, terms.wait, terms.clock, room);
    asked(after, room, out)
}

fn wanted_of(
    rig: Rig,
    wanted: Wanted,
    value: u16,
    wait: u32,
    clock: u32,
    room: &mut [u8],
) -> AfterAsk {
    let desk = rig.desk;
    let filters = rig.filters;
    match wanted {
        Wanted::Short => varia::set_short(filters, desk, value, wait, clock, room),
        Wanted::Long => varia::set_long(filters, desk, value, wait, clock, room),
        Wanted::Attenuation => varia::attenuate(filters, desk, value, wait, clock, room),
        Wanted::Monitor => varia::read_monitor(filters, desk, wait, clock, room),
        _ => varia::read_status(filters, desk, wait, clock, room),
    }
}

// The answer to a request, with the whole buffer.
fn asked(after: AfterAsk, room: &[u8], out: &mut [u8]) -> Filtered {
    let answer = after.answer;
    let at = opened(answer, after.count, out);
    let desk = after.desk;
    let filters = after.filters;
    Filtered {
        rig: Rig {
            desk,
            filters,
            made: true,
        },
        at: answers::buffer(out, at, room),
    }
}

fn opened(answer: Result<Opened, Fault>, count: u8, out: &mut [u8]) -> usize {
    match answer {
        Err(fault) => refused(fault, count, out),
        Ok(Opened { address, size }) => answers::form(
            out,
            b"ok address=# n=# count=#",
            &[address as u64, size as u64, count as u64],
        ),
    }
}

// The desk's refusals come with its count, the box's own without one.
fn refused(fault: Fault, count: u8, out: &mut [u8]) -> usize {
    match fault {
        Fault::AtDesk(at_desk) => answers::refused_count(out, desk::number(at_desk), count),
        _ => answers::refused(out, varia::number(fault)),
    }
}

// varia.display FRESH KEPT
fn display(made: bool, w: Words, line: &[u8], out: &mut [u8]) -> usize {
    let mut fresh = [0u8; words::MOST];
    let mut kept = [0u8; words::MOST];
    let p = words::bytes(w, line, &mut fresh);
    let q = words::bytes(p, line, &mut kept);
    if words::done(q, line) {
        if made {
            let n = count(p.value, &fresh);
            let m = count(q.value, &kept);
            return displayed(&fresh[..n], &kept[..m], out);
        }
        return no_box(out);
    }
    answers::bad_line(out)
}

fn displayed<'a>(fresh: &'a [u8], kept: &'a [u8], out: &mut [u8]) -> usize {
    let mut which: u32 = 0;
    let two = varia::display(fresh, kept, &mut which);
    if which == varia::FRESH {
        let at = answers::text(out, 0, b"ok which=fresh two=");
        return answers::hex(out, at, two);
    }
    if which == varia::KEPT {
        let at = answers::text(out, 0, b"ok which=kept two=");
        return answers::hex(out, at, two);
    }
    answers::refused(out, byte(which as u64))
}

// varia.moving STATUS
fn moving(made: bool, w: Words, line: &[u8], out: &mut [u8]) -> usize {
    let a = words::number(w, line, MOST_16);
    if words::done(a, line) {
        if made {
            return moved(varia::moving(half(a.value)), out);
        }
        return no_box(out);
    }
    answers::bad_line(out)
}

fn moved(moving: bool, out: &mut [u8]) -> usize {
    if moving {
        return answers::text(out, 0, b"ok moving=1");
    }
    answers::text(out, 0, b"ok moving=0")
}

// varia.dump
fn dump(filters: FilterBox, made: bool, w: Words, line: &[u8], out: &mut [u8]) -> usize {
    if words::done(w, line) {
        if made {
            return dumped(filters, out);
        }
        return no_box(out);
    }
    answers::bad_line(out)
}

fn dumped(filters: FilterBox, out: &mut [u8]) -> usize {
    let short = filters.short;
    let long = filters.long;
    let outside = filters.out;
    let a = answers::text(out, 0, b"ok short=");
    let b = edge(short, out, a);
    let c = answers::text(out, b, b" long=");
    let d = edge(long, out, c);
    let e = answers::text(out, d, b" out=");
    is_out(outside, out, e)
}

// An edge, `?` for unknown.
fn edge(edge: Option<u16>, out: &mut [u8], at: usize) -> usize {
    match edge {
        None => answers::text(out, at, b"?"),
        Some(tenths) => answers::number(out, at, tenths as u64),
    }
}

// What is out, `-` for nothing.
fn is_out(outside: Option<Sent>, out: &mut [u8], at: usize) -> usize {
    match outside {
        None => answers::text(out, at, b"-"),
        Some(
            Sent {
                address,
                pass,
                tenths,
            },
        ) => {
            let a = answers::number(out, at, address as u64);
            let b = which_edge(pass, out, a);
            answers::number(out, b, tenths as u64)
        }
    }
}

fn which_edge(pass: Pass, out: &mut [u8], at: usize) -> usize {
    match pass {
        Pass::Short => answers::text(out, at, b":short:"),
        Pass::Long => answers::text(out, at, b":long:"),
    }
}

fn no_box(out: &mut [u8]) -> usize {
    answers::text(out, 0, b"no box")
}

fn none(rig: Rig, out: &mut [u8]) -> Filtered {
    Filtered {
        rig: rig,
        at: no_box(out),
    }
}

fn bad(rig: Rig, out: &mut [u8]) -> Filtered {
    Filtered {
        rig: rig,
        at: answers::bad_line(out),
    }
}
