// The calls on the bench. Each takes the bench and gives it back as it is afterwards. A part of the
// test tool `rehearsal`.
#![tactic(auto)]

use bench::{AfterBuild, Bench, Fault, Register};
use values_calls::value_of;
use words::{Words, byte, count};

// The bench after a call, whether one was made yet, and how long the answer is.
#[derive(Clone, Copy)]
pub struct Shown {
    pub bench: Bench,
    pub made: bool,
    pub at: usize,
}

// The call that the word last taken names.
pub fn answer(b: Bench, made: bool, w: Words, line: &[u8], out: &mut [u8]) -> Shown {
    if words::is(w, line, b"bench.tele") {
        return tele(b, made, w, line, out);
    }
    if words::is(w, line, b"bench.add") {
        return add(b, made, w, line, out);
    }
    if words::is(w, line, b"bench.set") {
        return set(b, made, w, line, out);
    }
    if words::is(w, line, b"bench.dump") {
        return dump(b, made, w, line, out);
    }
    if words::is(w, line, b"bench.new") {
        return renew(b, made, w, line, out);
    }
    bad(b, made, out)
}

// bench.new ADDRESS: a refusal leaves the bench that there was.
fn renew(b: Bench, made: bool, w: Words, line: &[u8], out: &mut [u8]) -> Shown {
    let a = words::number(w, line, 255);
    if words::done(a, line) {
        return renewed(b, made, bench::make(byte(a.value)), out);
    }
    bad(b, made, out)
}

fn renewed(b: Bench, made: bool, after: AfterBuild, out: &mut [u8]) -> Shown {
    let answer = after.answer;
    let next = after.bench;
    match answer {
        Err(fault) => Shown {
            bench: b,
            made: made,
            at: answers::refused(out, bench::number(fault)),
        },
        Ok(()) => Shown {
            bench: next,
            made: true,
            at: answers::ok(out),
        },
    }
}

// bench.add REG KIND RIGHTS
fn add(b: Bench, made: bool, w: Words, line: &[u8], out: &mut [u8]) -> Shown {
    let r = words::number(w, line, 255);
    let k = words::number(r, line, 255);
    let g = words::number(k, line, 255);
    if words::done(g, line) {
        if made {
            return built(
                bench::add(b, byte(r.value), byte(k.value), byte(g.value)),
                out,
            );
        }
        return none(b, out);
    }
    bad(b, made, out)
}

// bench.set REG VALUE
fn set(b: Bench, made: bool, w: Words, line: &[u8], out: &mut [u8]) -> Shown {
    let r = words::number(w, line, 255);
    let v = words::signed(r, line);
    if words::done(v, line) {
        if made {
            return built(bench::set(b, byte(r.value), value_of(v)), out);
        }
        return none(b, out);
    }
    bad(b, made, out)
}

fn built(after: AfterBuild, out: &mut [u8]) -> Shown {
    let answer = after.answer;
    let next = after.bench;
    Shown {
        bench: next,
        made: true,
        at: building(answer, out),
    }
}

fn building(answer: Result<(), Fault>, out: &mut [u8]) -> usize {
    match answer {
        Err(fault) => answers::refused(out, bench::number(fault)),
        Ok(()) => answers::ok(out),
    }
}

// bench.tele FRAME BUF
fn tele(b: Bench, made: bool, w: Words, line: &[u8], out: &mut [u8]) -> Shown {
    let mut frame = [0u8; words::MOST];
    let mut room = [0u8; words::MOST];
    let p = words::bytes(w, line, &mut frame);
    let q = words::bytes(p, line, &mut room);
    if words::done(q, line) {
        if made {
            let n = count(p.value, &frame);
            let m = count(q.value, &room);
            return tele_now(b, &frame[..n], &mut room[..m], out);
        }
        return none(b, out);
    }
    bad(b, made, out)
}

fn tele_now(b: Bench, frame: &[u8], room: &mut [u8], out: &mut [u8]) -> Shown {
    let after = bench::take(b, frame, room);
    let answer = after.answer;
    let at = taking(answer, out);
    let next = after.bench;
    Shown {
        bench: next,
        made: true,
        at: answers::buffer(out, at, room),
    }
}

fn taking(answer: Result<usize, Fault>, out: &mut [u8]) -> usize {
    match answer {
        Err(fault) => answers::refused_at(out, bench::number(fault), bench::place(fault)),
        Ok(n) => {
            let at = answers::ok(out);
            answers::field(out, at, b" n=", n as u64)
        }
    }
}

// bench.dump
fn dump(b: Bench, made: bool, w: Words, line: &[u8], out: &mut [u8]) -> Shown {
    if words::done(w, line) {
        if made {
            let at = answers::ok(out);
            let next = answers::field(out, at, b" address=", b.address as u64);
            let from = answers::text(out, next, b" regs=");
            return Shown {
                bench: b,
                made: true,
                at: registers(b, out, from),
            };
        }
        return none(b, out);
    }
    bad(b, made, out)
}

// The registers by rising number, `-` for none.
fn registers(b: Bench, out: &mut [u8], from: usize) -> usize {
    let mut at = from;
    for number in 0..=255 {
        at = register(b, number, out, from, at);
    }
    if at == from {
        return answers::text(out, from, b"-");
    }
    at
}

// A register, behind a comma unless it is the first, or nothing.
fn register(b: Bench, number: u8, out: &mut [u8], from: usize, at: usize) -> usize {
    match bench::look(b, number) {
        None => at,
        Some(r) => {
            let next = answers::comma(out, from, at);
            let behind = register_fields(r, out, next);
            stored_bytes(r, out, behind)
        }
    }
}

fn register_fields(r: Register, out: &mut [u8], at: usize) -> usize {
    let a = answers::number(out, at, r.number as u64);
    let b = answers::field(out, a, b":", r.kind as u64);
    let c = answers::field(out, b, b":", r.rights as u64);
    answers::text(out, c, b":")
}

// The stored bytes, lowest first.
fn stored_bytes(r: Register, out: &mut [u8], at: usize) -> usize {
    let mut space = [0u8; 8];
    let size = values::size(r.kind);
    values::store(r.value, size, &mut space);
    let n = count(size as u64, &space);
    answers::hex(out, at, &space[..n])
}

fn none(b: Bench, out: &mut [u8]) -> Shown {
    Shown {
        bench: b,
        made: false,
        at: answers::text(out, 0, b"no bench"),
    }
}

fn bad(b: Bench, made: bool, out: &mut [u8]) -> Shown {
    Shown {
        bench: b,
        made: made,
        at: answers::bad_line(out),
    }
}
