// The calls `val.get`, `val.put` and `cat`. A part of the test tool `rehearsal`.
#![tactic(auto)]

use catalogue::Entry;
use values::{Fault, Value};
use words::{Words, byte, count};

// The call that the word last taken names.
pub fn answer(w: Words, line: &[u8], out: &mut [u8]) -> usize {
    if words::is(w, line, b"val.get") {
        return get(w, line, out);
    }
    if words::is(w, line, b"val.put") {
        return put(w, line, out);
    }
    if words::is(w, line, b"cat") {
        return cat(w, line, out);
    }
    answers::bad_line(out)
}

// val.get KIND BYTES INDEX
fn get(w: Words, line: &[u8], out: &mut [u8]) -> usize {
    let mut space = [0u8; words::MOST];
    let a = words::number(w, line, 255);
    let p = words::bytes(a, line, &mut space);
    let q = words::number(p, line, 18446744073709551615);
    if words::done(q, line) {
        let n = count(p.value, &space);
        got(values::read(byte(a.value), &space[..n], q.value), out)
    } else {
        answers::bad_line(out)
    }
}

fn got(answer: Result<Value, Fault>, out: &mut [u8]) -> usize {
    match answer {
        Err(fault) => answers::refused(out, values::number(fault)),
        Ok(value) => {
            let at = answers::ok(out);
            let next = answers::text(out, at, b" value=");
            say_value(value, out, next)
        }
    }
}

fn say_value(value: Value, out: &mut [u8], at: usize) -> usize {
    match value {
        Value::Natural(n) => answers::number(out, at, n),
        Value::Negative(n) => {
            let next = answers::text(out, at, b"-");
            answers::number(out, next, std::num::wrapping_add_u64(n, 1))
        }
    }
}

// val.put KIND VALUE BUF
fn put(w: Words, line: &[u8], out: &mut [u8]) -> usize {
    let mut room = [0u8; words::MOST];
    let a = words::number(w, line, 255);
    let v = words::signed(a, line);
    let q = words::bytes(v, line, &mut room);
    if words::done(q, line) {
        let m = count(q.value, &room);
        put_now(byte(a.value), value_of(v), &mut room[..m], out)
    } else {
        answers::bad_line(out)
    }
}

fn put_now(kind: u8, value: Value, room: &mut [u8], out: &mut [u8]) -> usize {
    let at = was_put(values::write(kind, value, room), out);
    answers::buffer(out, at, room)
}

fn was_put(answer: Result<(), Fault>, out: &mut [u8]) -> usize {
    match answer {
        Err(fault) => answers::refused(out, values::number(fault)),
        Ok(()) => answers::ok(out),
    }
}

// The value that a signed word is; `-0` is 0.
pub fn value_of(w: Words) -> Value {
    let n = w.value;
    if w.minus {
        if 0 < n {
            return Value::Negative(n - 1);
        }
    }
    Value::Natural(n)
}

// cat TYPE REG
fn cat(w: Words, line: &[u8], out: &mut [u8]) -> usize {
    let a = words::number(w, line, 255);
    let b = words::number(a, line, 255);
    if words::done(b, line) {
        found(catalogue::find(byte(a.value), byte(b.value)), out)
    } else {
        answers::bad_line(out)
    }
}

fn found(answer: Result<Entry, catalogue::Fault>, out: &mut [u8]) -> usize {
    match answer {
        Err(fault) => answers::refused(out, catalogue::number(fault)),
        Ok(row) => entry(row, out),
    }
}

fn entry(row: Entry, out: &mut [u8]) -> usize {
    let at = answers::ok(out);
    let next = kind_and_right(row, out, at);
    let last = answers::field(out, next, b" lo=", row.lowest);
    answers::field(out, last, b" hi=", row.highest)
}

fn kind_and_right(row: Entry, out: &mut [u8], at: usize) -> usize {
    let next = answers::field(out, at, b" kind=", row.kind as u64);
    if row.writable {
        answers::field(out, next, b" write=", 1)
    } else {
        answers::field(out, next, b" write=", 0)
    }
}
