// The calls `rem`, `read` and `write`. A part of the test tool `rehearsal`.
#![tactic(auto)]

use telegram::{Fault, Fields};
use words::{Words, byte, count};

// rem BYTES
pub fn rem(w: Words, line: &[u8], out: &mut [u8]) -> usize {
    let mut space = [0u8; words::MOST];
    let p = words::bytes(w, line, &mut space);
    if words::done(p, line) {
        let n = count(p.value, &space);
        let at = answers::ok(out);
        answers::field(out, at, b" rem=", remainder::remainder(&space[..n]) as u64)
    } else {
        answers::bad_line(out)
    }
}

// read FRAME BUF
pub fn read(w: Words, line: &[u8], out: &mut [u8]) -> usize {
    let mut frame = [0u8; words::MOST];
    let mut room = [0u8; words::MOST];
    let p = words::bytes(w, line, &mut frame);
    let q = words::bytes(p, line, &mut room);
    if words::done(q, line) {
        let n = count(p.value, &frame);
        let m = count(q.value, &room);
        read_now(&frame[..n], &mut room[..m], out)
    } else {
        answers::bad_line(out)
    }
}

fn read_now(frame: &[u8], room: &mut [u8], out: &mut [u8]) -> usize {
    let at = read_fields(telegram::read(frame, room), out);
    answers::buffer(out, at, room)
}

fn read_fields(answer: Result<Fields, Fault>, out: &mut [u8]) -> usize {
    match answer {
        Err(fault) => answers::refused_at(out, telegram::number(fault), telegram::place(fault)),
        Ok(t) => fields(t, out),
    }
}

fn fields(t: Fields, out: &mut [u8]) -> usize {
    let at = addresses(t, out);
    let next = answers::field(out, at, b" type=", t.sort as u64);
    let last = answers::field(out, next, b" reg=", t.register as u64);
    answers::field(out, last, b" n=", t.size as u64)
}

fn addresses(t: Fields, out: &mut [u8]) -> usize {
    let at = answers::ok(out);
    let next = answers::field(out, at, b" dest=", t.destination as u64);
    answers::field(out, next, b" src=", t.source as u64)
}

// write DEST SRC TYPE REG DATA BUF
pub fn write(w: Words, line: &[u8], out: &mut [u8]) -> usize {
    let mut data = [0u8; words::MOST];
    let mut room = [0u8; words::MOST];
    let f = take_four(w, line);
    let p = words::bytes(f.words, line, &mut data);
    let q = words::bytes(p, line, &mut room);
    if words::done(q, line) {
        let n = count(p.value, &data);
        let m = count(q.value, &room);
        write_now(f, &data[..n], &mut room[..m], out)
    } else {
        answers::bad_line(out)
    }
}

// The four fields that a telegram begins with, and the words behind them.
#[derive(Clone, Copy)]
struct Four {
    words: Words,
    destination: u8,
    source: u8,
    sort: u8,
    register: u8,
}

fn take_four(w: Words, line: &[u8]) -> Four {
    let a = words::number(w, line, 255);
    let b = words::number(a, line, 255);
    let c = words::number(b, line, 255);
    let d = words::number(c, line, 255);
    Four {
        words: d,
        destination: byte(a.value),
        source: byte(b.value),
        sort: byte(c.value),
        register: byte(d.value),
    }
}

fn write_now(f: Four, data: &[u8], room: &mut [u8], out: &mut [u8]) -> usize {
    let answer = telegram::write(f.destination, f.source, f.sort, f.register, data, room);
    let at = written(answer, out);
    answers::buffer(out, at, room)
}

fn written(answer: Result<usize, Fault>, out: &mut [u8]) -> usize {
    match answer {
        Err(fault) => answers::refused(out, telegram::number(fault)),
        Ok(n) => {
            let at = answers::ok(out);
            answers::field(out, at, b" n=", n as u64)
        }
    }
}
