// What the library does with register values that no call line of `rehearsal` asks for, one call a
// line: each line of standard input is written out again, with what the library answers. The file
// `stdout` was worked out from the paper by tests/vectors/values.py, which has its own reading of the
// paper's rules. A line that does not read as below is called bad.
//
//     keep KIND VALUE             the stored form of a value
//     size KIND
//     load BYTES
//     fill NUMBER SIZE ROOM       so many bytes of a number stored into the first ROOM of ten
//     mask NUMBER MASK            set, cleared and toggled
//     bit NUMBER PLACE
#![tactic(auto)]

use values::{Fault, Value};
use words::{Words, byte, count};

const STDIN_FILENO: i32 = 0;

const STDOUT_FILENO: i32 = 1;

fn say(text: &[u8]) {
    io::write_all(STDOUT_FILENO, text);
}

fn say_number(n: u64) {
    io::print_decimal(STDOUT_FILENO, n);
}

fn say_byte(byte: u8) {
    io::print_hex(STDOUT_FILENO, byte as u64, 2);
}

fn say_bytes(bytes: &[u8]) {
    for byte in bytes {
        say_byte(*byte);
    }
}

fn say_fault(fault: Fault) {
    say(b"no ");
    say_number(values::number(fault) as u64);
}

// Takes the next word as a value. `words` stops at 2^63 below 0, and the lowest value of all has
// 2^64, which is 0 here.
fn take_value(w: Words, line: &[u8]) -> Words {
    let v = words::signed(w, line);
    if words::is(v, line, b"-18446744073709551616") {
        let mut lowest = words::word(w, line);
        lowest.minus = true;
        return lowest;
    }
    v
}

// The value that such a word is.
fn value(v: Words) -> Value {
    if v.minus {
        return Value::Negative(std::num::wrapping_sub_u64(v.value, 1));
    }
    Value::Natural(v.value)
}

fn keep(w: Words, line: &[u8]) -> Words {
    let a = words::number(w, line, 255);
    let v = take_value(a, line);
    match values::as_stored(byte(a.value), value(v)) {
        Ok(number) => say_number(number),
        Err(fault) => say_fault(fault),
    }
    v
}

fn size(w: Words, line: &[u8]) -> Words {
    let a = words::number(w, line, 255);
    say_number(values::size(byte(a.value)) as u64);
    a
}

fn load(w: Words, line: &[u8]) -> Words {
    let mut space = [0u8; 32];
    let p = words::bytes(w, line, &mut space);
    let n = count(p.value, &space);
    say_number(values::load(&space[..n]));
    p
}

fn fill_in(w: Words, line: &[u8], ten: &mut [u8]) -> Words {
    let a = words::number(w, line, u64::MAX);
    let b = words::number(a, line, u64::MAX);
    let q = words::number(b, line, 10);
    let n = count(q.value, ten);
    values::store(a.value, b.value as usize, &mut ten[..n]);
    q
}

fn fill(w: Words, line: &[u8]) -> Words {
    let mut space = [0xaau8; 10];
    let ten: &mut [u8] = &mut space;
    let end = fill_in(w, line, ten);
    say_bytes(ten);
    end
}

fn mask(w: Words, line: &[u8]) -> Words {
    let a = words::number(w, line, u64::MAX);
    let b = words::number(a, line, u64::MAX);
    say(b"set ");
    say_number(values::set_bits(a.value, b.value));
    say(b" clear ");
    say_number(values::clear_bits(a.value, b.value));
    say(b" toggle ");
    say_number(values::toggle_bits(a.value, b.value));
    b
}

fn bit(w: Words, line: &[u8]) -> Words {
    let a = words::number(w, line, u64::MAX);
    let b = words::number(a, line, 255);
    if values::bit(a.value, byte(b.value)) {
        say(b"1");
    } else {
        say(b"0");
    }
    b
}

fn answer(line: &[u8]) {
    say(line);
    say(b": ");
    if words::done(call(words::word(words::start(), line), line), line) {
        say(b"\n");
    } else {
        say(b" bad line\n");
    }
}

// The first letter tells the call. Answers how far it read the line.
fn call(w: Words, line: &[u8]) -> Words {
    if line.len() == 0 {
        return words::start();
    }
    match line[0] {
        b'k' => keep(w, line),
        b's' => size(w, line),
        b'l' => load(w, line),
        b'f' => fill(w, line),
        b'm' => mask(w, line),
        b'b' => bit(w, line),
        _ => words::start(),
    }
}

fn answer_all(text: &[u8]) {
    for line in text.split_inclusive(|byte| *byte == b'\n') {
        answer(line.strip_suffix(b"\n").unwrap_or(line));
    }
}

fn main() {
    let mut buffer = io::large_buffer();
    let n = io::read_full(STDIN_FILENO, &mut buffer);
    answer_all(&buffer[..n]);
}
