// An answer line, put together in a lent space: each call adds some text from a place on and
// answers the place after it. What does not fit is lost, and no answer is that long. A part of the
// test tool `rehearsal`.
#![tactic(auto)]

// A word as it is.
pub fn text(out: &mut [u8], at: usize, words: &[u8]) -> usize {
    lent::lay_at(words, out, at);
    std::num::wrapping_add_usize(at, words.len())
}

// A number in decimal.
pub fn number(out: &mut [u8], at: usize, n: u64) -> usize {
    let mut digits = [0u8; 20];
    let k = io::decimal(n, &mut digits);
    text(out, at, &digits[..k])
}

// A field: ` name=` and a number.
pub fn field(out: &mut [u8], at: usize, name: &[u8], n: u64) -> usize {
    let next = text(out, at, name);
    number(out, next, n)
}

// A comma between the entries of a list that starts at `from`.
pub fn comma(out: &mut [u8], from: usize, at: usize) -> usize {
    if at == from {
        return at;
    }
    text(out, at, b",")
}

// Bytes in hex, `-` for none.
pub fn hex(out: &mut [u8], at: usize, bytes: &[u8]) -> usize {
    if bytes.len() == 0 {
        return text(out, at, b"-");
    }
    let mut to = at;
    for byte in bytes {
        to = pair(out, to, *byte);
    }
    to
}

fn pair(out: &mut [u8], at: usize, byte: u8) -> usize {
    text(out, at, &[nibble(byte / 16), nibble(byte % 16)])
}

fn nibble(d: u8) -> u8 {
    let low = d % 16;
    if low < 10 {
        b'0' + low
    } else {
        b'a' - 10 + low
    }
}

// ` buf=` and the whole lent buffer.
pub fn buffer(out: &mut [u8], at: usize, bytes: &[u8]) -> usize {
    let next = text(out, at, b" buf=");
    hex(out, next, bytes)
}

pub fn ok(out: &mut [u8]) -> usize {
    text(out, 0, b"ok")
}

// A whole answer by its form, with the next number for each `#`.
pub fn form(out: &mut [u8], form: &[u8], numbers: &[u64]) -> usize {
    let mut at = 0;
    let mut left = numbers.iter();
    for byte in form {
        if *byte == b'#' {
            if let Some(n) = left.next() {
                at = number(out, at, *n);
            }
        } else {
            at = text(out, at, &[*byte]);
        }
    }
    at
}

pub fn refused(out: &mut [u8], n: u8) -> usize {
    field(out, 0, b"no ", n as u64)
}

// A refusal with the place that comes with number 3.
pub fn refused_at(out: &mut [u8], n: u8, place: usize) -> usize {
    let at = refused(out, n);
    if n == 3 {
        return field(out, at, b" place=", place as u64);
    }
    at
}

// A refusal with the count of addresses that comes with those of opening.
pub fn refused_count(out: &mut [u8], n: u8, count: u8) -> usize {
    let at = refused(out, n);
    field(out, at, b" count=", count as u64)
}

pub fn bad_line(out: &mut [u8]) -> usize {
    text(out, 0, b"bad line")
}
