// The words of a call line: parted by one blank, numbers in decimal, bytes in lower-case hex with
// `-` for none. The parts of a word that is a list are taken in the same way, with another byte
// between them. A part of the test tool `rehearsal`, and of test programs whose calls are lines.
#![tactic(auto)]

ghost use Rattle.io.specs.Counts.{IsPrefixLen};
ghost use Rattle.std.specs.Prelude.{◌≡◌, ◌+◌, ◌*◌, ◌≤◌, max, true, length};

// The most bytes that a word of a line can hold: a line has at most 65536 characters.
pub const MOST: usize = 32768;

// In place of how many bytes a word holds, where it does not hold bytes: no word holds so many.
const NO_BYTES: u64 = 18446744073709551615;

// How far a line was read. `at` is where the next word starts, one past the line's end once its
// last word was taken; `good` turns false for good when a word is missing or does not parse. Then
// what the last word was: its place, or its number and sign. `between` is the byte between words.
#[derive(Clone, Copy)]
pub struct Words {
    pub at: usize,
    pub good: bool,
    pub from: usize,
    pub to: usize,
    pub value: u64,
    pub minus: bool,
    pub between: u8,
}

pub fn start() -> Words {
    parts(b' ')
}

// The same for parts that this byte stands between.
pub fn parts(between: u8) -> Words {
    Words {
        at: 0,
        good: true,
        from: 0,
        to: 0,
        value: 0,
        minus: false,
        between: between,
    }
}

// Whether every word parsed and the line has no more.
pub fn done(w: Words, line: &[u8]) -> bool {
    let at = w.at;
    if w.good { line.len() < at } else { false }
}

// Takes the next word, whatever it is.
pub fn word(w: Words, line: &[u8]) -> Words {
    let from = w.at;
    if line.len() < from {
        return bad(w);
    }
    let to = seek(line, from, w.between);
    Words {
        at: std::num::wrapping_add_usize(to, 1),
        good: w.good,
        from: from,
        to: to,
        value: 0,
        minus: false,
        between: w.between,
    }
}

// Takes the next word as a number of at most `most`.
pub fn number(w: Words, line: &[u8], most: u64) -> Words {
    let next = word(w, line);
    digits(next, line, next.from, most)
}

// Takes the next word as a number that may be below 0: `value` is then what it is below 0 by.
pub fn signed(w: Words, line: &[u8]) -> Words {
    let next = word(w, line);
    let from = next.from;
    let minus = starts_with_minus(next, line);
    if minus {
        let after = std::num::wrapping_add_usize(from, 1);
        let mut n = digits(next, line, after, 9223372036854775808);
        n.minus = true;
        n
    } else {
        digits(next, line, from, 18446744073709551615)
    }
}

// Takes the next word as bytes, into the room's first places. `value` is how many there are.
pub fn bytes(w: Words, line: &[u8], room: &mut [u8]) -> Words {
    let next = word(w, line);
    let word = taken(next, line);
    if is_dash(word) {
        return next;
    }
    let count = unhex(word, room);
    if count < NO_BYTES {
        with_value(next, count)
    } else {
        bad(next)
    }
}

// The word last taken; nothing where it is not in the line.
pub fn taken(w: Words, line: &[u8]) -> &[u8] {
    let from = w.from;
    let to = w.to;
    if to <= line.len() {
        if from <= to {
            return &line[from..to];
        }
    }
    &line[0..0]
}

// Whether the word last taken is this one.
pub fn is(w: Words, line: &[u8], name: &[u8]) -> bool {
    check::same(taken(w, line), name)
}

// Whether the word last taken begins with this.
pub fn starts(w: Words, line: &[u8], with: &[u8]) -> bool {
    let word = taken(w, line);
    let end = with.len();
    if end <= word.len() {
        return check::same(&word[0..end], with);
    }
    false
}

// Whether a word is the `-` that stands for none.
pub fn is_dash(word: &[u8]) -> bool {
    if word.len() == 1 {
        return word[0] == b'-';
    }
    false
}

// A parsed number of at most 255 as the byte that it is.
pub fn byte(value: u64) -> u8 {
    (value % 256) as u8
}

// A parsed number of at most 32 bits as the number that it is.
pub fn word32(value: u64) -> u32 {
    (value % 4294967296) as u32
}

// A parsed count of the space's bytes, which is never over the space. It takes the space and not
// its length so that a part of that length needs no proof of its own.
pub fn count(value: u64, space: &[u8]) -> usize
    ensures { IsPrefixLen result space.now }
{
    let n = value as usize;
    if n < space.len() { n } else { space.len() }
}

// Where the next such byte is from a place on, or the end.
pub fn seek(bytes: &[u8], from: usize, byte: u8) -> usize
    ensures { (from ≤ result) × (result ≤ max from (length bytes.now)) }
{
    let Some(rest) = bytes.get(from..) else {
        return from;
    };
    match rest.iter().position(|b| *b == byte) {
        Some(ahead) => from + ahead,
        None => bytes.len(),
    }
}

fn bad(w: Words) -> Words {
    let mut next = w;
    next.good = false;
    next
}

fn with_value(w: Words, value: u64) -> Words {
    let mut next = w;
    next.value = value;
    next
}

fn starts_with_minus(w: Words, line: &[u8]) -> bool {
    let from = w.from;
    if from < line.len() {
        line[from] == b'-'
    } else {
        false
    }
}

// The decimal number from a place to the word's end, as its value.
fn digits(w: Words, line: &[u8], from: usize, most: u64) -> Words {
    let Some(word) = line.get(from..w.to) else {
        return bad(w);
    };
    if word.is_empty() {
        return bad(w);
    }
    let mut value: u64 = 0;
    for byte in word {
        let d = digit(*byte);
        if fits(value, d, most) {
            value = value * 10 + d;
        } else {
            return bad(w);
        }
    }
    with_value(w, value)
}

// The digit that a byte is, or 10.
fn digit(byte: u8) -> u64 {
    if byte < b'0' {
        return 10;
    }
    if b'9' < byte {
        return 10;
    }
    (byte - b'0') as u64
}

// Whether the number goes on with a digit and stays at most `most`.
fn fits(value: u64, d: u64, most: u64) -> bool
    ensures { result ≡ true → value * 10 + d ≤ most }
{
    if 9 < d {
        return false;
    }
    if most < d {
        return false;
    }
    value <= (most - d) / 10
}

// The bytes that pairs of hex digits stand for, into the room's first places; how many, or
// `NO_BYTES` where it is no such text or there is no room.
fn unhex(word: &[u8], room: &mut [u8]) -> u64 {
    let (pairs, odd) = word.as_chunks::<2>();
    if !odd.is_empty() {
        return NO_BYTES;
    }
    if pairs.is_empty() {
        return NO_BYTES;
    }
    if room.len() < pairs.len() {
        return NO_BYTES;
    }
    for (place, pair) in room.iter_mut().zip(pairs) {
        let high = nibble(pair[0]);
        let low = nibble(pair[1]);
        if 15 < high {
            return NO_BYTES;
        }
        if 15 < low {
            return NO_BYTES;
        }
        *place = high * 16 + low;
    }
    pairs.len() as u64
}

// The hex digit that a byte is, or 16.
fn nibble(byte: u8) -> u8
    ensures { result ≤ 16 }
{
    if byte < b'0' {
        return 16;
    }
    if byte <= b'9' {
        return byte - b'0';
    }
    if byte < b'a' {
        return 16;
    }
    if byte <= b'f' {
        return byte - b'a' + 10;
    }
    16
}
