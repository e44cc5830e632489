// Numbers as an operator writes them in a word: decimal digits, or 0x and hex digits, and a minus
// before them or none. `specs/Numerals.antt` says what a word means.
#![tactic(auto)]

ghost use Rattle.std.specs.Prelude.{◌≡◌, ◌≤◌, cond};
ghost use Rattle.numerals.specs.Numerals.{Tells, Reads, Limits, digit_of, are_digits, worth, is_minus, unsigned_at, is_hex, base_of, figures_at, amount_of, amount_as, below, under};

use values::Value;

// The integer that a word is.
#[derive(Clone, Copy)]
pub enum Numeral {
    Is(Value),
    // a number whose digits 64 bits do not hold, and so one that no register holds
    Huge,
    // no number
    Nothing,
}

// Whether a word is a number.
pub fn is_number(word: &[u8]) -> bool
    ensures { Tells word.now result }
{
    let at = figures_at(word);
    if word.len() <= at {
        return false;
    }
    are_digits(&word[at..], base(word))
}

// The number that a word is.
pub fn read(word: &[u8]) -> Numeral
    ensures { Reads word.now result }
{
    if is_number(word) {
        match amount_of(word) {
            Some(size) => Numeral::Is(signed(is_minus(word), size)),
            None => Numeral::Huge,
        }
    } else {
        Numeral::Nothing
    }
}

// The number that a word is, if that is one from 0 to `most`; `most` and one more where it is not.
pub fn up_to(word: &[u8], most: u32) -> u64
    ensures { Limits most word.now result }
{
    let over = most as u64 + 1;
    // an arm each: tests/wrong/numerals/huge_told_as_0 is refused by Huge's
    match read(word) {
        Numeral::Is(value) => limited(value, over),
        Numeral::Huge => over,
        Numeral::Nothing => over,
    }
}

// A value under `over`; that number itself where it is not.
fn limited(value: Value, over: u64) -> u64
    ensures { result ≡ under over value }
{
    match value {
        Value::Natural(n) => { if n < over { n } else { over } }
        Value::Negative(_) => over,
    }
}

// The value of digits behind a minus, or without.
fn signed(minus: bool, size: u64) -> Value
    ensures { result ≡ cond minus (below size) (Value.Natural size) }
{
    if minus {
        if 0 < size {
            return Value::Negative(size - 1);
        }
    }
    Value::Natural(size)
}

fn is_minus(word: &[u8]) -> bool
    ensures { result ≡ is_minus word.now }
{
    0 < word.len() && word[0] == b'-'
}

// Where a word goes on behind its minus.
fn unsigned_at(word: &[u8]) -> usize
    ensures { (result ≡ unsigned_at word.now) × (result ≤ 1) }
{
    if is_minus(word) { 1 } else { 0 }
}

fn is_hex(word: &[u8]) -> bool
    ensures { result ≡ is_hex word.now }
{
    let at = unsigned_at(word);
    at + 1 < word.len() && word[at] == b'0' && word[at + 1] == b'x'
}

fn base(word: &[u8]) -> u64
    ensures { (result ≡ base_of word.now) × (10 ≤ result) × (result ≤ 16) }
{
    if is_hex(word) { 16 } else { 10 }
}

// Where the digits begin.
fn figures_at(word: &[u8]) -> usize
    ensures { result ≡ figures_at word.now }
{
    if is_hex(word) {
        unsigned_at(word) + 2
    } else {
        unsigned_at(word)
    }
}

// What a byte is as a digit; 16 where it is none.
fn digit(byte: u8) -> u64
    ensures { (result ≡ digit_of byte) × (result ≤ 16) }
{
    if byte < b'0' {
        return 16;
    }
    if byte <= b'9' {
        return (byte - b'0') as u64;
    }
    if byte < b'A' {
        return 16;
    }
    if byte <= b'F' {
        return (byte - b'A') as u64 + 10;
    }
    if byte < b'a' {
        return 16;
    }
    if byte <= b'f' {
        return (byte - b'a') as u64 + 10;
    }
    16
}

fn are_digits(figures: &[u8], base: u64) -> bool
    ensures { result ≡ are_digits base figures.now }
{
    figures.iter().all(|figure| digit(*figure) < base)
}

// How much the digits of a number are worth, `None` where 64 bits do not hold it.
fn amount_of(word: &[u8]) -> Option<u64>
    ensures { result ≡ amount_as (amount_of word.now) }
{
    let at = figures_at(word);
    if word.len() < at {
        return Some(0);
    }
    worth_of(&word[at..], base(word))
}

fn worth_of(figures: &[u8], base: u64) -> Option<u64>
    requires { (10 ≤ base) × (base ≤ 16) }
    ensures { result ≡ amount_as (worth base 0 figures.now) }
{
    let mut n: u64 = 0;
    for figure in figures {
        let d = digit(*figure);
        if (18446744073709551615 - d) / base < n {
            return None;
        }
        n = n * base + d;
    }
    Some(n)
}
