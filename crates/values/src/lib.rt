// Register values: the seven kinds of number that a register holds, their bytes, and bit writes.
// `specs/Values.antt` says what each call answers.
#![tactic(auto)]

ghost use Rattle.std.specs.Prelude.{◌≡◌, ◌*◌, ◌-◌, ◌^◌, ◌≤◌, ◌<◌};
ghost use Rattle.values.specs.Values.{Numbers, Sizes, Loads, Stores, Keeps, Reads, Writes, Sets, Clears, Toggles, TestsBit, size_of, is_signed, value_at, greatest};

// An integer from -2^63 to 2^64 - 1, each in one form only. (A `Negative` can hold numbers below
// that too; no kind takes them.)
#[derive(Clone, Copy)]
pub enum Value {
    // The number itself.
    Natural(u64),
    // One less than the number's negative: Negative(0) is -1, so there is no second zero.
    Negative(u64),
}

// Why a value could not be read or written.
#[derive(Clone, Copy)]
pub enum Fault {
    UnknownKind,
    WrongLength,
    NoSuchElement,
    DoesNotFit,
    ShortBuffer,
}

// The paper's number of a refusal.
pub fn number(fault: Fault) -> u8
    ensures { Numbers fault result }
{
    match fault {
        Fault::UnknownKind => 40,
        Fault::WrongLength => 41,
        Fault::NoSuchElement => 42,
        Fault::DoesNotFit => 43,
        Fault::ShortBuffer => 44,
    }
}

// By kind, from 0 on: 0 is no kind.
const SIZES: [usize; 8] = [0, 1, 1, 2, 2, 4, 4, 8];

const SIGNED: [bool; 8] = [false, false, true, false, true, false, true, false];

// How many bytes a value of that kind takes; 0 where there is no such kind.
pub fn size(kind: u8) -> usize
    ensures { Sizes kind result }
{
    let at = kind as usize;
    if at < 8 { SIZES[at] } else { 0 }
}

// Whether the kind has numbers below 0.
fn signed(kind: u8) -> bool
    ensures { result ≡ is_signed kind }
{
    let at = kind as usize;
    at < 8 && SIGNED[at]
}

fn wide(byte: u8) -> u64
    ensures { result ≡ byte }
{
    byte as u64
}

// The number that the first 8 bytes are, lowest first; of fewer, the number that they are.
pub fn load(bytes: &[u8]) -> u64
    ensures { Loads bytes.now result }
{
    let mut value: u64 = 0;
    for at in (0..bytes.len().min(8)).rev() {
        value = value * 256 + wide(bytes[at]);
    }
    value
}

// Puts the lowest `size` bytes of the value, lowest first, over the room's first places, as many
// of them as there is room for. The rest stays.
pub fn store(value: u64, size: usize, room: &mut [u8])
    ensures { Stores value size room.old room.new }
{
    let mut rest = value;
    let n = size.min(room.len());
    for byte in &mut room[..n] {
        *byte = (rest % 256) as u8;
        rest /= 256;
    }
}

// Half as many as the numbers that so many bytes can hold.
fn half(size: usize) -> u64
    requires { (0 < size) × (size ≤ 8) }
    ensures { result ≡ 2 ^ (8 * size - 1) }
{
    1u64 << (8 * size - 1)
}

// The value of bytes that are this number.
fn value_at(signed: bool, size: usize, number: u64) -> Value
    requires { (0 < size) × (size ≤ 8) × (number < 2 ^ (8 * size)) }
    ensures { result ≡ value_at signed size number }
{
    if signed {
        let middle = half(size);
        if number < middle {
            Value::Natural(number)
        } else {
            Value::Negative(middle - 1 - (number - middle))
        }
    } else {
        Value::Natural(number)
    }
}

// The greatest number that the kind holds.
fn highest(kind: u8) -> u64
    requires { 0 < size_of kind }
    ensures { result ≡ greatest kind }
{
    let middle = half(size(kind));
    if signed(kind) {
        middle - 1
    } else {
        middle - 1 + middle
    }
}

// The number whose lowest bytes a register of that kind holds for this value.
pub fn as_stored(kind: u8, value: Value) -> Result<u64, Fault>
    ensures { Keeps kind value result }
{
    if size(kind) == 0 {
        return Err(Fault::UnknownKind);
    }
    let top = highest(kind);
    match value {
        Value::Natural(number) => {
            if number <= top {
                return Ok(number);
            }
        }
        Value::Negative(below) => {
            if signed(kind) && below <= top {
                return Ok(top + 1 + (top - below));
            }
        }
    }
    Err(Fault::DoesNotFit)
}

// The value of that kind at an element, counted from 0, of a register's bytes.
pub fn read(kind: u8, bytes: &[u8], element: u64) -> Result<Value, Fault>
    ensures { Reads kind bytes.now element result }
{
    let n = size(kind);
    if n == 0 {
        return Err(Fault::UnknownKind);
    }
    let len = bytes.len();
    if len == 0 || len % n != 0 {
        return Err(Fault::WrongLength);
    }
    let k = element as usize;
    if len / n <= k {
        return Err(Fault::NoSuchElement);
    }
    let at = k * n;
    let number = load(&bytes[at..at + n]);
    Ok(value_at(signed(kind), n, number))
}

// Puts the value's bytes over the room's first places. The rest stays, and of a refusal all.
pub fn write(kind: u8, value: Value, room: &mut [u8]) -> Result<(), Fault>
    ensures { Writes kind value room.old result room.new }
{
    let number = as_stored(kind, value)?;
    let n = size(kind);
    if room.len() < n {
        return Err(Fault::ShortBuffer);
    }
    store(number, n, room);
    Ok(())
}

// `v` with a one wherever the mask has one.
pub fn set_bits(v: u64, mask: u64) -> u64
    ensures { Sets v mask result }
{
    v | mask
}

// `v` with a zero wherever the mask has a one.
pub fn clear_bits(v: u64, mask: u64) -> u64
    ensures { Clears v mask result }
{
    v & !mask
}

// `v` with each bit inverted where the mask has a one.
pub fn toggle_bits(v: u64, mask: u64) -> u64
    ensures { Toggles v mask result }
{
    v ^ mask
}

// Whether the bit at a place, 0 the lowest, is a one. Places from 64 on have none.
pub fn bit(v: u64, place: u8) -> bool
    ensures { TestsBit v place result }
{
    place < 64 && (v >> place) % 2 == 1
}
