// The registers that a bench holds. Nothing else touches its array.
ghost use Rattle.bench.specs.Register.{Looks, empty_bench, register_at, held_count, found, with_value};
ghost use Rattle.bench.specs.Build.{with_register};
ghost use Rattle.std.specs.Prelude.{◌≡◌, ◌<◌};

use crate::Bench;
use deeds::Register;

// The most registers that a bench holds.
pub const MOST: usize = 32;

const NOTHING: Register = Register {
    number: 0,
    kind: 0,
    rights: 0,
    value: 0,
};

// A bench at an address that holds nothing yet.
pub(crate) fn empty(address: u8) -> Bench
    ensures { result ≡ empty_bench address }
{
    Bench {
        address,
        count: 0,
        registers: [NOTHING; MOST],
    }
}

// How many registers are held. A count that no call made means all of them.
fn held_count(bench: Bench) -> usize
    ensures { result ≡ held_count bench }
{
    let n = bench.count as usize;
    if n < MOST { n } else { MOST }
}

pub(crate) fn register_at(bench: Bench, place: usize) -> Register
    requires { place < 32 }
    ensures { result ≡ register_at bench place }
{
    bench.registers[place]
}

// Looks for a register among those held.
pub(crate) fn find(bench: Bench, number: u8) -> Option<usize>
    ensures { result ≡ found bench number }
{
    let held = &bench.registers[..held_count(bench)];
    held.iter().position(|register| register.number == number)
}

// The bench with one register more, behind those that it holds.
pub(crate) fn with_register(mut bench: Bench, number: u8, kind: u8, rights: u8) -> Bench
    requires { bench.count < 32 }
    ensures { result ≡ with_register bench number kind rights }
{
    let place = bench.count as usize;
    bench.registers[place] = Register {
        number,
        kind,
        rights,
        value: 0,
    };
    bench.count += 1;
    bench
}

// The bench with another value in a register.
pub(crate) fn with_value(mut bench: Bench, place: usize, value: u64) -> Bench
    requires { place < 32 }
    ensures { result ≡ with_value bench place value }
{
    let old = register_at(bench, place);
    bench.registers[place] = Register {
        number: old.number,
        kind: old.kind,
        rights: old.rights,
        value,
    };
    bench
}

// A register as it is, for the tester.
pub fn look(bench: Bench, number: u8) -> Option<Register>
    ensures { Looks bench number result }
{
    let place = find(bench, number)?;
    Some(register_at(bench, place))
}
