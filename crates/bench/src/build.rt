// Building a bench: make it, add registers, set a register to a number of its kind.
ghost use Rattle.bench.specs.Build.{Makes, Adds, Sets};
ghost use Rattle.std.specs.Prelude.{◌≡◌, Err};

use crate::{AfterBuild, Bench, Fault, held};

fn refused(bench: Bench, fault: Fault) -> AfterBuild
    ensures { (result.answer ≡ Err fault) × (result.bench ≡ bench) }
{
    AfterBuild {
        bench,
        answer: Err(fault),
    }
}

// Makes a bench at an address, with no registers. Where it is refused, the bench that comes back
// has address 0, which no telegram is for.
pub fn make(address: u8) -> AfterBuild
    ensures { Makes address result }
{
    if address == 0 || 160 < address {
        return refused(held::empty(0), Fault::NotAModule);
    }
    AfterBuild {
        bench: held::empty(address),
        answer: Ok(()),
    }
}

// Adds a register, with the value 0.
pub fn add(bench: Bench, number: u8, kind: u8, rights: u8) -> AfterBuild
    ensures { Adds bench number kind rights result }
{
    if values::size(kind) == 0 {
        return refused(bench, Fault::WrongKind);
    }
    if 7 < rights {
        return refused(bench, Fault::WrongRights);
    }
    if held::find(bench, number).is_some() {
        return refused(bench, Fault::AlreadyThere);
    }
    if 32 <= bench.count {
        return refused(bench, Fault::Full);
    }
    AfterBuild {
        bench: held::with_register(bench, number, kind, rights),
        answer: Ok(()),
    }
}

// Sets a held register to a number of its kind, whatever the rights.
pub fn set(bench: Bench, number: u8, value: values::Value) -> AfterBuild
    ensures { Sets bench number value result }
{
    let Some(place) = held::find(bench, number) else {
        return refused(bench, Fault::NotHeld);
    };
    let register = held::register_at(bench, place);
    let Ok(stored) = values::as_stored(register.kind, value) else {
        return refused(bench, Fault::DoesNotFit);
    };
    AfterBuild {
        bench: held::with_value(bench, place, stored),
        answer: Ok(()),
    }
}
