// The exports of the bench.
ghost use Rattle.kamzhor.specs.Bench.{GivesBench, GivesAdd, GivesSet, GivesTake, GivesRegister};

use bench::Bench;
use kamzhor::host_bench::{AfterBenchBuild, AfterBenchTake, RegisterAnswer};

// A bench without registers.
#[unsafe(no_mangle)]
pub extern "C" fn kamzhor_bench_made(address: u8) -> AfterBenchBuild
    ensures { GivesBench address result }
{
    kamzhor::host_bench::kamzhor_bench_made(address)
}

// Adds a register with the value 0.
#[unsafe(no_mangle)]
pub extern "C" fn kamzhor_after_bench_add(
    bench: Bench,
    number: u8,
    kind: u8,
    rights: u8,
) -> AfterBenchBuild
    ensures { GivesAdd bench number kind rights result }
{
    kamzhor::host_bench::kamzhor_after_bench_add(bench, number, kind, rights)
}

// Sets a register, whatever its rights, to minus the magnitude where the sign is not 0.
#[unsafe(no_mangle)]
pub extern "C" fn kamzhor_after_bench_set(
    bench: Bench,
    number: u8,
    negative: u32,
    magnitude: u64,
) -> AfterBenchBuild
    ensures { GivesSet bench number negative magnitude result }
{
    kamzhor::host_bench::kamzhor_after_bench_set(bench, number, negative, magnitude)
}

// A frame for the bench; its reply is in the room's first bytes.
#[unsafe(no_mangle)]
pub extern "C" fn kamzhor_after_bench_take(
    bench: Bench,
    frame: &[u8],
    room: &mut [u8],
) -> AfterBenchTake
    ensures { GivesTake bench frame.now room.old result room.new }
{
    kamzhor::host_bench::kamzhor_after_bench_take(bench, frame, room)
}

// A register of the bench.
#[unsafe(no_mangle)]
pub extern "C" fn kamzhor_look_at_bench(bench: Bench, number: u8) -> RegisterAnswer
    ensures { GivesRegister bench number result }
{
    kamzhor::host_bench::kamzhor_look_at_bench(bench, number)
}
