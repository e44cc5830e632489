// A bench for the C host: each call is the bench's own, told in numbers.
ghost use Rattle.kamzhor.specs.Bench.{GivesBench, GivesAdd, GivesSet, GivesTake, GivesRegister};
ghost use Rattle.kamzhor.specs.Bench.{build_given, build_told, take_given, take_told, register_given};
ghost use Rattle.std.specs.Prelude.{◌≡◌};

use bench::Bench;

// How long the reply is; a refusal means silence, and with 3 `place` is that of the first faulty 94.
#[repr(C)]
#[derive(Clone, Copy)]
pub struct TakeAnswer {
    pub refusal: u32,
    pub size: u64,
    pub place: u64,
}

// A register, where `held` is 1; else all is 0.
#[repr(C)]
#[derive(Clone, Copy)]
pub struct RegisterAnswer {
    pub held: u32,
    pub number: u8,
    pub kind: u8,
    pub rights: u8,
    pub value: u64,
}

#[repr(C)]
#[derive(Clone, Copy)]
pub struct AfterBenchBuild {
    pub bench: Bench,
    pub refusal: u32,
}

#[repr(C)]
#[derive(Clone, Copy)]
pub struct AfterBenchTake {
    pub bench: Bench,
    pub answer: TakeAnswer,
}

// A bench without registers.
#[unsafe(no_mangle)]
pub extern "C" fn kamzhor_bench_made(address: u8) -> AfterBenchBuild
    ensures { GivesBench address result }
{
    of_build(bench::make(address))
}

// Adds a register with the value 0.
#[unsafe(no_mangle)]
pub extern "C" fn kamzhor_after_bench_add(
    bench: Bench,
    number: u8,
    kind: u8,
    rights: u8,
) -> AfterBenchBuild
    ensures { GivesAdd bench number kind rights result }
{
    of_build(bench::add(bench, number, kind, rights))
}

// Sets a register, whatever its rights, to minus the magnitude where the sign is not 0.
#[unsafe(no_mangle)]
pub extern "C" fn kamzhor_after_bench_set(
    bench: Bench,
    number: u8,
    negative: u32,
    magnitude: u64,
) -> AfterBenchBuild
    ensures { GivesSet bench number negative magnitude result }
{
    of_build(bench::set(
        bench,
        number,
        crate::host_values::meant_value(negative, magnitude),
    ))
}

// A frame for the bench; its reply is in the room's first bytes.
#[unsafe(no_mangle)]
pub extern "C" fn kamzhor_after_bench_take(
    bench: Bench,
    frame: &[u8],
    room: &mut [u8],
) -> AfterBenchTake
    ensures { GivesTake bench frame.now room.old result room.new }
{
    of_take(bench::take(bench, frame, room))
}

// A register of the bench.
#[unsafe(no_mangle)]
pub extern "C" fn kamzhor_look_at_bench(bench: Bench, number: u8) -> RegisterAnswer
    ensures { GivesRegister bench number result }
{
    of_seen(bench::look(bench, number))
}

fn of_build(after: bench::AfterBuild) -> AfterBenchBuild
    ensures { result ≡ build_told after }
{
    let bench = after.bench;
    let answer = after.answer;
    AfterBenchBuild {
        bench,
        refusal: of_building(answer),
    }
}

fn of_building(answer: Result<(), bench::Fault>) -> u32
    ensures { result ≡ build_given answer }
{
    match answer {
        Err(fault) => bench::number(fault) as u32,
        Ok(()) => 0,
    }
}

fn of_take(after: bench::AfterTake) -> AfterBenchTake
    ensures { result ≡ take_told after }
{
    let bench = after.bench;
    let answer = after.answer;
    AfterBenchTake {
        bench,
        answer: of_taking(answer),
    }
}

fn of_taking(answer: Result<usize, bench::Fault>) -> TakeAnswer
    ensures { result ≡ take_given answer }
{
    match answer {
        Err(fault) => TakeAnswer {
            refusal: bench::number(fault) as u32,
            size: 0,
            place: bench::place(fault) as u64,
        },
        Ok(size) => TakeAnswer {
            refusal: 0,
            size: size as u64,
            place: 0,
        },
    }
}

fn of_seen(seen: Option<bench::Register>) -> RegisterAnswer
    ensures { result ≡ register_given seen }
{
    match seen {
        Some(register) => RegisterAnswer {
            held: 1,
            number: register.number,
            kind: register.kind,
            rights: register.rights,
            value: register.value,
        },
        None => RegisterAnswer {
            held: 0,
            number: 0,
            kind: 0,
            rights: 0,
            value: 0,
        },
    }
}
