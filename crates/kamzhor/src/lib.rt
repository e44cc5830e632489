// What a host in C calls; include/kamzhor.h is its side of this crate. Each call is thin over a
// proved function and passes that function's promise on: specs/ says how. The remainder, the readers
// and the receiver stand here, each other part of the library in a module of its own.
#![tactic(auto)]

pub mod host_bench;
pub mod host_box;
pub mod host_desk;
pub mod host_lanes;
pub mod host_scan;
pub mod host_sheet;
pub mod host_values;

ghost use Rattle.kamzhor.specs.Host.{GivesRemainder, GivesFrame, GivesValue, GivesReceiver, GivesStep};
ghost use Rattle.kamzhor.specs.Host.{frame_number, frame_given, value_number, value_found, is_small, no_line, line_kind, line_frame, step_given};
ghost use Rattle.values.specs.Values.{fault_number};
ghost use Rattle.std.specs.Prelude.{◌≡◌};

use receiver::Receiver;
use tally::Tally;

// A frame's reading. `refusal` is the paper's number, or 0 for a telegram; all else but `place` is 0
// where it is not 0. `sort` is the message type and `size` how many data bytes there are.
#[repr(C)]
#[derive(Clone, Copy)]
pub struct FrameAnswer {
    pub refusal: u32,
    pub destination: u8,
    pub source: u8,
    pub sort: u8,
    pub register: u8,
    pub size: u64,
    // With refusal 3 the place in the frame of the first faulty 94, the start byte's being 0; else 0.
    pub place: u64,
}

// A value: minus the magnitude where `negative` is 1, and the magnitude where it is 0. So every
// number of every kind arrives, the unsigned 64-bit ones too, and there is no minus 0.
#[repr(C)]
#[derive(Clone, Copy)]
pub struct ValueAnswer {
    pub refusal: u32,
    pub negative: u32,
    pub magnitude: u64,
}

// A step's outcome. `refusal` is 76 or 60 where the step was not done and none of the chunk was
// taken, or 0. `line` says what became of the frame whose line the last byte taken ended: 1 read,
// 2 refused, 3 dropped; 0 where none ended. `place` is that of the frame's 13, and `frame` what the
// line says of it. What is not said is 0.
#[repr(C)]
#[derive(Clone, Copy)]
pub struct StepAnswer {
    pub refusal: u32,
    pub line: u32,
    pub taken: u64,
    pub place: u64,
    pub frame: FrameAnswer,
    pub receiver: Receiver,
}

// The same with the tally afterwards.
#[derive(Clone, Copy)]
pub struct StepCounted {
    pub tally: Tally,
    pub answer: StepAnswer,
}

#[unsafe(no_mangle)]
pub extern "C" fn kamzhor_remainder(bytes: &[u8]) -> u16
    ensures { GivesRemainder bytes.now result }
{
    remainder::remainder(bytes)
}

// Reads a frame. Its data go into the room's first bytes; a refusal leaves all of it.
#[unsafe(no_mangle)]
pub extern "C" fn kamzhor_read_frame(frame: &[u8], room: &mut [u8]) -> FrameAnswer
    ensures { GivesFrame frame.now room.old result room.new }
{
    of_reading(telegram::read(frame, room))
}

// Reads the value of that kind at an element, counted from 0. No kind is cut down to a byte: 257
// is no kind, as 8 is none.
#[unsafe(no_mangle)]
pub extern "C" fn kamzhor_read_value(kind: u64, bytes: &[u8], element: u64) -> ValueAnswer
    ensures { GivesValue kind bytes.now element result }
{
    if 255 < kind {
        return refused(values::Fault::UnknownKind);
    }
    match values::read(kind as u8, bytes, element) {
        Err(fault) => refused(fault),
        Ok(value) => of_value(value),
    }
}

// A receiver before any byte, the next of which has that place.
#[unsafe(no_mangle)]
pub extern "C" fn kamzhor_receiver(place: u64) -> Receiver
    ensures { GivesReceiver place result }
{
    receiver::fresh(place)
}

// Takes the bytes of the chunk up to and including the one that ends the next line, or all of them
// where none does; what is left of it is for the next step. The tally that is lent is changed where
// it lies. A line that would carry its number past the most is refused, ahead of a chunk that would
// carry the place past the largest: then the step is not done, and the tally stays as it was.
#[unsafe(no_mangle)]
pub extern "C" fn kamzhor_step(receiver: Receiver, tally: &mut Tally, chunk: &[u8]) -> StepAnswer
    ensures { GivesStep receiver tally.old chunk.now result tally.new }
{
    let next = step_counted(*tally, receiver, chunk);
    *tally = next.tally;
    next.answer
}

// The same step, the tally in and back by value.
fn step_counted(tally: Tally, receiver: Receiver, chunk: &[u8]) -> StepCounted
    ensures { GivesStep receiver tally chunk.now result.answer result.tally }
{
    let counted = tally::count_step(tally, receiver, chunk);
    let after = counted.tally;
    let stepped = counted.stepped;
    StepCounted {
        tally: after,
        answer: of_step(stepped),
    }
}

fn of_reading(reading: Result<telegram::Fields, telegram::Fault>) -> FrameAnswer
    ensures { result ≡ frame_given reading }
{
    match reading {
        Err(fault) => frame_number(telegram::number(fault), telegram::place(fault)),
        Ok(t) => FrameAnswer {
            refusal: 0,
            destination: t.destination,
            source: t.source,
            sort: t.sort,
            register: t.register,
            size: t.size as u64,
            place: 0,
        },
    }
}

// A refusal's number and place, or 0 where there is nothing to say of a frame.
fn frame_number(refusal: u8, place: usize) -> FrameAnswer
    ensures { result ≡ frame_number refusal place }
{
    FrameAnswer {
        refusal: refusal as u32,
        destination: 0,
        source: 0,
        sort: 0,
        register: 0,
        size: 0,
        place: place as u64,
    }
}

fn refused(fault: values::Fault) -> ValueAnswer
    ensures { result ≡ value_number (fault_number fault) }
{
    ValueAnswer {
        refusal: values::number(fault) as u32,
        negative: 0,
        magnitude: 0,
    }
}

fn of_value(value: values::Value) -> ValueAnswer
    requires { is_small value }
    ensures { result ≡ value_found value }
{
    match value {
        values::Value::Natural(n) => ValueAnswer {
            refusal: 0,
            negative: 0,
            magnitude: n,
        },
        values::Value::Negative(below) => ValueAnswer {
            refusal: 0,
            negative: 1,
            magnitude: below + 1,
        },
    }
}

fn of_step(stepped: tally::Stepped) -> StepAnswer
    ensures { result ≡ step_given stepped }
{
    let receiver = stepped.receiver;
    let answer = stepped.answer;
    match answer {
        Ok(None) => no_line(receiver, stepped.taken, 0),
        Err(fault) => no_line(receiver, stepped.taken, tally::number(fault)),
        Ok(Some(line)) => {
            let event = line.event;
            StepAnswer {
                refusal: 0,
                line: kind_of(event),
                taken: stepped.taken as u64,
                place: line.place,
                frame: of_event(event),
                receiver,
            }
        }
    }
}

fn no_line(receiver: Receiver, taken: usize, refusal: u8) -> StepAnswer
    ensures { result ≡ no_line receiver taken refusal }
{
    StepAnswer {
        refusal: refusal as u32,
        line: 0,
        taken: taken as u64,
        place: 0,
        frame: frame_number(0, 0),
        receiver,
    }
}

fn kind_of(event: lines::Event) -> u32
    ensures { result ≡ line_kind event }
{
    match event {
        lines::Event::Read(_) => 1,
        lines::Event::Refused(_) => 2,
        lines::Event::Dropped => 3,
        lines::Event::Open => 4,
    }
}

// What a line says of its frame: what the frame reader would answer.
fn of_event(event: lines::Event) -> FrameAnswer
    ensures { result ≡ line_frame event }
{
    match event {
        lines::Event::Read(t) => of_reading(Ok(t)),
        lines::Event::Refused(fault) => of_reading(Err(fault)),
        lines::Event::Dropped => frame_number(0, 0),
        lines::Event::Open => frame_number(0, 0),
    }
}
