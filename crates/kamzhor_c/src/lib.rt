// The static library that a host in C links: an export for each call of the crate kamzhor, with its
// clauses, that calls it and nothing else; include/kamzhor.h is its side of these. The remainder, the
// readers and the receiver stand here, each other part of the library in a module of its own.
#![tactic(auto)]

mod host_bench;
mod host_box;
mod host_desk;
mod host_lanes;
mod host_scan;
mod host_sheet;
mod host_values;

ghost use Rattle.kamzhor.specs.Host.{GivesRemainder, GivesFrame, GivesValue, GivesReceiver, GivesStep};

use kamzhor::{FrameAnswer, StepAnswer, ValueAnswer};
use receiver::Receiver;
use tally::Tally;

#[unsafe(no_mangle)]
pub extern "C" fn kamzhor_remainder(bytes: &[u8]) -> u16
    ensures { GivesRemainder bytes.now result }
{
    kamzhor::kamzhor_remainder(bytes)
}

// Reads a frame. Its data go into the room's first bytes; a refusal leaves all of it.
#[unsafe(no_mangle)]
pub extern "C" fn kamzhor_read_frame(frame: &[u8], room: &mut [u8]) -> FrameAnswer
    ensures { GivesFrame frame.now room.old result room.new }
{
    kamzhor::kamzhor_read_frame(frame, room)
}

// Reads the value of that kind at an element, counted from 0. No kind is cut down to a byte: 257
// is no kind, as 8 is none.
#[unsafe(no_mangle)]
pub extern "C" fn kamzhor_read_value(kind: u64, bytes: &[u8], element: u64) -> ValueAnswer
    ensures { GivesValue kind bytes.now element result }
{
    kamzhor::kamzhor_read_value(kind, bytes, element)
}

// A receiver before any byte, the next of which has that place.
#[unsafe(no_mangle)]
pub extern "C" fn kamzhor_receiver(place: u64) -> Receiver
    ensures { GivesReceiver place result }
{
    kamzhor::kamzhor_receiver(place)
}

// Takes the bytes of the chunk up to and including the one that ends the next line, or all of them
// where none does; what is left of it is for the next step. The tally that is lent is changed where
// it lies. A line that would carry its number past the most is refused, ahead of a chunk that would
// carry the place past the largest: then the step is not done, and the tally stays as it was.
#[unsafe(no_mangle)]
pub extern "C" fn kamzhor_step(receiver: Receiver, tally: &mut Tally, chunk: &[u8]) -> StepAnswer
    ensures { GivesStep receiver tally.old chunk.now result tally.new }
{
    kamzhor::kamzhor_step(receiver, tally, chunk)
}
