// The receiver, step by step.
ghost use Rattle.receiver.specs.Receiver.{Tests, Starts, Steps, step_from, opened_at, stepped};
ghost use Rattle.receiver.specs.Parts.{Fits, Held, passed_by, size_by, grown_by, closed_by};
ghost use Rattle.listing.specs.Events.{placed, read_event, frame_event};
ghost use Rattle.std.specs.Prelude.{◌≡◌, ◌<◌, ◌≤◌, ◌+◌, Ok, Some};

use crate::seek::{next_end, next_start};
use crate::{Fault, MOST_KEPT, Receiver, Stepped};
use frame::START;
use lines::{Event, Placed};
use telegram::MOST_DATA;

// The largest place.
const LARGEST: u64 = 18446744073709551615;

// A receiver before any byte, the next of which has that place.
pub fn fresh(place: u64) -> Receiver
    ensures { Starts place result }
{
    Receiver {
        place,
        start: 0,
        size: 0,
        bytes: [0u8; MOST_KEPT],
    }
}

// Takes the bytes of the chunk up to and including the one that ends the next line, or all of them
// where none does. A chunk that would carry the place past the largest is refused, and none of it
// is taken. What is left of a chunk is for the next step.
pub fn step(receiver: Receiver, chunk: &[u8]) -> Stepped
    ensures { Steps receiver chunk.now result }
{
    if carries_past(receiver.place, chunk) {
        return Stepped {
            receiver,
            taken: 0,
            answer: Err(Fault::PastLargest),
        };
    }
    advance(receiver, chunk)
}

// Whether a step would refuse the chunk, where the next byte has that place: it would carry the
// place past the largest. For whoever takes a chunk by steps and must know beforehand.
pub fn carries_past(place: u64, chunk: &[u8]) -> bool
    ensures { Tests place chunk.now result }
{
    LARGEST - place < chunk.len() as u64
}

// A step over a chunk that is not refused.
fn advance(receiver: Receiver, chunk: &[u8]) -> Stepped
    requires { Fits receiver.place chunk.now }
    ensures { result ≡ step_from receiver chunk.now }
{
    if receiver.size == 0 {
        return outside(receiver, chunk);
    }
    inside(receiver, chunk)
}

// Outside a frame bytes are passed over. A frame that lies whole in the chunk is read there.
fn outside(receiver: Receiver, chunk: &[u8]) -> Stepped
    requires { Fits receiver.place chunk.now × (receiver.size ≡ 0) }
    ensures { result ≡ step_from receiver chunk.now }
{
    let at = next_start(chunk);
    if chunk.len() <= at {
        return Stepped {
            receiver: passed(receiver, at),
            taken: at,
            answer: Ok(None),
        };
    }
    let start = receiver.place + at as u64;
    let end = next_end(chunk, at + 1);
    if chunk.len() <= end {
        return Stepped {
            receiver: grown(opened(start), &chunk[at + 1..end]),
            taken: end,
            answer: Ok(None),
        };
    }
    let here = receiver.place + end as u64;
    if chunk[end] == START {
        return ended(opened(here), end + 1, start, Event::Dropped);
    }
    ended(fresh(here + 1), end + 1, start, read(&chunk[at..end + 1]))
}

// Inside a frame its bytes are kept, up to its end.
fn inside(receiver: Receiver, chunk: &[u8]) -> Stepped
    requires { Fits receiver.place chunk.now × (0 < receiver.size) × Held receiver }
    ensures { result ≡ step_from receiver chunk.now }
{
    let end = next_end(chunk, 0);
    if chunk.len() <= end {
        return Stepped {
            receiver: grown(receiver, chunk),
            taken: end,
            answer: Ok(None),
        };
    }
    let here = receiver.place + end as u64;
    if chunk[end] == START {
        return ended(opened(here), end + 1, receiver.start, Event::Dropped);
    }
    let event = closing(receiver, &chunk[0..end + 1]);
    ended(fresh(here + 1), end + 1, receiver.start, event)
}

// The last byte taken ended a line.
fn ended(receiver: Receiver, taken: usize, place: u64, event: Event) -> Stepped
    ensures { result ≡ stepped receiver taken (Ok (Some (placed place event))) }
{
    Stepped {
        receiver,
        taken,
        answer: Ok(Some(Placed { place, event })),
    }
}

// The receiver behind so many bytes outside a frame.
fn passed(receiver: Receiver, count: usize) -> Receiver
    requires { receiver.place + count ≤ 18446744073709551615 }
    ensures { result ≡ passed_by receiver count }
{
    let bytes = receiver.bytes;
    Receiver {
        place: receiver.place + count as u64,
        start: receiver.start,
        size: receiver.size,
        bytes,
    }
}

// The receiver behind a 13 at that place.
fn opened(place: u64) -> Receiver
    requires { place < 18446744073709551615 }
    ensures { result ≡ opened_at place }
{
    let mut bytes = [0u8; MOST_KEPT];
    bytes[0] = START;
    Receiver {
        place: place + 1,
        start: place,
        size: 1,
        bytes,
    }
}

// The receiver behind some more bytes of the open frame.
fn grown(receiver: Receiver, more: &[u8]) -> Receiver
    requires { Fits receiver.place more.now }
    ensures { result ≡ grown_by receiver more.now }
{
    let mut bytes = receiver.bytes;
    lent::lay_at(more, &mut bytes, receiver.size as usize);
    Receiver {
        place: receiver.place + more.len() as u64,
        start: receiver.start,
        size: grown_size(receiver.size, more.len() as u64),
        bytes,
    }
}

// How much is kept of a frame that grows. One that ran away stays as it is.
fn grown_size(size: u64, more: u64) -> u64
    ensures { result ≡ size_by size more }
{
    if MOST_KEPT as u64 <= size {
        return size;
    }
    if MOST_KEPT as u64 - size < more {
        return MOST_KEPT as u64;
    }
    size + more
}

// The event of the open frame, whose last bytes these are.
fn closing(receiver: Receiver, last: &[u8]) -> Event
    ensures { result ≡ closed_by receiver last.now }
{
    if MOST_KEPT as u64 <= receiver.size {
        return Event::Refused(telegram::Fault::LongMessage);
    }
    let size = receiver.size as usize;
    if MOST_KEPT - size < last.len() {
        return Event::Refused(telegram::Fault::LongMessage);
    }
    let mut bytes = receiver.bytes;
    lent::lay_at(last, &mut bytes, size);
    read(&bytes[0..size + last.len()])
}

// Reads a frame, with room for any data.
fn read(frame: &[u8]) -> Event
    ensures { result ≡ frame_event frame.now }
{
    if MOST_KEPT < frame.len() {
        return Event::Refused(telegram::Fault::LongMessage);
    }
    event_of(telegram::examine(frame, MOST_DATA))
}

fn event_of(reading: Result<telegram::Fields, telegram::Fault>) -> Event
    ensures { result ≡ read_event reading }
{
    match reading {
        Ok(t) => Event::Read(t),
        Err(fault) => Event::Refused(fault),
    }
}
