// A listing step that counts its line, the tally in and back by value.
ghost use Rattle.tally.specs.Tally.{Counts, number_for, with_line, is_full, full_at, placed_at, done_with, not_done, line_counted, refused_by};
ghost use Rattle.std.specs.Prelude.{◌≡◌, false};

use crate::{Answer, Counted, Fault, MOST, Stepped, Tally};
use lines::{Event, Placed};
use receiver::Receiver;

// A step of the receiver whose line, where it ends one, is counted. Where the line's number is
// full nothing is done, and that goes ahead of what the receiver refuses.
pub fn count_step(tally: Tally, receiver: Receiver, chunk: &[u8]) -> Counted
    ensures { Counts tally receiver chunk.now result }
{
    let stepped = receiver::step(receiver, chunk);
    let answer = stepped.answer;
    match answer {
        Ok(None) => done(tally, stepped, Ok(None)),
        Ok(Some(line)) => count_line(tally, receiver, stepped, line),
        Err(fault) => {
            // the line that the step would end, wherever its places lie
            let ahead = receiver::step(placed_at(receiver, 0), chunk);
            let ended = ahead.answer;
            refuse(tally, receiver, ended, fault)
        }
    }
}

// The line that a step ended is counted, unless its number is full.
fn count_line(tally: Tally, receiver: Receiver, stepped: receiver::Stepped, line: Placed) -> Counted
    ensures { result ≡ line_counted tally receiver stepped line }
{
    let event = line.event;
    if is_full(event, tally) {
        return not_done(tally, receiver, Fault::TallyFull);
    }
    done(with_line(event, tally), stepped, Ok(Some(line)))
}

// A step that the receiver refuses: 76 goes ahead, by what the step would end with.
fn refuse(
    tally: Tally,
    receiver: Receiver,
    ended: receiver::Answer,
    fault: receiver::Fault,
) -> Counted
    ensures { result ≡ refused_by tally receiver ended fault }
{
    if full_at(ended, tally) {
        return not_done(tally, receiver, Fault::TallyFull);
    }
    not_done(tally, receiver, Fault::NotPlaced(fault))
}

// A step of the receiver that was done, with the tally behind it.
fn done(after: Tally, stepped: receiver::Stepped, answer: Answer) -> Counted
    ensures { result ≡ done_with after stepped answer }
{
    let receiver = stepped.receiver;
    Counted {
        tally: after,
        stepped: Stepped {
            receiver,
            taken: stepped.taken,
            answer,
        },
    }
}

// A step that is not done leaves all as it was.
fn not_done(tally: Tally, receiver: Receiver, fault: Fault) -> Counted
    ensures { result ≡ not_done tally receiver fault }
{
    Counted {
        tally,
        stepped: Stepped {
            receiver,
            taken: 0,
            answer: Err(fault),
        },
    }
}

// The receiver with its next byte at another place.
fn placed_at(receiver: Receiver, place: u64) -> Receiver
    ensures { result ≡ placed_at receiver place }
{
    let bytes = receiver.bytes;
    Receiver {
        place,
        start: receiver.start,
        size: receiver.size,
        bytes,
    }
}

// Whether a step ends with a line whose number is full.
fn full_at(ended: receiver::Answer, tally: Tally) -> bool
    ensures { result ≡ full_at ended tally }
{
    matches!(ended, Ok(Some(line)) if is_full(line.event, tally))
}

// Whether one more line would carry its number past the most.
fn is_full(event: Event, tally: Tally) -> bool
    ensures { result ≡ is_full event tally }
{
    number_for(event, tally) == MOST
}

// The number that a line is counted in. An open frame's is counted in none.
fn number_for(event: Event, tally: Tally) -> u32
    ensures { result ≡ number_for event tally }
{
    match event {
        Event::Read(_) => tally.read,
        Event::Refused(_) => tally.refused,
        Event::Dropped => tally.dropped,
        Event::Open => 0,
    }
}

// The tally with one line more.
fn with_line(event: Event, tally: Tally) -> Tally
    requires { is_full event tally ≡ false }
    ensures { result ≡ with_line event tally }
{
    match event {
        Event::Read(_) => Tally {
            read: tally.read + 1,
            refused: tally.refused,
            dropped: tally.dropped,
        },
        Event::Refused(_) => Tally {
            read: tally.read,
            refused: tally.refused + 1,
            dropped: tally.dropped,
        },
        Event::Dropped => Tally {
            read: tally.read,
            refused: tally.refused,
            dropped: tally.dropped + 1,
        },
        Event::Open => tally,
    }
}
