// The lines of a chunk as text, and the totals.
ghost use Rattle.lister.specs.Text.{Begins, Lists, end_text, listed, counted_with};
ghost use Rattle.receiver.specs.Chunks.{line_in};
ghost use Rattle.receiver.specs.Parts.{Fits};
ghost use Rattle.lister.specs.Parts.{Fills, Lends, kinds_in, kind_of, ran_on, ran_answer, is_refused};
ghost use Rattle.listing.specs.Listing.{lines_text};
ghost use Rattle.lines.specs.Lines.{Writes};
ghost use Rattle.lent.specs.Lent.{over_at};
ghost use Rattle.std.specs.Prelude.{◌≡◌, ◌≤◌, length, Ok};

use crate::{Kinds, LONGEST_LINE, Lent, Listed, Listing};
use lines::Event;
use receiver::{Answer, Fault, Receiver, Stepped, carries_past, fresh};
use std::num::wrapping_add_u64;
use tally::{Counted, Tally, cleared, lend_step};

// A listing before any byte, the next of which has that place.
pub fn begin(place: u64) -> Listing
    ensures { Begins place result }
{
    Listing {
        receiver: fresh(place),
        tally: cleared(),
        ok: 0,
        refused: 0,
        dropped: 0,
    }
}

// Takes the bytes of the chunk and puts their lines into the room's first bytes, as long as there
// is room for the longest line; the rest of the room stays. What is left of the chunk is for the
// next call. A chunk that would carry the place past the largest is refused, and none of it is
// taken.
pub fn list(listing: Listing, chunk: &[u8], room: &mut [u8]) -> Listed
    ensures { Lists listing chunk.now room.old result room.new }
{
    if carries_past(listing.receiver.place, chunk) {
        return Listed {
            listing,
            taken: 0,
            size: 0,
            outcome: Err(Fault::PastLargest),
        };
    }
    fill(listing, chunk, room)
}

// What is left to say at the capture's end: the open frame's line, where there is one, and the
// totals.
pub fn finish(listing: Listing, room: &mut [u8]) -> usize
    ensures { Writes (end_text listing) room.old result room.new }
{
    lines::ending(
        0 < listing.receiver.size,
        listing.receiver.start,
        listing.ok,
        listing.refused,
        listing.dropped,
        room,
    )
}

// The same as `list` for a chunk that is not refused.
fn fill(listing: Listing, chunk: &[u8], room: &mut [u8]) -> Listed
    requires { Fits listing.receiver.place chunk.now }
    ensures { Fills listing chunk.now room.old result room.new }
{
    let mut so_far = listing;
    let mut taken = 0;
    let mut size = 0;
    // jumps by what a step of the receiver takes, which no range does
    while taken < chunk.len() {
        if room.len() - size < LONGEST_LINE {
            return done(so_far, taken, size);
        }
        let lent = lent_to(so_far.tally, so_far.receiver, &chunk[taken..]);
        let stepped = lent.stepped;
        let answer = stepped.answer;
        size += write_line(answer, room, size);
        taken += stepped.taken;
        so_far = count(so_far, answer, stepped.receiver, lent.tally);
    }
    done(so_far, taken, size)
}

// A step of the receiver with the tally lent to it. Where the step's line would carry a number of the
// tally past the most, the tally is cleared and lent again, so that no capture is cut short by it.
fn lent_to(tally: Tally, receiver: Receiver, chunk: &[u8]) -> Lent
    requires { Fits receiver.place chunk.now }
    ensures { Lends tally receiver chunk.now result }
{
    let first = lend_step(tally, receiver, chunk);
    if is_refused(first) {
        return ran(lend_step(cleared(), receiver, chunk));
    }
    ran(first)
}

// A step that is not past the largest place is refused for a full tally only.
fn is_refused(counted: Counted) -> bool
    ensures { result ≡ is_refused counted.stepped.answer }
{
    counted.stepped.answer.is_err()
}

// The receiver's own step, of one that was done.
fn ran(counted: Counted) -> Lent
    ensures { result ≡ ran_on counted }
{
    let tally = counted.tally;
    let stepped = counted.stepped;
    let receiver = stepped.receiver;
    let answer = stepped.answer;
    Lent {
        tally,
        stepped: Stepped {
            receiver,
            taken: stepped.taken,
            answer: ran_answer(answer),
        },
    }
}

fn ran_answer(answer: tally::Answer) -> Answer
    ensures { result ≡ ran_answer answer }
{
    Ok(answer.unwrap_or(None))
}

fn done(listing: Listing, taken: usize, size: usize) -> Listed
    ensures { result ≡ listed listing taken size (Ok tt) }
{
    Listed {
        listing,
        taken,
        size,
        outcome: Ok(()),
    }
}

// Writes the step's line, where it has one, into the room from that place on, and answers how long
// it is.
fn write_line(answer: Answer, room: &mut [u8], at: usize) -> usize
    requires { at ≤ length room.old }
    ensures { (result ≡ length (lines_text (line_in answer))) × (room.new ≡ over_at at (lines_text (line_in answer)) room.old) }
{
    match answer {
        Ok(Some(line)) => {
            let event = line.event;
            lines::line(line.place, event, &mut room[at..])
        }
        Ok(None) => 0,
        Err(_) => 0,
    }
}

// The listing behind a step, with the tally that it left.
fn count(listing: Listing, answer: Answer, receiver: Receiver, tally: Tally) -> Listing
    ensures { result ≡ counted_with listing (line_in answer) receiver tally }
{
    let kinds = kinds_of(answer);
    Listing {
        receiver,
        tally,
        ok: wrapping_add_u64(listing.ok, kinds.ok),
        refused: wrapping_add_u64(listing.refused, kinds.refused),
        dropped: wrapping_add_u64(listing.dropped, kinds.dropped),
    }
}

fn kinds_of(answer: Answer) -> Kinds
    ensures { result ≡ kinds_in (line_in answer) }
{
    match answer {
        Ok(Some(line)) => {
            let event = line.event;
            kind_of(event)
        }
        Ok(None) => Kinds {
            ok: 0,
            refused: 0,
            dropped: 0,
        },
        Err(_) => Kinds {
            ok: 0,
            refused: 0,
            dropped: 0,
        },
    }
}

fn kind_of(event: Event) -> Kinds
    ensures { result ≡ kind_of event }
{
    match event {
        Event::Read(_) => Kinds {
            ok: 1,
            refused: 0,
            dropped: 0,
        },
        Event::Refused(_) => Kinds {
            ok: 0,
            refused: 1,
            dropped: 0,
        },
        Event::Dropped => Kinds {
            ok: 0,
            refused: 0,
            dropped: 1,
        },
        Event::Open => Kinds {
            ok: 0,
            refused: 0,
            dropped: 0,
        },
    }
}
