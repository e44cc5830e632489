// Captures that come in chunks, as text: the lines of a chunk in a room that somebody lent, and the
// totals. specs/ says what each call writes.
#![tactic(auto)]

mod pour;

pub use pour::{begin, finish, list};
use receiver::{Fault, Receiver, Stepped};
use tally::Tally;

// What a listing has a line's room for. No line is longer.
pub const LONGEST_LINE: usize = 150;

// A listing so far: the receiver, the tally that is lent to each step, and how many lines of each kind
// there were.
#[derive(Clone, Copy)]
pub struct Listing {
    pub receiver: Receiver,
    pub tally: Tally,
    pub ok: u64,
    pub refused: u64,
    pub dropped: u64,
}

// How many of some lines are of each kind.
#[derive(Clone, Copy)]
struct Kinds {
    ok: u64,
    refused: u64,
    dropped: u64,
}

// A step of the receiver, and the tally that was lent to it.
#[derive(Clone, Copy)]
struct Lent {
    tally: Tally,
    stepped: Stepped,
}

// The listing afterwards, how many bytes of the chunk it took, and how many bytes of text it wrote.
#[derive(Clone, Copy)]
pub struct Listed {
    pub listing: Listing,
    pub taken: usize,
    pub size: usize,
    // what became of the chunk
    pub outcome: Result<(), Fault>,
}
