// Captures that come in chunks: the receiver keeps what is needed of the bytes so far, and no
// more, however long the capture grows. specs/ says what each call answers.
#![tactic(auto)]

mod seek;
mod steps;

ghost use Rattle.receiver.specs.Receiver.{Numbers};

pub use lines::{Event, Placed};
pub use steps::{carries_past, fresh, step};

// The longest telegram, and so the most that is kept of an open frame.
pub const MOST_KEPT: usize = 494;

// What is known of the bytes so far. Places count from 0. Outside a frame the size and the start
// are 0, and the bytes too.
#[repr(C)]
#[derive(Clone, Copy)]
pub struct Receiver {
    // how many bytes were taken: the place of the next one
    pub place: u64,
    // the open frame: the place of its 13, and how many bytes of it are kept. MOST_KEPT of them mean
    // that it ran away: whatever comes, it is longer than any telegram
    pub start: u64,
    pub size: u64,
    pub bytes: [u8; MOST_KEPT],
}

// Why a chunk was not taken.
#[derive(Clone, Copy)]
pub enum Fault {
    // a place would pass the largest, 2^64 - 1
    PastLargest,
}

// What a step answers: the line that the last byte taken ends, or `None` where no line ends in the
// chunk. None of a chunk that is refused was taken.
pub type Answer = Result<Option<Placed>, Fault>;

// A step's outcome: the receiver afterwards, and how many bytes of the chunk it took.
#[derive(Clone, Copy)]
pub struct Stepped {
    pub receiver: Receiver,
    pub taken: usize,
    pub answer: Answer,
}

// The paper's number.
pub fn number(fault: Fault) -> u8
    ensures { Numbers fault result }
{
    match fault {
        Fault::PastLargest => 60,
    }
}
