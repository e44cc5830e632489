// The line tally: how many frames were read, refused and dropped, one record that is lent to each
// listing step and changed where it lies. specs/ says what each call answers.
#![tactic(auto)]

mod counting;
mod lending;

ghost use Rattle.tally.specs.Tally.{Clears, Numbers};

pub use counting::count_step;
pub use lending::{lend_step, step};
use lines::Placed;
use receiver::Receiver;

// The most that a number of the tally holds.
pub const MOST: u32 = 4294967295;

// How many lines of each kind there were since it was cleared.
#[repr(C)]
#[derive(Clone, Copy)]
pub struct Tally {
    pub read: u32,
    pub refused: u32,
    pub dropped: u32,
}

// Why a step was not done.
#[derive(Clone, Copy)]
pub enum Fault {
    // its line would carry a number of the tally past the most
    TallyFull,
    // what the receiver refuses: a place would pass the largest
    NotPlaced(receiver::Fault),
}

// What a step answers: the line that the last byte taken ends, and the tally counted it, or `None`
// where no line ends in the chunk. Of a step that is refused nothing was done.
pub type Answer = Result<Option<Placed>, Fault>;

// A step's outcome: the receiver afterwards, and how many bytes of the chunk it took.
#[derive(Clone, Copy)]
pub struct Stepped {
    pub receiver: Receiver,
    pub taken: usize,
    pub answer: Answer,
}

// The same with the tally afterwards.
#[derive(Clone, Copy)]
pub struct Counted {
    pub tally: Tally,
    pub stepped: Stepped,
}

// A tally that has counted nothing.
pub fn cleared() -> Tally
    ensures { Clears result }
{
    Tally {
        read: 0,
        refused: 0,
        dropped: 0,
    }
}

// The paper's number of a refusal.
pub fn number(fault: Fault) -> u8
    ensures { Numbers fault result }
{
    match fault {
        Fault::TallyFull => 76,
        Fault::NotPlaced(unplaced) => receiver::number(unplaced),
    }
}
