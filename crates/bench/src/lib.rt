// A bench module to test against: one address, up to 32 registers, and the answers that the maker
// describes. specs/ says what each call answers.
#![tactic(auto)]

mod build;
mod held;
mod request;

ghost use Rattle.bench.specs.Register.{Numbers, Places};

pub use build::{add, make, set};
pub use deeds::Register;
pub use held::look;
pub use request::take;

// The first `count` registers are held.
#[repr(C)]
#[derive(Clone, Copy)]
pub struct Bench {
    pub address: u8,
    pub count: u8,
    pub registers: [Register; 32],
}

// Why the bench refused a call, or keeps silent.
#[derive(Clone, Copy)]
pub enum Fault {
    // the telegram could not be read
    Unread(telegram::Fault),
    WrongKind,
    WrongRights,
    AlreadyThere,
    Full,
    NotAModule,
    OtherAddress,
    NotARequest,
    NoRoom,
    NotHeld,
    DoesNotFit,
}

// A call's answer, with the bench as it is afterwards.
#[derive(Clone, Copy)]
pub struct AfterBuild {
    pub bench: Bench,
    pub answer: Result<(), Fault>,
}

#[derive(Clone, Copy)]
pub struct AfterTake {
    pub bench: Bench,
    // how long the reply is, or why the bench keeps silent
    pub answer: Result<usize, Fault>,
}

// The paper's number of a refusal; of a telegram that could not be read, the reader's.
pub fn number(fault: Fault) -> u8
    ensures { Numbers fault result }
{
    match fault {
        Fault::Unread(why) => telegram::number(why),
        Fault::WrongKind => 30,
        Fault::WrongRights => 31,
        Fault::AlreadyThere => 32,
        Fault::Full => 33,
        Fault::NotAModule => 34,
        Fault::OtherAddress => 35,
        Fault::NotARequest => 36,
        Fault::NoRoom => 37,
        Fault::NotHeld => 38,
        Fault::DoesNotFit => 43,
    }
}

// The place in the telegram's frame that comes with number 3; 0 with all else.
pub fn place(fault: Fault) -> usize
    ensures { Places fault result }
{
    match fault {
        Fault::Unread(why) => telegram::place(why),
        _ => 0,
    }
}
