// Telegrams read and written. A telegram is a message between a start byte and an end byte, with
// the bytes that mean start, end or substitution converted. specs/ says what each call answers.
#![tactic(auto)]

mod reader;
mod writer;

ghost use Rattle.telegram.specs.Read.{Numbers, Places, Tells};

pub use reader::{examine, read};
pub use writer::write;

// The types of telegrams: what a module answers, and what a host asks.
pub const NACK: u8 = 0;

pub const CHECK_ERROR: u8 = 1;

pub const BUSY: u8 = 2;

pub const ACK: u8 = 3;

pub const READ: u8 = 4;

pub const WRITE: u8 = 5;

pub const SET_BITS: u8 = 6;

pub const CLEAR_BITS: u8 = 7;

pub const DATAGRAM: u8 = 8;

pub const TOGGLE_BITS: u8 = 9;

// A message is its four fields, from DATA_AT on its data, and the remainder in two bytes: SHORTEST
// without data, LONGEST with MOST_DATA of them.
const DATA_AT: usize = 4;

pub const MOST_DATA: usize = 240;

const SHORTEST: usize = 6;

const LONGEST: usize = 246;

// Why a frame could not be read, or a telegram not be written.
#[derive(Clone, Copy)]
pub enum Fault {
    NotFramed,
    StrayEnd,
    // the place in the frame of the first 94 that is followed by none of its three bytes; the start
    // byte stands at 0
    BadSubstitution(usize),
    ShortMessage,
    LongMessage,
    NoRoom,
    CheckFault,
    ZeroAddress,
    UnknownType,
}

// What a telegram says, but for its data: `sort` is the message type, from 0 nack to 9 toggle
// bits, and `size` how many data bytes there are.
#[derive(Clone, Copy)]
pub struct Fields {
    pub destination: u8,
    pub source: u8,
    pub sort: u8,
    pub register: u8,
    pub size: usize,
}

// The paper's number of a refusal.
pub fn number(fault: Fault) -> u8
    ensures { Numbers fault result }
{
    match fault {
        Fault::NotFramed => 1,
        Fault::StrayEnd => 2,
        Fault::BadSubstitution(_) => 3,
        Fault::ShortMessage => 4,
        Fault::LongMessage => 5,
        Fault::NoRoom => 6,
        Fault::CheckFault => 7,
        Fault::ZeroAddress => 8,
        Fault::UnknownType => 9,
    }
}

// The place that comes with number 3; 0 with all else.
pub fn place(fault: Fault) -> usize
    ensures { Places fault result }
{
    match fault {
        Fault::BadSubstitution(place) => place,
        _ => 0,
    }
}

// The refusal of a reading, for whoever passes it on whole. A telegram has none; it is answered
// as NotFramed, and nobody asks.
pub fn why(reading: Result<Fields, Fault>) -> Fault
    ensures { Tells reading result }
{
    reading.err().unwrap_or(Fault::NotFramed)
}
