// One line of a sheet's text, read and written: `module register kind count values..`. docs/SHEETS.md
// says what a line is, and `specs/` the same in definitions.
#![tactic(auto)]

mod reading;
mod words;
mod writing;

ghost use Rattle.sheet_line.specs.Line.{Numbers, Words, Reads, Writes};

use setting::Head;
use sheet::Record;

// What is wrong with a line, in the order in which it is looked for. A word is told by its place,
// from 1 on.
#[derive(Clone, Copy)]
pub enum Fault {
    // it has one to three words
    FewWords,
    // that word is no number
    NoNumber(usize),
    // the module is not 1 to 160
    NoModule,
    // the register is not 0 to 255
    NoRegister,
    // the third word is no kind
    NoKind,
    // the count is 0, or more than 240 bytes of that kind
    BadCount,
    // it has not as many values as the count says
    OtherCount,
    // the value at that word does not fit the kind
    NotFitting(usize),
    // the lent buffer is shorter than the value
    NoRoom,
}

// What a line says: a setting, its value in the lent buffer, or `None` where it has no words.
pub type Line = Result<Option<Record>, Fault>;

// The paper's number for what is wrong, 0 where the papers have none for it.
pub fn number(fault: Fault) -> u8
    ensures { Numbers fault result }
{
    match fault {
        Fault::FewWords => 0,
        Fault::NoNumber(_) => 0,
        Fault::NoModule => 69,
        Fault::NoRegister => 0,
        Fault::NoKind => 69,
        Fault::BadCount => 69,
        Fault::OtherCount => 69,
        Fault::NotFitting(_) => 43,
        Fault::NoRoom => 57,
    }
}

// The place of the word that is wrong, 0 where it is no single one.
pub fn word(fault: Fault) -> usize
    ensures { Words fault result }
{
    match fault {
        Fault::FewWords => 0,
        Fault::NoNumber(place) => place,
        Fault::NoModule => 1,
        Fault::NoRegister => 2,
        Fault::NoKind => 3,
        Fault::BadCount => 4,
        Fault::OtherCount => 0,
        Fault::NotFitting(place) => place,
        Fault::NoRoom => 0,
    }
}

// What a line says; it comes without its newline. The value of a setting is laid over the room's
// first bytes, and all else of the room stays.
pub fn read(text: &[u8], room: &mut [u8]) -> Line
    ensures { Reads text.now room.old result room.new }
{
    let end = words::plain_end(text);
    reading::read_words(&text[0..end], room)
}

// Lays the line of a setting, without a newline, over the room's first bytes, as much of it as there
// is room for, and answers how long it is. The rest of the room stays.
pub fn write(head: Head, value: &[u8], room: &mut [u8]) -> usize
    ensures { Writes head value.now room.old result room.new }
{
    let a = writing::digits(head.unit as u64, room, 0);
    let b = writing::field(head.register as u64, room, a);
    let c = writing::kind(head.kind, room, b);
    let d = writing::field(head.count as u64, room, c);
    writing::values_at(head, value, room, d)
}
