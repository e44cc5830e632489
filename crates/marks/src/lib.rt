// One mark for each place, up to 128 of them: bit p % 64 of the word for p is the mark of place p, the
// low word for 0 to 63, the high one for 64 to 127. specs/ says what each call answers.
#![tactic(auto)]

ghost use Rattle.marks.specs.Marks.{Begins, TellsMarked, Changes, Runs, word_of, changed_bit};
ghost use Rattle.std.specs.Prelude.{◌≡◌, ◌<◌};

#[repr(C)]
#[derive(Clone, Copy)]
pub struct Marks {
    pub low: u64,
    pub high: u64,
}

// No place is marked.
pub fn none() -> Marks
    ensures { Begins result }
{
    Marks { low: 0, high: 0 }
}

// Whether a place is marked. Places from 128 on never are.
pub fn is_marked(marks: Marks, place: u8) -> bool
    ensures { TellsMarked marks place result }
{
    values::bit(word_of(marks, place), place % 64)
}

// The marks with that of one place set, or cleared. From 128 on nothing changes.
pub fn with_mark(marks: Marks, place: u8, held: bool) -> Marks
    ensures { Changes marks place held result }
{
    let word = changed(word_of(marks, place), place % 64, held);
    if place < 64 {
        return Marks {
            low: word,
            high: marks.high,
        };
    }
    if place < 128 {
        return Marks {
            low: marks.low,
            high: word,
        };
    }
    marks
}

// How many places from this one on are marked, one after the other, as far as its word reaches.
pub fn run(marks: Marks, place: u8) -> u8
    ensures { Runs marks place result }
{
    let rest = word_of(marks, place) >> (place % 64);
    u64::trailing_zeros(!rest) as u8
}

// The word that has the mark of a place.
fn word_of(marks: Marks, place: u8) -> u64
    ensures { result ≡ word_of marks place }
{
    if place < 64 {
        return marks.low;
    }
    if place < 128 {
        return marks.high;
    }
    0
}

// A word with one bit set, or cleared.
fn changed(word: u64, bit: u8, held: bool) -> u64
    requires { bit < 64 }
    ensures { result ≡ changed_bit word bit held }
{
    let mask = 1u64 << bit;
    if held {
        return values::set_bits(word, mask);
    }
    values::clear_bits(word, mask)
}
