// Reading a line without its remark.
ghost use Rattle.std.specs.Prelude.{◌≡◌, MatchOption, true, not, ◌&&◌, List, [], ℕ, ◌≤◌, ◌<◌, eqb, length, get_or, drop};
ghost use Rattle.lent.specs.Lent.{over_at};
ghost use Rattle.rows.specs.Rows.{first_row_of};
ghost use Rattle.values.specs.Values.{size_of, fits, bytes_of, stored_at};
ghost use Rattle.numerals.specs.Numerals.{is_number, value_of, limited_to};
ghost use Rattle.setting.specs.Setting.{length_of};
ghost use Rattle.sheet_line.specs.Words.{words_in};
ghost use Rattle.sheet_line.specs.Line.{head_in, value_in, no_number_at, head_tests, value_tests, line_answer, said_by, room_after};
ghost use Rattle.sheet_line.specs.Parts.{Says, judged_as, AreNumbers, StoresAll, Headed};

use crate::{Fault, Line, words};
use numerals::Numeral;
use setting::Head;
use sheet::Record;

// What the first four words say, and where the values begin. A number that is none of a byte is 256.
// That and kind 0 are no Option, since the definitions have them (`small_at`, `kind_of`, `Says`).
#[derive(Clone, Copy)]
struct Four {
    unit: u64,
    register: u64,
    kind: u8,
    count: u64,
    at: usize,
}

// One word of them, and where the next begins.
#[derive(Clone, Copy)]
struct Behind {
    number: u64,
    at: usize,
}

// What the words of a line say. The value of a setting is laid over the room's first bytes.
pub(crate) fn read_words(text: &[u8], room: &mut [u8]) -> Line
    ensures answer { result ≡ said_by (words_in text.now) (length room.old) }
    ensures stored { room.new ≡ room_after result (value_in (words_in text.now)) room.old }
{
    let many = count_words(text);
    if many == 0 {
        return Ok(None);
    }
    if many < 4 {
        return Err(Fault::FewWords);
    }
    if let Some(wrong) = first_wrong(text, many) {
        return Err(Fault::NoNumber(wrong + 1));
    }
    let four = first_four(text);
    let head = judge(four, many)?;
    read_values(text, four.at, head, room)
}

fn count_words(text: &[u8]) -> usize
    ensures { (result ≡ length (words_in text.now)) × (result ≤ length text.now) }
{
    text.split(|byte| words::is_blank(*byte))
        .filter(|word| !word.is_empty())
        .count()
}

// The first of so many words, from 0 on, that is no number and should be one.
fn first_wrong(text: &[u8], many: usize) -> Option<usize>
    requires { many ≡ length (words_in text.now) }
    ensures { MatchOption result (many ≡ no_number_at (words_in text.now)) (λ k. (k ≡ no_number_at (words_in text.now)) × (k < many)) }
{
    let mut at = 0;
    for k in 0..many {
        let next = words::next(text, at);
        let from = next.from;
        let to = next.to;
        if is_wrong(&text[from..to], k) {
            return Some(k);
        }
        at = to;
    }
    None
}

// Whether a word at a place should be a number and is none.
fn is_wrong(word: &[u8], k: usize) -> bool
    ensures { result ≡ (not (eqb k 2) && not (is_number word.now)) }
{
    k != 2 && !numerals::is_number(word)
}

fn first_four(text: &[u8]) -> Four
    ensures says { Says (words_in text.now) result }
    ensures goes_on { (result.at ≤ length text.now) × (words_in (drop result.at text.now) ≡ drop 4 (words_in text.now)) }
{
    let unit = small(text, 0);
    let register = small(text, unit.at);
    let kind = words::next(text, register.at);
    let from = kind.from;
    let to = kind.to;
    let count = small(text, to);
    Four {
        unit: unit.number,
        register: register.number,
        kind: words::kind(&text[from..to]),
        count: count.number,
        at: count.at,
    }
}

// The number that the next word is, 256 where it is none of a byte.
fn small(text: &[u8], at: usize) -> Behind
    requires { at ≤ length text.now }
    ensures number { result.number ≡ limited_to 255 (get_or (words_in (drop at text.now)) 0 []) }
    ensures goes_on { (result.at ≤ length text.now) × (words_in (drop result.at text.now) ≡ drop 1 (words_in (drop at text.now))) }
{
    let next = words::next(text, at);
    let from = next.from;
    let to = next.to;
    Behind {
        number: numerals::up_to(&text[from..to], 255),
        at: to,
    }
}

// What is wrong with the first four words, or with how many follow; and else what they name.
fn judge(four: Four, many: usize) -> Result<Head, Fault>
    requires { 4 ≤ many }
    ensures { (words : List (List ℕ)) → Says words four → many ≡ length words → result ≡ judged_as (first_row_of (head_tests words)) (head_in words) }
{
    if four.unit < 1 {
        return Err(Fault::NoModule);
    }
    if 160 < four.unit {
        return Err(Fault::NoModule);
    }
    if 255 < four.register {
        return Err(Fault::NoRegister);
    }
    if four.kind == 0 {
        return Err(Fault::NoKind);
    }
    if 255 < four.count {
        return Err(Fault::BadCount);
    }
    let head = Head {
        unit: four.unit as u8,
        register: four.register as u8,
        kind: four.kind,
        count: four.count as u8,
    };
    if setting::is_allowed(head) {
        if many - 4 == four.count as usize {
            return Ok(head);
        }
        return Err(Fault::OtherCount);
    }
    Err(Fault::BadCount)
}

// The values of a setting, which begin at a place.
fn read_values(text: &[u8], at: usize, head: Head, room: &mut [u8]) -> Line
    requires behind_head { (at ≤ length text.now) × (words_in (drop at text.now) ≡ drop 4 (words_in text.now)) }
    requires headed { Headed (words_in text.now) head }
    ensures answer { result ≡ line_answer (first_row_of (value_tests (words_in text.now) (length room.old))) (head_in (words_in text.now)) }
    ensures stored { room.new ≡ room_after result (value_in (words_in text.now)) room.old }
{
    let mut space = [0u8; 240];
    if let Some(unfit) = store_values(text, at, head, &mut space) {
        return Err(Fault::NotFitting(unfit + 5));
    }
    let size = setting::measure(head);
    if room.len() < size {
        return Err(Fault::NoRoom);
    }
    lent::lay_at(&space[0..size], room, 0);
    Ok(Some(Record {
        head: head,
        size: size,
    }))
}

// Lays the bytes of the values behind each other up to the first that does not fit, and answers its
// place, from 0 on.
fn store_values(text: &[u8], at: usize, head: Head, space: &mut [u8]) -> Option<usize>
    requires in_text { at ≤ length text.now }
    requires head_fits { (1 ≤ head.kind) × (head.kind ≤ 7) × (length_of head ≤ length space.old) }
    requires numbers_there { (head.count ≤ length (words_in (drop at text.now))) × AreNumbers (words_in (drop at text.now)) head.count }
    ensures { MatchOption result (StoresAll (words_in (drop at text.now)) head space.old head.count space.new) (λ k. StoresAll (words_in (drop at text.now)) head space.old k space.new × (k < head.count)) }
{
    let many = head.count as usize;
    let size = values::size(head.kind);
    let mut from = at;
    for k in 0..many {
        let next = words::next(text, from);
        let start = next.from;
        let end = next.to;
        if store(&text[start..end], head.kind, space, k * size) {
            from = end;
        } else {
            return Some(k);
        }
    }
    None
}

// Lays the bytes of a value from a place on, if it fits the kind, and answers whether it does.
fn store(word: &[u8], kind: u8, space: &mut [u8], at: usize) -> bool
    requires { (1 ≤ kind) × (kind ≤ 7) × (at ≤ length space.old) × (is_number word.now ≡ true) }
    ensures fitting { result ≡ fits kind (value_of word.now) }
    ensures stored { result ≡ true → space.new ≡ over_at at (bytes_of (size_of kind) (stored_at (size_of kind) (value_of word.now))) space.old }
{
    match numerals::read(word) {
        Numeral::Is(value) => match values::as_stored(kind, value) {
            Ok(number) => {
                values::store(number, values::size(kind), &mut space[at..]);
                true
            }
            Err(_) => false,
        },
        _ => false,
    }
}
