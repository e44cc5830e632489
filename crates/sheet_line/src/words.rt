// The words of a line. `specs/Words.antt` says what they are.
ghost use Rattle.std.specs.Prelude.{◌≡◌, false, [], ◌-◌, ◌≤◌, ◌<◌, length, get_or, take, drop};
ghost use Rattle.sheet_line.specs.Words.{plain, is_blank, parted, words_in, same as same_bytes};
ghost use Rattle.sheet_line.specs.Line.{kind_of};

// Where a word stands in a line: from its first byte up to the one behind its last.
#[derive(Clone, Copy)]
pub(crate) struct Span {
    pub from: usize,
    pub to: usize,
}

// How long the part of a line is that stands before a remark.
pub(crate) fn plain_end(text: &[u8]) -> usize
    ensures { (result ≤ length text.now) × (take result text.now ≡ plain text.now) }
{
    let remark = text.iter().position(|byte| *byte == b'#');
    remark.unwrap_or(text.len())
}

// The next word from a place on; an empty one at the line's end where there is none.
pub(crate) fn next(text: &[u8], at: usize) -> Span
    requires { at ≤ length text.now }
    ensures in_order { (at ≤ result.from) × (result.from ≤ result.to) × (result.to ≤ length text.now) }
    ensures word { take (result.to - result.from) (drop result.from text.now) ≡ get_or (words_in (drop at text.now)) 0 [] }
    ensures goes_on { words_in (drop result.to text.now) ≡ drop 1 (words_in (drop at text.now)) }
    ensures none_left { result.from ≡ result.to → words_in (drop at text.now) ≡ [] }
    ensures one_found { result.from < result.to → 0 < length (words_in (drop at text.now)) }
{
    let from = word_start(text, at);
    Span {
        from: from,
        to: word_end(text, from),
    }
}

// The first byte from a place on that is no blank.
fn word_start(text: &[u8], at: usize) -> usize
    requires { at ≤ length text.now }
    ensures in_text { (at ≤ result) × (result ≤ length text.now) }
    ensures same_words { words_in (drop result text.now) ≡ words_in (drop at text.now) }
    ensures no_blank { result < length text.now → is_blank (get_or text.now result 0) ≡ false }
{
    let rest = &text[at..];
    let start = rest.iter().position(|byte| !is_blank(*byte));
    at + start.unwrap_or(rest.len())
}

// The first blank from a place on.
fn word_end(text: &[u8], at: usize) -> usize
    requires { at ≤ length text.now }
    ensures in_text { (at ≤ result) × (result ≤ length text.now) }
    ensures word { take (result - at) (drop at text.now) ≡ (parted (drop at text.now)).word }
    ensures goes_on { words_in (drop result text.now) ≡ (parted (drop at text.now)).behind }
{
    let rest = &text[at..];
    let end = rest.iter().position(|byte| is_blank(*byte));
    at + end.unwrap_or(rest.len())
}

pub(crate) fn is_blank(byte: u8) -> bool
    ensures { result ≡ is_blank byte }
{
    matches!(byte, b' ' | b'\t' | b'\r')
}

// The kind that a word names, 0 where it names none: no Option, since `kind_of` and `Says` have 0.
pub(crate) fn kind(word: &[u8]) -> u8
    ensures { result ≡ kind_of word.now }
{
    if same(word, b"U8") {
        return 1;
    }
    if same(word, b"I8") {
        return 2;
    }
    if same(word, b"U16") {
        return 3;
    }
    if same(word, b"I16") {
        return 4;
    }
    if same(word, b"U32") {
        return 5;
    }
    if same(word, b"I32") {
        return 6;
    }
    if same(word, b"U64") {
        return 7;
    }
    0
}

// Whether two words are the same bytes.
fn same(word: &[u8], other: &[u8]) -> bool
    ensures { result ≡ same_bytes word.now other.now }
{
    word == other
}
