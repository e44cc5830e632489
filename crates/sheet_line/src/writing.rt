// Writing the line of a setting, piece by piece: each answers the place behind it. No line is longer
// than 6000 bytes, whatever its setting, so that every place can be counted.
ghost use Rattle.std.specs.Prelude.{◌∷◌, ◌+◌, ◌≤◌, length};
ghost use Rattle.text.specs.Text.{decimal, Puts};
ghost use Rattle.values.specs.Values.{read_value};
ghost use Rattle.sheet_line.specs.Line.{name_of, element_text, elements_from};

use setting::Head;
use values::Value;

// A number.
pub(crate) fn digits(n: u64, room: &mut [u8], at: usize) -> usize
    requires { at ≤ 7000 }
    ensures { Puts (decimal n) at room.old result room.new × (result ≤ at + 20) }
{
    at + text::decimal_at(n, room, at)
}

// A blank and a number.
pub(crate) fn field(n: u64, room: &mut [u8], at: usize) -> usize
    requires { at ≤ 6000 }
    ensures { Puts (32 ∷ decimal n) at room.old result room.new × (result ≤ at + 21) }
{
    let a = word(b" ", room, at);
    digits(n, room, a)
}

// A blank and the name of a kind; a question mark where it is none.
pub(crate) fn kind(kind: u8, room: &mut [u8], at: usize) -> usize
    requires { at ≤ 6000 }
    ensures { Puts (32 ∷ name_of kind) at room.old result room.new × (result ≤ at + 4) }
{
    match kind {
        1 => word(b" U8", room, at),
        2 => word(b" I8", room, at),
        3 => word(b" U16", room, at),
        4 => word(b" I16", room, at),
        5 => word(b" U32", room, at),
        6 => word(b" I32", room, at),
        7 => word(b" U64", room, at),
        _ => word(b" ?", room, at),
    }
}

// Each element of the value, a blank before it.
pub(crate) fn values_at(head: Head, value: &[u8], room: &mut [u8], at: usize) -> usize
    requires { at ≤ 100 }
    ensures { Puts (elements_from head.kind value.now 0 head.count) at room.old result room.new }
{
    let mut to = at;
    for k in 0..head.count {
        to = element_at(head.kind, value, k, room, to);
    }
    to
}

// A blank and an element in decimal; a question mark where there is none.
fn element_at(kind: u8, value: &[u8], k: u8, room: &mut [u8], at: usize) -> usize
    requires { at ≤ 6000 }
    ensures { Puts (32 ∷ element_text (read_value kind value.now k)) at room.old result room.new × (result ≤ at + 22) }
{
    match values::read(kind, value, k as u64) {
        Ok(Value::Natural(n)) => field(n, room, at),
        Ok(Value::Negative(n)) => {
            let a = word(b" -", room, at);
            digits(n + 1, room, a)
        }
        Err(_) => word(b" ?", room, at),
    }
}

fn word(text: &[u8], room: &mut [u8], at: usize) -> usize
    requires { (at ≤ 6000) × (length text.now ≤ 4) }
    ensures { Puts text.now at room.old result room.new }
{
    lent::lay_at(text, room, at);
    at + text.len()
}
