// Numbers as text, laid over a buffer that somebody lent.
#![tactic(auto)]

ghost use Rattle.text.specs.Text.{Spells, decimal};
ghost use Rattle.std.specs.Prelude.{◌≡◌, ◌+◌, ◌%◌, ◌<◌, length, drop};

// As many digits as the longest number has.
const MOST: usize = 20;

// Lays a number's decimal digits, without leading zeros, over the room's places from `at` on, as
// many of them as there is room for, and answers how many there are. Every other byte of the room
// stays.
pub fn decimal_at(n: u64, room: &mut [u8], at: usize) -> usize
    ensures { Spells n at room.old result room.new }
{
    let mut digits = [0u8; MOST];
    let from = spell(n, &mut digits);
    lent::lay_at(&digits[from..MOST], room, at);
    MOST - from
}

// Puts the digits in the last places of the space, the lowest digit last, and answers where the
// first of them stands.
fn spell(n: u64, digits: &mut [u8]) -> usize
    requires { length digits.old ≡ 20 }
    ensures { (result < 20) × (length digits.new ≡ 20) × (drop result digits.new ≡ decimal n) }
{
    let mut i: usize = MOST - 1;
    let mut rest = n;
    // ends by the number: a `for` over the places would need an answer behind it that is never given
    while 10 <= rest {
        digits[i] = digit(rest);
        i -= 1;
        rest /= 10;
    }
    digits[i] = digit(rest);
    i
}

// The lowest digit.
fn digit(n: u64) -> u8
    ensures { result ≡ 48 + n % 10 }
{
    48 + (n % 10) as u8
}
