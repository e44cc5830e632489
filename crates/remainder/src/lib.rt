// The check of a telegram: the remainder of its bytes, as a polynomial over GF(2), times x^16,
// divided by x^16 + x^12 + x^5 + 1. `specs/Remainder.antt` says what that is.
#![tactic(auto)]

ghost use Rattle.remainder.specs.Remainder.{Remains, times_xs, with_byte};
ghost use Rattle.std.specs.Prelude.{◌≡◌, ℕ, ◌*◌, ◌^◌, ◌<◌, get_or};

// The remainder of the bytes; 0 of none. Over a whole right message it is 0.
pub fn remainder(bytes: &[u8]) -> u16
    ensures { Remains bytes.now result }
{
    let halves = HALVES;
    let mut sum: usize = 0;
    for byte in bytes {
        sum = with_byte(sum, *byte, &halves);
    }
    sum as u16
}

// The remainder once one byte more has come, by half bytes. Two of them fall out at the top, together
// with the byte; the highest four bits of an entry are its number, so the second is known without a
// look at the first one's entry.
fn with_byte(sum: usize, byte: u8, halves: &[u16; 16]) -> usize
    requires { (sum < 2 ^ 16) × ((j : ℕ) → j < 16 → get_or halves.now j 0 ≡ times_xs 4 (j * 2 ^ 12)) }
    ensures { result ≡ with_byte sum byte }
{
    let out = sum / 256 ^ byte as usize;
    let high = out / 16;
    let low = out % 16 ^ high;
    (sum % 256 * 256) ^ (halves[high] as usize % 4096 * 16) ^ halves[low] as usize
}

// Entry j is the remainder of j as four bits.
const HALVES: [u16; 16] = [
    0x0000, 0x1021, 0x2042, 0x3063, 0x4084, 0x50A5, 0x60C6, 0x70E7, 0x8108, 0x9129, 0xA14A, 0xB16B,
    0xC18C, 0xD1AD, 0xE1CE, 0xF1EF,
];
