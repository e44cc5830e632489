// Where the next frame starts, and where it ends.
ghost use Rattle.receiver.specs.Parts.{is_start};
ghost use Rattle.listing.specs.Events.{to_next, is_end};
ghost use Rattle.std.specs.Prelude.{◌≡◌, ◌≤◌, ◌+◌, length, drop};

use frame::{END, START};

// How many bytes stand before the next 13.
pub(crate) fn next_start(bytes: &[u8]) -> usize
    ensures { (result ≡ to_next is_start bytes.now) × (result ≤ length bytes.now) }
{
    bytes
        .iter()
        .position(|byte| *byte == START)
        .unwrap_or(bytes.len())
}

// The place of the next 10 or 13, from a place on.
pub(crate) fn next_end(bytes: &[u8], from: usize) -> usize
    requires { from ≤ length bytes.now }
    ensures { (result ≡ from + to_next is_end (drop from bytes.now)) × (result ≤ length bytes.now) }
{
    let rest = &bytes[from..];
    from + rest
        .iter()
        .position(|byte| is_end(*byte))
        .unwrap_or(rest.len())
}

fn is_end(byte: u8) -> bool
    ensures { result ≡ is_end byte }
{
    byte == END || byte == START
}
