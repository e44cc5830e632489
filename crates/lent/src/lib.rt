// What is put into a buffer that somebody lent, and what is moved within it. Nothing here can write
// past the buffer's end.
#![tactic(auto)]

ghost use Rattle.std.specs.Prelude.{◌≡◌, cond, leb};
ghost use Rattle.lent.specs.Lent.{Lays, Moves};

// Lays the bytes over the room's places from `at` on, as many of them as there is room for. Every
// other byte of the room stays.
pub fn lay_at(bytes: &[u8], room: &mut [u8], at: usize)
    ensures { Lays bytes.now at room.old room.new }
{
    let mut to = at;
    // byte by byte: the library's copy of a slice needs `memmove` of a host in C, and is slower for the one or two bytes that
    // most calls lay
    for byte in bytes {
        if room.len() <= to {
            return;
        }
        room[to] = *byte;
        to += 1;
    }
}

// Moves `size` bytes of the room from place `from` on to place `to` on, as many of them as there are
// and as there is room for. They arrive as they stood before, wherever the two stretches overlap, and
// every byte that none of them arrives at stays.
pub fn move_within(room: &mut [u8], from: usize, to: usize, size: usize)
    ensures { Moves room.old from to size room.new }
{
    let end = room.len();
    if end <= from {
        return;
    }
    if end <= to {
        return;
    }
    let there = least(size, end - from);
    let size = least(there, end - to);
    room.copy_within(from..from + size, to);
}

fn least(a: usize, b: usize) -> usize
    ensures { result ≡ cond (leb a b) a b }
{
    if a <= b { a } else { b }
}
