// The call `desk.expall`. A part of the test tool `rehearsal`.
#![tactic(auto)]

ghost use Rattle.std.specs.Prelude.{◌≤◌, length};

use desk::Desk;
use words::Words;

// The most entries that a line may ask for.
pub const ENTRIES: usize = 200;

// What stands in the list before the call. No entry has it: no address is so large.
pub const UNUSED: u32 = 4294967295;

// The desk after the call, and how long the answer is.
#[derive(Clone, Copy)]
pub struct Answered {
    pub desk: Desk,
    pub at: usize,
}

// desk.expall CLOCK ROOM, with a list that is all unused.
pub fn answer(d: Desk, w: Words, line: &[u8], list: &mut [u32], out: &mut [u8]) -> Answered {
    let a = words::number(w, line, 4294967295);
    let b = words::number(a, line, ENTRIES as u64);
    if words::done(b, line) {
        return sweep(d, words::word32(a.value), b.value, list, out);
    }
    Answered {
        desk: d,
        at: answers::bad_line(out),
    }
}

fn sweep(d: Desk, clock: u32, entries: u64, list: &mut [u32], out: &mut [u8]) -> Answered {
    let n = numbers(entries, list);
    let swept = overdue::expire_all(d, clock, &mut list[0..n]);
    let next = swept.desk;
    let from = answers::form(out, b"ok n=# list=", &[swept.count as u64]);
    Answered {
        desk: next,
        at: show(&list[0..n], out, from),
    }
}

// How many of the list's numbers so many entries have.
fn numbers(entries: u64, list: &[u32]) -> usize
    ensures { result ≤ length list.now }
{
    let n = (entries % 1000 * 3) as usize;
    if n < list.len() { n } else { list.len() }
}

// The entries, `.` for one that stayed; `-` for a list of none.
fn show(list: &[u32], out: &mut [u8], from: usize) -> usize {
    let (entries, _) = list.as_chunks::<3>();
    if entries.is_empty() {
        return answers::text(out, from, b"-");
    }
    let mut at = from;
    for [job, address, folder] in entries {
        at = entry(*job, *address, *folder, out, from, at);
    }
    at
}

fn entry(job: u32, address: u32, folder: u32, out: &mut [u8], from: usize, at: usize) -> usize {
    let next = answers::comma(out, from, at);
    if address == UNUSED {
        return answers::text(out, next, b".");
    }
    let named = answers::number(out, next, job as u64);
    let placed = answers::field(out, named, b":", address as u64);
    answers::field(out, placed, b":", folder as u64)
}
