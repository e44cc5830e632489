// Rehearses a night without a rig: reads call lines from standard input to its end and writes one
// answer line for each. It calls the library's public functions and decides nothing itself. Where it
// cannot read on or cannot write an answer, it says so on standard error and ends.
#![tactic(auto)]

use bench::Bench;
use desk::Desk;
use desk_calls::Heard;
use lanes::Lanes;
use lanes_calls::Hall;
use overdue_calls::{ENTRIES, UNUSED};
use receiver_calls::Line;
use scan::Scan;
use scan_calls::{Hearers, Shift};
use std::io::{Read, Stdin};
use std::rt::HostRuntime;
use varia::FilterBox;
use varia_calls::Rig;
use words::Words;

const STDOUT_FILENO: i32 = 1;

const STDERR_FILENO: i32 = 2;

// A line that is longer than this is a bad line.
const LONGEST: usize = 65536;

// No answer is longer: that of rx.feed has at most 32 bytes, an `at P dropped;`, for each two
// characters of its line.
const LONGEST_ANSWER: usize = 16 * LONGEST;

// What the calls so far have made. The bench, the filter box and the scan count once one was made.
#[derive(Clone, Copy)]
struct Made {
    desk: Desk,
    lanes: Lanes,
    filters: FilterBox,
    has_box: bool,
    scan: Scan,
    has_scan: bool,
    bench: Bench,
    has_bench: bool,
    line: Line,
}

// What is gathered of the line that has not ended yet, how many answers were written, and whether
// one was lost, after which nothing is answered any more.
#[derive(Clone, Copy)]
struct Gathered {
    used: usize,
    long: bool,
    made: Made,
    answered: u64,
    lost: bool,
}

// What the calls have made after one more, and how long its answer is.
#[derive(Clone, Copy)]
struct Said {
    made: Made,
    at: usize,
}

fn main(rt: HostRuntime) {
    let mut line = [0u8; LONGEST];
    let mut out = [0u8; LONGEST_ANSWER];
    lend(rt.stdin(), &mut line, &mut out);
}

// Lends the line and the answer their space, once for all. It comes as arrays: lent as slices by
// `main`, their lengths would be counted up in its proof, and the answer's is too long for that.
fn lend(input: Stdin, line: &mut [u8; LONGEST], out: &mut [u8; LONGEST_ANSWER]) {
    run(input, line, out);
}

// Reads chunk after chunk. Half a line at which reading fails is not answered.
fn run(mut input: Stdin, line: &mut [u8], out: &mut [u8]) {
    let mut chunk = io::large_buffer();
    let mut gathered = next_line(nothing(), 0);
    // Reads until the input ends: no input takes so many reads.
    for _ in 0..u64::MAX {
        let Ok(n) = input.read(&mut chunk) else {
            tell(
                b"rehearsal: the calls could not be read further; answers written: ",
                gathered.answered,
                out,
            );
            return;
        };
        if n == 0 {
            break;
        }
        feed(&chunk[..n], line, out, &mut gathered);
        if gathered.lost {
            return;
        }
    }
    if 0 < gathered.used {
        end_line(line, gathered, out);
    }
}

// One line on standard error. Nothing can be done where that fails too.
fn tell(what: &[u8], answered: u64, out: &mut [u8]) {
    let counted = answers::text(out, 0, what);
    let ended = answers::number(out, counted, answered);
    let at = answers::text(out, ended, b"\n");
    show(STDERR_FILENO, out, at);
}

fn nothing() -> Made {
    let none = bench::make(0);
    let bench = none.bench;
    Made {
        desk: desk::fresh(),
        lanes: lanes::fresh(),
        filters: varia::make(0, 0),
        has_box: false,
        scan: scan::make(0),
        has_scan: false,
        bench: bench,
        has_bench: false,
        line: receiver_calls::begin(0, tally::cleared()),
    }
}

// Nothing gathered yet, with what was made so far.
fn next_line(made: Made, answered: u64) -> Gathered {
    Gathered {
        used: 0,
        long: false,
        made: made,
        answered: answered,
        lost: false,
    }
}

// Answers every line that ends in the chunk, and gathers the one that does not. What is gathered changes
// where it lies: handed on by value it would be on the stack again and again.
fn feed(chunk: &[u8], line: &mut [u8], out: &mut [u8], gathered: &mut Gathered) {
    for part in chunk.split_inclusive(|byte| *byte == b'\n') {
        match part.strip_suffix(b"\n") {
            Some(ended) => piece(ended, true, line, out, gathered),
            None => piece(part, false, line, out, gathered),
        }
    }
}

// Adds a piece to the line, and answers the line where the piece ends it. Nothing after a lost answer.
fn piece(part: &[u8], ends: bool, line: &mut [u8], out: &mut [u8], gathered: &mut Gathered) {
    if gathered.lost {
        return;
    }
    gather(part, line, gathered);
    if ends {
        *gathered = end_line(line, *gathered, out);
    }
}

// Adds a part to the line that is gathered.
fn gather(part: &[u8], line: &mut [u8], gathered: &mut Gathered) {
    let used = gathered.used;
    lent::lay_at(part, line, used);
    let total = std::num::wrapping_add_usize(used, part.len());
    if LONGEST < total {
        gathered.used = LONGEST;
        gathered.long = true;
    } else {
        gathered.used = total;
    }
}

// Answers a line that has ended, with one write for the whole answer.
fn end_line(line: &[u8], gathered: Gathered, out: &mut [u8]) -> Gathered {
    let answered = gathered.answered;
    let said = answer_to(line, gathered, out);
    let at = answers::text(out, said.at, b"\n");
    let shown = show(STDOUT_FILENO, out, at);
    let mut next = next_line(said.made, answered);
    if shown {
        next.answered = std::num::wrapping_add_u64(answered, 1);
        return next;
    }
    tell(
        b"rehearsal: an answer could not be written; answers written before it: ",
        answered,
        out,
    );
    next.lost = true;
    next
}

fn show(fd: i32, out: &[u8], at: usize) -> bool {
    let n = words::count(at as u64, out);
    io::write_all(fd, &out[..n])
}

fn answer_to(line: &[u8], gathered: Gathered, out: &mut [u8]) -> Said {
    let used = gathered.used;
    let made = gathered.made;
    if gathered.long {
        return Said {
            made: made,
            at: answers::bad_line(out),
        };
    }
    if used <= line.len() {
        return answer(made, &line[0..used], out);
    }
    Said { made: made, at: 0 }
}

// Which call it is: those on the desk, those on the lanes, those on the filter box, those on the scan,
// those on the bench, those on the receiver and its tally, and those that keep nothing.
fn answer(made: Made, line: &[u8], out: &mut [u8]) -> Said {
    let w = words::word(words::start(), line);
    if words::is(w, line, b"desk.expall") {
        return answer_all(made, w, line, out);
    }
    if words::starts(w, line, b"desk.") {
        return answer_desk(made, w, line, out);
    }
    if words::starts(w, line, b"lane.") {
        return answer_lane(made, w, line, out);
    }
    if words::starts(w, line, b"varia.") {
        return answer_varia(made, w, line, out);
    }
    if words::starts(w, line, b"scan.") {
        return answer_scan(made, w, line, out);
    }
    if words::starts(w, line, b"bench.") {
        return answer_bench(made, w, line, out);
    }
    if is_heard(w, line) {
        return answer_rx(made, w, line, out);
    }
    Said {
        made: made,
        at: answer_kept(w, line, out),
    }
}

// A call on the receiver, or on its tally.
fn is_heard(w: Words, line: &[u8]) -> bool {
    words::starts(w, line, b"rx.") || words::starts(w, line, b"tally.")
}

fn answer_desk(made: Made, w: Words, line: &[u8], out: &mut [u8]) -> Said {
    let before = made.desk;
    let told = desk_calls::answer(before, w, line, out);
    let after = told.desk;
    let heard = told.heard;
    let hearers = scan_calls::told(hearing(made.filters, made.scan), heard);
    let filters = hearers.filters;
    let scan = hearers.scan;
    let lanes = lanes_before(made.lanes, heard);
    let stays = !is_anew(heard);
    let mut next = made;
    next.desk = after;
    next.lanes = lanes;
    next.filters = filters;
    next.has_box = made.has_box && stays;
    next.scan = scan;
    next.has_scan = made.has_scan && stays;
    Said {
        made: next,
        at: told.at,
    }
}

// Everything due expires. The filter box and the scan are told of each closing.
fn answer_all(made: Made, w: Words, line: &[u8], out: &mut [u8]) -> Said {
    let mut closed = [UNUSED; 3 * ENTRIES];
    let before = made.desk;
    let swept = overdue_calls::answer(before, w, line, &mut closed, out);
    let after = swept.desk;
    let hearers = scan_calls::told_all(hearing(made.filters, made.scan), &closed);
    let filters = hearers.filters;
    let scan = hearers.scan;
    let mut next = made;
    next.desk = after;
    next.filters = filters;
    next.scan = scan;
    Said {
        made: next,
        at: swept.at,
    }
}

// Who is told what the desk answered.
fn hearing(filters: FilterBox, scan: Scan) -> Hearers {
    Hearers { filters, scan }
}

// A new desk has empty lanes in front of it.
fn lanes_before(lanes: Lanes, heard: Heard) -> Lanes {
    match heard {
        Heard::Anew => lanes::fresh(),
        _ => lanes,
    }
}

fn answer_lane(made: Made, w: Words, line: &[u8], out: &mut [u8]) -> Said {
    let waiting = made.lanes;
    let asked = made.desk;
    let before = Hall {
        lanes: waiting,
        desk: asked,
    };
    let told = lanes_calls::answer(before, w, line, out);
    let hall = told.hall;
    let lanes = hall.lanes;
    let desk = hall.desk;
    let mut next = made;
    next.lanes = lanes;
    next.desk = desk;
    Said {
        made: next,
        at: told.at,
    }
}

// A new desk has no box and no scan.
fn is_anew(heard: Heard) -> bool {
    match heard {
        Heard::Anew => true,
        _ => false,
    }
}

fn answer_varia(made: Made, w: Words, line: &[u8], out: &mut [u8]) -> Said {
    let asked = made.desk;
    let asking = made.filters;
    let before = Rig {
        desk: asked,
        filters: asking,
        made: made.has_box,
    };
    let filtered = varia_calls::answer(before, w, line, out);
    let rig = filtered.rig;
    let desk = rig.desk;
    let filters = rig.filters;
    let mut next = made;
    next.desk = desk;
    next.filters = filters;
    next.has_box = rig.made;
    Said {
        made: next,
        at: filtered.at,
    }
}

fn answer_scan(made: Made, w: Words, line: &[u8], out: &mut [u8]) -> Said {
    let asked = made.desk;
    let asking = made.scan;
    let before = Shift {
        desk: asked,
        scan: asking,
        made: made.has_scan,
    };
    let scanned = scan_calls::answer(before, w, line, out);
    let shift = scanned.shift;
    let desk = shift.desk;
    let scan = shift.scan;
    let mut next = made;
    next.desk = desk;
    next.scan = scan;
    next.has_scan = shift.made;
    Said {
        made: next,
        at: scanned.at,
    }
}

fn answer_bench(made: Made, w: Words, line: &[u8], out: &mut [u8]) -> Said {
    let before = made.bench;
    let shown = bench_calls::answer(before, made.has_bench, w, line, out);
    let after = shown.bench;
    let mut next = made;
    next.bench = after;
    next.has_bench = shown.made;
    Said {
        made: next,
        at: shown.at,
    }
}

fn answer_rx(made: Made, w: Words, line: &[u8], out: &mut [u8]) -> Said {
    let before = made.line;
    let heard = receiver_calls::answer(before, w, line, out);
    let after = heard.line;
    let mut next = made;
    next.line = after;
    Said {
        made: next,
        at: heard.at,
    }
}

// The calls that keep nothing.
fn answer_kept(w: Words, line: &[u8], out: &mut [u8]) -> usize {
    if words::is(w, line, b"rem") {
        return telegram_calls::rem(w, line, out);
    }
    if words::is(w, line, b"read") {
        return telegram_calls::read(w, line, out);
    }
    if words::is(w, line, b"write") {
        return telegram_calls::write(w, line, out);
    }
    if words::starts(w, line, b"sheet.") {
        return sheet_calls::answer(w, line, out);
    }
    values_calls::answer(w, line, out)
}
