// Settings sheets in the operators' hands: made of a text, shown and changed, from standard input to
// standard output, by the program's arguments. docs/SHEETS.md says what is written. The library
// decides it; this program only reads, calls and writes.
#![tactic(auto)]

ghost use Rattle.io.specs.Counts.{IsPrefixLen};
ghost use Rattle.std.specs.Prelude.{◌≤◌, length};

use sheet_maker::{NotAdded, NotMade};
use sheet_teller::Order;
use std::env::{Env, FillError};
use std::io::Read;
use std::rt::HostRuntime;

const STDOUT_FILENO: i32 = 1;

// Where the program says how it ended, since it has no exit status. That a word is lost needs no
// telling: whoever waits for it has none.
const WORD_FILENO: i32 = 3;

// The most bytes of a text.
const LONGEST: usize = 262144;

// Room for a text, with a byte more, so that a longer one is seen. It also holds an argument, and what
// is told of a sheet, which is shorter.
const SPACE: usize = 262145;

// Room for a sheet. A right one has at most 31756 bytes; whatever is longer is refused, and for the
// same reason as these first bytes of it.
const SHEET: usize = 32768;

// Three for each bad line that is told, 100 at most.
const NUMBERS: usize = 300;

// Room for a line on how it ended.
const ROOM: usize = 128;

// The largest number of an argument.
const LARGEST: u32 = 4294967295;

// What the arguments ask for, by module and register. The line of `Add` is read where it is added.
#[derive(Clone, Copy)]
enum Command {
    Make,
    Show,
    Calls(Order),
    Check,
    RemoveModule(u8),
    Remove(u8, u8),
    Add,
    Nothing,
}

// How many bytes were read, and whether they are all there are or as many as there is space for.
#[derive(Clone, Copy)]
struct Input {
    size: usize,
    whole: bool,
}

fn main(rt: HostRuntime) {
    let mut space = [0u8; SPACE];
    let mut sheet = [0u8; SHEET];
    lend(rt, &mut space, &mut sheet);
}

// Lends both their space, once for all. It comes as arrays: lent as slices by `main`, their lengths
// would be counted up in its proof.
fn lend(rt: HostRuntime, space: &mut [u8; SPACE], sheet: &mut [u8; SHEET]) {
    run(rt, space, sheet);
}

// Nothing is read where the arguments are none.
fn run(rt: HostRuntime, space: &mut [u8], sheet: &mut [u8]) {
    match asked(rt, space) {
        Command::Make => make(rt, space, sheet),
        Command::Show => show(rt, space, sheet),
        Command::Calls(order) => calls(rt, order, space, sheet),
        Command::Check => check(rt, sheet),
        Command::RemoveModule(unit) => remove_module(rt, unit, sheet),
        Command::Remove(unit, register) => remove(rt, unit, register, sheet),
        Command::Add => add(rt, space, sheet),
        Command::Nothing => say(b"usage\n"),
    }
}

// ---- the arguments

// By how many there are, the program's own name among them.
fn asked(rt: HostRuntime, space: &mut [u8]) -> Command {
    match arg_count(rt) {
        2 => with_none(rt, space),
        3 => with_one(rt, space),
        4 => with_two(rt, space),
        5 => with_three(rt, space),
        _ => Command::Nothing,
    }
}

// How many there are, and six where they are more.
fn arg_count(rt: HostRuntime) -> usize {
    let mut place = [0u8; 1];
    for i in 0..6 {
        if let Err(FillError::NotPresent) = rt.arg(i, &mut place) {
            return i;
        }
    }
    6
}

// Puts an argument, byte by byte as it is, at the start of the space and answers how long it is; 0
// where there is none or it is longer than the space.
fn arg(rt: HostRuntime, i: usize, space: &mut [u8]) -> usize
    ensures { IsPrefixLen result space.new }
{
    match rt.arg(i, space) {
        Ok(size) => size,
        Err(_) => 0,
    }
}

fn with_none(rt: HostRuntime, space: &mut [u8]) -> Command {
    if is_first(rt, b"make", space) {
        return Command::Make;
    }
    if is_first(rt, b"show", space) {
        return Command::Show;
    }
    if is_first(rt, b"check", space) {
        return Command::Check;
    }
    Command::Nothing
}

fn with_one(rt: HostRuntime, space: &mut [u8]) -> Command {
    if is_first(rt, b"add", space) {
        return Command::Add;
    }
    if is_first(rt, b"remove", space) {
        let unit = number(rt, 2, 255, space);
        if unit <= 255 {
            return Command::RemoveModule(unit as u8);
        }
    }
    Command::Nothing
}

fn with_two(rt: HostRuntime, space: &mut [u8]) -> Command {
    if is_first(rt, b"remove", space) {
        return removal_of(number(rt, 2, 255, space), number(rt, 3, 255, space));
    }
    Command::Nothing
}

fn removal_of(unit: u64, register: u64) -> Command {
    if 255 < unit {
        return Command::Nothing;
    }
    if 255 < register {
        return Command::Nothing;
    }
    Command::Remove(unit as u8, register as u8)
}

fn with_three(rt: HostRuntime, space: &mut [u8]) -> Command {
    if is_first(rt, b"calls", space) {
        return calls_of(
            number(rt, 2, LARGEST, space),
            number(rt, 3, LARGEST, space),
            number(rt, 4, LARGEST, space),
        );
    }
    Command::Nothing
}

fn calls_of(job: u64, wait: u64, clock: u64) -> Command {
    if (LARGEST as u64) < job {
        return Command::Nothing;
    }
    if (LARGEST as u64) < wait {
        return Command::Nothing;
    }
    if (LARGEST as u64) < clock {
        return Command::Nothing;
    }
    Command::Calls(Order {
        job: job as u32,
        wait: wait as u32,
        clock: clock as u32,
    })
}

// Whether the first argument is this word.
fn is_first(rt: HostRuntime, word: &[u8], space: &mut [u8]) -> bool {
    let size = arg(rt, 1, space);
    &space[..size] == word
}

// The number that an argument is, if that is one from 0 to `most`; a larger one where it is not. It
// is written without a minus.
fn number(rt: HostRuntime, at: usize, most: u32, space: &mut [u8]) -> u64 {
    let size = arg(rt, at, space);
    unsigned(&space[..size], most)
}

fn unsigned(word: &[u8], most: u32) -> u64 {
    if 0 < word.len() {
        if word[0] == b'-' {
            return most as u64 + 1;
        }
    }
    numerals::up_to(word, most)
}

// ---- the commands

// Reads standard input until it ends or the space is full, and says so where it cannot be read.
fn read_in(rt: HostRuntime, space: &mut [u8]) -> Input
    ensures { result.size ≤ length space.new }
{
    let mut size = 0;
    // Reads until the input ends, which no range knows.
    while size < space.len() {
        let Ok(more) = rt.stdin().read(&mut space[size..]) else {
            say(b"unread\n");
            return Input { size, whole: false };
        };
        if more == 0 {
            return Input { size, whole: true };
        }
        size += more;
    }
    Input { size, whole: true }
}

fn make(rt: HostRuntime, space: &mut [u8], sheet: &mut [u8]) {
    let input = read_in(rt, space);
    let size = input.size;
    if input.whole {
        make_of(&space[0..size], sheet);
    }
}

fn make_of(text: &[u8], sheet: &mut [u8]) {
    if LONGEST < text.len() {
        say(b"long\n");
        return;
    }
    let mut list = [0u64; NUMBERS];
    match sheet_maker::make(text, &mut list, sheet) {
        Ok(size) => give(sheet, size),
        Err(NotMade::Wrong(many)) => bad_lines(&list, many),
        Err(NotMade::Refused(fault)) => refused(setting::number(fault)),
    }
}

fn show(rt: HostRuntime, space: &mut [u8], sheet: &mut [u8]) {
    let input = read_in(rt, sheet);
    let size = input.size;
    if input.whole {
        told(sheet_teller::show(&sheet[0..size], space), space);
    }
}

fn calls(rt: HostRuntime, order: Order, space: &mut [u8], sheet: &mut [u8]) {
    let input = read_in(rt, sheet);
    let size = input.size;
    if input.whole {
        told(sheet_teller::requests(&sheet[0..size], order, space), space);
    }
}

fn told(telling: Result<usize, sheet_teller::Fault>, text: &[u8]) {
    match telling {
        Ok(size) => give(text, size),
        Err(fault) => refused(sheet_teller::number(fault)),
    }
}

fn check(rt: HostRuntime, sheet: &mut [u8]) {
    let input = read_in(rt, sheet);
    let size = input.size;
    if input.whole {
        checked(sheet::check(&sheet[0..size]));
    }
}

fn checked(outcome: Result<usize, setting::Fault>) {
    match outcome {
        Ok(many) => {
            count(b"settings ", many as u64);
            say(b"done\n");
        }
        Err(fault) => refused(setting::number(fault)),
    }
}

fn remove_module(rt: HostRuntime, unit: u8, sheet: &mut [u8]) {
    let input = read_in(rt, sheet);
    if input.whole {
        edited(sheet_editor::remove_module(sheet, input.size, unit), sheet);
    }
}

fn remove(rt: HostRuntime, unit: u8, register: u8, sheet: &mut [u8]) {
    let input = read_in(rt, sheet);
    let size = input.size;
    if input.whole {
        let index = sheet_maker::find(&sheet[0..size], unit, register);
        edited(sheet_editor::remove(sheet, size, index), sheet);
    }
}

fn edited(editing: Result<usize, sheet_editor::Fault>, sheet: &[u8]) {
    match editing {
        Ok(size) => give(sheet, size),
        Err(fault) => refused(sheet_editor::number(fault)),
    }
}

fn add(rt: HostRuntime, space: &mut [u8], sheet: &mut [u8]) {
    let input = read_in(rt, sheet);
    if input.whole {
        let size = arg(rt, 2, space);
        added(sheet_maker::add(sheet, input.size, &space[..size]), sheet);
    }
}

fn added(adding: Result<usize, NotAdded>, sheet: &[u8]) {
    match adding {
        Ok(size) => give(sheet, size),
        Err(NotAdded::Wrong(fault)) => bad_line(
            1,
            sheet_line::word(fault) as u64,
            sheet_maker::key(fault) as u64,
        ),
        Err(NotAdded::Refused(fault)) => refused(sheet_editor::number(fault)),
    }
}

// ---- how it ended

// The output, and the word for it once all of it was taken.
fn give(output: &[u8], size: usize) {
    if size <= output.len() {
        if io::write_all(STDOUT_FILENO, &output[0..size]) {
            say(b"done\n");
        }
    }
}

fn say(word: &[u8]) {
    io::write_all(WORD_FILENO, word);
}

fn refused(number: u8) {
    count(b"refused ", number as u64);
}

// So many bad lines; the list has three numbers for each of the first.
fn bad_lines(list: &[u64], many: usize) {
    let (lines, _) = list.as_chunks::<3>();
    for [line, word, key] in lines.iter().take(many) {
        bad_line(*line, *word, *key);
    }
    if lines.len() < many {
        count(b"more ", (many - lines.len()) as u64);
    }
}

// A line of its own for each.
fn bad_line(line: u64, word: u64, key: u64) {
    let mut room = [0u8; ROOM];
    let a = numbered(b"bad ", line, &mut room, 0);
    let b = numbered(b" ", word, &mut room, a);
    let c = put(b" ", &mut room, b);
    let d = name(key, &mut room, c);
    let number = sheet_maker::number((key % 256) as u8);
    let e = numbered(b" ", number as u64, &mut room, d);
    end(&mut room, e);
}

// A line of a word and a number.
fn count(word: &[u8], n: u64) {
    let mut room = [0u8; ROOM];
    let at = numbered(word, n, &mut room, 0);
    end(&mut room, at);
}

fn end(room: &mut [u8], at: usize) {
    let size = put(b"\n", room, at);
    if size <= room.len() {
        say(&room[0..size]);
    }
}

// The name of a key; a question mark where it is none.
fn name(key: u64, room: &mut [u8], at: usize) -> usize {
    match key {
        1 => put(b"words", room, at),
        2 => put(b"number", room, at),
        3 => put(b"module", room, at),
        4 => put(b"register", room, at),
        5 => put(b"kind", room, at),
        6 => put(b"count", room, at),
        7 => put(b"values", room, at),
        8 => put(b"fit", room, at),
        9 => put(b"many", room, at),
        10 => put(b"order", room, at),
        _ => put(b"?", room, at),
    }
}

// Puts a word and a number at a place of the room and answers the place behind them.
fn numbered(word: &[u8], n: u64, room: &mut [u8], at: usize) -> usize {
    let end = put(word, room, at);
    std::num::wrapping_add_usize(end, text::decimal_at(n, room, end))
}

fn put(word: &[u8], room: &mut [u8], at: usize) -> usize {
    lent::lay_at(word, room, at);
    std::num::wrapping_add_usize(at, word.len())
}
