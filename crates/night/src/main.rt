// The night listing of a captured line, from standard input to standard output, as it comes and
// however long it is. The library says what is written; this program only reads, calls and writes.
#![tactic(auto)]

ghost use Rattle.night.specs.Turns.{Onward, Carries};
ghost use Rattle.std.specs.Prelude.{◌≡◌, true, ◌≤◌, ◌<◌, length};

use lister::Listing;
use std::io::{Read, Stdin};
use std::rt::HostRuntime;

const STDOUT_FILENO: i32 = 1;

// Where the program says how the listing ended, since it has no exit status. It does so once all
// of the listing was taken, and else not at all.
const WORD_FILENO: i32 = 3;

// Room for the first line, and for the two that may stand at the end.
const ROOM: usize = 256;

// A listing behind some more bytes, and whether it is over: to its end, or where something failed.
#[derive(Clone, Copy)]
struct Turn {
    listing: Listing,
    over: bool,
}

fn main(rt: HostRuntime) {
    if header() {
        let mut piece = io::large_buffer();
        let mut room = io::large_buffer();
        capture(rt.stdin(), &mut piece, &mut room);
    }
}

// The first line, and whether all of it was taken. Where a write fails nothing more is written.
fn header() -> bool {
    let mut room = [0u8; ROOM];
    let size = lines::header(&mut room);
    io::write_all(STDOUT_FILENO, &room[0..size])
}

// Piece by piece, until it is over. That it ends at last is by the places, which run out.
fn capture(input: Stdin, piece: &mut [u8], room: &mut [u8])
    requires { 150 ≤ length room.old }
{
    let mut listing = lister::begin(0);
    // Reads until the input ends, which no range knows.
    loop {
        let turn = read_on(input, listing, piece, room);
        if turn.over {
            return;
        }
        listing = turn.listing;
    }
}

// Reads once and lists what came, so that a capture is listed while it comes.
fn read_on(mut input: Stdin, listing: Listing, piece: &mut [u8], room: &mut [u8]) -> Turn
    requires { 150 ≤ length room.old }
    ensures { Onward listing result × (length room.new ≡ length room.old) }
{
    let Ok(n) = input.read(piece) else {
        return unread(listing);
    };
    if n == 0 {
        return finish(listing);
    }
    list(listing, &piece[0..n], room)
}

// The lines of a piece, a room full at a time, each written at once.
fn list(listing: Listing, piece: &[u8], room: &mut [u8]) -> Turn
    requires { (150 ≤ length room.old) × (0 < length piece.now) }
    ensures { Onward listing result × (length room.new ≡ length room.old) × Carries listing piece.now result }
{
    let mut so_far = listing;
    let mut taken = 0;
    // Goes on by what each room full listed, which no range does.
    while taken < piece.len() {
        let listed = lister::list(so_far, &piece[taken..], room);
        if listed.outcome.is_err() {
            return unread(so_far);
        }
        let size = listed.size;
        if !io::write_all(STDOUT_FILENO, &room[0..size]) {
            return over(so_far);
        }
        taken += listed.taken;
        so_far = listed.listing;
    }
    Turn {
        listing: so_far,
        over: false,
    }
}

// The end of a listing.
fn finish(listing: Listing) -> Turn
    ensures { result.over ≡ true }
{
    let mut room = [0u8; ROOM];
    let size = lister::finish(listing, &mut room);
    end(&room[0..size], b"listed\n");
    over(listing)
}

// The end of one whose capture could not be read further: what was listed stands, without totals.
// A capture that has no places left is told so too.
fn unread(listing: Listing) -> Turn
    ensures { result.over ≡ true }
{
    end(b"capture could not be read\n", b"unread\n");
    over(listing)
}

// The last of the text, and the word for it once it was taken. That the word is lost needs no
// telling: whoever waits for it has none.
fn end(text: &[u8], word: &[u8]) {
    if io::write_all(STDOUT_FILENO, text) {
        io::write_all(WORD_FILENO, word);
    }
}

fn over(listing: Listing) -> Turn
    ensures { result.over ≡ true }
{
    Turn {
        listing,
        over: true,
    }
}
