// The listing's text, put together from fixed words and decimal numbers. Each piece answers the
// place behind it, where the next one goes.
#![tactic(auto)]

ghost use Rattle.lines.specs.Lines.{Puts, Writes, header_text, field as field_text, labelled as labelled_text, event_text, line_text, totals_text, ending_text};
ghost use Rattle.std.specs.Prelude.{◌+◌, ◌≤◌, length};

// What became of a frame.
#[derive(Clone, Copy)]
pub enum Event {
    // read, with what it says
    Read(telegram::Fields),
    // closed by a 10, but no telegram
    Refused(telegram::Fault),
    // a second 13 came before a 10
    Dropped,
    // the capture ended before a 10
    Open,
}

// A frame's event, and the place of its 13.
#[derive(Clone, Copy)]
pub struct Placed {
    pub place: u64,
    pub event: Event,
}

// The first line. This call and the others that write text lay it over the room's first bytes, as
// much of it as there is room for, and answer how long it is. The rest of the room stays.
pub fn header(room: &mut [u8]) -> usize
    ensures { Writes header_text room.old result room.new }
{
    word(b"Interbus capture\n", room, 0)
}

// The line of a frame.
pub fn line(place: u64, event: Event, room: &mut [u8]) -> usize
    ensures { Writes (line_text place event) room.old result room.new }
{
    let a = labelled(b"at", place, room, 0);
    let b = event_at(event, room, a);
    word(b"\n", room, b)
}

// The end of a listing: the line of the frame that is open there, if one is, and the totals.
pub fn ending(
    inside: bool,
    start: u64,
    ok: u64,
    refused: u64,
    dropped: u64,
    room: &mut [u8],
) -> usize
    ensures { Writes (ending_text inside start ok refused dropped) room.old result room.new }
{
    if inside {
        let at = line(start, Event::Open, room);
        return totals(ok, refused, dropped, room, at);
    }
    totals(ok, refused, dropped, room, 0)
}

fn totals(ok: u64, refused: u64, dropped: u64, room: &mut [u8], at: usize) -> usize
    requires { at ≤ 150 }
    ensures { Puts (totals_text ok refused dropped) at room.old result room.new }
{
    let a = labelled(b"ok", ok, room, at);
    let b = labelled(b" refused", refused, room, a);
    let c = labelled(b" dropped", dropped, room, b);
    word(b"\n", room, c)
}

// What a line says of the frame, after its place.
fn event_at(event: Event, room: &mut [u8], at: usize) -> usize
    requires { at ≤ 30 }
    ensures { Puts (event_text event) at room.old result room.new × (result ≤ 149) }
{
    match event {
        Event::Read(t) => fields(t, room, at),
        Event::Refused(fault) => refused(fault, room, at),
        Event::Dropped => word(b" dropped", room, at),
        Event::Open => word(b" open", room, at),
    }
}

// A refused frame's number, and with 3 the place in the frame.
fn refused(fault: telegram::Fault, room: &mut [u8], at: usize) -> usize
    requires { at ≤ 30 }
    ensures { Puts (event_text (Event.Refused fault)) at room.old result room.new × (result ≤ 149) }
{
    let number = telegram::number(fault);
    let a = labelled(b" refused", number as u64, room, at);
    // by its number and not its fault: tests/wrong/lines/place_with_4 is a wrong number here
    if number == 3 {
        let place = telegram::place(fault);
        return labelled(b" in", place as u64, room, a);
    }
    a
}

fn fields(t: telegram::Fields, room: &mut [u8], at: usize) -> usize
    requires { at ≤ 30 }
    ensures { Puts (event_text (Event.Read t)) at room.old result room.new × (result ≤ 149) }
{
    let a = labelled(b" ok", t.destination as u64, room, at);
    let b = field(t.source as u64, room, a);
    let c = field(t.sort as u64, room, b);
    let d = field(t.register as u64, room, c);
    field(t.size as u64, room, d)
}

// A word, and a number after a blank.
fn labelled(text: &[u8], n: u64, room: &mut [u8], at: usize) -> usize
    requires { (at ≤ 300) × (length text.now ≤ 8) }
    ensures { Puts (labelled_text text.now n) at room.old result room.new × (result ≤ at + 29) }
{
    let a = word(text, room, at);
    field(n, room, a)
}

// A blank and a number.
fn field(n: u64, room: &mut [u8], at: usize) -> usize
    requires { at ≤ 400 }
    ensures { Puts (field_text n) at room.old result room.new × (result ≤ at + 21) }
{
    let a = word(b" ", room, at);
    a + text::decimal_at(n, room, a)
}

fn word(text: &[u8], room: &mut [u8], at: usize) -> usize
    requires { (at ≤ 500) × (length text.now ≤ 30) }
    ensures { Puts text.now at room.old result room.new }
{
    lent::lay_at(text, room, at);
    at + text.len()
}
