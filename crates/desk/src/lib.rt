// The ticket desk: each request goes out under a host address of its own, and each reply is booked
// on the one ticket that is open on its address, or refused. specs/ says what each call answers.
#![tactic(auto)]

ghost use Rattle.desk.specs.Desk.{Fresh, Looks, Numbers, Places, Stands, live_as, stored_at, put_at, ticket_at, under};
ghost use Rattle.marks.specs.Marks.{is_marked};
ghost use Rattle.desk.specs.Folder.{holder_place, is_folder_held};
ghost use Rattle.desk.specs.Open.{Opens, PassesBy, PlacesAt, distance_of, with_ticket};
ghost use Rattle.desk.specs.Reply.{Replies, answered_on};
ghost use Rattle.desk.specs.Close.{Cancels, Expires, Withdraws, due_place, is_theirs};
ghost use Rattle.ticket.specs.Ticket.{withdrawn_at};
ghost use Rattle.std.specs.Prelude.{◌≡◌, ◌≢◌, ◌≤◌, ◌<◌, ℕ, Some, None, false, true, length};

use marks::Marks;
pub use request::Request;
use ticket::NO_TICKET;
pub use ticket::Ticket;

// A ticket for each host address, 161 to 255, at the place that is the address less 161. The turn
// is such a place too. A place is marked while it holds a ticket: the mark decides, and in each desk
// that calls made the ticket's own `live` says the same.
#[repr(C)]
#[derive(Clone, Copy)]
pub struct Desk {
    pub turn: u8,
    pub tickets: [Ticket; 95],
    pub marks: Marks,
}

// Why the desk refused.
#[derive(Clone, Copy)]
pub enum Fault {
    // what is asked may not be sent
    Denied(request::Fault),
    // an open ticket of another job holds its folder
    FolderHeld,
    // every address is open or rests
    NoneFree,
    NoRoom,
    // the reply could not be read as a telegram
    Unread(telegram::Fault),
    // the reply does not fit what is open on its destination
    Misfit(ticket::Fault),
    NotTheirs,
    NothingDue,
}

// What was opened: the host address that was given, and the length of the request telegram.
#[derive(Clone, Copy)]
pub struct Opened {
    pub address: u8,
    pub size: usize,
}

// What was booked. Whose ticket it was: job and address; what came: type and number of data bytes;
// and the folder that the ticket held.
#[derive(Clone, Copy)]
pub struct Booked {
    pub job: u32,
    pub address: u8,
    pub sort: u8,
    pub size: usize,
    pub folder: u32,
}

// The job, the address and the folder of the ticket that was closed.
#[derive(Clone, Copy)]
pub struct Closed {
    pub job: u32,
    pub address: u8,
    pub folder: u32,
}

#[derive(Clone, Copy)]
pub enum Seen {
    Open(Ticket),
    // the last ticket there was cancelled or expired, at this clock
    Withdrawn(u32),
    Nothing,
}

// A call's answer, with the desk as it is afterwards.
#[derive(Clone, Copy)]
pub struct AfterOpen {
    pub desk: Desk,
    pub answer: Result<Opened, Fault>,
    // how many addresses were considered, up to and including the one given: 0 where the request may
    // not be sent or its folder is held, 95 where none is free, and without room up to the one that
    // would have been given
    pub count: u8,
}

#[derive(Clone, Copy)]
pub struct AfterReply {
    pub desk: Desk,
    pub answer: Result<Booked, Fault>,
}

#[derive(Clone, Copy)]
pub struct AfterClose {
    pub desk: Desk,
    pub answer: Result<Closed, Fault>,
}

// A desk with no tickets and its turn at 161.
pub fn fresh() -> Desk
    ensures { Fresh result }
{
    let marks = marks::none();
    Desk {
        turn: 0,
        tickets: [NO_TICKET; 95],
        marks,
    }
}

// The paper's number of a refusal.
pub fn number(fault: Fault) -> u8
    ensures { Numbers fault result }
{
    match fault {
        Fault::Denied(denied) => request::number(denied),
        Fault::FolderHeld => 75,
        Fault::NoneFree => 15,
        Fault::NoRoom => 16,
        Fault::Unread(unread) => telegram::number(unread),
        Fault::Misfit(misfit) => ticket::number(misfit),
        Fault::NotTheirs => 21,
        Fault::NothingDue => 22,
    }
}

// The place in the reply's frame that comes with number 3; 0 with all else.
pub fn place(fault: Fault) -> usize
    ensures { Places fault result }
{
    match fault {
        Fault::Denied(_) => 0,
        Fault::FolderHeld => 0,
        Fault::NoneFree => 0,
        Fault::NoRoom => 0,
        Fault::Unread(unread) => telegram::place(unread),
        Fault::Misfit(_) => 0,
        Fault::NotTheirs => 0,
        Fault::NothingDue => 0,
    }
}

// What stands on an address.
pub fn look(desk: Desk, address: u8) -> Seen
    ensures { Looks desk address result }
{
    let ticket = ticket_on(desk, address);
    if ticket.live {
        return Seen::Open(ticket);
    }
    if ticket.withdrawn {
        return Seen::Withdrawn(ticket.closed);
    }
    Seen::Nothing
}

// Opens a ticket and writes its request telegram into the room's first bytes. A refusal leaves the
// desk, its turn and every byte of the room.
pub fn open(desk: Desk, asked: Request, data: &[u8], clock: u32, room: &mut [u8]) -> AfterOpen
    ensures { Opens desk asked «data».now clock room.old result room.new }
{
    if let Err(fault) = request::judge(asked, data) {
        return AfterOpen {
            desk,
            answer: Err(Fault::Denied(fault)),
            count: 0,
        };
    }
    if is_folder_held(desk, asked) {
        return AfterOpen {
            desk,
            answer: Err(Fault::FolderHeld),
            count: 0,
        };
    }
    let Some(distance) = free_distance(desk, clock) else {
        return AfterOpen {
            desk,
            answer: Err(Fault::NoneFree),
            count: 95,
        };
    };
    open_at(desk, distance, asked, data, clock, room)
}

// Whether an open ticket of another job holds the folder that is asked for. 0 is no folder.
fn is_folder_held(desk: Desk, asked: Request) -> bool
    ensures { result ≡ is_folder_held desk asked }
{
    asked.folder != 0 && holder_place(desk, asked.job, asked.folder).is_some()
}

// Row 16, and the opening itself, at a distance from the turn.
fn open_at(
    desk: Desk,
    distance: u8,
    asked: Request,
    data: &[u8],
    clock: u32,
    room: &mut [u8],
) -> AfterOpen
    requires near { distance < 95 }
    requires writable { (length «data».now ≤ 240) × (asked.unit ≢ 0) × (asked.sort ≤ 9) }
    ensures { PlacesAt desk distance asked «data».now clock room.old result room.new }
{
    let place = ((desk.turn as u16 + distance as u16) % 95) as u8;
    let address = 161 + place;
    let count = distance + 1;
    match telegram::write(asked.unit, address, asked.sort, asked.register, data, room) {
        Err(_) => AfterOpen {
            desk,
            answer: Err(Fault::NoRoom),
            count,
        },
        Ok(n) => AfterOpen {
            desk: with_ticket(
                desk,
                place,
                Ticket {
                    live: true,
                    asked,
                    opened: clock,
                    withdrawn: false,
                    closed: 0,
                },
            ),
            answer: Ok(Opened { address, size: n }),
            count,
        },
    }
}

// Books a reply on the ticket that is open on its destination, and closes that ticket. The data go
// into the room's first bytes; a refusal leaves the desk and every byte of the room.
pub fn reply(desk: Desk, frame: &[u8], room: &mut [u8]) -> AfterReply
    ensures { Replies desk frame.now room.old result room.new }
{
    let reading = telegram::examine(frame, room.len());
    let Ok(t) = reading else {
        return AfterReply {
            desk,
            answer: Err(Fault::Unread(telegram::why(reading))),
        };
    };
    let ticket = ticket_on(desk, t.destination);
    if let Err(fault) = ticket::judge(ticket, t) {
        return AfterReply {
            desk,
            answer: Err(Fault::Misfit(fault)),
        };
    }
    let _ = telegram::read(frame, room);
    let booked = Booked {
        job: ticket.asked.job,
        address: t.destination,
        sort: t.sort,
        size: t.size,
        folder: ticket.asked.folder,
    };
    AfterReply {
        desk: answered_on(desk, t.destination),
        answer: Ok(booked),
    }
}

// The desk without the ticket that was answered.
fn answered_on(desk: Desk, address: u8) -> Desk
    requires { 161 ≤ address }
    ensures { result ≡ answered_on desk address }
{
    put_at(desk, address - 161, NO_TICKET)
}

// Closes the ticket that is open on the address for that job. The address rests from the clock on.
pub fn cancel(desk: Desk, job: u32, address: u8, clock: u32) -> AfterClose
    ensures { Cancels desk job address clock result }
{
    if is_theirs(ticket_on(desk, address), job) {
        return withdraw(desk, address, clock);
    }
    AfterClose {
        desk,
        answer: Err(Fault::NotTheirs),
    }
}

fn is_theirs(ticket: Ticket, job: u32) -> bool
    ensures { result ≡ is_theirs ticket job }
{
    ticket.live && ticket.asked.job == job
}

// Closes the due ticket with the lowest address. The address rests from the clock on.
pub fn expire(desk: Desk, clock: u32) -> AfterClose
    ensures { Expires desk clock result }
{
    let Some(place) = due_place(desk, clock) else {
        return AfterClose {
            desk,
            answer: Err(Fault::NothingDue),
        };
    };
    withdraw(desk, 161 + place, clock)
}

// Closes the ticket on a host address without a reply, and answers its job, address and folder.
fn withdraw(desk: Desk, address: u8, clock: u32) -> AfterClose
    requires { 161 ≤ address }
    ensures { Withdraws desk address clock result }
{
    let ticket = ticket_on(desk, address);
    AfterClose {
        desk: put_at(desk, address - 161, withdrawn_at(clock)),
        answer: Ok(Closed {
            job: ticket.asked.job,
            address,
            folder: ticket.asked.folder,
        }),
    }
}

// What is kept of a ticket that is cancelled or expires at a clock.
fn withdrawn_at(clock: u32) -> Ticket
    ensures { result ≡ withdrawn_at clock }
{
    let mut kept = NO_TICKET;
    kept.withdrawn = true;
    kept.closed = clock;
    kept
}

// What follows alone reads or stores in the array of tickets, and in the marks beside it.

// What stands on an address, as a ticket; under 161 there is none.
pub fn ticket_on(desk: Desk, address: u8) -> Ticket
    ensures { Stands desk address result }
{
    if 161 <= address {
        let at = (address - 161) as usize;
        return as_marked(desk.tickets[at], desk.marks, address - 161);
    }
    NO_TICKET
}

// What stands at a place: its ticket, which is open there while the place is marked.
fn as_marked(ticket: Ticket, marks: Marks, place: u8) -> Ticket
    ensures { result ≡ live_as (is_marked marks place) ticket }
{
    let mut shown = ticket;
    shown.live = marks::is_marked(marks, place);
    shown
}

// How far from the turn the first place is that is free at the clock.
fn free_distance(desk: Desk, clock: u32) -> Option<u8>
    ensures { result ≡ under 95 (distance_of desk clock) }
{
    let marks = desk.marks;
    let turn = desk.turn as usize;
    let mut k: u8 = 0;
    // jumps by runs of marks, which no range does
    while k < 95 {
        let at = (turn + k as usize) % 95;
        let passed = passed_by(marks, desk.tickets[at], at as u8, clock);
        if passed == 0 {
            return Some(k);
        }
        k += passed;
    }
    None
}

// How many places from this one on are not free, as far as is seen at once; 0 where it is free. A run
// of marks is passed by in one step; of a place that is not marked the rest alone is looked at.
// A count and no `Option`: `Some(0)` would be a second "free here", which the loop had to exclude.
fn passed_by(marks: Marks, ticket: Ticket, place: u8, clock: u32) -> u8
    requires { place < 95 }
    ensures { PassesBy marks ticket place clock result }
{
    let run = marks::run(marks, place);
    let left = 95 - place;
    if left < run {
        return left;
    }
    if 0 < run {
        return run;
    }
    if ticket::is_resting(ticket, clock) {
        return 1;
    }
    0
}

// The lowest place with a due ticket.
fn due_place(desk: Desk, clock: u32) -> Option<u8>
    ensures { result ≡ under 95 (due_place desk clock) }
{
    place_where(&desk, |ticket| ticket::is_due(ticket, clock))
}

// The lowest place whose ticket keeps the job off the folder.
fn holder_place(desk: Desk, job: u32, folder: u32) -> Option<u8>
    ensures { result ≡ under 95 (holder_place desk job folder) }
{
    place_where(&desk, |ticket| ticket::bars(ticket, job, folder))
}

// The lowest place where the test holds of the ticket that stands there.
fn place_where<F: Fn(Ticket) -> bool>(desk: &Desk, holds: F) -> Option<u8>
    requires { F.IsAlwaysCallable holds }
    ensures found { (place : ℕ) → result ≡ Some place → (place < 95) × F.post holds (ticket_at desk.now place) true }
    ensures before { (place : ℕ) → result ≡ Some place → (k : ℕ) → k < place → F.post holds (ticket_at desk.now k) false }
    ensures none { result ≡ None → (k : ℕ) → k < 95 → F.post holds (ticket_at desk.now k) false }
{
    for k in 0..95 {
        if holds(as_marked(desk.tickets[k as usize], desk.marks, k)) {
            return Some(k);
        }
    }
    None
}

// The ticket stands at the place, and the turn moves to the place after it.
fn with_ticket(desk: Desk, place: u8, ticket: Ticket) -> Desk
    requires { place < 95 }
    ensures { result ≡ with_ticket desk place ticket }
{
    let turn = (place + 1) % 95;
    let marks = marks::with_mark(desk.marks, place, ticket.live);
    stored(desk, turn, place, ticket, marks)
}

// Something else stands at the place. The turn stays.
fn put_at(desk: Desk, place: u8, ticket: Ticket) -> Desk
    requires { place < 95 }
    ensures { result ≡ put_at desk place ticket }
{
    let changed = marks::with_mark(desk.marks, place, ticket.live);
    stored(desk, desk.turn, place, ticket, changed)
}

fn stored(desk: Desk, turn: u8, place: u8, ticket: Ticket, marks: Marks) -> Desk
    requires { place < 95 }
    ensures { result ≡ stored_at desk turn place ticket marks }
{
    let mut tickets = desk.tickets;
    let at = place as usize;
    tickets[at] = ticket;
    Desk {
        turn,
        tickets,
        marks,
    }
}
