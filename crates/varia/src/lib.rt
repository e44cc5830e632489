// A VARIA filter box for the operators, above the library and on its promises only: edges, attenuation and
// readings by name, and the house rule on the edges. specs/ says what each call answers.
#![tactic(auto)]

ghost use Rattle.varia.specs.Box.{Makes, HearsReply, HearsClosing, Numbers, request, edge_register, is_out, is_out_of_order, edge_of, other, with_out, with_edge};
ghost use Rattle.varia.specs.Ask.{SetsEdge, Attenuates, ReadsMonitor, ReadsStatus, Stays, Passes, now_out};
ghost use Rattle.varia.specs.Display.{Displays, TellsMoving};
ghost use Rattle.desk.specs.Open.{Opens};
ghost use Rattle.values.specs.Values.{bytes_of};
ghost use Rattle.std.specs.Prelude.{◌≡◌, [], MatchResult};
ghost use Rattle.std.proofs.Math.Option.{none, some};
ghost use Rattle.varia.specs.Box.{edge_refusal};
ghost use Rattle.varia.specs.declared.Pass.TheVariants.{Short, Long};

pub use desk::Desk;
use desk::{AfterOpen, Booked, Closed, Opened, Request};
use telegram::{ACK, READ, WRITE};

// Which edge: that of the short-pass filter or that of the long-pass filter.
#[derive(Clone, Copy)]
pub enum Pass {
    Short,
    Long,
}

// A request to set an edge that is out: the host address of its ticket, which edge, and the value that
// it asks for.
#[derive(Clone, Copy)]
pub struct Sent {
    pub address: u8,
    pub pass: Pass,
    pub tenths: u16,
}

// The box at a module, `unit`, for a job. It learns of an edge only by what the desk answers, so every
// booked, cancelled and expired ticket is told to it, whoever made that call.
#[derive(Clone, Copy)]
pub struct FilterBox {
    pub job: u32,
    pub unit: u8,
    // each edge as last acknowledged, in tenths of a nanometre; `None` where it is not known
    pub short: Option<u16>,
    pub long: Option<u16>,
    pub out: Option<Sent>,
}

// Why a request was not sent.
#[derive(Clone, Copy)]
pub enum Fault {
    // a request to set an edge is out
    EdgeOut,
    // attenuation over 1000
    TooMuch,
    // the edges would not be in order
    OutOfOrder,
    // the desk's own refusal
    AtDesk(desk::Fault),
}

// A call's answer, with the box and the desk as they are afterwards.
#[derive(Clone, Copy)]
pub struct AfterAsk {
    pub filters: FilterBox,
    pub desk: Desk,
    pub answer: Result<Opened, Fault>,
    // how many addresses the desk considered; 0 where the box refused and it was not asked
    pub count: u8,
}

// The registers.
const MONITOR: u8 = 0x13;

const ATTENUATION: u8 = 0x32;

const SHORT_EDGE: u8 = 0x33;

const LONG_EDGE: u8 = 0x34;

const STATUS: u8 = 0x66;

// The most that the attenuation can be, in permille.
const MOST_ATTENUATION: u16 = 1000;

// What `display` puts into its number: which slice the two bytes are of, or its refusal.
pub const FRESH: u32 = 1;

pub const KEPT: u32 = 2;

pub const NEITHER: u32 = 64;

// A box that knows neither edge, with nothing out.
pub fn make(job: u32, unit: u8) -> FilterBox
    ensures { Makes job unit result }
{
    FilterBox {
        job,
        unit,
        short: None,
        long: None,
        out: None,
    }
}

// The paper's number of a refusal.
pub fn number(fault: Fault) -> u8
    ensures { Numbers fault result }
{
    match fault {
        Fault::EdgeOut => 59,
        Fault::TooMuch => 62,
        Fault::OutOfOrder => 63,
        Fault::AtDesk(refused) => desk::number(refused),
    }
}

// Asks for a short-pass edge, in tenths of a nanometre.
pub fn set_short(
    filters: FilterBox,
    desk: Desk,
    tenths: u16,
    wait: u32,
    clock: u32,
    room: &mut [u8],
) -> AfterAsk
    ensures { SetsEdge Short filters desk tenths wait clock room.old result room.new }
{
    set_edge(filters, desk, Pass::Short, tenths, wait, clock, room)
}

// Asks for a long-pass edge, in tenths of a nanometre.
pub fn set_long(
    filters: FilterBox,
    desk: Desk,
    tenths: u16,
    wait: u32,
    clock: u32,
    room: &mut [u8],
) -> AfterAsk
    ensures { SetsEdge Long filters desk tenths wait clock room.old result room.new }
{
    set_edge(filters, desk, Pass::Long, tenths, wait, clock, room)
}

// What the box refuses, and then the desk. A refusal leaves the box, the desk and every byte of the room.
fn set_edge(
    filters: FilterBox,
    desk: Desk,
    pass: Pass,
    tenths: u16,
    wait: u32,
    clock: u32,
    room: &mut [u8],
) -> AfterAsk
    ensures { SetsEdge pass filters desk tenths wait clock room.old result room.new }
{
    if let Err(fault) = judge(filters, pass, tenths) {
        return refused(filters, desk, fault);
    }
    let after = write(
        filters,
        desk,
        edge_register(pass),
        tenths,
        wait,
        clock,
        room,
    );
    let next = now_out(filters, pass, tenths, after.answer);
    passed_on(next, &after)
}

// Rows 59 and 63: why no edge is asked for.
fn judge(filters: FilterBox, pass: Pass, tenths: u16) -> Result<(), Fault>
    ensures { MatchResult result (λ _. edge_refusal filters pass tenths ≡ none) (λ fault. edge_refusal filters pass tenths ≡ some fault) }
{
    if is_out(filters) {
        return Err(Fault::EdgeOut);
    }
    if out_of_order(pass, tenths, opposite(filters, pass)) {
        return Err(Fault::OutOfOrder);
    }
    Ok(())
}

// Asks for an attenuation, in permille.
pub fn attenuate(
    filters: FilterBox,
    desk: Desk,
    permille: u16,
    wait: u32,
    clock: u32,
    room: &mut [u8],
) -> AfterAsk
    ensures { Attenuates filters desk permille wait clock room.old result room.new }
{
    if MOST_ATTENUATION < permille {
        return refused(filters, desk, Fault::TooMuch);
    }
    let after = write(filters, desk, ATTENUATION, permille, wait, clock, room);
    passed_on(filters, &after)
}

// Asks for the monitor's reading.
pub fn read_monitor(
    filters: FilterBox,
    desk: Desk,
    wait: u32,
    clock: u32,
    room: &mut [u8],
) -> AfterAsk
    ensures { ReadsMonitor filters desk wait clock room.old result room.new }
{
    let after = read(filters, desk, MONITOR, wait, clock, room);
    passed_on(filters, &after)
}

// Asks for the status bits.
pub fn read_status(
    filters: FilterBox,
    desk: Desk,
    wait: u32,
    clock: u32,
    room: &mut [u8],
) -> AfterAsk
    ensures { ReadsStatus filters desk wait clock room.old result room.new }
{
    let after = read(filters, desk, STATUS, wait, clock, room);
    passed_on(filters, &after)
}

// Opens a ticket to write a number into a register of the box's module.
fn write(
    filters: FilterBox,
    desk: Desk,
    register: u8,
    value: u16,
    wait: u32,
    clock: u32,
    room: &mut [u8],
) -> AfterOpen
    ensures { Opens desk (request filters 5 register wait) (bytes_of 2 value) clock room.old result room.new }
{
    let mut two = [0u8; 2];
    values::store(value as u64, 2, &mut two);
    desk::open(
        desk,
        asked(filters, WRITE, register, wait),
        &two,
        clock,
        room,
    )
}

// Opens a ticket to read a register of the box's module.
fn read(
    filters: FilterBox,
    desk: Desk,
    register: u8,
    wait: u32,
    clock: u32,
    room: &mut [u8],
) -> AfterOpen
    ensures { Opens desk (request filters 4 register wait) [] clock room.old result room.new }
{
    desk::open(desk, asked(filters, READ, register, wait), b"", clock, room)
}

fn asked(filters: FilterBox, sort: u8, register: u8, wait: u32) -> Request
    ensures { result ≡ request filters sort register wait }
{
    Request {
        job: filters.job,
        unit: filters.unit,
        sort,
        register,
        wait,
        folder: 0,
    }
}

// What the desk answered, passed up whole.
fn passed_on(filters: FilterBox, after: &AfterOpen) -> AfterAsk
    ensures { Passes filters after.now result }
{
    AfterAsk {
        filters,
        desk: after.desk,
        answer: after.answer.map_err(Fault::AtDesk),
        count: after.count,
    }
}

// Refused ahead of the desk: nothing changes.
fn refused(filters: FilterBox, desk: Desk, fault: Fault) -> AfterAsk
    ensures { Stays fault filters desk result }
{
    AfterAsk {
        filters,
        desk,
        answer: Err(fault),
        count: 0,
    }
}

// The box once the desk has answered to a request for an edge.
fn now_out(
    filters: FilterBox,
    pass: Pass,
    tenths: u16,
    answer: Result<Opened, desk::Fault>,
) -> FilterBox
    ensures { result ≡ now_out filters pass tenths answer }
{
    match answer {
        Ok(opened) => with_out(
            filters,
            Some(Sent {
                address: opened.address,
                pass,
                tenths,
            }),
        ),
        Err(_) => filters,
    }
}

fn is_out(filters: FilterBox) -> bool
    ensures { result ≡ is_out filters.out }
{
    filters.out.is_some()
}

// The other edge, as last acknowledged.
fn opposite(filters: FilterBox, pass: Pass) -> Option<u16>
    ensures { result ≡ edge_of filters (other pass) }
{
    match pass {
        Pass::Short => filters.long,
        Pass::Long => filters.short,
    }
}

// Whether a new edge would leave the short-pass edge not above the long-pass edge.
fn out_of_order(pass: Pass, tenths: u16, opposite: Option<u16>) -> bool
    ensures { result ≡ is_out_of_order pass tenths opposite }
{
    let Some(there) = opposite else {
        return false;
    };
    match pass {
        Pass::Short => tenths <= there,
        Pass::Long => there <= tenths,
    }
}

fn edge_register(pass: Pass) -> u8
    ensures { result ≡ edge_register pass }
{
    match pass {
        Pass::Short => SHORT_EDGE,
        Pass::Long => LONG_EDGE,
    }
}

// Tells the box what the desk answered to a reply. Only that on its own request for an edge changes it.
pub fn told_reply(filters: FilterBox, answer: Result<Booked, desk::Fault>) -> FilterBox
    ensures { HearsReply filters answer result }
{
    let Ok(Booked { address, sort, .. }) = answer else {
        return filters;
    };
    let Some(sent) = filters.out else {
        return filters;
    };
    if sent.address != address {
        return filters;
    }
    if sort == ACK {
        return with_edge(filters, sent.pass, Some(sent.tenths));
    }
    with_out(filters, None)
}

// Tells the box what the desk answered to cancel or expire. Its own edge, if it was that, is unknown.
pub fn told_closing(filters: FilterBox, answer: Result<Closed, desk::Fault>) -> FilterBox
    ensures { HearsClosing filters answer result }
{
    let Ok(Closed { address, .. }) = answer else {
        return filters;
    };
    let Some(sent) = filters.out else {
        return filters;
    };
    if sent.address != address {
        return filters;
    }
    with_edge(filters, sent.pass, None)
}

// The box with something else out.
fn with_out(filters: FilterBox, out: Option<Sent>) -> FilterBox
    ensures { result ≡ with_out filters out }
{
    FilterBox { out, ..filters }
}

// The box with that edge, and nothing out any more.
fn with_edge(filters: FilterBox, pass: Pass, edge: Option<u16>) -> FilterBox
    ensures { result ≡ with_edge filters pass edge }
{
    match pass {
        Pass::Short => FilterBox {
            short: edge,
            out: None,
            ..filters
        },
        Pass::Long => FilterBox {
            long: edge,
            out: None,
            ..filters
        },
    }
}

// Whether any of the filters 1 to 3 is moving, by the status number.
pub fn moving(status: u16) -> bool
    ensures { TellsMoving status result }
{
    let bits = status as u64;
    if values::bit(bits, 12) {
        return true;
    }
    if values::bit(bits, 13) {
        return true;
    }
    values::bit(bits, 14)
}

// The two bytes to show: those of the fresh reply where it has exactly two, otherwise those kept from the
// last good one. `which` says of which they are; where neither has exactly two, no byte comes back, and
// `which` is the refusal's number.
pub fn display<'a>(fresh: &'a [u8], kept: &'a [u8], which: &mut u32) -> &'a [u8]
    ensures { Displays fresh.now kept.now result.now which.new }
{
    if fresh.len() == 2 {
        *which = FRESH;
        return &fresh[0..2];
    }
    if kept.len() == 2 {
        *which = KEPT;
        return &kept[0..2];
    }
    *which = NEITHER;
    &kept[0..0]
}
