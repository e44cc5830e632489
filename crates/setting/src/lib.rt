// A setting: what a register of a module is to hold. Settings are named by rows of 8 bytes: module,
// register, kind, element count, and a number of 4 bytes. Here is what a row says, which are allowed,
// and whether they rise; `specs/Setting.antt` says so.
#![tactic(auto)]

ghost use Rattle.setting.specs.Setting.{Numbers, Measures, Allows, NamesRow, TellsRow, FindsFall, FindsUnfit, FindsPlace, Rises};

// How many bytes a row has.
pub const ROW: usize = 8;

// The most settings that a sheet holds.
pub const MOST: usize = 128;

// What a row begins with: of which register the value is, and what value it is.
#[repr(C)]
#[derive(Clone, Copy)]
pub struct Head {
    pub unit: u8,
    pub register: u8,
    pub kind: u8,
    pub count: u8,
}

// Why a sheet, or the settings for one, were refused.
#[derive(Clone, Copy)]
pub enum Fault {
    ShortSheet,
    OtherVersion,
    WrongHeader,
    OutOfOrder,
    NotAllowed,
    WrongPlaces,
    NoSuchRecord,
    NoRoom,
    TooMany,
}

// The paper's number of a refusal.
pub fn number(fault: Fault) -> u8
    ensures { Numbers fault result }
{
    match fault {
        Fault::ShortSheet => 65,
        Fault::OtherVersion => 66,
        Fault::WrongHeader => 67,
        Fault::OutOfOrder => 68,
        Fault::NotAllowed => 69,
        Fault::WrongPlaces => 70,
        Fault::NoSuchRecord => 56,
        Fault::NoRoom => 57,
        Fault::TooMany => 79,
    }
}

// How many bytes the value has.
pub fn measure(head: Head) -> usize
    ensures { Measures head result }
{
    let many = head.count as usize;
    many * values::size(head.kind)
}

// What the row at k, from 0 on, begins with; zeros where there is no such row.
pub fn head_at(rows: &[u8], k: usize) -> Head
    ensures { NamesRow rows.now k result }
{
    if k < rows.len() / ROW {
        let at = ROW * k;
        return Head {
            unit: rows[at],
            register: rows[at + 1],
            kind: rows[at + 2],
            count: rows[at + 3],
        };
    }
    Head {
        unit: 0,
        register: 0,
        kind: 0,
        count: 0,
    }
}

// The number that it ends with, lowest byte first; 0 where there is no such row.
pub fn tail_at(rows: &[u8], k: usize) -> usize
    ensures { TellsRow rows.now k result }
{
    if k < rows.len() / ROW {
        let from = ROW * k + 4;
        let to = from + 4;
        return values::load(&rows[from..to]) as usize;
    }
    0
}

// The first row that is not above the one before it; how many rows there are where each is.
pub fn first_fall(rows: &[u8]) -> usize
    ensures { FindsFall rows.now result }
{
    let n = rows.len() / ROW;
    (1..n)
        .find(|&k| !is_above(head_at(rows, k - 1), head_at(rows, k)))
        .unwrap_or(n)
}

// Whether b stands above a: by module, then by register.
pub fn is_above(a: Head, b: Head) -> bool
    ensures { Rises a b result }
{
    if a.unit == b.unit {
        return a.register < b.register;
    }
    a.unit < b.unit
}

// The first row that does not stand below a head: where its setting stands, or would stand if the
// rows rise; how many rows there are where each stands below it.
pub fn place_of(rows: &[u8], head: Head) -> usize
    ensures { FindsPlace rows.now head result }
{
    let n = rows.len() / ROW;
    (0..n)
        .find(|&k| !is_above(head_at(rows, k), head))
        .unwrap_or(n)
}

// The first row that is not allowed; how many rows there are where each is.
pub fn first_unfit(rows: &[u8]) -> usize
    ensures { FindsUnfit rows.now result }
{
    let n = rows.len() / ROW;
    (0..n).find(|&k| !is_allowed(head_at(rows, k))).unwrap_or(n)
}

// Whether module, kind and count are allowed.
pub fn is_allowed(head: Head) -> bool
    ensures { Allows head result }
{
    if head.unit < 1 {
        return false;
    }
    if 160 < head.unit {
        return false;
    }
    if head.kind < 1 {
        return false;
    }
    if 7 < head.kind {
        return false;
    }
    if head.count < 1 {
        return false;
    }
    if 240 < head.count {
        return false;
    }
    measure(head) <= 240
}
