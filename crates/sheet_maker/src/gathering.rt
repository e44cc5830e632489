// The settings of a text gathered, line by line, as rows and values; what is wrong goes into a list.
ghost use Rattle.std.specs.Prelude.{◌≡◌, [], ◌∷◌, length, ℕ, ◌*◌, ◌≤◌, ◌<◌, Ok, Some};
ghost use Rattle.setting.specs.Setting.{setting};
ghost use Rattle.sheet_maker.specs.Maker.{said, setting_of};
ghost use Rattle.sheet_maker.specs.Gathering.{Tells, Reported, Put, Ready, Taken, Gathered};

use setting::{Head, MOST, ROW};
use sheet::Record;

const MANY: u8 = 9;

const ORDER: u8 = 10;

// What was gathered so far: how many settings, how long their values are together, the nearest one
// before, how many lines were bad, and how many numbers were told of them. Where none is before, that
// is all zeros and no Option, since `reports_of` begins so.
#[derive(Clone, Copy)]
pub(crate) struct Page {
    pub many: usize,
    pub size: usize,
    pub before: Head,
    pub wrong: usize,
    pub told: usize,
}

// Gathers the settings of a whole text.
pub(crate) fn gather(text: &[u8], rows: &mut [u8], values: &mut [u8], list: &mut [u64]) -> Page
    ensures { (n : ℕ) × Gathered text.now [] n result rows.old rows.new values.old values.new list.old list.new }
{
    let mut page = Page {
        many: 0,
        size: 0,
        before: Head {
            unit: 0,
            register: 0,
            kind: 0,
            count: 0,
        },
        wrong: 0,
        told: 0,
    };
    for (index, line) in text.split(|byte| *byte == b'\n').enumerate() {
        let number = index as u64 + 1;
        page = take_line(page, number, line, rows, values, list);
    }
    page
}

// Takes the line of that number.
fn take_line(
    page: Page,
    number: u64,
    line: &[u8],
    rows: &mut [u8],
    values: &mut [u8],
    list: &mut [u64],
) -> Page
    requires { Ready number page }
    ensures { Taken number (said line.now) (setting_of (said line.now) line.now) page result rows.old rows.new values.old values.new list.old list.new }
{
    let mut value = [0u8; 240];
    match sheet_line::read(line, &mut value) {
        Ok(None) => page,
        Err(fault) => report(
            page,
            number,
            sheet_line::word(fault) as u64,
            crate::key(fault),
            list,
        ),
        Ok(Some(record)) => {
            let size = record.size;
            take_setting(page, number, record, &value[0..size], rows, values, list)
        }
    }
}

// Takes a setting: 128 are put beside each other, and each must stand above the one before.
fn take_setting(
    page: Page,
    number: u64,
    one: Record,
    value: &[u8],
    rows: &mut [u8],
    values: &mut [u8],
    list: &mut [u64],
) -> Page
    requires { Ready number page × (length value.now ≤ 240) }
    ensures { Taken number (Ok (Some one)) (setting one.head value.now ∷ []) page result rows.old rows.new values.old values.new list.old list.new }
{
    let head = one.head;
    let many = page.many;
    let before = page.before;
    if MOST <= many {
        return report(named(page, head), number, 0, MANY, list);
    }
    let next = put(page, head, value, rows, values);
    if setting::is_above(before, head) {
        return next;
    }
    report(next, number, 0, ORDER, list)
}

// The same page, with another setting as the nearest one.
fn named(page: Page, head: Head) -> Page
    ensures { (result.many ≡ page.many) × (result.size ≡ page.size) × (result.before ≡ head) × (result.wrong ≡ page.wrong) × (result.told ≡ page.told) }
{
    let mut next = page;
    next.before = head;
    next
}

// Puts a setting behind the others.
fn put(page: Page, head: Head, value: &[u8], rows: &mut [u8], values: &mut [u8]) -> Page
    requires { (page.many < 128) × (page.size ≤ 240 * page.many) × (length value.now ≤ 240) }
    ensures { Put page result head value.now rows.old rows.new values.old values.new }
{
    let size = value.len();
    lent::lay_at(
        &[
            head.unit,
            head.register,
            head.kind,
            head.count,
            size as u8,
            0,
            0,
            0,
        ],
        rows,
        ROW * page.many,
    );
    lent::lay_at(value, values, page.size);
    Page {
        many: page.many + 1,
        size: page.size + size,
        before: head,
        wrong: page.wrong,
        told: page.told,
    }
}

// Tells a bad line, if the list has room for it.
fn report(page: Page, number: u64, word: u64, key: u8, list: &mut [u64]) -> Page
    requires { page.wrong < number }
    ensures { Reported page result × Tells (number ∷ word ∷ key ∷ []) page.told list.old result.told list.new }
{
    let a = tell(number, list, page.told);
    let b = tell(word, list, a);
    let c = tell(key as u64, list, b);
    let mut next = page;
    next.wrong = page.wrong + 1;
    next.told = c;
    next
}

// Puts a number at a place of the list, where it has one, and answers the next place.
fn tell(number: u64, list: &mut [u64], at: usize) -> usize
    ensures { Tells (number ∷ []) at list.old result list.new }
{
    if at < list.len() {
        list[at] = number;
        return at + 1;
    }
    at
}
