// The calls `sheet.write`, `sheet.check`, `sheet.read`, `sheet.rem`, `sheet.remmod` and `sheet.add`.
// A part of the test tool `rehearsal`.
#![tactic(auto)]

use setting::{Fault, Head, ROW};
use sheet::Record;
use words::{Words, byte, count};

// The most settings that a line may name: more than a sheet holds, so that 79 can be seen.
const MOST: usize = 200;

// The call that the word last taken names.
pub fn answer(w: Words, line: &[u8], out: &mut [u8]) -> usize {
    if words::is(w, line, b"sheet.write") {
        return write(w, line, out);
    }
    if words::is(w, line, b"sheet.check") {
        return check(w, line, out);
    }
    if words::is(w, line, b"sheet.read") {
        return read(w, line, out);
    }
    if words::is(w, line, b"sheet.rem") {
        return remove(w, line, out);
    }
    if words::is(w, line, b"sheet.remmod") {
        return remove_module(w, line, out);
    }
    if words::is(w, line, b"sheet.add") {
        return add(w, line, out);
    }
    answers::bad_line(out)
}

// sheet.write SETTINGS BUF
fn write(w: Words, line: &[u8], out: &mut [u8]) -> usize {
    let mut rows = [0u8; ROW * MOST];
    let mut values = [0u8; words::MOST];
    let settings = take_settings(words::word(w, line), line, &mut rows, &mut values);
    let n = count(settings.rows as u64, &rows);
    let m = count(settings.values as u64, &values);
    write_into(settings.words, line, &rows[..n], &values[..m], out)
}

// Takes BUF, and writes the settings' sheet into it.
fn write_into(w: Words, line: &[u8], rows: &[u8], values: &[u8], out: &mut [u8]) -> usize {
    let mut room = [0u8; words::MOST];
    let p = words::bytes(w, line, &mut room);
    if words::done(p, line) {
        let n = count(p.value, &room);
        return write_now(rows, values, &mut room[..n], out);
    }
    answers::bad_line(out)
}

fn write_now(rows: &[u8], values: &[u8], room: &mut [u8], out: &mut [u8]) -> usize {
    let at = written(sheet_writer::write(rows, values, room), out);
    answers::buffer(out, at, room)
}

fn written(answer: Result<usize, Fault>, out: &mut [u8]) -> usize {
    match answer {
        Err(fault) => answers::refused(out, setting::number(fault)),
        Ok(n) => answers::form(out, b"ok n=#", &[n as u64]),
    }
}

// Settings that were taken: how many bytes their rows and their values have, and the words behind
// them, which are not good any more once a setting did not parse or was one too many.
#[derive(Clone, Copy)]
struct Settings {
    words: Words,
    rows: usize,
    values: usize,
}

// The settings that the word last taken lists, parted by `;`, or `-` for none.
fn take_settings(w: Words, line: &[u8], rows: &mut [u8], values: &mut [u8]) -> Settings {
    let mut settings = Settings {
        words: w,
        rows: 0,
        values: 0,
    };
    let list = words::taken(w, line);
    if words::is_dash(list) {
        return settings;
    }
    for text in list.split(|byte| *byte == b';') {
        settings = take_setting(settings, text, rows, values);
    }
    settings
}

// One setting more: its row and its value behind those so far. There is room for each value that a
// line can hold, but not for more than so many rows.
fn take_setting(before: Settings, text: &[u8], rows: &mut [u8], values: &mut [u8]) -> Settings {
    let at = before.rows;
    let from = count(before.values as u64, values);
    let setting = parse(text, &mut values[from..]);
    lay_row(setting, rows, at);
    let mut settings = before;
    settings.words.good = before.words.good && setting.good && at < rows.len();
    settings.rows = std::num::wrapping_add_usize(at, ROW);
    settings.values = std::num::wrapping_add_usize(from, setting.size as usize);
    settings
}

// A setting whose value is in a lent room: its head, the value's length, and whether it parsed.
#[derive(Clone, Copy)]
struct Setting {
    good: bool,
    head: Head,
    size: u64,
}

// MODULE:REG:KIND:COUNT:HEX, the value into the room's first places.
fn parse(text: &[u8], room: &mut [u8]) -> Setting {
    let a = words::number(words::parts(b':'), text, 255);
    let b = words::number(a, text, 255);
    let c = words::number(b, text, 255);
    let d = words::number(c, text, 255);
    let p = words::bytes(d, text, room);
    Setting {
        good: words::done(p, text),
        head: Head {
            unit: byte(a.value),
            register: byte(b.value),
            kind: byte(c.value),
            count: byte(d.value),
        },
        size: p.value,
    }
}

// A row: the head, and the value's length in four bytes, lowest first. The last two are 0, since no
// word holds so many bytes.
fn lay_row(setting: Setting, rows: &mut [u8], at: usize) {
    let head = setting.head;
    let size = setting.size;
    lent::lay_at(
        &[
            head.unit,
            head.register,
            head.kind,
            head.count,
            byte(size),
            byte(size / 256),
            0,
            0,
        ],
        rows,
        at,
    );
}

// sheet.check SHEET
fn check(w: Words, line: &[u8], out: &mut [u8]) -> usize {
    let mut space = [0u8; words::MOST];
    let p = words::bytes(w, line, &mut space);
    if words::done(p, line) {
        let n = count(p.value, &space);
        return checked(sheet::check(&space[..n]), out);
    }
    answers::bad_line(out)
}

fn checked(answer: Result<usize, Fault>, out: &mut [u8]) -> usize {
    match answer {
        Err(fault) => answers::refused(out, setting::number(fault)),
        Ok(n) => answers::form(out, b"ok count=#", &[n as u64]),
    }
}

// sheet.read SHEET INDEX BUF
fn read(w: Words, line: &[u8], out: &mut [u8]) -> usize {
    let mut space = [0u8; words::MOST];
    let p = words::bytes(w, line, &mut space);
    let n = count(p.value, &space);
    read_into(p, line, &space[..n], out)
}

// Takes INDEX and BUF, and reads that record of the sheet into it.
fn read_into(w: Words, line: &[u8], space: &[u8], out: &mut [u8]) -> usize {
    let mut room = [0u8; words::MOST];
    let i = words::number(w, line, 18446744073709551615);
    let p = words::bytes(i, line, &mut room);
    if words::done(p, line) {
        let n = count(p.value, &room);
        return read_now(space, i.value as usize, &mut room[..n], out);
    }
    answers::bad_line(out)
}

fn read_now(space: &[u8], index: usize, room: &mut [u8], out: &mut [u8]) -> usize {
    let at = was_read(sheet::read(space, index, room), out);
    answers::buffer(out, at, room)
}

fn was_read(answer: Result<Record, Fault>, out: &mut [u8]) -> usize {
    match answer {
        Err(fault) => answers::refused(out, setting::number(fault)),
        Ok(record) => {
            let head = record.head;
            answers::form(
                out,
                b"ok module=# reg=# kind=# count=# n=#",
                &[
                    head.unit as u64,
                    head.register as u64,
                    head.kind as u64,
                    head.count as u64,
                    record.size as u64,
                ],
            )
        }
    }
}

// sheet.rem BUF LENGTH INDEX MODULE REG: by the index; the module and the register only parse.
fn remove(w: Words, line: &[u8], out: &mut [u8]) -> usize {
    let mut room = [0u8; words::MOST];
    let p = words::bytes(w, line, &mut room);
    let a = words::number(p, line, 18446744073709551615);
    let b = words::number(a, line, 18446744073709551615);
    let c = words::number(words::number(b, line, 255), line, 255);
    if words::done(c, line) {
        let n = count(p.value, &room);
        return remove_now(&mut room[..n], a.value as usize, b.value as usize, out);
    }
    answers::bad_line(out)
}

fn remove_now(room: &mut [u8], size: usize, index: usize, out: &mut [u8]) -> usize {
    let at = edited(sheet_editor::remove(room, size, index), out);
    answers::buffer(out, at, room)
}

fn edited(answer: Result<usize, sheet_editor::Fault>, out: &mut [u8]) -> usize {
    match answer {
        Err(fault) => answers::refused(out, sheet_editor::number(fault)),
        Ok(n) => answers::form(out, b"ok n=#", &[n as u64]),
    }
}

// sheet.remmod BUF LENGTH MODULE
fn remove_module(w: Words, line: &[u8], out: &mut [u8]) -> usize {
    let mut room = [0u8; words::MOST];
    let p = words::bytes(w, line, &mut room);
    let a = words::number(p, line, 18446744073709551615);
    let b = words::number(a, line, 255);
    if words::done(b, line) {
        let n = count(p.value, &room);
        return remove_module_now(&mut room[..n], a.value as usize, byte(b.value), out);
    }
    answers::bad_line(out)
}

fn remove_module_now(room: &mut [u8], size: usize, unit: u8, out: &mut [u8]) -> usize {
    let at = edited(sheet_editor::remove_module(room, size, unit), out);
    answers::buffer(out, at, room)
}

// sheet.add BUF LENGTH SETTING
fn add(w: Words, line: &[u8], out: &mut [u8]) -> usize {
    let mut room = [0u8; words::MOST];
    let p = words::bytes(w, line, &mut room);
    let a = words::number(p, line, 18446744073709551615);
    let b = words::word(a, line);
    let n = count(p.value, &room);
    add_setting(b, line, &mut room[..n], a.value as usize, out)
}

// Takes the setting that the word last taken names.
fn add_setting(w: Words, line: &[u8], room: &mut [u8], size: usize, out: &mut [u8]) -> usize {
    let mut value = [0u8; words::MOST];
    let setting = parse(words::taken(w, line), &mut value);
    if setting.good && words::done(w, line) {
        let n = count(setting.size, &value);
        return add_now(room, size, setting.head, &value[..n], out);
    }
    answers::bad_line(out)
}

fn add_now(room: &mut [u8], size: usize, head: Head, value: &[u8], out: &mut [u8]) -> usize {
    let at = edited(sheet_editor::add(room, size, head, value), out);
    answers::buffer(out, at, room)
}
