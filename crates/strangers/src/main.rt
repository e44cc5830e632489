// Desks and benches that no call made. Every call answers them all the same, as its contract says. No
// call line can make them, so what is expected was worked out by hand from the contracts, as said
// below. The telegrams' bytes are the model's.
#![tactic(auto)]

use bench::{Bench, Register};
use desk::{Desk, Request, Ticket};
use marks::Marks;

const STDOUT_FILENO: i32 = 1;

// Its type is no request's, it has no time to wait, and it is open and was given up at 7 at once.
const ODD: Ticket = Ticket {
    live: true,
    asked: Request {
        job: 9,
        unit: 15,
        sort: 8,
        register: 48,
        wait: 0,
        folder: 6,
    },
    opened: 0,
    withdrawn: true,
    closed: 7,
};

fn main() {
    desks();
    disagreeing();
    beyond();
    parts();
    no_kind();
    twice();
}

// A turn past the last place, which counts round after 95 places, and a ticket that no opening makes:
// it counts as open and as a write's, and is due at once. Where it is not open, its address rests to
// 1006, and a reply to it is late.
fn desks() {
    let fresh = desk::fresh();
    let none = fresh.tickets;
    let unmarked = fresh.marks;
    let first = marks::with_mark(unmarked, 0, true);
    let far = Desk {
        turn: 200,
        tickets: none,
        marks: unmarked,
    };
    dump(call(far, b"desk.open 1 15 4 48 - 1 0 0 eeeeeeeeeeeeeeeeeeeeeeee"));
    let mut odd = none;
    odd[0] = ODD;
    let past = Desk {
        turn: 95,
        tickets: odd,
        marks: first,
    };
    dump(call(past, b"desk.reply 0da10f0330d3f30a eeeeeeee"));
    let last = Desk {
        turn: 255,
        tickets: odd,
        marks: first,
    };
    call(
        call(last, b"desk.expire 0"),
        b"desk.open 1 15 4 48 - 1 0 0 eeeeeeeeeeeeee",
    );
    let mut gone = none;
    gone[0] = ODD;
    gone[0].live = false;
    let mut d = Desk {
        turn: 95,
        tickets: gone,
        marks: unmarked,
    };
    d = call(d, b"desk.reply 0da10f0330d3f30a eeeeeeee");
    d = call(d, b"desk.cancel 9 161 0");
    d = call(
        d,
        b"desk.open 1 15 4 48 - 1 0 1006 eeeeeeeeeeeeeeeeeeeeeeee",
    );
    dump(d);
}

// Marks that disagree with the tickets: the mark decides. First a place that is marked and has no
// ticket: it is not given, it counts as a ticket of no job and no module, and it can be cancelled. Then
// a ticket whose place is not marked: it is not open, holds no folder and is not due; what it keeps of
// a closing at 7 makes a reply late and lets the address rest to 1006.
fn disagreeing() {
    let fresh = desk::fresh();
    let none = fresh.tickets;
    let unmarked = fresh.marks;
    let mut d = Desk {
        turn: 0,
        tickets: none,
        marks: marks::with_mark(unmarked, 0, true),
    };
    d = call(d, b"desk.open 1 15 4 48 - 1 0 0 eeeeeeeeeeeeeeeeeeeeeeee");
    d = call(d, b"desk.reply 0da10f0330d3f30a eeeeeeee");
    d = call(d, b"desk.cancel 0 161 40");
    dump(d);
    let mut odd = none;
    odd[0] = ODD;
    let mut e = Desk {
        turn: 0,
        tickets: odd,
        marks: unmarked,
    };
    e = call(e, b"desk.reply 0da10f0330d3f30a eeeeeeee");
    e = call(e, b"desk.expire 0");
    e = call(
        e,
        b"desk.open 1 15 4 48 - 1 6 1007 eeeeeeeeeeeeeeeeeeeeeeee",
    );
    dump(e);
}

// Marks past the last place are nobody's: from 255 the search goes on at 161.
fn beyond() {
    let fresh = desk::fresh();
    let none = fresh.tickets;
    let high = Marks {
        low: 0,
        high: 18446744072635809792,
    };
    let d = Desk {
        turn: 94,
        tickets: none,
        marks: high,
    };
    dump(call(d, b"desk.open 1 15 4 48 - 1 0 0 eeeeeeeeeeeeeeeeeeeeeeee"));
}

// All 95 tickets are due at once, and the list has no room, part of an entry, one and a part, and two
// and a part: the last part stays.
fn parts() {
    let all = Marks {
        low: 18446744073709551615,
        high: 2147483647,
    };
    let due = Desk {
        turn: 0,
        tickets: [ODD; 95],
        marks: all,
    };
    sweep(due, 0);
    sweep(due, 2);
    sweep(due, 4);
    sweep(due, 8);
}

// Expires what is due, with the first so many of eight numbers as its list, and writes them all.
fn sweep(desk: Desk, numbers: usize) {
    let mut out = [0u8; 256];
    let mut list = [7u32; 8];
    let n = numbers % 9;
    let swept = overdue::expire_all(desk, 0, &mut list[0..n]);
    let told = [
        swept.count as u64,
        wide(list[0]),
        wide(list[1]),
        wide(list[2]),
        wide(list[3]),
        wide(list[4]),
        wide(list[5]),
        wide(list[6]),
        wide(list[7]),
    ];
    let at = answers::form(&mut out, b"n=# list=#,#,#,#,#,#,#,#", &told);
    say(&mut out, at);
}

fn wide(number: u32) -> u64 {
    number as u64
}

// A count of 99, and 32 times a register of kind 0, which has no bytes. All 32 are held, the first of
// them is the one that answers, and one more is too many (33). No number is one of kind 0 (43). A read
// answers a datagram without data, and a write without data has exactly the kind's size: ack.
fn no_kind() {
    let rig = Bench {
        address: 15,
        count: 99,
        registers: [held(0, 5); 32],
    };
    let mut b = ask(rig, b"bench.dump");
    b = ask(b, b"bench.add 51 0 3");
    b = ask(b, b"bench.add 102 3 3");
    b = ask(b, b"bench.add 51 3 3");
    b = ask(b, b"bench.set 102 0");
    b = ask(b, b"bench.set 51 0");
    b = ask(b, b"bench.tele 0d0fa20466c7b60a aaaaaaaaaaaaaaaa");
    b = ask(b, b"bench.tele 0d0fa2056601005e4d5b0a aaaaaaaaaaaaaaaa");
    b = ask(b, b"bench.tele 0d0fa20433cde60a aaaaaaaaaaaaaaaa");
    b = ask(b, b"bench.tele 0d0fa20566f4870a aaaaaaaaaaaaaaaa");
    ask(b, b"bench.dump");
}

// One register twice, with 5 and with 9, and a third past the count. The first is read, set and
// written; the second is never seen, and the third is not held.
fn twice() {
    let mut registers = [held(3, 5); 32];
    registers[1] = held(3, 9);
    registers[2] = Register {
        number: 51,
        kind: 3,
        rights: 7,
        value: 7,
    };
    let rig = Bench {
        address: 15,
        count: 2,
        registers: registers,
    };
    let mut b = ask(rig, b"bench.dump");
    b = ask(b, b"bench.add 102 3 7");
    b = ask(b, b"bench.tele 0d0fa20466c7b60a aaaaaaaaaaaaaaaaaaaa");
    b = ask(b, b"bench.tele 0d0fa20433cde60a aaaaaaaaaaaaaaaaaaaa");
    b = ask(b, b"bench.set 102 6");
    b = ask(b, b"bench.tele 0d0fa205663412c5480a aaaaaaaaaaaaaaaa");
    b = ask(b, b"bench.tele 0d0fa20466c7b60a aaaaaaaaaaaaaaaaaaaa");
    b = ask(b, b"bench.add 51 1 1");
    ask(b, b"bench.dump");
}

// Register 102 with every right.
fn held(kind: u8, value: u64) -> Register {
    Register {
        number: 102,
        kind: kind,
        rights: 7,
        value: value,
    }
}

fn dump(desk: Desk) {
    call(desk, b"desk.dump");
}

// Makes the call of a line on the desk, and writes its answer.
fn call(desk: Desk, line: &[u8]) -> Desk {
    let mut out = [0u8; 256];
    let told = desk_calls::answer(desk, words::word(words::start(), line), line, &mut out);
    say(&mut out, told.at);
    told.desk
}

// The same on the bench.
fn ask(bench: Bench, line: &[u8]) -> Bench {
    let mut out = [0u8; 256];
    let told = bench_calls::answer(
        bench,
        true,
        words::word(words::start(), line),
        line,
        &mut out,
    );
    say(&mut out, told.at);
    told.bench
}

fn say(out: &mut [u8], at: usize) {
    let end = answers::text(out, at, b"\n");
    let n = words::count(end as u64, out);
    io::write_all(STDOUT_FILENO, &out[..n]);
}
