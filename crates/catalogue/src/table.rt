// The catalogue's rows.
// The types of modules.
const SELECT: u8 = 0x67;

const VARIA: u8 = 0x68;

const COMPACT: u8 = 0x74;

// The kinds, and the greatest number of each.
const U8: u8 = 1;

const U16: u8 = 3;

const I16: u8 = 4;

const U32: u8 = 5;

const MAX8: u64 = 0xff;

const MAX16: u64 = 0xffff;

const MAX32: u64 = 0xffff_ffff;

// A register of a type of module. Where it may not be written, both ends are 0.
#[derive(Clone, Copy)]
pub(crate) struct Row {
    pub(crate) model: u8,
    pub(crate) register: u8,
    pub(crate) kind: u8,
    pub(crate) writable: bool,
    pub(crate) lowest: u64,
    pub(crate) highest: u64,
}

// In the paper's order.
pub(crate) const ROWS: [Row; 28] = [
    Row {
        model: SELECT,
        register: 0x10,
        kind: U16,
        writable: false,
        lowest: 0,
        highest: 0,
    },
    Row {
        model: SELECT,
        register: 0x11,
        kind: U16,
        writable: false,
        lowest: 0,
        highest: 0,
    },
    Row {
        model: SELECT,
        register: 0x32,
        kind: U8,
        writable: true,
        lowest: 0,
        highest: 7,
    },
    Row {
        model: SELECT,
        register: 0x33,
        kind: U8,
        writable: true,
        lowest: 0,
        highest: 7,
    },
    Row {
        model: SELECT,
        register: 0x34,
        kind: U8,
        writable: true,
        lowest: 0,
        highest: 1,
    },
    Row {
        model: SELECT,
        register: 0x35,
        kind: U8,
        writable: true,
        lowest: 0,
        highest: 1,
    },
    Row {
        model: SELECT,
        register: 0x90,
        kind: U32,
        writable: false,
        lowest: 0,
        highest: 0,
    },
    Row {
        model: SELECT,
        register: 0x91,
        kind: U32,
        writable: false,
        lowest: 0,
        highest: 0,
    },
    Row {
        model: SELECT,
        register: 0xA0,
        kind: U32,
        writable: false,
        lowest: 0,
        highest: 0,
    },
    Row {
        model: SELECT,
        register: 0xA1,
        kind: U32,
        writable: false,
        lowest: 0,
        highest: 0,
    },
    Row {
        model: VARIA,
        register: 0x13,
        kind: U16,
        writable: false,
        lowest: 0,
        highest: 0,
    },
    Row {
        model: VARIA,
        register: 0x66,
        kind: U16,
        writable: false,
        lowest: 0,
        highest: 0,
    },
    Row {
        model: VARIA,
        register: 0x32,
        kind: U16,
        writable: true,
        lowest: 0,
        highest: MAX16,
    },
    Row {
        model: VARIA,
        register: 0x33,
        kind: U16,
        writable: true,
        lowest: 0,
        highest: MAX16,
    },
    Row {
        model: VARIA,
        register: 0x34,
        kind: U16,
        writable: true,
        lowest: 0,
        highest: MAX16,
    },
    Row {
        model: COMPACT,
        register: 0x1A,
        kind: U16,
        writable: false,
        lowest: 0,
        highest: 0,
    },
    Row {
        model: COMPACT,
        register: 0x66,
        kind: U16,
        writable: false,
        lowest: 0,
        highest: 0,
    },
    Row {
        model: COMPACT,
        register: 0x1B,
        kind: I16,
        writable: false,
        lowest: 0,
        highest: 0,
    },
    Row {
        model: COMPACT,
        register: 0x36,
        kind: U32,
        writable: false,
        lowest: 0,
        highest: 0,
    },
    Row {
        model: COMPACT,
        register: 0x71,
        kind: U32,
        writable: false,
        lowest: 0,
        highest: 0,
    },
    Row {
        model: COMPACT,
        register: 0x24,
        kind: U16,
        writable: true,
        lowest: 0,
        highest: 4095,
    },
    Row {
        model: COMPACT,
        register: 0x26,
        kind: U16,
        writable: true,
        lowest: 0,
        highest: 100,
    },
    Row {
        model: COMPACT,
        register: 0x30,
        kind: U8,
        writable: true,
        lowest: 0,
        highest: 1,
    },
    Row {
        model: COMPACT,
        register: 0x31,
        kind: U8,
        writable: true,
        lowest: 0,
        highest: 5,
    },
    Row {
        model: COMPACT,
        register: 0x33,
        kind: U32,
        writable: true,
        lowest: 1,
        highest: MAX32,
    },
    Row {
        model: COMPACT,
        register: 0x34,
        kind: U16,
        writable: true,
        lowest: 1,
        highest: MAX16,
    },
    Row {
        model: COMPACT,
        register: 0x35,
        kind: U8,
        writable: true,
        lowest: 0,
        highest: MAX8,
    },
    Row {
        model: COMPACT,
        register: 0x3E,
        kind: U8,
        writable: true,
        lowest: 0,
        highest: 100,
    },
];
