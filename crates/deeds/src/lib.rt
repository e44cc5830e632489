// What a request does to a register that a bench holds: the rules of reads, writes and bit writes.
// specs/ has them in the paper's words.
#![tactic(auto)]

ghost use Rattle.deeds.specs.Deeds.{Does, Nacks, has_right, read_deed, write_deed, is_bit_write, Changes};
ghost use Rattle.std.specs.Prelude.{◌≡◌, ◌<◌};

// A register of a bench. The value is the number that its bytes are, lowest first.
#[repr(C)]
#[derive(Clone, Copy)]
pub struct Register {
    pub number: u8,
    pub kind: u8,
    pub rights: u8,
    pub value: u64,
}

// What a request does: the type of the reply, how many bytes of the value it carries, and the
// register's value afterwards.
#[derive(Clone, Copy)]
pub struct Deed {
    pub sort: u8,
    pub size: usize,
    pub value: u64,
}

// What a register's rights are summed of.
pub const MAY_READ: u8 = 1;

pub const MAY_WRITE: u8 = 2;

pub const MAY_CHANGE: u8 = 4;

// What a request of this type with these data does to the register.
pub fn held_deed(register: Register, sort: u8, bytes: &[u8]) -> Deed
    ensures { Does register sort bytes.now result }
{
    let n = bytes.len();
    let v = register.value;
    let mask = values::load(bytes);
    if sort == telegram::READ {
        return read_deed(register, n);
    }
    if sort == telegram::WRITE {
        return write_deed(register, MAY_WRITE, n, mask);
    }
    if is_bit_write(sort) {
        return write_deed(register, MAY_CHANGE, n, changed(sort, v, mask));
    }
    nack(v)
}

// What is not allowed is answered by a nack, and the register's value stays.
pub fn nack(value: u64) -> Deed
    ensures { Nacks value result }
{
    Deed {
        sort: telegram::NACK,
        size: 0,
        value,
    }
}

fn is_bit_write(sort: u8) -> bool
    ensures { result ≡ is_bit_write sort }
{
    matches!(
        sort,
        telegram::SET_BITS | telegram::CLEAR_BITS | telegram::TOGGLE_BITS
    )
}

// The value after a bit write.
fn changed(sort: u8, value: u64, mask: u64) -> u64
    ensures { Changes sort value mask result }
{
    if sort == telegram::SET_BITS {
        return values::set_bits(value, mask);
    }
    if sort == telegram::CLEAR_BITS {
        return values::clear_bits(value, mask);
    }
    values::toggle_bits(value, mask)
}

// A read with so many data bytes.
fn read_deed(register: Register, n: usize) -> Deed
    ensures { result ≡ read_deed register n }
{
    if has_right(register, MAY_READ) && n == 0 {
        return Deed {
            sort: telegram::DATAGRAM,
            size: values::size(register.kind),
            value: register.value,
        };
    }
    nack(register.value)
}

// A write of any sort that needs this right, with so many data bytes, after which the register has
// that value.
fn write_deed(register: Register, right: u8, n: usize, value: u64) -> Deed
    requires { 0 < right }
    ensures { result ≡ write_deed register right n value }
{
    if has_right(register, right) && n == values::size(register.kind) {
        return Deed {
            sort: telegram::ACK,
            size: 0,
            value,
        };
    }
    nack(register.value)
}

fn has_right(register: Register, right: u8) -> bool
    requires { 0 < right }
    ensures { result ≡ has_right register right }
{
    register.rights / right % 2 == 1
}
