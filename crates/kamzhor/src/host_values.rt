// The telegram writer, the value writer and the catalogue for the C host, told in numbers.
ghost use Rattle.kamzhor.specs.Values.{GivesWritten, GivesStored, GivesEntry};
ghost use Rattle.kamzhor.specs.Values.{size_number, size_found, written_given, value_meant, stored_given, yes_told, entry_given};
ghost use Rattle.std.specs.Prelude.{◌≡◌};

// How long what was written is: a telegram or a sheet.
#[repr(C)]
#[derive(Clone, Copy)]
pub struct SizeAnswer {
    pub refusal: u32,
    pub size: u64,
}

// A row of the catalogue: a register's kind, whether it may be written, and its limits.
#[repr(C)]
#[derive(Clone, Copy)]
pub struct EntryAnswer {
    pub refusal: u32,
    pub kind: u8,
    pub writable: u8,
    pub lowest: u64,
    pub highest: u64,
}

// Writes the telegram into the room's first bytes.
#[unsafe(no_mangle)]
pub extern "C" fn kamzhor_write_frame(
    destination: u8,
    source: u8,
    sort: u8,
    register: u8,
    data: &[u8],
    room: &mut [u8],
) -> SizeAnswer
    ensures { GivesWritten destination source sort register «data».now room.old result room.new }
{
    of_written(telegram::write(destination, source, sort, register, data, room))
}

// Writes a value into the room's first bytes, minus the magnitude where the sign is not 0. No kind is
// cut down to a byte: 257 is no kind, as 8 is none.
#[unsafe(no_mangle)]
pub extern "C" fn kamzhor_write_value(
    kind: u64,
    negative: u32,
    magnitude: u64,
    room: &mut [u8],
) -> u32
    ensures { GivesStored kind negative magnitude room.old result room.new }
{
    let short = if 255 < kind { 0 } else { kind as u8 };
    of_stored(values::write(short, meant_value(negative, magnitude), room))
}

// The catalogue's row for a register of a type of module.
#[unsafe(no_mangle)]
pub extern "C" fn kamzhor_find_register(model: u8, register: u8) -> EntryAnswer
    ensures { GivesEntry model register result }
{
    of_found(catalogue::find(model, register))
}

fn of_written(writing: Result<usize, telegram::Fault>) -> SizeAnswer
    ensures { result ≡ written_given writing }
{
    match writing {
        Err(fault) => no_size(telegram::number(fault)),
        Ok(size) => size_of(size),
    }
}

pub(crate) fn no_size(refusal: u8) -> SizeAnswer
    ensures { result ≡ size_number refusal }
{
    SizeAnswer {
        refusal: refusal as u32,
        size: 0,
    }
}

pub(crate) fn size_of(size: usize) -> SizeAnswer
    ensures { result ≡ size_found size }
{
    SizeAnswer {
        refusal: 0,
        size: size as u64,
    }
}

pub(crate) fn meant_value(negative: u32, magnitude: u64) -> values::Value
    ensures { result ≡ value_meant negative magnitude }
{
    if negative == 0 {
        return values::Value::Natural(magnitude);
    }
    if magnitude == 0 {
        return values::Value::Natural(0);
    }
    values::Value::Negative(magnitude - 1)
}

fn of_stored(writing: Result<(), values::Fault>) -> u32
    ensures { result ≡ stored_given writing }
{
    match writing {
        Err(fault) => values::number(fault) as u32,
        Ok(()) => 0,
    }
}

fn of_found(found: Result<catalogue::Entry, catalogue::Fault>) -> EntryAnswer
    ensures { result ≡ entry_given found }
{
    match found {
        Err(fault) => EntryAnswer {
            refusal: catalogue::number(fault) as u32,
            kind: 0,
            writable: 0,
            lowest: 0,
            highest: 0,
        },
        Ok(entry) => EntryAnswer {
            refusal: 0,
            kind: entry.kind,
            writable: yes(entry.writable),
            lowest: entry.lowest,
            highest: entry.highest,
        },
    }
}

pub(crate) fn yes(said: bool) -> u8
    ensures { result ≡ yes_told said }
{
    if said {
        return 1;
    }
    0
}
