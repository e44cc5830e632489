// A telegram for the bench: read, judged, done and answered.
ghost use Rattle.bench.specs.Take.{Takes, Requests, Answers, deed_of, reply_for, reply_of, done_to, is_answer, room_refusal};
ghost use Rattle.std.specs.Prelude.{◌≡◌, ◌≢◌, ◌≤◌, ◌<◌, length, Err};

use crate::{AfterTake, Bench, Fault, held};
use deeds::Deed;
use telegram::Fields;

// Takes a telegram. The reply goes into the room's first bytes and the rest of the room stays;
// where the bench keeps silent, the bench and all of the room stay.
pub fn take(bench: Bench, frame: &[u8], room: &mut [u8]) -> AfterTake
    ensures { Takes bench frame.now room.old result room.new }
{
    let mut space = [0u8; telegram::MOST_DATA];
    let reading = telegram::read(frame, &mut space);
    let Ok(t) = reading else {
        return silent(bench, Fault::Unread(telegram::why(reading)));
    };
    let n = t.size;
    request(bench, t, &space[0..n], room)
}

fn silent(bench: Bench, fault: Fault) -> AfterTake
    ensures { (result.answer ≡ Err fault) × (result.bench ≡ bench) }
{
    AfterTake {
        bench,
        answer: Err(fault),
    }
}

// Rows 35 to 37, of a telegram that was read.
fn request(bench: Bench, t: Fields, bytes: &[u8], room: &mut [u8]) -> AfterTake
    requires { (t.destination ≢ 0) × (t.source ≢ 0) }
    ensures { Requests bench t bytes.now room.old result room.new }
{
    if t.destination != bench.address {
        return silent(bench, Fault::OtherAddress);
    }
    if is_answer(t.sort) {
        return silent(bench, Fault::NotARequest);
    }
    reply(bench, t, deed(bench, t, bytes), room)
}

// The types that modules send.
fn is_answer(sort: u8) -> bool
    ensures { result ≡ is_answer sort }
{
    matches!(
        sort,
        telegram::NACK | telegram::CHECK_ERROR | telegram::BUSY | telegram::ACK | telegram::DATAGRAM
    )
}

// Row 37: the reply is written where there is room for it, and only then is the deed done.
fn reply(bench: Bench, t: Fields, deed: Deed, room: &mut [u8]) -> AfterTake
    requires { (t.source ≢ 0) × (bench.address ≢ 0) × (deed.sort ≤ 9) × (deed.size ≤ 8) }
    ensures { Answers (room_refusal (reply_for bench t deed) (length room.old)) bench
        (done_to bench t.register deed) (reply_for bench t deed) room.old result room.new }
{
    let mut space = [0u8; 8];
    let n = deed.size;
    values::store(deed.value, n, &mut space);
    match telegram::write(
        t.source,
        bench.address,
        deed.sort,
        t.register,
        &space[0..n],
        room,
    ) {
        Err(_) => silent(bench, Fault::NoRoom),
        Ok(n) => AfterTake {
            bench: done(bench, t.register, deed),
            answer: Ok(n),
        },
    }
}

// The bench after a deed.
fn done(bench: Bench, number: u8, deed: Deed) -> Bench
    ensures { result ≡ done_to bench number deed }
{
    match held::find(bench, number) {
        Some(place) => held::with_value(bench, place, deed.value),
        None => bench,
    }
}

// What a request does.
fn deed(bench: Bench, t: Fields, bytes: &[u8]) -> Deed
    ensures { result ≡ deed_of bench t bytes.now }
{
    match held::find(bench, t.register) {
        Some(place) => deeds::held_deed(held::register_at(bench, place), t.sort, bytes),
        None => deeds::nack(0),
    }
}
