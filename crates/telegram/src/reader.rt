// The frame reader. Each row has a pass of its own, so the rows' order is the order of the passes.
ghost use Rattle.telegram.specs.Read.{Reads, Judges, read_frame, read_refusal, read_answer, fields_of, judged, frame_tests, length_tests, message_tests};
ghost use Rattle.telegram.specs.Read.{not_framed, has_stray_end, bad_place, is_faulty, is_substitute, message_refusal};
ghost use Rattle.frame.specs.Frame.{between, message_of, restored};
ghost use Rattle.lent.specs.Lent.{over};
ghost use Rattle.rows.specs.Rows.{first_row_of};
ghost use Rattle.std.specs.Prelude.{◌≡◌, false, ◌-◌, ◌≤◌, ◌<◌, length, take, drop, MatchOption};
ghost use Rattle.std.proofs.Math.Option.{none};

use crate::{DATA_AT, Fault, Fields, LONGEST, SHORTEST, TOGGLE_BITS};
use frame::{END, START, SUBSTITUTION};

// Reads a frame. Its data go into the room's first bytes, and the rest of the room stays; a
// refusal leaves all of it.
pub fn read(frame: &[u8], room: &mut [u8]) -> Result<Fields, Fault>
    ensures { Reads frame.now room.old result room.new }
{
    let mut message = [0u8; LONGEST];
    let t = judge(frame, room.len(), &mut message)?;
    let end = DATA_AT + t.size;
    lent::lay_at(&message[DATA_AT..end], room, 0);
    Ok(t)
}

// Judges a frame as `read` does with so much room, and touches no buffer.
pub fn examine(frame: &[u8], room: usize) -> Result<Fields, Fault>
    ensures { Judges frame.now room result }
{
    let mut message = [0u8; LONGEST];
    judge(frame, room, &mut message)
}

// The judgement that both share. `message` takes the message, where there is one.
fn judge(frame: &[u8], room: usize, message: &mut [u8]) -> Result<Fields, Fault>
    requires { length message.old ≡ 246 }
    ensures { (result ≡ read_frame frame.now room)
        × (read_refusal frame.now room ≡ none → message.new ≡ over (message_of frame.now) message.old) }
{
    framing(frame)?;
    judge_between(inside(frame), room, message)
}

// Rows 4 to 9, of what stands between the ends.
fn judge_between(bytes: &[u8], room: usize, message: &mut [u8]) -> Result<Fields, Fault>
    requires { length message.old ≡ 246 }
    ensures { (result ≡ read_answer (message_refusal (restored false bytes.now) room) (fields_of (restored false bytes.now)))
        × (message.new ≡ over (restored false bytes.now) message.old) }
{
    let n = frame::restore(bytes, message);
    sized(n, room)?;
    judge_message(&message[0..n])
}

// Rows 7 to 9, of a message of 6 bytes or more.
fn judge_message(message: &[u8]) -> Result<Fields, Fault>
    requires { 6 ≤ length message.now }
    ensures { result ≡ read_answer (first_row_of (message_tests message.now)) (fields_of message.now) }
{
    if remainder::remainder(message) != 0 {
        return Err(Fault::CheckFault);
    }
    if message[0] == 0 || message[1] == 0 {
        return Err(Fault::ZeroAddress);
    }
    if TOGGLE_BITS < message[2] {
        return Err(Fault::UnknownType);
    }
    Ok(Fields {
        destination: message[0],
        source: message[1],
        sort: message[2],
        register: message[3],
        size: message.len() - SHORTEST,
    })
}

// Rows 1 to 3.
fn framing(frame: &[u8]) -> Result<(), Fault>
    ensures { result ≡ judged (first_row_of (frame_tests frame.now)) }
{
    if not_framed(frame) {
        return Err(Fault::NotFramed);
    }
    let bytes = inside(frame);
    if stray_end(bytes) {
        return Err(Fault::StrayEnd);
    }
    if let Some(place) = bad_place(frame) {
        return Err(Fault::BadSubstitution(place));
    }
    Ok(())
}

// Rows 4 to 6, of a message of n bytes.
fn sized(n: usize, room: usize) -> Result<(), Fault>
    ensures { result ≡ judged (first_row_of (length_tests n room)) }
{
    if n < SHORTEST {
        return Err(Fault::ShortMessage);
    }
    if LONGEST < n {
        return Err(Fault::LongMessage);
    }
    if room < n - SHORTEST {
        return Err(Fault::NoRoom);
    }
    Ok(())
}

// What stands between the ends.
fn inside(frame: &[u8]) -> &[u8]
    requires { 2 ≤ length frame.now }
    ensures { result.now ≡ between frame.now }
{
    let end = frame.len() - 1;
    &frame[1..end]
}

fn not_framed(frame: &[u8]) -> bool
    ensures { result ≡ not_framed frame.now }
{
    frame.len() < 2 || frame[0] != START || frame[frame.len() - 1] != END
}

fn stray_end(bytes: &[u8]) -> bool
    ensures { result ≡ has_stray_end bytes.now }
{
    bytes.iter().any(|byte| *byte == END || *byte == START)
}

// The place of the first faulty 94, if there is one.
fn bad_place(frame: &[u8]) -> Option<usize>
    ensures { MatchOption result (length frame.now ≤ bad_place frame.now) (λ place. (place ≡ bad_place frame.now) × (place < length frame.now)) }
{
    for at in 0..frame.len() {
        if is_faulty(frame, at) {
            return Some(at);
        }
    }
    None
}

// Whether at a place stands a 94 whose next byte does not make a right pair with it.
fn is_faulty(frame: &[u8], at: usize) -> bool
    requires { at < length frame.now }
    ensures { result ≡ is_faulty frame.now at }
{
    let next = at + 1;
    frame[at] == SUBSTITUTION && !(next < frame.len() && is_substitute(frame[next]))
}

// 94 stands for 10, 13 or 94 only with one of these after it.
fn is_substitute(byte: u8) -> bool
    ensures { result ≡ is_substitute byte }
{
    matches!(byte, 74 | 77 | 158)
}
