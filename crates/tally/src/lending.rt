// A listing step that counts its line where the tally lies.
ghost use Rattle.tally.specs.Tally.{Counts, CountsWhere};

use crate::{Counted, Stepped, Tally, count_step};
use receiver::Receiver;

// A listing step with the tally lent to it: the tally is changed where it lies. A refusal leaves it.
pub fn step(tally: &mut Tally, receiver: Receiver, chunk: &[u8]) -> Stepped
    ensures { CountsWhere tally.old receiver chunk.now result tally.new }
{
    let next = count_step(*tally, receiver, chunk);
    *tally = next.tally;
    next.stepped
}

// The same with a tally of its own, in and back.
pub fn lend_step(tally: Tally, receiver: Receiver, chunk: &[u8]) -> Counted
    ensures { Counts tally receiver chunk.now result }
{
    let mut own = tally;
    let stepped = step(&mut own, receiver, chunk);
    Counted {
        tally: own,
        stepped,
    }
}
