// Expires everything that is due at the desk, in one pass over the addresses. It stands above the
// desk, on its promises: `specs/Overdue.antt` says that it does what single expiries would do.
#![tactic(auto)]

ghost use Rattle.std.specs.Prelude.{◌/◌, ◌<◌, length};
ghost use Rattle.overdue.specs.Overdue.{ExpiresAll, LooksAt};

use desk::Desk;

// The desk afterwards, and how many entries were filled.
#[derive(Clone, Copy)]
pub struct Swept {
    pub desk: Desk,
    pub count: usize,
}

// Closes the due tickets from the lowest address up, until none is left or the list is full. Each
// entry is three numbers, the job, the address and the folder of the ticket that was closed, from the
// list's first place on; the rest of the list stays. The addresses rest from the clock on. None is no
// refusal.
pub fn expire_all(desk: Desk, clock: u32, list: &mut [u32]) -> Swept
    ensures { ExpiresAll desk clock list.old result list.new }
{
    let room = list.len() / 3;
    let mut swept = Swept { desk, count: 0 };
    for k in 0..95 {
        if room <= swept.count {
            return swept;
        }
        swept = look_at(swept, k, clock, list);
    }
    swept
}

// Closes the ticket at a place if it is due, and enters it.
fn look_at(before: Swept, place: u8, clock: u32, list: &mut [u32]) -> Swept
    requires { (place < 95) × (before.count < length list.old / 3) }
    ensures { LooksAt before place clock list.old result list.new }
{
    let desk = before.desk;
    let address = 161 + place;
    let ticket = desk::ticket_on(desk, address);
    if ticket::is_due(ticket, clock) {
        let job = ticket.asked.job;
        let after = desk::cancel(desk, job, address, clock);
        let next = after.desk;
        let entry = 3 * before.count;
        list[entry] = job;
        list[entry + 1] = address as u32;
        list[entry + 2] = ticket.asked.folder;
        return Swept {
            desk: next,
            count: before.count + 1,
        };
    }
    before
}
