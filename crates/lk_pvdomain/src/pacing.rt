// How a waiter gives way between two turns.
ghost use Rattle.std.specs.Prelude.{◌≡◌, ◌<◌, true};
ghost use Rattle.lk_domain.specs.Plans.{cpus_of};
ghost use Rattle.lk_law.specs.Agree.{halts};

use crate::kicks::sleep;
use crate::rest::PvRest;
use crossbeam_utils::Backoff;
use lk_domain::Domain;
use std::sync::Wait;

// A waiter that counts its turns backs off once in so many, and polls again at once after the others.
// It pauses for ever longer at first, and later yields its CPU to a thread that waits for one.
const TURNS: u32 = 2;

// Between two turns of a call on this processor. It sleeps where the processor has halted. It backs
// off where the call waits for what another does. Where only an exchange met another word, or a place
// of the hash was taken, it tries again at once.
pub(crate) fn give_way<R: Wait>(rt: &R, domain: &Domain, cpu: u32, backoff: &Backoff, rest: PvRest)
    requires halting { halts domain.now.plan.mode ≡ true }
    requires cpu { cpu < cpus_of domain.now.plan }
{
    match rest {
        PvRest::Halts(_) => sleep(domain, rt, cpu),
        PvRest::Naps => sleep(domain, rt, cpu),
        PvRest::Spins(spinning) => back_off(backoff, spinning.left),
        PvRest::Leads(leading) => back_off(backoff, leading.left),
        PvRest::Looks => backoff.snooze(),
        PvRest::Hands => backoff.snooze(),
        _ => {}
    }
}

// Backs off if the number of turns that are left is a multiple of `TURNS`.
fn back_off(backoff: &Backoff, left: u32) {
    if left % TURNS == 0 {
        backoff.snooze();
    }
}

// A call that has gone on to another row waits for something else, so its pauses begin short again.
pub(crate) fn renew(backoff: &Backoff, old: PvRest, new: PvRest) {
    if old.row() != new.row() {
        backoff.reset();
    }
}
