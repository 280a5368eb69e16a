// The steps of a seat on kick words: a halt, its end, and a kick.
ghost use Rattle.std.specs.Prelude.{◌≡◌, ◌<◌, ◌∷◌, [], true, false};
ghost use Rattle.lk_domain.specs.Calls.{Running};
ghost use Rattle.lk_domain.specs.Plans.{cpus_of};
ghost use Rattle.lk_law.specs.Agree.{halts};
ghost use Rattle.lk_pvdomain.specs.PvPaths.{IsOn, IsSeat};
ghost use Rattle.lk_pvdomain.specs.PvPlays.{AtHalt, AtKick, Halts, Wakes, Kicks, woken};

use crate::layout::kick_of;
use crate::rule::{HaltLooks, KickStores, Wakings};
use lk_domain::{Domain, Right};
use lk_word::NodeName;
use std::sync::Wait;

// The number of a kick word whose kick is remembered.
const KICKED: u64 = 1;

// The processor halts, in a read of its kick word: the rows W6 and E12.
pub(crate) fn halt(seat: &mut Right, domain: &Domain, own: NodeName) -> u64
    requires of { IsSeat domain.now own seat.old.table_id seat.old.me }
    requires row { AtHalt seat.old.me.0 }
    requires awake { seat.old.me.0.calls.halted ≡ false }
    ensures same { (seat.new.table_id ≡ seat.old.table_id) × (seat.new.id ≡ seat.old.id) }
    ensures step { Halts seat.old.me result seat.new.me }
{
    let word = kick_of(domain, own.cpu);
    domain.table.shared.load::<HaltLooks>(seat, word)
}

// Takes the kick, if there is one, which ends the halt.
pub(crate) fn wake(seat: &mut Right, domain: &Domain, own: NodeName) -> u64
    requires of { IsSeat domain.now own seat.old.table_id seat.old.me }
    requires one { (x : Running) × (seat.old.me.0.calls.frames ≡ x ∷ []) }
    requires asleep { seat.old.me.0.calls.halted ≡ true }
    ensures same { (seat.new.table_id ≡ seat.old.table_id) × (seat.new.id ≡ seat.old.id) }
    ensures step { Wakes seat.old.me result seat.new.me }
{
    let word = kick_of(domain, own.cpu);
    domain.table.shared.swap::<Wakings>(seat, word, 0)
}

// Takes the kick, if there is one, and returns whether there was. It looks first: an exchange would
// take the cache line from the one who kicks, each time that a halted call is asked.
pub(crate) fn is_woken(seat: &mut Right, domain: &Domain, own: NodeName) -> bool
    requires of { IsSeat domain.now own seat.old.table_id seat.old.me }
    requires one { (x : Running) × (seat.old.me.0.calls.frames ≡ x ∷ []) }
    requires asleep { seat.old.me.0.calls.halted ≡ true }
    ensures same { (seat.new.table_id ≡ seat.old.table_id) × (seat.new.id ≡ seat.old.id) }
    ensures woken { result ≡ true → seat.new.me ≡ (woken seat.old.me.0, seat.old.me.1) }
    ensures stays { result ≡ false → seat.new.me ≡ seat.old.me }
{
    if !is_kicked(domain, own.cpu) {
        return false;
    }
    wake(seat, domain, own) != 0
}

// Kicks this processor, which is the row U5. It wakes no thread that is parked on its kick word
// (`wake_thread`).
pub(crate) fn kick(seat: &mut Right, domain: &Domain, target: u32) -> u64
    requires on { IsOn domain.now seat.old }
    requires target { target < cpus_of domain.now.plan }
    requires row { AtKick target seat.old.me.0 }
    ensures same { (seat.new.table_id ≡ seat.old.table_id) × (seat.new.id ≡ seat.old.id) }
    ensures step { Kicks seat.old.me result seat.new.me }
{
    let word = kick_of(domain, target);
    let met = domain.table.shared.swap::<KickStores>(seat, word, KICKED);
    met
}

// Whether a kick of a processor is remembered: one look at its kick word.
pub(crate) fn is_kicked(domain: &Domain, cpu: u32) -> bool
    requires halting { halts domain.now.plan.mode ≡ true }
    requires cpu { cpu < cpus_of domain.now.plan }
{
    domain.table.shared.peek(kick_of(domain, cpu)) != 0
}

// Parks the thread of a processor on its kick word, unless a kick is remembered.
pub(crate) fn sleep<R: Wait>(domain: &Domain, rt: &R, cpu: u32)
    requires halting { halts domain.now.plan.mode ≡ true }
    requires cpu { cpu < cpus_of domain.now.plan }
{
    if !is_kicked(domain, cpu) {
        domain.table.shared.park(rt, kick_of(domain, cpu), 0);
    }
}

// Wakes the thread of a processor, if it is parked on the kick word.
pub(crate) fn wake_thread(domain: &Domain, cpu: u32)
    requires halting { halts domain.now.plan.mode ≡ true }
    requires cpu { cpu < cpus_of domain.now.plan }
{
    domain.table.shared.wake_one(kick_of(domain, cpu));
}
