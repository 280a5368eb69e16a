// The steps of a seat on the word of a lock, each one operation.
ghost use Rattle.std.specs.Prelude.{◌≡◌, ◌<◌, true};
ghost use Rattle.lk_domain.specs.Calls.{lock_name};
ghost use Rattle.lk_domain.specs.Keeps.{AllHome};
ghost use Rattle.lk_domain.specs.NodePlays.{InCall};
ghost use Rattle.lk_domain.specs.Plans.{locks_of};
ghost use Rattle.lk_domain.specs.Plays.{WentBy};
ghost use Rattle.lk_domain.specs.Uses.{UsesWord, frees};
ghost use Rattle.lk_pvdomain.specs.PvPaths.{IsOn, IsSeat};
ghost use Rattle.lk_pvdomain.specs.PvPlays.{AtLast};

use lk_domain::moves::WordUse;
use lk_domain::{Domain, Right, WordSteps, moves};
use lk_names::LockName;
use lk_word::{HELD, NodeName};

// A row on the word, by a call that goes on.
pub(crate) fn go_on(seat: &mut Right, domain: &Domain, lock: u32, how: WordUse) -> u64
    requires on { IsOn domain.now seat.old }
    requires lock { lock < locks_of domain.now.plan }
    requires row { InCall (UsesWord how (lock_name lock)) seat.old.me.0 }
    requires home { frees how ≡ true → AllHome (lock_name lock) seat.old.me.0 }
    ensures same { (seat.new.table_id ≡ seat.old.table_id) × (seat.new.id ≡ seat.old.id) }
    ensures step { WentBy seat.old.me result seat.new.me }
{
    let name = LockName {
        index: lock,
        wait: false,
    };
    moves::go_on(seat, &domain.table, &domain.plan, name, how)
}

// Leaves the queue as the last in it, by one swap of the whole word: the row E13.
pub(crate) fn quit(seat: &mut Right, domain: &Domain, lock: u32, own: NodeName) -> u64
    requires of { IsSeat domain.now own seat.old.table_id seat.old.me }
    requires lock { lock < locks_of domain.now.plan }
    requires row { InCall (AtLast own (lock_name lock)) seat.old.me.0 }
    ensures same { (seat.new.table_id ≡ seat.old.table_id) × (seat.new.id ≡ seat.old.id) }
    ensures step { WentBy seat.old.me result seat.new.me }
{
    let word = domain.plan.lock_word(lock);
    let last = domain.plan.tail_of(own) + HELD;
    domain
        .table
        .shared
        .compare_exchange::<WordSteps>(seat, word, last, HELD)
}
