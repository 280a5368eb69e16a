// The swaps of a byte of a word, each by one exchange of the whole word.
ghost use Rattle.std.specs.Prelude.{◌≡◌, ◌<◌, ◌%◌, None, true, false};
ghost use Rattle.lk_domain.specs.Calls.{lock_name};
ghost use Rattle.lk_domain.specs.Ledgers.{is_first};
ghost use Rattle.lk_domain.specs.Plans.{locks_of};
ghost use Rattle.lk_domain.specs.Plays.{Acts, MadeBy};
ghost use Rattle.lk_domain.specs.Values.{out_in};
ghost use Rattle.lk_rows.specs.declared.setup.Verb.TheVariants.{Lock, Unlock};
ghost use Rattle.lk_pvdomain.specs.PvPaths.{IsOn};
ghost use Rattle.lk_pvdomain.specs.PvPlays.{TriedBy, release_fails, head_fails, steal_fails};
ghost use Rattle.lk_pvdomain.specs.PvRows.{tries_release, tries_head, tries_steal};

use crate::rule::{HeadTries, ReleaseTries, StealTries};
use lk_domain::{Domain, Right};
use lk_word::{HELD, PENDING, low_byte};
use std::sync::Wait;

// Swaps a held word to a free one: the row U2, with which a release begins, or no row.
pub(crate) fn try_release(seat: &mut Right, domain: &Domain, lock: u32, expected: u64) -> u64
    requires on { IsOn domain.now seat.old }
    requires lock { lock < locks_of domain.now.plan }
    requires expected { expected % 256 ≡ 1 }
    requires row { Acts tries_release seat.old.me.0 Unlock lock }
    requires home { is_first (lock_name lock) ≡ true → seat.old.me.0.ledger.out ≡ None }
    requires value { out_in seat.old.me.0.calls.holds lock ≡ false }
    ensures same { (seat.new.table_id ≡ seat.old.table_id) × (seat.new.id ≡ seat.old.id) }
    ensures step { TriedBy release_fails Unlock (lock_name lock) expected seat.old.me result seat.new.me }
{
    let word = domain.plan.lock_word(lock);
    let met = domain
        .table
        .shared
        .compare_exchange::<ReleaseTries>(seat, word, expected, expected - 1);
    met
}

// The queue head reads the word. If the byte is not free, or nobody pends, this is the row E4, and
// else no row. A read leaves the cache line with the holder, while a failed swap would take it.
pub(crate) fn look_head(seat: &mut Right, domain: &Domain, lock: u32) -> u64
    requires on { IsOn domain.now seat.old }
    requires lock { lock < locks_of domain.now.plan }
    requires row { Acts tries_head seat.old.me.0 Lock lock }
    ensures same { (seat.new.table_id ≡ seat.old.table_id) × (seat.new.id ≡ seat.old.id) }
    ensures step { TriedBy head_fails Lock (lock_name lock) 0 seat.old.me result seat.new.me }
{
    let word = domain.plan.lock_word(lock);
    let met = domain.table.shared.load::<HeadTries>(seat, word);
    met
}

// The queue head swaps a free word with the pending bit to a held one without it: the row E4, or no
// row.
pub(crate) fn try_head(seat: &mut Right, domain: &Domain, lock: u32, expected: u64) -> u64
    requires on { IsOn domain.now seat.old }
    requires lock { lock < locks_of domain.now.plan }
    requires expected { expected % 512 ≡ 256 }
    requires row { Acts tries_head seat.old.me.0 Lock lock }
    ensures same { (seat.new.table_id ≡ seat.old.table_id) × (seat.new.id ≡ seat.old.id) }
    ensures step { TriedBy head_fails Lock (lock_name lock) expected seat.old.me result seat.new.me }
{
    let word = domain.plan.lock_word(lock);
    let met = domain
        .table
        .shared
        .compare_exchange::<HeadTries>(seat, word, expected, expected - (PENDING - HELD));
    met
}

// Swaps a free byte to a held one, whatever pending and tail are: the row H2, or no row.
pub(crate) fn try_steal(seat: &mut Right, domain: &Domain, lock: u32, expected: u64) -> u64
    requires on { IsOn domain.now seat.old }
    requires lock { lock < locks_of domain.now.plan }
    requires expected { expected % 256 ≡ 0 }
    requires row { Acts tries_steal seat.old.me.0 Lock lock }
    ensures same { (seat.new.table_id ≡ seat.old.table_id) × (seat.new.id ≡ seat.old.id) }
    ensures step { TriedBy steal_fails Lock (lock_name lock) expected seat.old.me result seat.new.me }
{
    let word = domain.plan.lock_word(lock);
    let met = domain
        .table
        .shared
        .compare_exchange::<StealTries>(seat, word, expected, expected + 1);
    met
}

// The row U2: the swap is tried until it is made, or the byte is not held. It is a function of its
// own, to keep the code of an uncontended release short, whose first try is its last.
#[inline(never)]
pub(crate) fn release<R: Wait>(
    seat: &mut Right,
    rt: &R,
    domain: &Domain,
    lock: u32,
    seen: u64,
) -> u64
    requires on { IsOn domain.now seat.old }
    requires lock { lock < locks_of domain.now.plan }
    requires seen { seen % 256 ≡ 1 }
    requires row { Acts tries_release seat.old.me.0 Unlock lock }
    requires home { is_first (lock_name lock) ≡ true → seat.old.me.0.ledger.out ≡ None }
    requires value { out_in seat.old.me.0.calls.holds lock ≡ false }
    ensures same { (seat.new.table_id ≡ seat.old.table_id) × (seat.new.id ≡ seat.old.id) }
    ensures step { MadeBy Unlock lock seat.old.me result seat.new.me }
{
    let mut expected = seen;
    for _ in rt.forever() {
        let met = try_release(seat, domain, lock, expected);
        if met == expected || low_byte(met) != HELD {
            return met;
        }
        expected = met;
    }
    unreachable!()
}
