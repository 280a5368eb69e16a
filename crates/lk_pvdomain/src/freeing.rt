// A release: the rows U2 to U5.
ghost use Rattle.std.specs.Prelude.{◌≡◌, ◌≢◌, ◌<◌, ◌%◌, true, false, None, Some};
ghost use Rattle.lk_word.specs.declared.spin_word.NodeName.{NodeName};
ghost use Rattle.lk_rows.specs.declared.parts.Pc.TheVariants.{U3};
ghost use Rattle.lk_rows.specs.declared.setup.Verb.TheVariants.{Unlock};
ghost use Rattle.lk_domain.specs.Calls.{Frees, lock_name};
ghost use Rattle.lk_domain.specs.Ledgers.{is_first};
ghost use Rattle.lk_domain.specs.Paths.{Any};
ghost use Rattle.lk_domain.specs.Plans.{cpus_of};
ghost use Rattle.lk_domain.specs.Values.{out_in};
ghost use Rattle.lk_pvdomain.specs.PvCalls.{HasTried, IsAsItWas};
ghost use Rattle.lk_pvdomain.specs.PvPaths.{At, Ended, Start};
ghost use Rattle.lk_pvdomain.specs.PvReleases.{has_freed, kicked_in, whom};

use crate::layout::{CPU_PAIRS, FIRST_PAIR};
use crate::{hash, kicks, tries, words};
use lk_domain::moves::WordUse;
use lk_domain::{Domain, Right};
use lk_word::{HELD, low_byte};
use std::sync::Wait;

/// What a release comes to that may not wait.
#[derive(Clone, Copy)]
pub enum PvRelease {
    /// The lock is free, and nobody was kicked.
    Freed,
    /// The lock is free, and the processor of this number was kicked. If its thread is parked by
    /// [`PvDomain::sleep`], [`PvDomain::wake`] wakes it.
    Kicked(u32),
    /// The processor holds the lock as before.
    Still,
}

/// Goes on with a release whose first try met another word than that of a lock for which nobody waits:
/// the row U2, tried until it is made, or U3 to U5 where the byte is slow. It is a function of its own,
/// to keep the code of an uncontended release short.
#[cold]
#[inline(never)]
pub fn release<R: Wait>(seat: &mut Right, rt: &R, domain: &Domain, lock: u32, met: u64)
    requires other { met ≢ 1 }
    requires tried { (own : NodeName) × (s : Start) × HasTried domain.now lock own s met seat.old }
    ensures freed { (own : NodeName) (s : Start) → HasTried domain.now lock own s met seat.old
        → Ended domain.now Unlock lock own s Frees seat.new }
{
    if low_byte(met) != HELD {
        wake_next(seat, domain, lock);
        return;
    }
    if low_byte(tries::release(seat, rt, domain, lock, met)) == HELD {
        return;
    }
    wake_next(seat, domain, lock);
}

/// The same without waiting: the row U2 is tried so many times more at most. If another part of the word
/// had changed at each of them, nothing has happened. It wakes no thread.
#[cold]
#[inline(never)]
pub fn try_release(seat: &mut Right, domain: &Domain, lock: u32, met: u64, tries: u32) -> PvRelease
    requires other { met ≢ 1 }
    requires tried { (own : NodeName) × (s : Start) × HasTried domain.now lock own s met seat.old }
    ensures freed { has_freed result ≡ true → (own : NodeName) (s : Start)
        → HasTried domain.now lock own s met seat.old
        → Ended domain.now Unlock lock own s Frees seat.new }
    ensures still { has_freed result ≡ false → (met % 256 ≡ 1) × IsAsItWas seat.old seat.new }
    ensures whom { has_freed result ≡ true → kicked_in seat.new.me.0.calls.last ≡ whom result }
{
    if low_byte(met) != HELD {
        let kicked = kick_next(seat, domain, lock);
        return PvRelease::Kicked(kicked);
    }
    let mut expected = met;
    for _ in 0..tries {
        let now = tries::try_release(seat, domain, lock, expected);
        if now == expected {
            return PvRelease::Freed;
        }
        if low_byte(now) != HELD {
            let kicked = kick_next(seat, domain, lock);
            return PvRelease::Kicked(kicked);
        }
        expected = now;
    }
    PvRelease::Still
}

// The rows U3 to U5, and then it wakes the thread of the processor that was kicked.
fn wake_next(seat: &mut Right, domain: &Domain, lock: u32)
    requires at { (own : NodeName) × (s : Start) × At domain.now Unlock lock own s U3 Any seat.old }
    requires home { is_first (lock_name lock) ≡ true → seat.old.me.0.ledger.out ≡ None }
    requires value { out_in seat.old.me.0.calls.holds lock ≡ false }
    ensures freed { (own : NodeName) (s : Start) → At domain.now Unlock lock own s U3 Any seat.old
        → Ended domain.now Unlock lock own s Frees seat.new }
{
    let kicked = kick_next(seat, domain, lock);
    kicks::wake_thread(domain, kicked);
}

// The rows U3 to U5: it takes the entry out of the hash, frees the lock, and kicks the processor of
// the node that the entry named. Returns the number of that processor, and wakes no thread.
fn kick_next(seat: &mut Right, domain: &Domain, lock: u32) -> u32
    requires at { (own : NodeName) × (s : Start) × At domain.now Unlock lock own s U3 Any seat.old }
    requires home { is_first (lock_name lock) ≡ true → seat.old.me.0.ledger.out ≡ None }
    requires value { out_in seat.old.me.0.calls.holds lock ≡ false }
    ensures freed { (own : NodeName) (s : Start) → At domain.now Unlock lock own s U3 Any seat.old
        → Ended domain.now Unlock lock own s Frees seat.new }
    ensures whom { kicked_in seat.new.me.0.calls.last ≡ Some result }
    ensures low { result < cpus_of domain.now.plan }
{
    let pair = hash::take_out(seat, domain, lock);
    words::go_on(seat, domain, lock, WordUse::Drops);
    let target = ((pair - FIRST_PAIR) / CPU_PAIRS) as u32;
    kicks::kick(seat, domain, target);
    target
}
