//! The calls by a seat, whose processor is number `cpu` of a domain that halts. It must be in no call.
//! The calls by a [`PvCpu`](crate::PvCpu) say what each of them does.
//!
//! A call of `lock` is two functions, and a release is two. The first makes one operation, and never
//! waits. The second goes on where that was not enough, and may wait. So an uncontended turn calls no
//! function that may wait: a proved program looks at a byte behind each call of one.
ghost use Rattle.std.specs.Prelude.{◌≡◌, ◌≢◌, ◌<◌, ◌%◌, false, true};
ghost use Rattle.lk_rows.specs.declared.parts.Pc.TheVariants.{G1};
ghost use Rattle.lk_rows.specs.declared.setup.Verb.TheVariants.{Lock, Try, Unlock};
ghost use Rattle.lk_domain.specs.Calls.{Frees, Unchanged, holds_in};
ghost use Rattle.lk_domain.specs.Paths.{Any};
ghost use Rattle.lk_domain.specs.Plans.{locks_of};
ghost use Rattle.lk_pvdomain.specs.PvCalls.{HasTried, IsAsItWas, MayFree};
ghost use Rattle.lk_pvdomain.specs.PvPaths.{At, Ended, Rests, Start, Took, first_node, first_of};
ghost use Rattle.lk_pvdomain.specs.PvReleases.{has_freed, kicked_in, whom};

use crate::call::Queued;
use crate::freeing::PvRelease;
pub use crate::freeing::{release, try_release};
use crate::tries;
use lk_domain::{Domain, Right, moves};
use lk_word::{HELD, NodeName};
use std::sync::Wait;

/// Begins a call of `lock`, by the row F1. Returns whether the processor holds the lock. If not, it
/// stands at the row G1, and [`contend`] goes on ([`pv_lock`](crate::pv_lock)).
#[inline]
pub fn take(seat: &mut Right, domain: &Domain, lock: u32) -> bool
    requires rests { (own : NodeName) × Rests domain.now own seat.old }
    requires lock { lock < locks_of domain.now.plan }
    requires free { holds_in seat.old.me.0.calls.holds lock ≡ false }
    ensures took { result ≡ true → (own : NodeName) → Rests domain.now own seat.old
        → Took domain.now Lock lock own (first_of Lock lock seat.old) seat.new }
    ensures goes { result ≡ false → (own : NodeName) → Rests domain.now own seat.old
        → At domain.now Lock lock own (first_of Lock lock seat.old) G1 Any seat.new }
{
    if moves::take_free(seat, &domain.table, &domain.plan, lock) == 0 {
        return true;
    }
    false
}

/// Goes on with a call of `lock` from the row G1, and returns once the processor holds the lock. It is
/// out of the way of a call that takes a free lock, which builds no `Queued`.
#[cold]
#[inline(never)]
pub fn contend<R: Wait>(seat: &mut Right, rt: &R, domain: &Domain, lock: u32, cpu: u32)
    requires at { (s : Start) × At domain.now Lock lock (first_node cpu) s G1 Any seat.old }
    ensures took { (s : Start) → At domain.now Lock lock (first_node cpu) s G1 Any seat.old
        → Took domain.now Lock lock (first_node cpu) s seat.new }
{
    let own = NodeName { cpu, index: 0 };
    let call = Queued { domain, lock, own };
    call.wait_on(seat, rt);
}

/// Tries once to acquire the lock, by the rows T1 and T2. Returns whether it did
/// ([`pv_try_lock`](crate::pv_try_lock)).
pub fn try_lock(seat: &mut Right, domain: &Domain, lock: u32, cpu: u32) -> bool
    requires rests { Rests domain.now (first_node cpu) seat.old }
    requires lock { lock < locks_of domain.now.plan }
    requires free { holds_in seat.old.me.0.calls.holds lock ≡ false }
    ensures took { result ≡ true
        → Took domain.now Try lock (first_node cpu) (first_of Try lock seat.old) seat.new }
    ensures missed { result ≡ false
        → Ended domain.now Try lock (first_node cpu) (first_of Try lock seat.old) Unchanged seat.new }
{
    if moves::look_once(seat, &domain.table, &domain.plan, lock) != 0 {
        return false;
    }
    if moves::take_once(seat, &domain.table, &domain.plan, lock) == 0 {
        return true;
    }
    false
}

/// Begins a release, by one try of the row U2. Returns the word that it met. If that is [`HELD`], the
/// lock is free. If not, [`release`] goes on ([`pv_unlock`](crate::pv_unlock)), or [`try_release`].
#[inline]
pub fn free(seat: &mut Right, domain: &Domain, lock: u32) -> u64
    requires may { (own : NodeName) × MayFree domain.now lock own seat.old }
    ensures freed { result ≡ 1 → (own : NodeName) → Rests domain.now own seat.old
        → Ended domain.now Unlock lock own (first_of Unlock lock seat.old) Frees seat.new }
    ensures tried { (own : NodeName) → Rests domain.now own seat.old
        → HasTried domain.now lock own (first_of Unlock lock seat.old) result seat.new }
    ensures still { result ≢ 1 → result % 256 ≡ 1 → IsAsItWas seat.old seat.new }
{
    tries::try_release(seat, domain, lock, HELD)
}

/// Tries to release a lock that the processor holds, without waiting
/// ([`pv_try_unlock`](crate::pv_try_unlock)).
#[inline]
pub fn try_unlock(seat: &mut Right, domain: &Domain, lock: u32) -> PvRelease
    requires may { (own : NodeName) × MayFree domain.now lock own seat.old }
    ensures freed { has_freed result ≡ true → (own : NodeName) → Rests domain.now own seat.old
        → Ended domain.now Unlock lock own (first_of Unlock lock seat.old) Frees seat.new }
    ensures whom { has_freed result ≡ true → kicked_in seat.new.me.0.calls.last ≡ whom result }
    ensures still { has_freed result ≡ false → IsAsItWas seat.old seat.new }
{
    let met = tries::try_release(seat, domain, lock, HELD);
    if met == HELD {
        return PvRelease::Freed;
    }
    try_release(seat, domain, lock, met, 1)
}
