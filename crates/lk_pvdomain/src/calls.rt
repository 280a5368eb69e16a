// The calls of a processor whose family halts.
ghost use Rattle.std.specs.Prelude.{◌≡◌, ◌<◌, true, false, None};
ghost use Rattle.lk_rows.specs.declared.setup.Verb.TheVariants.{Try};
ghost use Rattle.lk_domain.specs.Calls.{holds_in, lock_name};
ghost use Rattle.lk_domain.specs.Ledgers.{is_first};
ghost use Rattle.lk_domain.specs.Plans.{locks_of};
ghost use Rattle.lk_domain.specs.Values.{out_in};
ghost use Rattle.lk_domain.specs.Seats.{IsSame, IsStill, calls_of, ledger_of};
ghost use Rattle.lk_pvdomain.specs.PvSeats.{IsOf};
ghost use Rattle.lk_pvdomain.specs.PvCalls.{HasFreed, HasMissed, HasTaken, HasTakenBy, IsResting, without};
ghost use Rattle.lk_pvdomain.specs.PvReleases.{has_freed, kicked_in, whom};

use crate::domain::{PvCpu, PvDomain};
use crate::freeing::PvRelease;
use crate::halting;
use lk_domain::LockId;
use lk_word::HELD;
use std::sync::Wait;

/// Acquires the lock, and returns once the processor holds it. A waiter spins for at most as many
/// turns as the plan says. Then it halts until it is kicked. The processor must be in no call, and
/// must not hold this lock.
///
/// While it halts its thread parks, and while it spins it gives way now and then. No clause says
/// either, and a test shows the first.
///
/// This is Linux's `queued_spin_lock`, with `__pv_queued_spin_lock_slowpath` behind it.
#[inline]
pub fn pv_lock<R: Wait>(cpu: &mut PvCpu, rt: &R, domain: &PvDomain, lock: LockId)
    requires domain { IsOf cpu.old domain.now }
    requires lock { lock.index < locks_of domain.now.domain.plan }
    requires rests { IsResting (calls_of cpu.old) }
    requires free { holds_in (calls_of cpu.old).holds lock.index ≡ false }
    ensures same { IsSame cpu.old cpu.new }
    ensures taken { HasTaken domain.now lock.index cpu.old cpu.new }
{
    if !halting::take(&mut cpu.seat, &domain.domain, lock.index) {
        let number = cpu.number();
        halting::contend(&mut cpu.seat, rt, &domain.domain, lock.index, number);
    }
}

/// Releases a lock that the processor holds. If the locked byte is slow (Linux's `_Q_SLOW_VAL`), it
/// then kicks the processor of the waiter that the hash names. The processor must be in no call,
/// and must have brought the journal back before it releases lock 0.
///
/// This is Linux's `__pv_queued_spin_unlock`.
#[inline]
pub fn pv_unlock<R: Wait>(cpu: &mut PvCpu, rt: &R, domain: &PvDomain, lock: LockId)
    requires domain { IsOf cpu.old domain.now }
    requires lock { lock.index < locks_of domain.now.domain.plan }
    requires rests { IsResting (calls_of cpu.old) }
    requires held { holds_in (calls_of cpu.old).holds lock.index ≡ true }
    requires home { is_first (lock_name lock.index) ≡ true → (ledger_of cpu.old).out ≡ None }
    requires value { out_in (calls_of cpu.old).holds lock.index ≡ false }
    ensures same { IsSame cpu.old cpu.new }
    ensures freed { HasFreed domain.now lock.index cpu.old cpu.new }
    ensures others { (calls_of cpu.new).holds
        ≡ without (lock_name lock.index) (calls_of cpu.old).holds }
{
    let met = halting::free(&mut cpu.seat, &domain.domain, lock.index);
    if met != HELD {
        halting::release(&mut cpu.seat, rt, &domain.domain, lock.index, met);
    }
}

/// Tries to release a lock that the processor holds, without waiting, and returns which processor it
/// kicked, if any. It kicks whom [`pv_unlock`] would kick, and wakes no thread: [`PvDomain::wake`]
/// does. `Still` says that others came to the lock meanwhile, so that its exchange of the word failed
/// twice: then the processor holds the lock as before, and the caller tries again. What is asked of
/// the processor is what `pv_unlock` asks.
#[inline]
pub fn pv_try_unlock(cpu: &mut PvCpu, domain: &PvDomain, lock: LockId) -> PvRelease
    requires domain { IsOf cpu.old domain.now }
    requires lock { lock.index < locks_of domain.now.domain.plan }
    requires rests { IsResting (calls_of cpu.old) }
    requires held { holds_in (calls_of cpu.old).holds lock.index ≡ true }
    requires home { is_first (lock_name lock.index) ≡ true → (ledger_of cpu.old).out ≡ None }
    requires value { out_in (calls_of cpu.old).holds lock.index ≡ false }
    ensures same { IsSame cpu.old cpu.new }
    ensures freed { has_freed result ≡ true → HasFreed domain.now lock.index cpu.old cpu.new }
    ensures others { has_freed result ≡ true → (calls_of cpu.new).holds
        ≡ without (lock_name lock.index) (calls_of cpu.old).holds }
    ensures whom { has_freed result ≡ true → kicked_in (calls_of cpu.new).last ≡ whom result }
    ensures still { has_freed result ≡ false → IsStill cpu.old cpu.new }
{
    halting::try_unlock(&mut cpu.seat, &domain.domain, lock.index)
}

/// Tries once to acquire the lock, without waiting. Returns `true` if the processor now holds it,
/// and `false` if a step of the call did not find the word free. The processor must be in no call,
/// and must not hold this lock.
///
/// This is Linux's `queued_spin_trylock`.
pub fn pv_try_lock(cpu: &mut PvCpu, domain: &PvDomain, lock: LockId) -> bool
    requires domain { IsOf cpu.old domain.now }
    requires lock { lock.index < locks_of domain.now.domain.plan }
    requires rests { IsResting (calls_of cpu.old) }
    requires free { holds_in (calls_of cpu.old).holds lock.index ≡ false }
    ensures same { IsSame cpu.old cpu.new }
    ensures taken { result ≡ true → HasTakenBy Try domain.now lock.index cpu.old cpu.new }
    ensures missed { result ≡ false → HasMissed domain.now lock.index cpu.old cpu.new }
{
    let number = cpu.number();
    halting::try_lock(&mut cpu.seat, &domain.domain, lock.index, number)
}
