// A call of `pv_lock` in turns, for those that may not wait in a loop of ours, or that decide
// themselves how a halted processor sleeps.
ghost use Rattle.std.specs.Prelude.{◌≡◌, ◌<◌, false, None, Some};
ghost use Rattle.lk_rows.specs.declared.parts.Pc.TheVariants.{G1};
ghost use Rattle.lk_rows.specs.declared.setup.Verb.TheVariants.{Lock};
ghost use Rattle.lk_domain.specs.Calls.{holds_in};
ghost use Rattle.lk_domain.specs.Paths.{Any};
ghost use Rattle.lk_domain.specs.Plans.{locks_of};
ghost use Rattle.lk_pvdomain.specs.PvCalls.{HasTaken, HasTakenSince, IsResting, own_node};
ghost use Rattle.lk_pvdomain.specs.PvPaths.{At, Start, first_of};
ghost use Rattle.lk_pvdomain.specs.PvRests.{is_asleep_at};
ghost use Rattle.lk_domain.specs.Seats.{IsSame, calls_of};
ghost use Rattle.lk_pvdomain.specs.PvSeats.{IsOf};
ghost use Rattle.lk_pvdomain.specs.PvTurns.{Waits, has_halted, waiter_at, waiter_in};
ghost use Rattle.lk_pvdomain.specs.declared.waiter.PvTurn.TheVariants.{Has};
ghost use Rattle.lk_pvdomain.specs.declared.waiter.PvWaiter.{PvWaiter};

use crate::call::Queued;
use crate::domain::{PvCpu, PvDomain};
use crate::halting;
use crate::rest::PvRest;
use crate::waiter::{PvTurn, PvWaiter};
use lk_domain::LockId;
use lk_word::NodeName;

// What a turn came to, which leads there.
fn turn_of(lock: LockId, place: Option<PvRest>) -> PvTurn
    ensures has { result ≡ Has → place ≡ None }
    ensures halted { has_halted result ≡ is_asleep_at place }
    ensures waiter { waiter_in result ≡ waiter_at lock place }
{
    match place {
        None => PvTurn::Has,
        Some(rest) => {
            let waiter = PvWaiter { lock, rest };
            if rest.is_halted() {
                return PvTurn::Halts(waiter);
            }
            PvTurn::Waits(waiter)
        }
    }
}

/// Begins a call of `pv_lock`, and makes its first turn. It never waits. What is asked of the
/// processor is what `pv_lock` asks.
///
/// A call that waits or has halted goes on by [`pv_poll`]. One that is not polled to its end keeps
/// its place: nobody behind it in the queue gets the lock.
pub fn pv_begin(cpu: &mut PvCpu, domain: &PvDomain, lock: LockId) -> PvTurn
    requires domain { IsOf cpu.old domain.now }
    requires lock { lock.index < locks_of domain.now.domain.plan }
    requires rests { IsResting (calls_of cpu.old) }
    requires free { holds_in (calls_of cpu.old).holds lock.index ≡ false }
    ensures same { IsSame cpu.old cpu.new }
    ensures taken { result ≡ Has → HasTaken domain.now lock.index cpu.old cpu.new }
    ensures halted { (calls_of cpu.new).halted ≡ has_halted result }
    ensures lock { (w : PvWaiter) → waiter_in result ≡ Some w → w.lock ≡ lock }
    ensures waits { (w : PvWaiter) → waiter_in result ≡ Some w
        → Waits domain.now w (first_of Lock lock.index cpu.old.seat) cpu.new }
{
    if halting::take(&mut cpu.seat, &domain.domain, lock.index) {
        return PvTurn::Has;
    }
    pv_settle(cpu, domain, lock)
}

/// Goes on with a call from the row G1, where [`halting::take`] leaves it, to the end of its first
/// turn. It never waits. It is out of the way of a call that takes a free lock, which builds no
/// `Queued`.
#[cold]
#[inline(never)]
pub fn pv_settle(cpu: &mut PvCpu, domain: &PvDomain, lock: LockId) -> PvTurn
    requires domain { IsOf cpu.old domain.now }
    requires at { (s : Start)
        × At domain.now.domain Lock lock.index (own_node cpu.old) s G1 Any cpu.old.seat }
    ensures same { IsSame cpu.old cpu.new }
    ensures taken { result ≡ Has → (s : Start)
        → At domain.now.domain Lock lock.index (own_node cpu.old) s G1 Any cpu.old.seat
        → HasTakenSince domain.now lock.index s cpu.new }
    ensures halted { (calls_of cpu.new).halted ≡ has_halted result }
    ensures lock { (w : PvWaiter) → waiter_in result ≡ Some w → w.lock ≡ lock }
    ensures waits { (w : PvWaiter) → waiter_in result ≡ Some w → (s : Start)
        → At domain.now.domain Lock lock.index (own_node cpu.old) s G1 Any cpu.old.seat
        → Waits domain.now w s cpu.new }
{
    let number = cpu.number();
    let own = NodeName {
        cpu: number,
        index: 0,
    };
    let call = Queued {
        domain: &domain.domain,
        lock: lock.index,
        own,
    };
    let place = call.contend(&mut cpu.seat);
    turn_of(lock, place)
}

/// Makes the next turn of a call that waits or has halted: rows up to its next look that decides
/// nothing, or up to a halt. It never waits.
///
/// Where the processor has halted, the turn first takes the kick, which ends the halt. If there is
/// none ([`PvDomain::is_kicked`]) nothing changes, and the answer is the same: so who sleeps may be
/// woken by anything.
pub fn pv_poll(cpu: &mut PvCpu, domain: &PvDomain, waiter: PvWaiter) -> PvTurn
    requires domain { IsOf cpu.old domain.now }
    requires waits { (s : Start) × Waits domain.now waiter s cpu.old }
    ensures same { IsSame cpu.old cpu.new }
    ensures taken { result ≡ Has → (s : Start) → Waits domain.now waiter s cpu.old
        → HasTakenSince domain.now waiter.lock.index s cpu.new }
    ensures halted { (calls_of cpu.new).halted ≡ has_halted result }
    ensures lock { (w : PvWaiter) → waiter_in result ≡ Some w → w.lock ≡ waiter.lock }
    ensures waits { (w : PvWaiter) → waiter_in result ≡ Some w → (s : Start)
        → Waits domain.now waiter s cpu.old → Waits domain.now w s cpu.new }
{
    let own = NodeName {
        cpu: cpu.number(),
        index: 0,
    };
    let call = Queued {
        domain: &domain.domain,
        lock: waiter.lock.index,
        own,
    };
    let place = call.turn(&mut cpu.seat, waiter.rest);
    turn_of(waiter.lock, place)
}
