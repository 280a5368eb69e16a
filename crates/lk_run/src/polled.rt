// A call of `lock` in turns, for those that may not wait in a loop of ours: a caller from another
// language, a test that drives each turn, a loop that waits for more than a lock.
ghost use Rattle.std.specs.Prelude.{◌≡◌, ◌<◌, Bool, None, Some};
ghost use Rattle.lk_names.specs.declared.holder.Manner.TheVariants.{Spins};
ghost use Rattle.lk_names.specs.declared.names.Kind.TheVariants.{Spin};
ghost use Rattle.lk_rows.specs.declared.setup.Verb.TheVariants.{Lock};
ghost use Rattle.lk_domain.specs.Plans.{locks_of, kind_at};
ghost use Rattle.lk_domain.specs.Seats.{IsOf, KeepsRest, calls_of};
ghost use Rattle.lk_domain.specs.Waits.{MayTake};
ghost use Rattle.lk_run.specs.Phases.{Start, Holds, starting};
ghost use Rattle.lk_run.specs.Polled.{Arrived, Waits, TakesOne};
ghost use Rattle.lk_run.specs.declared.waiter.Arrival.{Arrival};
ghost use Rattle.lk_run.specs.declared.waiter.Waiter.{Waiter};

use crate::call::Call;
use crate::spin::fast;
use crate::waiter::{Arrival, Waiter};
use lk_domain::{Cpu, Domain, LockId};
use lk_names::LockName;
use lk_rows::Verb;

/// Begins a call of `lock`. `None` says that the processor holds the lock. Else the call waits, and
/// the caller polls it by `poll` until that says so.
///
/// It never waits. What is asked of the processor is what `lock` asks. A `Waiter` that is not polled
/// to its end keeps its place: nobody behind it in the queue gets the lock.
pub fn begin(cpu: &mut Cpu, domain: &Domain, lock: LockId) -> Option<Waiter>
    requires domain { IsOf cpu.old domain.now }
    requires lock { lock.index < locks_of domain.now.plan }
    requires kind { kind_at domain.now.plan lock.index ≡ Spin }
    requires may { MayTake lock.index (calls_of cpu.old) }
    ensures rest { KeepsRest cpu.old cpu.new }
    ensures holds { result ≡ None → (nests : Bool)
        → Holds domain.now Lock lock.index Spins (starting cpu.old nests None) cpu.new None }
    ensures once { TakesOne result (calls_of cpu.old) (calls_of cpu.new) }
    ensures lock { (w : Waiter) → result ≡ Some w → w.lock ≡ lock }
    ensures waits { (w : Waiter) → result ≡ Some w → (nests : Bool)
        → Waits domain.now w (starting cpu.old nests None) cpu.new }
{
    match arrive(cpu, domain, lock) {
        None => None,
        Some(arrival) => settle(cpu, domain, lock, arrival),
    }
}

/// Makes the first row of a call of `lock`. `None` says that the processor holds the lock. Else the
/// call goes on by `settle`.
///
/// The two are `begin` in parts, for a caller in whose way nothing may stand that a free lock does
/// not need: a `Waiter` is built by `settle` alone.
#[inline]
pub fn arrive(cpu: &mut Cpu, domain: &Domain, lock: LockId) -> Option<Arrival>
    requires domain { IsOf cpu.old domain.now }
    requires lock { lock.index < locks_of domain.now.plan }
    requires kind { kind_at domain.now.plan lock.index ≡ Spin }
    requires may { MayTake lock.index (calls_of cpu.old) }
    ensures rest { KeepsRest cpu.old cpu.new }
    ensures holds { result ≡ None → (nests : Bool)
        → Holds domain.now Lock lock.index Spins (starting cpu.old nests None) cpu.new None }
    ensures met { (a : Arrival) → result ≡ Some a → (nests : Bool)
        → Arrived domain.now lock.index a.met (starting cpu.old nests None) cpu.new }
{
    let name = LockName {
        index: lock.index,
        wait: false,
    };
    let met = fast(cpu, domain, name);
    if met == 0 {
        return None;
    }
    Some(Arrival { met })
}

/// Goes on with a call of `lock` from where its first row led, up to where it rests. `None` says that
/// the processor holds the lock.
#[cold]
#[inline(never)]
pub fn settle(cpu: &mut Cpu, domain: &Domain, lock: LockId, arrival: Arrival) -> Option<Waiter>
    requires domain { IsOf cpu.old domain.now }
    requires lock { lock.index < locks_of domain.now.plan }
    requires begun { (s : Start) × Arrived domain.now lock.index arrival.met s cpu.old }
    ensures rest { KeepsRest cpu.old cpu.new }
    ensures holds { result ≡ None → (s : Start)
        → Arrived domain.now lock.index arrival.met s cpu.old
        → Holds domain.now Lock lock.index Spins s cpu.new None }
    ensures lock { (w : Waiter) → result ≡ Some w → w.lock ≡ lock }
    ensures waits { (w : Waiter) → result ≡ Some w → (s : Start)
        → Arrived domain.now lock.index arrival.met s cpu.old → Waits domain.now w s cpu.new }
{
    let call = Call {
        domain,
        verb: Verb::Lock,
        lock: LockName {
            index: lock.index,
            wait: false,
        },
    };
    match call.contend(cpu, arrival.met) {
        Some(rest) => Some(Waiter { lock, rest }),
        None => None,
    }
}

/// Goes on with a call that waits, up to its next failed poll of the lock. `None` says that the
/// processor holds the lock.
///
/// It never waits. Between two polls the processor may do whatever a handler may do while `lock`
/// waits: begin and end calls on other locks, six contexts deep at most.
pub fn poll(cpu: &mut Cpu, domain: &Domain, waiter: Waiter) -> Option<Waiter>
    requires domain { IsOf cpu.old domain.now }
    requires waits { (s : Start) × Waits domain.now waiter s cpu.old }
    ensures rest { KeepsRest cpu.old cpu.new }
    ensures holds { result ≡ None → (s : Start) → Waits domain.now waiter s cpu.old
        → Holds domain.now Lock waiter.lock.index Spins s cpu.new None }
    ensures once { TakesOne result (calls_of cpu.old) (calls_of cpu.new) }
    ensures lock { (w : Waiter) → result ≡ Some w → w.lock ≡ waiter.lock }
    ensures waits { (w : Waiter) → result ≡ Some w → (s : Start)
        → Waits domain.now waiter s cpu.old → Waits domain.now w s cpu.new }
{
    let lock = waiter.lock;
    let call = Call {
        domain,
        verb: Verb::Lock,
        lock: LockName {
            index: lock.index,
            wait: false,
        },
    };
    match call.turn(cpu, waiter.rest) {
        Some(rest) => Some(Waiter { lock, rest }),
        None => None,
    }
}
