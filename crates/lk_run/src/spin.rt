// The calls on a spinlock. The comments show a word as (queue tail, pending, locked).
ghost use Rattle.std.specs.Prelude.{◌≡◌, ◌≢◌, ◌<◌, Bool, Option, ℕ, true, false, None, length};
ghost use Rattle.lk_names.specs.declared.holder.Manner.TheVariants.{Spins};
ghost use Rattle.lk_names.specs.declared.names.Kind.TheVariants.{Spin};
ghost use Rattle.lk_rows.specs.declared.parts.Pc.TheVariants.{T2};
ghost use Rattle.lk_rows.specs.declared.setup.Verb.TheVariants.{Lock, Try};
ghost use Rattle.lk_domain.specs.Calls.{terms_of, Calls, holds_in, lock_name};
ghost use Rattle.lk_domain.specs.Ledgers.{is_first};
ghost use Rattle.lk_domain.specs.Paths.{HasTaken, HasLooked};
ghost use Rattle.lk_domain.specs.Plans.{locks_of, kind_at};
ghost use Rattle.lk_domain.specs.Seats.{IsOf, KeepsRest, calls_of, ledger_of};
ghost use Rattle.lk_domain.specs.Waits.{MayTake, WaitsAt, Moves, Gains, Misses, Drops};
ghost use Rattle.lk_domain.specs.Values.{out_in};
ghost use Rattle.lk_run.specs.Phases.{Arrives, Holds, starting};
ghost use Rattle.lk_run.specs.Polls.{Acquires, IsPolled};
ghost use Rattle.lk_run.specs.Turns.{Begun, Earns};

use crate::call::Call;
use crate::irq::Irq;
use lk_domain::{Cpu, Domain, LockId, steps};
use lk_names::LockName;
use lk_rows::Verb;
use std::sync::Wait;

// The row F1: gives the word that it met, 0 where it took the lock.
//   (0, 0, 0) -> (0, 0, 1): nobody holds the lock, pends or queues, so it is this call's.
//   any other word stays.
#[inline]
pub(crate) fn fast(cpu: &mut Cpu, domain: &Domain, lock: LockName) -> u64
    requires domain { IsOf cpu.old domain.now }
    requires lock { lock.index < locks_of domain.now.plan }
    requires kind { kind_at domain.now.plan lock.index ≡ Spin }
    requires plain { lock.wait ≡ false }
    requires may { MayTake lock.index (calls_of cpu.old) }
    ensures rest { KeepsRest cpu.old cpu.new }
    ensures taken { result ≡ 0 → (nests : Bool) (told : Option ℕ)
        → Holds domain.now Lock lock.index Spins (starting cpu.old nests told) cpu.new told }
    ensures waits { result ≢ 0 → (nests : Bool) (told : Option ℕ)
        → Arrives domain.now Lock lock result (starting cpu.old nests told) cpu.new told }
{
    steps::take_first(cpu, domain, Verb::Lock, lock)
}

/// A lock that was not free, and the word that its first row met.
#[derive(Clone, Copy)]
pub struct Busy {
    /// The lock.
    pub lock: LockId,
    /// The word.
    pub met: u64,
}

/// Goes on with a call of `lock` from the place to which its first row led, until the processor holds the
/// lock (`queued_spin_lock_slowpath`). It is out of the way of a call that takes a free lock, which
/// builds no `Call`.
#[cold]
#[inline(never)]
pub fn lock_slowpath<I: Irq, R: Wait>(
    cpu: &mut Cpu,
    rt: &R,
    domain: &Domain,
    busy: Busy,
    irq: &mut I,
)
    requires domain { IsOf cpu.old domain.now }
    requires lock { busy.lock.index < locks_of domain.now.plan }
    requires begun { Begun (Arrives domain.now Lock (lock_name busy.lock.index) busy.met) I.nests
        cpu.old (I.polls irq.old) }
    ensures { Earns (Arrives domain.now Lock (lock_name busy.lock.index) busy.met)
        (Holds domain.now Lock busy.lock.index Spins) I.nests cpu.old (I.polls irq.old) cpu.new
        (I.polls irq.new) }
{
    let call = Call {
        domain,
        verb: Verb::Lock,
        lock: LockName {
            index: busy.lock.index,
            wait: false,
        },
    };
    call.wait_on(cpu, rt, irq, busy.met);
}

/// Acquires a spinlock, and returns when the processor holds it (`queued_spin_lock`).
///
/// A call that finds the lock free takes it by one atomic operation. In `native` and `cna` a call
/// that waits pends or stands in the queue, by one of the four nodes of its processor. Where all
/// four are in use, and always in `virt`, it spins on the word and can starve. After each failed
/// poll of the lock it lets `irq` run, and gives way to other threads.
///
/// The processor must not hold the lock or wait for it, and may be in five other calls at most.
/// There is no error and no timeout: the call waits for as long as others keep the lock.
#[inline]
pub fn lock<I: Irq, R: Wait>(cpu: &mut Cpu, rt: &R, domain: &Domain, lock: LockId, irq: &mut I)
    requires domain { IsOf cpu.old domain.now }
    requires lock { lock.index < locks_of domain.now.plan }
    requires kind { kind_at domain.now.plan lock.index ≡ Spin }
    requires may { MayTake lock.index (calls_of cpu.old) }
    ensures rest { KeepsRest cpu.old cpu.new }
    ensures taken { HasTaken (terms_of domain.now.plan) cpu.new.number Lock lock.index Spins
        (calls_of cpu.old) (calls_of cpu.new) }
    ensures look { HasLooked lock.index Spins (calls_of cpu.old) (calls_of cpu.new).last
        (ledger_of cpu.old) (ledger_of cpu.new) }
    ensures polls { IsPolled (calls_of cpu.new).last (I.polls irq.old) (I.polls irq.new) }
    ensures once { Acquires I.nests 1 (calls_of cpu.old) (calls_of cpu.new) (I.polls irq.old)
        (I.polls irq.new) }
{
    let name = LockName {
        index: lock.index,
        wait: false,
    };
    let met = fast(cpu, domain, name);
    if met == 0 {
        return;
    }
    lock_slowpath(cpu, rt, domain, Busy { lock, met }, irq);
}

// The row T1: true where the word was free. A look changes no word.
fn try_look(cpu: &mut Cpu, domain: &Domain, lock: LockId) -> bool
    requires domain { IsOf cpu.old domain.now }
    requires lock { lock.index < locks_of domain.now.plan }
    requires kind { kind_at domain.now.plan lock.index ≡ Spin }
    requires may { MayTake lock.index (calls_of cpu.old) }
    ensures rest { KeepsRest cpu.old cpu.new }
    ensures free { result ≡ true
        → Moves domain.now Try lock.index T2 (calls_of cpu.old) cpu.old cpu.new }
    ensures missed { result ≡ false
        → Misses domain.now Try lock.index (calls_of cpu.old) cpu.old cpu.new }
{
    let name = LockName {
        index: lock.index,
        wait: false,
    };
    steps::look(cpu, domain, Verb::Try, name) == 0
}

// The row T2: true where it took the lock.
//   (0, 0, 0) -> (0, 0, 1): nobody holds the lock, pends or queues, so it is this call's.
//   any other word stays: some other call was faster.
fn try_swap(cpu: &mut Cpu, domain: &Domain, lock: LockId) -> bool
    requires domain { IsOf cpu.old domain.now }
    requires lock { lock.index < locks_of domain.now.plan }
    requires waits { (old : Calls) × WaitsAt domain.now Try lock.index T2 old cpu.old }
    ensures rest { KeepsRest cpu.old cpu.new }
    ensures taken { result ≡ true → (old : Calls) → WaitsAt domain.now Try lock.index T2 old cpu.old
        → Gains domain.now Try lock.index Spins old cpu.old cpu.new }
    ensures missed { result ≡ false
        → (old : Calls) → WaitsAt domain.now Try lock.index T2 old cpu.old
        → Misses domain.now Try lock.index old cpu.old cpu.new }
{
    let name = LockName {
        index: lock.index,
        wait: false,
    };
    steps::take_free(cpu, domain, Verb::Try, name) == 0
}

/// Tries to acquire a spinlock, by two atomic operations at most, and returns whether it did
/// (`queued_spin_trylock`).
///
/// It never waits. It fails if somebody holds the lock, pends or queues.
pub fn try_lock(cpu: &mut Cpu, domain: &Domain, lock: LockId) -> bool
    requires domain { IsOf cpu.old domain.now }
    requires lock { lock.index < locks_of domain.now.plan }
    requires kind { kind_at domain.now.plan lock.index ≡ Spin }
    requires may { MayTake lock.index (calls_of cpu.old) }
    ensures rest { KeepsRest cpu.old cpu.new }
    ensures taken { result ≡ true
        → Gains domain.now Try lock.index Spins (calls_of cpu.old) cpu.old cpu.new }
    ensures missed { result ≡ false
        → Misses domain.now Try lock.index (calls_of cpu.old) cpu.old cpu.new }
{
    try_look(cpu, domain, lock) && try_swap(cpu, domain, lock)
}

/// Releases a spinlock that the processor holds, by one atomic operation: (n, p, 1) -> (n, p, 0)
/// (`queued_spin_unlock`).
///
/// Only the holder stores into the locked byte of a lock that is held. Pending and the queue stay
/// for those that wait. Before it releases lock 0, the processor must have given the journal
/// back.
pub fn unlock(cpu: &mut Cpu, domain: &Domain, lock: LockId)
    requires domain { IsOf cpu.old domain.now }
    requires lock { lock.index < locks_of domain.now.plan }
    requires kind { kind_at domain.now.plan lock.index ≡ Spin }
    requires few { length (calls_of cpu.old).frames < 6 }
    requires held { holds_in (calls_of cpu.old).holds lock.index ≡ true }
    requires home { is_first (lock_name lock.index) ≡ true → (ledger_of cpu.old).out ≡ None }
    requires value { out_in (calls_of cpu.old).holds lock.index ≡ false }
    ensures rest { KeepsRest cpu.old cpu.new }
    ensures freed { Drops lock.index cpu.old cpu.new }
{
    let name = LockName {
        index: lock.index,
        wait: false,
    };
    steps::release(cpu, domain, Verb::Unlock, name);
}
