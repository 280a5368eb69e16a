// One step of a processor, and what it then notes of its calls. Here are the steps that need no
// queue. Each is one on a spinlock, or inside a call of a reader or a writer on its wait lock.
ghost use Rattle.std.specs.Prelude.{◌≡◌, ◌⊎◌, ◌<◌, ◌==◌, true, false, None};
ghost use Rattle.lk_rows.specs.declared.setup.Verb.TheVariants.{Lock, Unlock};
ghost use Rattle.lk_domain.specs.Calls.{lock_name, waits_in};
ghost use Rattle.lk_domain.specs.Ledgers.{is_first};
ghost use Rattle.lk_domain.specs.Plans.{locks_of};
ghost use Rattle.lk_domain.specs.Plays.{Acts, ActsIn, MadeBy};
ghost use Rattle.lk_domain.specs.Rows.{looks_by, takes_by, frees_by, is_free, looks_on, takes_on};
ghost use Rattle.lk_domain.specs.Rows.{take_holds, pends_by, clears_by, claims_by};
ghost use Rattle.lk_domain.specs.Rows.{queues_up as queues};
ghost use Rattle.lk_domain.specs.RwPlays.{Watches};
ghost use Rattle.lk_domain.specs.RwSeats.{MadeShared};
ghost use Rattle.lk_domain.specs.Seats.{IsOf, KeepsRest, Made, calls_of, ledger_of, view_of};
ghost use Rattle.lk_domain.specs.Values.{out_in};
ghost use Rattle.lk_domain.specs.Views.{IsNumbered};

pub use super::choice_steps::{
    append, cut, look_next, own_runs, second_tail, store_runs, tail_to_second,
};
use super::moves::WordUse;
pub use super::queue_steps::{
    enter_bare, exchange_tail, hand, link, look_own, reset, set_locked, sole_claim,
};
pub use super::rw_steps::{
    add_bias, empty_to_writer, join_first, seize_first, set_waiting, subtract_bias,
    waiting_to_writer, writer_release,
};
use super::verbs::{on_shared, queues_up};
use super::{moves, rw_steps};
use crate::cpu::{Cpu, Right};
use crate::domain::Domain;
use crate::notes::Standing;
use lk_names::LockName;
use lk_rows::Verb;

// A look by the seat.
fn seat_looks(seat: &mut Right, domain: &Domain, verb: Verb, lock: LockName) -> u64
    requires table { seat.old.table_id ≡ domain.now.table.shared.table_id }
    requires lock { lock.index < locks_of domain.now.plan }
    requires number { IsNumbered seat.old.me.0 }
    requires row { ActsIn (looks_by verb) seat.old.me.0 verb lock }
    ensures same { (seat.new.table_id ≡ seat.old.table_id) × (seat.new.id ≡ seat.old.id) }
    ensures step { MadeBy verb lock.index seat.old.me result seat.new.me }
{
    match verb {
        Verb::Try => moves::look_once(seat, &domain.table, &domain.plan, lock.index),
        _ => moves::go_on(seat, &domain.table, &domain.plan, lock, WordUse::Looks),
    }
}

// An exchange by the seat.
fn seat_takes(seat: &mut Right, domain: &Domain, verb: Verb, lock: LockName) -> u64
    requires table { seat.old.table_id ≡ domain.now.table.shared.table_id }
    requires lock { lock.index < locks_of domain.now.plan }
    requires number { IsNumbered seat.old.me.0 }
    requires row { ActsIn (takes_by verb) seat.old.me.0 verb lock }
    ensures same { (seat.new.table_id ≡ seat.old.table_id) × (seat.new.id ≡ seat.old.id) }
    ensures step { MadeBy verb lock.index seat.old.me result seat.new.me }
{
    match verb {
        Verb::Lock => moves::take_free(seat, &domain.table, &domain.plan, lock.index),
        Verb::Try => moves::take_once(seat, &domain.table, &domain.plan, lock.index),
        _ => moves::go_on(seat, &domain.table, &domain.plan, lock, WordUse::Takes),
    }
}

// Whether the call goes on after a look.
fn waits_after_look(verb: Verb, met: u64) -> bool
    ensures { result ≡ looks_on verb (met == 0) }
{
    matches!(verb, Verb::Lock | Verb::Read | Verb::Write) || met == 0
}

// Whether the call goes on after an exchange.
fn waits_after_take(verb: Verb, met: u64) -> bool
    ensures { result ≡ takes_on verb (met == 0) }
{
    matches!(verb, Verb::Read | Verb::Write) || matches!(verb, Verb::Lock) && met != 0
}

// Whether it has its lock then.
fn has_after_take(verb: Verb, met: u64) -> bool
    ensures { result ≡ take_holds verb (met == 0) }
{
    !matches!(verb, Verb::Read | Verb::Write) && met == 0
}

// A look at the word of a spinlock or a wait lock.
fn look_word(cpu: &mut Cpu, domain: &Domain, verb: Verb, lock: LockName) -> u64
    requires domain { IsOf cpu.old domain.now }
    requires lock { lock.index < locks_of domain.now.plan }
    requires row { ActsIn (looks_by verb) (view_of cpu.old) verb lock }
    ensures rest { KeepsRest cpu.old cpu.new }
    ensures step { Made verb lock.index cpu.old result cpu.new }
{
    let slow = cpu.notes.is_slow(lock.index);
    let met = seat_looks(&mut cpu.seat, domain, verb, lock);
    let waits = waits_after_look(verb, met);
    let after = Standing {
        waits,
        slow,
        taken: false,
    };
    cpu.notes.step(lock.index, after);
    met
}

/// Reads the word of a lock, and returns it. The word 0 means that the lock is free.
///
/// On a spinlock or a wait lock this is the row T1 in a call of `try_lock`, and in another call
/// V1, P0, P3, G2, G7 or N1. On a reader-writer lock it is R2 or R5 in a call of `read_lock`, Wr2
/// or Wr5 in one of `write_lock`, Y1 in one of `try_read`, and Y4 in one of `try_write`.
pub fn look(cpu: &mut Cpu, domain: &Domain, verb: Verb, lock: LockName) -> u64
    requires domain { IsOf cpu.old domain.now }
    requires lock { lock.index < locks_of domain.now.plan }
    requires row { ActsIn (looks_by verb) (view_of cpu.old) verb lock
        ⊎ Watches verb lock (view_of cpu.old) }
    ensures rest { KeepsRest cpu.old cpu.new }
    ensures word { ActsIn (looks_by verb) (view_of cpu.old) verb lock
        → Made verb lock.index cpu.old result cpu.new }
    ensures shared { Watches verb lock (view_of cpu.old)
        → MadeShared verb lock.index cpu.old result cpu.new }
{
    if on_shared(verb, lock.wait) {
        rw_steps::watch(cpu, domain, verb, lock.index)
    } else {
        look_word(cpu, domain, verb, lock)
    }
}

/// Swaps the word of a lock from free to held, and returns the word before the step. The word 0
/// means that the call has acquired the lock. This is the row T2 in a call of `try_lock`, and in
/// another call F1, V2, G3 or N2.
pub fn take_free(cpu: &mut Cpu, domain: &Domain, verb: Verb, lock: LockName) -> u64
    requires domain { IsOf cpu.old domain.now }
    requires lock { lock.index < locks_of domain.now.plan }
    requires row { ActsIn (takes_by verb) (view_of cpu.old) verb lock }
    ensures rest { KeepsRest cpu.old cpu.new }
    ensures step { Made verb lock.index cpu.old result cpu.new }
{
    let slow = cpu.notes.is_slow(lock.index);
    let met = seat_takes(&mut cpu.seat, domain, verb, lock);
    let waits = waits_after_take(verb, met);
    let has = has_after_take(verb, met);
    let after = Standing {
        waits,
        slow: slow & (met != 0),
        taken: has,
    };
    cpu.notes.step(lock.index, after);
    met
}

/// The row F1 of a new call of `lock`. It does what `take_free` does in a call that has not
/// waited.
#[inline]
pub fn take_first(cpu: &mut Cpu, domain: &Domain, verb: Verb, lock: LockName) -> u64
    requires domain { IsOf cpu.old domain.now }
    requires verb { verb ≡ Lock }
    requires lock { lock.index < locks_of domain.now.plan }
    requires fresh { waits_in (calls_of cpu.old).frames lock.index ≡ false }
    requires row { ActsIn (takes_by verb) (view_of cpu.old) verb lock }
    ensures rest { KeepsRest cpu.old cpu.new }
    ensures step { Made verb lock.index cpu.old result cpu.new }
{
    let met = moves::take_free(&mut cpu.seat, &domain.table, &domain.plan, lock.index);
    cpu.notes.first_step(lock.index, met == 0);
    met
}

// Frees a spinlock that the processor holds.
fn free_lock(cpu: &mut Cpu, domain: &Domain, lock: u32) -> u64
    requires domain { IsOf cpu.old domain.now }
    requires lock { lock < locks_of domain.now.plan }
    requires row { Acts is_free (view_of cpu.old) Unlock lock }
    requires home { is_first (lock_name lock) ≡ true → (ledger_of cpu.old).out ≡ None }
    requires value { out_in (calls_of cpu.old).holds lock ≡ false }
    ensures rest { KeepsRest cpu.old cpu.new }
    ensures step { Made Unlock lock cpu.old result cpu.new }
{
    let met = moves::release(&mut cpu.seat, domain, lock);
    cpu.notes.free(lock);
    met
}

// Frees the wait lock: the call is over.
fn free_wait(cpu: &mut Cpu, domain: &Domain, verb: Verb, lock: LockName) -> u64
    requires domain { IsOf cpu.old domain.now }
    requires lock { lock.index < locks_of domain.now.plan }
    requires verb { queues verb ≡ true }
    requires row { ActsIn (frees_by verb) (view_of cpu.old) verb lock }
    ensures rest { KeepsRest cpu.old cpu.new }
    ensures step { Made verb lock.index cpu.old result cpu.new }
{
    let met = moves::go_on(
        &mut cpu.seat,
        &domain.table,
        &domain.plan,
        lock,
        WordUse::Frees,
    );
    let after = Standing {
        waits: false,
        slow: false,
        taken: false,
    };
    cpu.notes.step(lock.index, after);
    met
}

/// Releases a lock that the processor holds, and returns the word before the step. This is the row
/// U1.
pub fn release(cpu: &mut Cpu, domain: &Domain, verb: Verb, lock: LockName) -> u64
    requires domain { IsOf cpu.old domain.now }
    requires lock { lock.index < locks_of domain.now.plan }
    requires row { ActsIn (frees_by verb) (view_of cpu.old) verb lock }
    requires home { is_first lock ≡ true → (ledger_of cpu.old).out ≡ None }
    requires value { lock.wait ≡ false → out_in (calls_of cpu.old).holds lock.index ≡ false }
    ensures rest { KeepsRest cpu.old cpu.new }
    ensures step { Made verb lock.index cpu.old result cpu.new }
{
    match verb {
        Verb::Unlock => free_lock(cpu, domain, lock.index),
        _ => free_wait(cpu, domain, verb, lock),
    }
}

/// Sets the pending bit, and returns the word before the step. This is the row P1.
pub fn set_pending(cpu: &mut Cpu, domain: &Domain, verb: Verb, lock: LockName) -> u64
    requires domain { IsOf cpu.old domain.now }
    requires lock { lock.index < locks_of domain.now.plan }
    requires row { ActsIn (pends_by verb) (view_of cpu.old) verb lock }
    ensures rest { KeepsRest cpu.old cpu.new }
    ensures step { Made verb lock.index cpu.old result cpu.new }
{
    moves::go_on(
        &mut cpu.seat,
        &domain.table,
        &domain.plan,
        lock,
        WordUse::Pends,
    )
}

/// Clears the pending bit, which the call has set, and returns the word before the step. This is
/// the row P2.
pub fn clear_pending(cpu: &mut Cpu, domain: &Domain, verb: Verb, lock: LockName) -> u64
    requires domain { IsOf cpu.old domain.now }
    requires lock { lock.index < locks_of domain.now.plan }
    requires row { ActsIn (clears_by verb) (view_of cpu.old) verb lock }
    ensures rest { KeepsRest cpu.old cpu.new }
    ensures step { Made verb lock.index cpu.old result cpu.new }
{
    moves::go_on(
        &mut cpu.seat,
        &domain.table,
        &domain.plan,
        lock,
        WordUse::Clears,
    )
}

/// Acquires the free lock and clears the pending bit, which the call has set. Returns the word
/// before the step. This is the row P4.
pub fn pending_to_locked(cpu: &mut Cpu, domain: &Domain, verb: Verb, lock: LockName) -> u64
    requires domain { IsOf cpu.old domain.now }
    requires lock { lock.index < locks_of domain.now.plan }
    requires row { ActsIn (claims_by verb) (view_of cpu.old) verb lock }
    ensures rest { KeepsRest cpu.old cpu.new }
    ensures step { Made verb lock.index cpu.old result cpu.new }
{
    let met = moves::go_on(
        &mut cpu.seat,
        &domain.table,
        &domain.plan,
        lock,
        WordUse::Claims,
    );
    let goes_on = queues_up(verb);
    let after = Standing {
        waits: goes_on,
        slow: false,
        taken: !goes_on,
    };
    cpu.notes.step(lock.index, after);
    met
}
