// The steps of a processor on the word of a reader-writer lock, and what it then notes of its calls.
ghost use Rattle.std.specs.Prelude.{◌≡◌, ◌<◌, ◌==◌, true, false, None, length};
ghost use Rattle.lk_rows.specs.declared.setup.Verb.TheVariants.{Read, TryRead, RUnlock, Write};
ghost use Rattle.lk_domain.specs.Calls.{lock_name, waits_in};
ghost use Rattle.lk_domain.specs.Ledgers.{is_first};
ghost use Rattle.lk_domain.specs.Plans.{locks_of};
ghost use Rattle.lk_domain.specs.RwPlays.{ActsFor};
ghost use Rattle.lk_domain.specs.RwRows.{quits_by, awaits_by};
ghost use Rattle.lk_domain.specs.RwRows.{follows_by, leaves_by, watches_at, joins_at, seizes_at};
ghost use Rattle.lk_domain.specs.RwRows.{watches_on, watch_takes, joins_on, join_takes};
ghost use Rattle.lk_domain.specs.RwRows.{seizes_on};
ghost use Rattle.lk_domain.specs.RwSeats.{MadeShared};
ghost use Rattle.lk_domain.specs.Seats.{IsOf, KeepsRest, calls_of, ledger_of, view_of};
ghost use Rattle.lk_domain.specs.Values.{out_in};

use super::rw_moves::{RwUse, act_by};
use crate::cpu::Cpu;
use crate::domain::Domain;
use crate::notes::Standing;
use lk_names::LockName;
use lk_rows::Verb;
use lk_word::{has_no_writer, has_only_waiting, lets_readers_in};

// Whether the call goes on after a look.
fn waits_after_watch(verb: Verb, alone: bool, met: u64) -> bool
    ensures { result ≡ watches_on alone verb met }
{
    match verb {
        Verb::Read => alone | !has_no_writer(met),
        Verb::Write => true,
        Verb::TryRead => lets_readers_in(met),
        Verb::TryWrite => met == 0,
        _ => false,
    }
}

// Whether it has the lock then.
fn has_after_watch(verb: Verb, met: u64) -> bool
    ensures { result ≡ watch_takes verb met }
{
    match verb {
        Verb::Read => has_no_writer(met),
        _ => false,
    }
}

// Whether the call goes on after it has added a reader.
fn waits_after_join(verb: Verb, waits: bool, met: u64) -> bool
    ensures { result ≡ joins_on waits verb met }
{
    match verb {
        Verb::Read => waits | !lets_readers_in(met),
        _ => !lets_readers_in(met),
    }
}

// Whether it has the lock then.
fn has_after_join(verb: Verb, waits: bool, met: u64) -> bool
    ensures { result ≡ join_takes waits verb met }
{
    match verb {
        Verb::Read => !waits & lets_readers_in(met),
        _ => lets_readers_in(met),
    }
}

// Whether the call goes on after an exchange of the empty word.
fn waits_after_seize(verb: Verb, waits: bool, met: u64) -> bool
    ensures { result ≡ seizes_on waits verb met }
{
    match verb {
        Verb::Write => waits | (met != 0),
        _ => false,
    }
}

// A look.
pub(crate) fn watch(cpu: &mut Cpu, domain: &Domain, verb: Verb, lock: u32) -> u64
    requires domain { IsOf cpu.old domain.now }
    requires lock { lock < locks_of domain.now.plan }
    requires row { ActsFor (watches_at (length (calls_of cpu.old).frames == 1) verb)
        (view_of cpu.old) verb lock }
    ensures rest { KeepsRest cpu.old cpu.new }
    ensures step { MadeShared verb lock cpu.old result cpu.new }
{
    let alone = cpu.notes.depth == 1;
    let met = act_by(&mut cpu.seat, domain, verb, lock, RwUse::Watches);
    let waits = waits_after_watch(verb, alone, met);
    let has = has_after_watch(verb, met);
    let after = Standing {
        waits,
        slow: false,
        taken: has,
    };
    cpu.notes.step(lock, after);
    met
}

/// The row R1 of a new call of `read_lock`. It does what `add_bias` does in a call that has not
/// waited.
#[inline]
pub fn join_first(cpu: &mut Cpu, domain: &Domain, verb: Verb, lock: LockName) -> u64
    requires domain { IsOf cpu.old domain.now }
    requires verb { verb ≡ Read }
    requires lock { lock.index < locks_of domain.now.plan }
    requires plain { lock.wait ≡ false }
    requires fresh { waits_in (calls_of cpu.old).frames lock.index ≡ false }
    requires row { ActsFor (joins_at (waits_in (calls_of cpu.old).frames lock.index) verb)
        (view_of cpu.old) verb lock.index }
    ensures rest { KeepsRest cpu.old cpu.new }
    ensures step { MadeShared verb lock.index cpu.old result cpu.new }
{
    let met = act_by(&mut cpu.seat, domain, Verb::Read, lock.index, RwUse::Joins);
    cpu.notes.first_step(lock.index, lets_readers_in(met));
    met
}

/// Adds a reader to the word of a reader-writer lock, and returns the word before the step. A call
/// of `read_lock` makes it as R1, the first of its rows, or as R4; a call of `try_read` as Y2.
pub fn add_bias(cpu: &mut Cpu, domain: &Domain, verb: Verb, lock: LockName) -> u64
    requires domain { IsOf cpu.old domain.now }
    requires lock { lock.index < locks_of domain.now.plan }
    requires plain { lock.wait ≡ false }
    requires row { ActsFor (joins_at (waits_in (calls_of cpu.old).frames lock.index) verb)
        (view_of cpu.old) verb lock.index }
    ensures rest { KeepsRest cpu.old cpu.new }
    ensures step { MadeShared verb lock.index cpu.old result cpu.new }
{
    let waited = cpu.notes.waits(lock.index);
    let met = act_by(&mut cpu.seat, domain, verb, lock.index, RwUse::Joins);
    let waits = waits_after_join(verb, waited, met);
    let has = has_after_join(verb, waited, met);
    let after = Standing {
        waits,
        slow: false,
        taken: has,
    };
    cpu.notes.step(lock.index, after);
    met
}

/// The row Wr1 of a new call of `write_lock`. It does what `empty_to_writer` does in a call that
/// has not waited.
#[inline]
pub fn seize_first(cpu: &mut Cpu, domain: &Domain, verb: Verb, lock: LockName) -> u64
    requires domain { IsOf cpu.old domain.now }
    requires verb { verb ≡ Write }
    requires lock { lock.index < locks_of domain.now.plan }
    requires plain { lock.wait ≡ false }
    requires fresh { waits_in (calls_of cpu.old).frames lock.index ≡ false }
    requires row { ActsFor (seizes_at (waits_in (calls_of cpu.old).frames lock.index) verb)
        (view_of cpu.old) verb lock.index }
    ensures rest { KeepsRest cpu.old cpu.new }
    ensures step { MadeShared verb lock.index cpu.old result cpu.new }
{
    let met = act_by(
        &mut cpu.seat,
        domain,
        Verb::Write,
        lock.index,
        RwUse::Seizes,
    );
    cpu.notes.first_step(lock.index, met == 0);
    met
}

/// Swaps the word of a reader-writer lock from empty to held by a writer, and returns the word
/// before the step. In a call of `write_lock` this is the row Wr1, which is its first, or Wr3. In
/// a call of `try_write` it is Y5.
pub fn empty_to_writer(cpu: &mut Cpu, domain: &Domain, verb: Verb, lock: LockName) -> u64
    requires domain { IsOf cpu.old domain.now }
    requires lock { lock.index < locks_of domain.now.plan }
    requires plain { lock.wait ≡ false }
    requires row { ActsFor (seizes_at (waits_in (calls_of cpu.old).frames lock.index) verb)
        (view_of cpu.old) verb lock.index }
    ensures rest { KeepsRest cpu.old cpu.new }
    ensures step { MadeShared verb lock.index cpu.old result cpu.new }
{
    let waited = cpu.notes.waits(lock.index);
    let met = act_by(&mut cpu.seat, domain, verb, lock.index, RwUse::Seizes);
    let waits = waits_after_seize(verb, waited, met);
    let after = Standing {
        waits,
        slow: false,
        taken: met == 0,
    };
    cpu.notes.step(lock.index, after);
    met
}

// Takes away the reader that the call has added.
fn step_back(cpu: &mut Cpu, domain: &Domain, lock: u32) -> u64
    requires domain { IsOf cpu.old domain.now }
    requires lock { lock < locks_of domain.now.plan }
    requires row { ActsFor (quits_by Read) (view_of cpu.old) Read lock }
    ensures rest { KeepsRest cpu.old cpu.new }
    ensures step { MadeShared Read lock cpu.old result cpu.new }
{
    act_by(&mut cpu.seat, domain, Verb::Read, lock, RwUse::Quits)
}

// The same, and the try has failed.
fn give_up(cpu: &mut Cpu, domain: &Domain, lock: u32) -> u64
    requires domain { IsOf cpu.old domain.now }
    requires lock { lock < locks_of domain.now.plan }
    requires row { ActsFor (quits_by TryRead) (view_of cpu.old) TryRead lock }
    ensures rest { KeepsRest cpu.old cpu.new }
    ensures step { MadeShared TryRead lock cpu.old result cpu.new }
{
    let met = act_by(&mut cpu.seat, domain, Verb::TryRead, lock, RwUse::Quits);
    let after = Standing {
        waits: false,
        slow: false,
        taken: false,
    };
    cpu.notes.step(lock, after);
    met
}

// Takes away a reader that holds the lock.
fn release_as_reader(cpu: &mut Cpu, domain: &Domain, lock: u32) -> u64
    requires domain { IsOf cpu.old domain.now }
    requires lock { lock < locks_of domain.now.plan }
    requires row { ActsFor (quits_by RUnlock) (view_of cpu.old) RUnlock lock }
    requires value { out_in (calls_of cpu.old).holds lock ≡ false }
    ensures rest { KeepsRest cpu.old cpu.new }
    ensures step { MadeShared RUnlock lock cpu.old result cpu.new }
{
    let met = act_by(&mut cpu.seat, domain, Verb::RUnlock, lock, RwUse::Quits);
    cpu.notes.free(lock);
    met
}

/// Takes a reader off the word of a reader-writer lock, and returns the word before the step. In a
/// call of `read_lock` this is the row R3, in one of `try_read` Y3, and in one of `read_unlock`
/// Z1.
pub fn subtract_bias(cpu: &mut Cpu, domain: &Domain, verb: Verb, lock: LockName) -> u64
    requires domain { IsOf cpu.old domain.now }
    requires lock { lock.index < locks_of domain.now.plan }
    requires plain { lock.wait ≡ false }
    requires row { ActsFor (quits_by verb) (view_of cpu.old) verb lock.index }
    requires value { verb ≡ RUnlock → out_in (calls_of cpu.old).holds lock.index ≡ false }
    ensures rest { KeepsRest cpu.old cpu.new }
    ensures step { MadeShared verb lock.index cpu.old result cpu.new }
{
    match verb {
        Verb::Read => step_back(cpu, domain, lock.index),
        Verb::TryRead => give_up(cpu, domain, lock.index),
        Verb::RUnlock => release_as_reader(cpu, domain, lock.index),
        _ => unreachable!(),
    }
}

/// Sets the waiting bit in the word of a reader-writer lock, and returns the word before the step.
/// This is the row Wr4.
pub fn set_waiting(cpu: &mut Cpu, domain: &Domain, verb: Verb, lock: LockName) -> u64
    requires domain { IsOf cpu.old domain.now }
    requires lock { lock.index < locks_of domain.now.plan }
    requires plain { lock.wait ≡ false }
    requires row { ActsFor (awaits_by verb) (view_of cpu.old) verb lock.index }
    ensures rest { KeepsRest cpu.old cpu.new }
    ensures step { MadeShared verb lock.index cpu.old result cpu.new }
{
    act_by(
        &mut cpu.seat,
        domain,
        Verb::Write,
        lock.index,
        RwUse::Awaits,
    )
}

/// Swaps the word of a reader-writer lock from that in which only the waiting bit is set to held
/// by a writer, and returns the word before the step. This is the row Wr6.
pub fn waiting_to_writer(cpu: &mut Cpu, domain: &Domain, verb: Verb, lock: LockName) -> u64
    requires domain { IsOf cpu.old domain.now }
    requires lock { lock.index < locks_of domain.now.plan }
    requires plain { lock.wait ≡ false }
    requires row { ActsFor (follows_by verb) (view_of cpu.old) verb lock.index }
    ensures rest { KeepsRest cpu.old cpu.new }
    ensures step { MadeShared verb lock.index cpu.old result cpu.new }
{
    let met = act_by(
        &mut cpu.seat,
        domain,
        Verb::Write,
        lock.index,
        RwUse::Follows,
    );
    let after = Standing {
        waits: true,
        slow: false,
        taken: has_only_waiting(met),
    };
    cpu.notes.step(lock.index, after);
    met
}

/// Takes the writer off the word of a reader-writer lock, and returns the word before the step.
/// This is the row Z2.
pub fn writer_release(cpu: &mut Cpu, domain: &Domain, verb: Verb, lock: LockName) -> u64
    requires domain { IsOf cpu.old domain.now }
    requires lock { lock.index < locks_of domain.now.plan }
    requires plain { lock.wait ≡ false }
    requires row { ActsFor (leaves_by verb) (view_of cpu.old) verb lock.index }
    requires home { is_first (lock_name lock.index) ≡ true → (ledger_of cpu.old).out ≡ None }
    requires value { out_in (calls_of cpu.old).holds lock.index ≡ false }
    ensures rest { KeepsRest cpu.old cpu.new }
    ensures step { MadeShared verb lock.index cpu.old result cpu.new }
{
    let met = act_by(
        &mut cpu.seat,
        domain,
        Verb::WUnlock,
        lock.index,
        RwUse::Leaves,
    );
    cpu.notes.free(lock.index);
    met
}
