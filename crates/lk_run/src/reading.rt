// The calls of readers, read from the top: `read_lock` goes on in `read_slowpath` where its first
// row finds no way in. The comments show the word of a reader-writer lock as (readers, waiting,
// writer), and name the row from which a function goes on.
//
//   R1 adds its bias ------------------------ met (r, 0, 0): it has come in
//
//   alone        R3 takes the bias back, F1 queues for the wait lock
//                R4 adds it again
//                R5 looks until (r, w, 0) --- it has come in, U1 frees the wait lock
//
//   interrupted  R2 looks until (r, w, 0) --- it has come in
//
ghost use Rattle.std.specs.Prelude.{◌≡◌, ◌≢◌, ◌<◌, true, false, Some, length};
ghost use Rattle.lk_names.specs.declared.holder.Manner.TheVariants.{Reads};
ghost use Rattle.lk_names.specs.declared.names.Kind.TheVariants.{Rw};
ghost use Rattle.lk_rows.specs.declared.parts.Pc.TheVariants.{R2, R3, R4, R5, Y2, Y3, Z1};
ghost use Rattle.lk_rows.specs.declared.setup.Verb.TheVariants.{Read, TryRead};
ghost use Rattle.lk_domain.specs.Calls.{Calls, way_in};
ghost use Rattle.lk_domain.specs.Plans.{locks_of, kind_at};
ghost use Rattle.lk_domain.specs.Seats.{IsOf, KeepsRest, calls_of};
ghost use Rattle.lk_domain.specs.Values.{out_in};
ghost use Rattle.lk_domain.specs.Waits.{MayTake, WaitsAt, Gains, Misses, Moves};
ghost use Rattle.lk_run.specs.Entering.{Leaves};
ghost use Rattle.lk_run.specs.Phases.{CameIn, starting};
ghost use Rattle.lk_run.specs.PolledRead.{Began, Entered};
ghost use Rattle.lk_run.specs.Reading as reader;
ghost use Rattle.lk_run.specs.Reading.{BeginsToRead, outside, inside};
ghost use Rattle.lk_run.specs.Turns.{Begun, Earns};
ghost use Rattle.lk_run.specs.Waiters.{At, Steps, Looks, Gets};

use crate::call::Reader;
use crate::irq::{Irq, give_way};
use crate::pacing::Pace;
use lk_domain::{Cpu, Domain, LockId, steps};
use lk_names::LockName;
use lk_rows::Verb;
use lk_word::{has_no_writer, lets_readers_in};
use std::sync::Wait;

/// Acquires a reader-writer lock as a reader, and returns when the processor holds it, maybe
/// beside other readers (`queued_read_lock`).
///
/// A call that finds no writer comes in by one atomic operation. Otherwise it queues for the wait
/// lock, behind the readers and writers that came before. A call in an interrupt passes waiting
/// writers, since one of them may wait for the call that was interrupted. It polls `irq`, waits
/// and ends as `lock` does.
#[inline]
pub fn read_lock<I: Irq, R: Wait>(cpu: &mut Cpu, rt: &R, domain: &Domain, lock: LockId, irq: &mut I)
    requires domain { IsOf cpu.old domain.now }
    requires lock { lock.index < locks_of domain.now.plan }
    requires kind { kind_at domain.now.plan lock.index ≡ Rw }
    requires may { MayTake lock.index (calls_of cpu.old) }
    ensures rest { KeepsRest cpu.old cpu.new }
    ensures entered { CameIn domain.now Read lock.index Reads
        (starting cpu.old I.nests (I.polls irq.old)) cpu.new (I.polls irq.new) }
{
    let name = LockName {
        index: lock.index,
        wait: false,
    };
    if first(cpu, domain, name) {
        return;
    }
    read_slowpath(cpu, rt, domain, lock, irq);
}

// The row R1: true where it has come in.
//   (r, 0, 0) -> (r + 1, 0, 0): nobody waits and no writer is in, so it has come in.
//   (r, w, x) -> (r + 1, w, x) else: its bias is in the word, and no writer comes in past it.
#[inline]
pub(crate) fn first(cpu: &mut Cpu, domain: &Domain, lock: LockName) -> bool
    requires domain { IsOf cpu.old domain.now }
    requires lock { lock.index < locks_of domain.now.plan }
    requires kind { kind_at domain.now.plan lock.index ≡ Rw }
    requires plain { lock.wait ≡ false }
    requires may { MayTake lock.index (calls_of cpu.old) }
    ensures rest { KeepsRest cpu.old cpu.new }
    ensures begins { BeginsToRead domain.now lock result cpu.old cpu.new }
{
    lets_readers_in(steps::join_first(cpu, domain, Verb::Read, lock))
}

/// Goes on with a call of `read_lock` from the place to which its first row led, which found no way in, until
/// the processor holds the lock (`queued_read_lock_slowpath`): turns, and a poll after each.
#[cold]
#[inline(never)]
pub fn read_slowpath<I: Irq, R: Wait>(
    cpu: &mut Cpu,
    rt: &R,
    domain: &Domain,
    lock: LockId,
    irq: &mut I,
)
    requires domain { IsOf cpu.old domain.now }
    requires lock { lock.index < locks_of domain.now.plan }
    requires begun { Begun (Began domain.now lock.index) I.nests cpu.old (I.polls irq.old) }
    ensures { Earns (Began domain.now lock.index) (Entered domain.now lock.index) I.nests cpu.old
        (I.polls irq.old) cpu.new (I.polls irq.new) }
{
    let reader = Reader {
        domain,
        lock: LockName {
            index: lock.index,
            wait: false,
        },
    };
    let Some(mut place) = reader.contend(cpu) else {
        return;
    };
    let mut pace = Pace::new();
    for _ in rt.forever() {
        give_way(cpu, rt, domain, irq);
        pace.pause(place.row());
        match reader.turn(cpu, place) {
            None => return,
            Some(next) => {
                pace.renew(place.row(), next.row());
                place = next;
            }
        }
    }
    unreachable!()
}

impl<'a> Reader<'a> {
    // The row R2, of a reader that has interrupted another call: true where no writer was in,
    // (r, w, 0), so that it has come in, past those that wait: one of them may wait for the call
    // below it. A look changes no word.
    pub(crate) fn look_past(&self, cpu: &mut Cpu) -> bool
        requires nested { length (calls_of cpu.old).frames ≢ 1 }
        requires waits { At (outside self.now) R2 cpu.old }
        ensures entered { result ≡ true
            → Gets (outside self.now) R2 (reader.Entered self.now) cpu.old cpu.new }
        ensures held { result ≡ false → Looks (outside self.now) R2 cpu.old cpu.new }
    {
        has_no_writer(steps::look(cpu, self.domain, Verb::Read, self.lock))
    }

    // The row R3: (r, w, x) -> (r - 1, w, x). It takes its bias back, so that a writer that waits
    // may come in, and goes to take the wait lock.
    pub(crate) fn retreat(&self, cpu: &mut Cpu)
        requires { At (outside self.now) R3 cpu.old }
        ensures { Gets (outside self.now) R3 (reader.Queues self.now) cpu.old cpu.new }
    {
        steps::subtract_bias(cpu, self.domain, Verb::Read, self.lock);
    }

    // The row R4: (r, w, x) -> (r + 1, w, x), now as the one that has the wait lock.
    pub(crate) fn join(&self, cpu: &mut Cpu)
        requires { At (inside self.now) R4 cpu.old }
        ensures { Steps (inside self.now) R4 R5 cpu.old cpu.new }
    {
        steps::add_bias(cpu, self.domain, Verb::Read, self.lock);
    }

    // The row R5: true where no writer was in, (r, w, 0), so that it has come in. No other writer
    // comes in past its bias. A look changes no word.
    pub(crate) fn watch(&self, cpu: &mut Cpu) -> bool
        requires alone { length (calls_of cpu.old).frames ≡ 1 }
        requires waits { At (inside self.now) R5 cpu.old }
        ensures passed { result ≡ true
            → Gets (inside self.now) R5 (reader.Passed self.now) cpu.old cpu.new }
        ensures held { result ≡ false → Looks (inside self.now) R5 cpu.old cpu.new }
    {
        has_no_writer(steps::look(cpu, self.domain, Verb::Read, self.lock))
    }
}

/// Tries to acquire a reader-writer lock as a reader, by three atomic operations at most, and
/// returns whether it did (`queued_read_trylock`).
///
/// It never waits. It fails if a writer holds the lock, or waits for the readers to leave.
pub fn try_read(cpu: &mut Cpu, domain: &Domain, lock: LockId) -> bool
    requires domain { IsOf cpu.old domain.now }
    requires lock { lock.index < locks_of domain.now.plan }
    requires kind { kind_at domain.now.plan lock.index ≡ Rw }
    requires may { MayTake lock.index (calls_of cpu.old) }
    ensures rest { KeepsRest cpu.old cpu.new }
    ensures taken { result ≡ true
        → Gains domain.now TryRead lock.index Reads (calls_of cpu.old) cpu.old cpu.new }
    ensures missed { result ≡ false
        → Misses domain.now TryRead lock.index (calls_of cpu.old) cpu.old cpu.new }
{
    let name = LockName {
        index: lock.index,
        wait: false,
    };
    try_look(cpu, domain, name) && try_enter(cpu, domain, name)
}

// From Y2: it saw that a reader may come in.
fn try_enter(cpu: &mut Cpu, domain: &Domain, lock: LockName) -> bool
    requires domain { IsOf cpu.old domain.now }
    requires lock { lock.index < locks_of domain.now.plan }
    requires plain { lock.wait ≡ false }
    requires waits { (old : Calls) × WaitsAt domain.now TryRead lock.index Y2 old cpu.old }
    ensures rest { KeepsRest cpu.old cpu.new }
    ensures taken { result ≡ true → (old : Calls)
        → WaitsAt domain.now TryRead lock.index Y2 old cpu.old
        → Gains domain.now TryRead lock.index Reads old cpu.old cpu.new }
    ensures missed { result ≡ false → (old : Calls)
        → WaitsAt domain.now TryRead lock.index Y2 old cpu.old
        → Misses domain.now TryRead lock.index old cpu.old cpu.new }
{
    if try_add(cpu, domain, lock) {
        return true;
    }
    try_fail(cpu, domain, lock);
    false
}

// The row Y1: true where a reader may come in, (r, 0, 0). A look changes no word.
fn try_look(cpu: &mut Cpu, domain: &Domain, lock: LockName) -> bool
    requires domain { IsOf cpu.old domain.now }
    requires lock { lock.index < locks_of domain.now.plan }
    requires kind { kind_at domain.now.plan lock.index ≡ Rw }
    requires plain { lock.wait ≡ false }
    requires may { MayTake lock.index (calls_of cpu.old) }
    ensures rest { KeepsRest cpu.old cpu.new }
    ensures open { result ≡ true
        → Moves domain.now TryRead lock.index Y2 (calls_of cpu.old) cpu.old cpu.new }
    ensures missed { result ≡ false
        → Misses domain.now TryRead lock.index (calls_of cpu.old) cpu.old cpu.new }
{
    lets_readers_in(steps::look(cpu, domain, Verb::TryRead, lock))
}

// The row Y2: true where it has come in.
//   (r, 0, 0) -> (r + 1, 0, 0): nobody waits and no writer is in, so it has come in.
//   (r, w, x) -> (r + 1, w, x) else: its bias goes back.
fn try_add(cpu: &mut Cpu, domain: &Domain, lock: LockName) -> bool
    requires domain { IsOf cpu.old domain.now }
    requires lock { lock.index < locks_of domain.now.plan }
    requires plain { lock.wait ≡ false }
    requires waits { (old : Calls) × WaitsAt domain.now TryRead lock.index Y2 old cpu.old }
    ensures rest { KeepsRest cpu.old cpu.new }
    ensures taken { result ≡ true → (old : Calls)
        → WaitsAt domain.now TryRead lock.index Y2 old cpu.old
        → Gains domain.now TryRead lock.index Reads old cpu.old cpu.new }
    ensures closed { result ≡ false → (old : Calls)
        → WaitsAt domain.now TryRead lock.index Y2 old cpu.old
        → Moves domain.now TryRead lock.index Y3 old cpu.old cpu.new }
{
    lets_readers_in(steps::add_bias(cpu, domain, Verb::TryRead, lock))
}

// The row Y3: (r, w, x) -> (r - 1, w, x). It takes its bias back: the try has failed.
fn try_fail(cpu: &mut Cpu, domain: &Domain, lock: LockName)
    requires domain { IsOf cpu.old domain.now }
    requires lock { lock.index < locks_of domain.now.plan }
    requires plain { lock.wait ≡ false }
    requires waits { (old : Calls) × WaitsAt domain.now TryRead lock.index Y3 old cpu.old }
    ensures rest { KeepsRest cpu.old cpu.new }
    ensures missed { (old : Calls) → WaitsAt domain.now TryRead lock.index Y3 old cpu.old
        → Misses domain.now TryRead lock.index old cpu.old cpu.new }
{
    steps::subtract_bias(cpu, domain, Verb::TryRead, lock);
}

/// Releases a lock that the processor holds as a reader, by one atomic operation, the row Z1:
/// (r, w, x) -> (r - 1, w, x) (`queued_read_unlock`).
pub fn read_unlock(cpu: &mut Cpu, domain: &Domain, lock: LockId)
    requires domain { IsOf cpu.old domain.now }
    requires lock { lock.index < locks_of domain.now.plan }
    requires kind { kind_at domain.now.plan lock.index ≡ Rw }
    requires few { length (calls_of cpu.old).frames < 6 }
    requires held { way_in (calls_of cpu.old).holds lock.index ≡ Some Reads }
    requires value { out_in (calls_of cpu.old).holds lock.index ≡ false }
    ensures rest { KeepsRest cpu.old cpu.new }
    ensures left { Leaves Z1 lock.index cpu.old cpu.new }
{
    let name = LockName {
        index: lock.index,
        wait: false,
    };
    steps::subtract_bias(cpu, domain, Verb::RUnlock, name);
}
