// The calls of writers, read from the top: `write_lock` goes on in `write_slowpath` where its first
// row met somebody. The comments show the word of a reader-writer lock as (readers, waiting,
// writer), and name the row from which a function goes on.
//
//   Wr1 takes (0, 0, 0) --------------------- it has the lock
//
//   F1 queues for the wait lock, Wr2 looks
//     met (0, 0, 0)  Wr3 takes it ----------- it has the lock, U1 frees the wait lock
//     met another    Wr4 sets the waiting bit
//                    Wr5 looks until (0, 1, 0)
//                    Wr6 takes it ----------- it has the lock, U1 frees the wait lock
//
ghost use Rattle.std.specs.Prelude.{◌≡◌, ◌<◌, true, false, None, Some, length};
ghost use Rattle.lk_names.specs.declared.holder.Manner.TheVariants.{Writes};
ghost use Rattle.lk_names.specs.declared.names.Kind.TheVariants.{Rw};
ghost use Rattle.lk_rows.specs.declared.parts.Pc.TheVariants.{Wr2, Wr3, Wr4, Wr5, Wr6, Y5, Z2};
ghost use Rattle.lk_rows.specs.declared.setup.Verb.TheVariants.{Write, TryWrite};
ghost use Rattle.lk_domain.specs.Calls.{lock_name, way_in, Calls};
ghost use Rattle.lk_domain.specs.Ledgers.{is_first};
ghost use Rattle.lk_domain.specs.Plans.{locks_of, kind_at};
ghost use Rattle.lk_domain.specs.Seats.{IsOf, KeepsRest, calls_of, ledger_of};
ghost use Rattle.lk_domain.specs.Values.{out_in};
ghost use Rattle.lk_domain.specs.Waits.{MayTake, Gains, Misses, WaitsAt, Moves};
ghost use Rattle.lk_run.specs.Entering.{Leaves};
ghost use Rattle.lk_run.specs.Phases.{CameIn, starting};
ghost use Rattle.lk_run.specs.PolledWrite.{Began, Entered};
ghost use Rattle.lk_run.specs.Turns.{Begun, Earns};
ghost use Rattle.lk_run.specs.Waiters.{At, Steps, Gets, Looks};
ghost use Rattle.lk_run.specs.Writing.{BeginsToWrite, inside, Passed};

use crate::call::Writer;
use crate::irq::{Irq, give_way};
use crate::pacing::Pace;
use lk_domain::{Cpu, Domain, LockId, steps};
use lk_names::LockName;
use lk_rows::Verb;
use lk_word::has_only_waiting;
use std::sync::Wait;

/// Acquires a reader-writer lock as its writer, and returns when the processor holds it, alone
/// (`queued_write_lock`).
///
/// A call that finds nobody takes the lock by one atomic operation. Otherwise it queues for the
/// wait lock, and then keeps new readers out until those inside have left, but for readers in an
/// interrupt. It polls `irq`, waits and ends as `lock` does.
#[inline]
pub fn write_lock<I: Irq, R: Wait>(
    cpu: &mut Cpu,
    rt: &R,
    domain: &Domain,
    lock: LockId,
    irq: &mut I,
)
    requires domain { IsOf cpu.old domain.now }
    requires lock { lock.index < locks_of domain.now.plan }
    requires kind { kind_at domain.now.plan lock.index ≡ Rw }
    requires may { MayTake lock.index (calls_of cpu.old) }
    ensures rest { KeepsRest cpu.old cpu.new }
    ensures entered { CameIn domain.now Write lock.index Writes
        (starting cpu.old I.nests (I.polls irq.old)) cpu.new (I.polls irq.new) }
{
    let name = LockName {
        index: lock.index,
        wait: false,
    };
    if first(cpu, domain, name) {
        return;
    }
    write_slowpath(cpu, rt, domain, lock, irq);
}

// The row Wr1: true where it has the lock.
//   (0, 0, 0) -> (0, 0, 1): no reader's bias is in the word, nobody waits and no writer is in.
//   any other word stays, and it goes to take the wait lock.
#[inline]
pub(crate) fn first(cpu: &mut Cpu, domain: &Domain, lock: LockName) -> bool
    requires domain { IsOf cpu.old domain.now }
    requires lock { lock.index < locks_of domain.now.plan }
    requires kind { kind_at domain.now.plan lock.index ≡ Rw }
    requires plain { lock.wait ≡ false }
    requires may { MayTake lock.index (calls_of cpu.old) }
    ensures rest { KeepsRest cpu.old cpu.new }
    ensures begins { BeginsToWrite domain.now lock result cpu.old cpu.new }
{
    steps::seize_first(cpu, domain, Verb::Write, lock) == 0
}

/// Goes on with a call of `write_lock` whose first row met a word that was not (0, 0, 0), from F1, until the
/// processor holds the lock (`queued_write_lock_slowpath`): turns, and a poll after each.
#[cold]
#[inline(never)]
pub fn write_slowpath<I: Irq, R: Wait>(
    cpu: &mut Cpu,
    rt: &R,
    domain: &Domain,
    lock: LockId,
    irq: &mut I,
)
    requires domain { IsOf cpu.old domain.now }
    requires lock { lock.index < locks_of domain.now.plan }
    requires begun { Begun (Began domain.now lock.index) I.nests cpu.old (I.polls irq.old) }
    ensures { Earns (Began domain.now lock.index) (Entered domain.now lock.index) I.nests cpu.old
        (I.polls irq.old) cpu.new (I.polls irq.new) }
{
    let writer = Writer {
        domain,
        lock: LockName {
            index: lock.index,
            wait: false,
        },
    };
    let Some(mut place) = writer.contend(cpu) else {
        return;
    };
    let mut pace = Pace::new();
    for _ in rt.forever() {
        give_way(cpu, rt, domain, irq);
        pace.pause(place.row());
        match writer.turn(cpu, place) {
            None => return,
            Some(next) => {
                pace.renew(place.row(), next.row());
                place = next;
            }
        }
    }
    unreachable!()
}

impl<'a> Writer<'a> {
    // From Wr2: true where it has the lock, since nobody was there.
    pub(crate) fn seize(&self, cpu: &mut Cpu) -> bool
        requires { At (inside self.now) Wr2 cpu.old }
        ensures passed { result ≡ true
            → Gets (inside self.now) Wr2 (Passed self.now) cpu.old cpu.new }
        ensures others { result ≡ false → Steps (inside self.now) Wr2 Wr4 cpu.old cpu.new }
    {
        if self.look(cpu) {
            return self.swap(cpu);
        }
        false
    }

    // The row Wr2, with the wait lock: true where the word was (0, 0, 0). A look changes no word.
    fn look(&self, cpu: &mut Cpu) -> bool
        requires { At (inside self.now) Wr2 cpu.old }
        ensures empty { result ≡ true → Steps (inside self.now) Wr2 Wr3 cpu.old cpu.new }
        ensures others { result ≡ false → Steps (inside self.now) Wr2 Wr4 cpu.old cpu.new }
    {
        steps::look(cpu, self.domain, Verb::Write, self.lock) == 0
    }

    // The row Wr3: true where it has the lock.
    //   (0, 0, 0) -> (0, 0, 1): still nobody is there.
    //   any other word stays: a reader has come meanwhile.
    fn swap(&self, cpu: &mut Cpu) -> bool
        requires { At (inside self.now) Wr3 cpu.old }
        ensures passed { result ≡ true
            → Gets (inside self.now) Wr3 (Passed self.now) cpu.old cpu.new }
        ensures others { result ≡ false → Steps (inside self.now) Wr3 Wr4 cpu.old cpu.new }
    {
        steps::empty_to_writer(cpu, self.domain, Verb::Write, self.lock) == 0
    }

    // The row Wr4: (r, 0, x) -> (r, 1, x). From here on no new reader comes in but those that have
    // interrupted another call.
    pub(crate) fn announce(&self, cpu: &mut Cpu)
        requires { At (inside self.now) Wr4 cpu.old }
        ensures { Steps (inside self.now) Wr4 Wr5 cpu.old cpu.new }
    {
        steps::set_waiting(cpu, self.domain, Verb::Write, self.lock);
    }

    // The row Wr5: true where the word was (0, 1, 0): no reader's bias is in it, of those that hold
    // the lock or of those that wait, and no writer. A look changes no word.
    pub(crate) fn watch(&self, cpu: &mut Cpu) -> bool
        requires { At (inside self.now) Wr5 cpu.old }
        ensures cleared { result ≡ true → Steps (inside self.now) Wr5 Wr6 cpu.old cpu.new }
        ensures held { result ≡ false → Looks (inside self.now) Wr5 cpu.old cpu.new }
    {
        has_only_waiting(steps::look(cpu, self.domain, Verb::Write, self.lock))
    }

    // The row Wr6: true where it has the lock.
    //   (0, 1, 0) -> (0, 0, 1): still no bias is in the word, and the waiting bit is its own, since
    //   it has the wait lock.
    //   any other word stays: a reader's bias has come meanwhile.
    pub(crate) fn claim(&self, cpu: &mut Cpu) -> bool
        requires { At (inside self.now) Wr6 cpu.old }
        ensures passed { result ≡ true
            → Gets (inside self.now) Wr6 (Passed self.now) cpu.old cpu.new }
        ensures biased { result ≡ false → Steps (inside self.now) Wr6 Wr5 cpu.old cpu.new }
    {
        has_only_waiting(steps::waiting_to_writer(cpu, self.domain, Verb::Write, self.lock))
    }
}

/// Tries to acquire a reader-writer lock as its writer, by two atomic operations at most, and
/// returns whether it did (`queued_write_trylock`).
///
/// It never waits. It fails unless the word is (0, 0, 0): nobody holds the lock, no reader has
/// added itself, and no writer waits for the readers to leave.
pub fn try_write(cpu: &mut Cpu, domain: &Domain, lock: LockId) -> bool
    requires domain { IsOf cpu.old domain.now }
    requires lock { lock.index < locks_of domain.now.plan }
    requires kind { kind_at domain.now.plan lock.index ≡ Rw }
    requires may { MayTake lock.index (calls_of cpu.old) }
    ensures rest { KeepsRest cpu.old cpu.new }
    ensures taken { result ≡ true
        → Gains domain.now TryWrite lock.index Writes (calls_of cpu.old) cpu.old cpu.new }
    ensures missed { result ≡ false
        → Misses domain.now TryWrite lock.index (calls_of cpu.old) cpu.old cpu.new }
{
    let name = LockName {
        index: lock.index,
        wait: false,
    };
    try_look(cpu, domain, name) && try_swap(cpu, domain, name)
}

// The row Y4: true where the word was (0, 0, 0). A look changes no word.
fn try_look(cpu: &mut Cpu, domain: &Domain, lock: LockName) -> bool
    requires domain { IsOf cpu.old domain.now }
    requires lock { lock.index < locks_of domain.now.plan }
    requires kind { kind_at domain.now.plan lock.index ≡ Rw }
    requires plain { lock.wait ≡ false }
    requires may { MayTake lock.index (calls_of cpu.old) }
    ensures rest { KeepsRest cpu.old cpu.new }
    ensures empty { result ≡ true
        → Moves domain.now TryWrite lock.index Y5 (calls_of cpu.old) cpu.old cpu.new }
    ensures missed { result ≡ false
        → Misses domain.now TryWrite lock.index (calls_of cpu.old) cpu.old cpu.new }
{
    steps::look(cpu, domain, Verb::TryWrite, lock) == 0
}

// The row Y5: true where it has the lock.
//   (0, 0, 0) -> (0, 0, 1): still nobody is there.
//   any other word stays: some other call was faster.
fn try_swap(cpu: &mut Cpu, domain: &Domain, lock: LockName) -> bool
    requires domain { IsOf cpu.old domain.now }
    requires lock { lock.index < locks_of domain.now.plan }
    requires plain { lock.wait ≡ false }
    requires waits { (old : Calls) × WaitsAt domain.now TryWrite lock.index Y5 old cpu.old }
    ensures rest { KeepsRest cpu.old cpu.new }
    ensures taken { result ≡ true → (old : Calls)
        → WaitsAt domain.now TryWrite lock.index Y5 old cpu.old
        → Gains domain.now TryWrite lock.index Writes old cpu.old cpu.new }
    ensures missed { result ≡ false → (old : Calls)
        → WaitsAt domain.now TryWrite lock.index Y5 old cpu.old
        → Misses domain.now TryWrite lock.index old cpu.old cpu.new }
{
    steps::empty_to_writer(cpu, domain, Verb::TryWrite, lock) == 0
}

/// Releases a lock that the processor holds as its writer, by one atomic operation, the row Z2:
/// (r, w, 1) -> (r, w, 0) (`queued_write_unlock`).
///
/// The count keeps the readers that wait. Before it releases lock 0, the processor must have
/// given the journal back.
pub fn write_unlock(cpu: &mut Cpu, domain: &Domain, lock: LockId)
    requires domain { IsOf cpu.old domain.now }
    requires lock { lock.index < locks_of domain.now.plan }
    requires kind { kind_at domain.now.plan lock.index ≡ Rw }
    requires few { length (calls_of cpu.old).frames < 6 }
    requires held { way_in (calls_of cpu.old).holds lock.index ≡ Some Writes }
    requires home { is_first (lock_name lock.index) ≡ true → (ledger_of cpu.old).out ≡ None }
    requires value { out_in (calls_of cpu.old).holds lock.index ≡ false }
    ensures rest { KeepsRest cpu.old cpu.new }
    ensures left { Leaves Z2 lock.index cpu.old cpu.new }
{
    let name = LockName {
        index: lock.index,
        wait: false,
    };
    steps::writer_release(cpu, domain, Verb::WUnlock, name);
}
