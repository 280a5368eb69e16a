// A call of `read_lock` in turns, as `polled` has one of `lock`. A turn makes rows up to the next
// failed poll, and there the call rests. `reading` shows the rows.
ghost use Rattle.std.specs.Prelude.{◌≡◌, ◌<◌, ℕ, Bool, Option, None, Some};
ghost use Rattle.lk_names.specs.declared.names.Kind.TheVariants.{Rw};
ghost use Rattle.lk_domain.specs.Plans.{locks_of, kind_at};
ghost use Rattle.lk_domain.specs.Seats.{IsOf, KeepsRest, calls_of};
ghost use Rattle.lk_domain.specs.Waits.{MayTake};
ghost use Rattle.lk_run.specs.Phases.{Start, starting};
ghost use Rattle.lk_run.specs.PolledRead as polled;
ghost use Rattle.lk_run.specs.PolledRead.{Waits, Entered};
ghost use Rattle.lk_run.specs.Reading.{Stands, Turns, Began, Quits, Joins, Watches, Spins, Resting};
ghost use Rattle.lk_run.specs.Reading.{Fits, InQueue, FitsQueue, Passed};
ghost use Rattle.lk_run.specs.Reading as reader;
ghost use Rattle.lk_run.specs.declared.read_waiter.ReadWaiter.{ReadWaiter};

use crate::call::{Call, Reader};
use crate::read_waiter::{ReadPlace, ReadWaiter};
use crate::reading::first;
use crate::rest::Rest;
use lk_domain::{Cpu, Domain, LockId};
use lk_names::LockName;
use lk_rows::Verb;

/// Begins a call of `read_lock`. `None` says that the processor holds the lock as a reader. Else the
/// call waits, and the caller polls it by `poll_read` until that says so.
///
/// It never waits. What is asked of the processor is what `read_lock` asks.
pub fn begin_read(cpu: &mut Cpu, domain: &Domain, lock: LockId) -> Option<ReadWaiter>
    requires domain { IsOf cpu.old domain.now }
    requires lock { lock.index < locks_of domain.now.plan }
    requires kind { kind_at domain.now.plan lock.index ≡ Rw }
    requires may { MayTake lock.index (calls_of cpu.old) }
    ensures rest { KeepsRest cpu.old cpu.new }
    ensures entered { result ≡ None → (nests : Bool)
        → Entered domain.now lock.index (starting cpu.old nests None) cpu.new None }
    ensures lock { (w : ReadWaiter) → result ≡ Some w → w.lock ≡ lock }
    ensures waits { (w : ReadWaiter) → result ≡ Some w → (nests : Bool)
        → Waits domain.now w (starting cpu.old nests None) cpu.new }
{
    let name = LockName {
        index: lock.index,
        wait: false,
    };
    if first(cpu, domain, name) {
        return None;
    }
    begin_read_slowpath(cpu, domain, lock)
}

// From the place to which the first row led that found no way in, up to where the call rests. It is
// out of the way of a call that finds one.
#[cold]
#[inline(never)]
fn begin_read_slowpath(cpu: &mut Cpu, domain: &Domain, lock: LockId) -> Option<ReadWaiter>
    requires domain { IsOf cpu.old domain.now }
    requires lock { lock.index < locks_of domain.now.plan }
    requires begun { (s : Start) × polled.Began domain.now lock.index s cpu.old None }
    ensures rest { KeepsRest cpu.old cpu.new }
    ensures entered { result ≡ None → (s : Start)
        → polled.Began domain.now lock.index s cpu.old None
        → Entered domain.now lock.index s cpu.new None }
    ensures lock { (w : ReadWaiter) → result ≡ Some w → w.lock ≡ lock }
    ensures waits { (w : ReadWaiter) → result ≡ Some w → (s : Start)
        → polled.Began domain.now lock.index s cpu.old None → Waits domain.now w s cpu.new }
{
    let reader = Reader {
        domain,
        lock: LockName {
            index: lock.index,
            wait: false,
        },
    };
    match reader.contend(cpu) {
        Some(place) => Some(ReadWaiter { lock, place }),
        None => None,
    }
}

/// Goes on with a call that waits, up to its next failed poll of the lock. `None` says that the
/// processor holds the lock as a reader.
///
/// It never waits. Between two polls the processor may do whatever a handler may do while
/// `read_lock` waits.
pub fn poll_read(cpu: &mut Cpu, domain: &Domain, waiter: ReadWaiter) -> Option<ReadWaiter>
    requires domain { IsOf cpu.old domain.now }
    requires waits { (s : Start) × Waits domain.now waiter s cpu.old }
    ensures rest { KeepsRest cpu.old cpu.new }
    ensures entered { result ≡ None → (s : Start) → Waits domain.now waiter s cpu.old
        → Entered domain.now waiter.lock.index s cpu.new None }
    ensures lock { (w : ReadWaiter) → result ≡ Some w → w.lock ≡ waiter.lock }
    ensures waits { (w : ReadWaiter) → result ≡ Some w → (s : Start)
        → Waits domain.now waiter s cpu.old → Waits domain.now w s cpu.new }
{
    let lock = waiter.lock;
    let reader = Reader {
        domain,
        lock: LockName {
            index: lock.index,
            wait: false,
        },
    };
    match reader.turn(cpu, waiter.place) {
        Some(place) => Some(ReadWaiter { lock, place }),
        None => None,
    }
}

impl<'a> Reader<'a> {
    // From the place to which the first row led that found no way in: one that has interrupted
    // another call does not queue behind a writer that may wait for the call below it.
    pub(crate) fn contend(&self, cpu: &mut Cpu) -> Option<ReadPlace>
        requires { Stands self.now Began cpu.old }
        ensures { Turns self.now Began result cpu.old cpu.new }
    {
        let alone = cpu.depth() == 1;
        if alone {
            self.queue(cpu)
        } else {
            self.spin(cpu)
        }
    }

    // From where it rests.
    pub(crate) fn turn(&self, cpu: &mut Cpu, place: ReadPlace) -> Option<ReadPlace>
        requires fits { Fits self.now place cpu.old }
        requires waits { Stands self.now (Resting place) cpu.old }
        ensures { Turns self.now (Resting place) result cpu.old cpu.new }
    {
        match place {
            ReadPlace::Queues(rest) => self.go_on(cpu, rest),
            ReadPlace::Watches => self.wait(cpu),
            ReadPlace::Spins => self.spin(cpu),
        }
    }

    // From R3: it takes its bias back, so that a writer may come in, and queues for the wait lock.
    fn queue(&self, cpu: &mut Cpu) -> Option<ReadPlace>
        requires { Stands self.now Quits cpu.old }
        ensures { Turns self.now Quits result cpu.old cpu.new }
    {
        let queue = Call {
            domain: self.domain,
            verb: Verb::Read,
            lock: LockName {
                index: self.lock.index,
                wait: true,
            },
        };
        self.retreat(cpu);
        match queue.begin(cpu) {
            Some(rest) => Some(ReadPlace::Queues(rest)),
            None => self.enter(cpu),
        }
    }

    // From where it rests in the queue of the wait lock.
    fn go_on(&self, cpu: &mut Cpu, rest: Rest) -> Option<ReadPlace>
        requires fits { FitsQueue self.now rest cpu.old }
        requires waits { Stands self.now (InQueue rest) cpu.old }
        ensures { Turns self.now (InQueue rest) result cpu.old cpu.new }
    {
        let queue = Call {
            domain: self.domain,
            verb: Verb::Read,
            lock: LockName {
                index: self.lock.index,
                wait: true,
            },
        };
        match queue.turn(cpu, rest) {
            Some(rest) => Some(ReadPlace::Queues(rest)),
            None => self.enter(cpu),
        }
    }

    // From R4: it has the wait lock.
    fn enter(&self, cpu: &mut Cpu) -> Option<ReadPlace>
        requires { Stands self.now Joins cpu.old }
        ensures { Turns self.now Joins result cpu.old cpu.new }
    {
        self.join(cpu);
        self.wait(cpu)
    }

    // From R5: once it has come in, it frees the wait lock.
    fn wait(&self, cpu: &mut Cpu) -> Option<ReadPlace>
        requires { Stands self.now Watches cpu.old }
        ensures { Turns self.now Watches result cpu.old cpu.new }
    {
        if self.watch(cpu) {
            self.leave(cpu);
            return None;
        }
        Some(ReadPlace::Watches)
    }

    // From U1: it has come in, and frees the wait lock.
    fn leave(&self, cpu: &mut Cpu)
        requires domain { IsOf cpu.old self.now.domain.now }
        requires passed { (s : Start) × (told : Option ℕ) × Passed self.now s cpu.old told }
        ensures rest { KeepsRest cpu.old cpu.new }
        ensures came { (s : Start) (told : Option ℕ) → Passed self.now s cpu.old told
            → reader.Entered self.now s cpu.new told }
    {
        let queue = Call {
            domain: self.domain,
            verb: Verb::Read,
            lock: LockName {
                index: self.lock.index,
                wait: true,
            },
        };
        queue.release(cpu);
    }

    // From R2.
    fn spin(&self, cpu: &mut Cpu) -> Option<ReadPlace>
        requires { Stands self.now Spins cpu.old }
        ensures { Turns self.now Spins result cpu.old cpu.new }
    {
        if self.look_past(cpu) {
            return None;
        }
        Some(ReadPlace::Spins)
    }
}
