// A call of `write_lock` in turns, as `polled` has one of `lock`. A turn makes rows up to the next
// failed poll, and there the call rests. `writing` shows the rows.
ghost use Rattle.std.specs.Prelude.{◌≡◌, ◌<◌, ℕ, Bool, Option, None, Some};
ghost use Rattle.lk_names.specs.declared.names.Kind.TheVariants.{Rw};
ghost use Rattle.lk_domain.specs.Plans.{locks_of, kind_at};
ghost use Rattle.lk_domain.specs.Seats.{IsOf, KeepsRest, calls_of};
ghost use Rattle.lk_domain.specs.Waits.{MayTake};
ghost use Rattle.lk_run.specs.Phases.{Start, starting};
ghost use Rattle.lk_run.specs.PolledWrite as polled;
ghost use Rattle.lk_run.specs.PolledWrite.{Waits, Entered};
ghost use Rattle.lk_run.specs.Writing.{Stands, Turns, Began, Looks, Watches, Resting};
ghost use Rattle.lk_run.specs.Writing.{Fits, InQueue, FitsQueue, Passed};
ghost use Rattle.lk_run.specs.Writing as writer;
ghost use Rattle.lk_run.specs.declared.write_waiter.WriteWaiter.{WriteWaiter};

use crate::call::{Call, Writer};
use crate::rest::Rest;
use crate::write_waiter::{WritePlace, WriteWaiter};
use crate::writing::first;
use lk_domain::{Cpu, Domain, LockId};
use lk_names::LockName;
use lk_rows::Verb;

/// Begins a call of `write_lock`. `None` says that the processor holds the lock, as its writer. Else
/// the call waits, and the caller polls it by `poll_write` until that says so.
///
/// It never waits. What is asked of the processor is what `write_lock` asks.
pub fn begin_write(cpu: &mut Cpu, domain: &Domain, lock: LockId) -> Option<WriteWaiter>
    requires domain { IsOf cpu.old domain.now }
    requires lock { lock.index < locks_of domain.now.plan }
    requires kind { kind_at domain.now.plan lock.index ≡ Rw }
    requires may { MayTake lock.index (calls_of cpu.old) }
    ensures rest { KeepsRest cpu.old cpu.new }
    ensures entered { result ≡ None → (nests : Bool)
        → Entered domain.now lock.index (starting cpu.old nests None) cpu.new None }
    ensures lock { (w : WriteWaiter) → result ≡ Some w → w.lock ≡ lock }
    ensures waits { (w : WriteWaiter) → result ≡ Some w → (nests : Bool)
        → Waits domain.now w (starting cpu.old nests None) cpu.new }
{
    let name = LockName {
        index: lock.index,
        wait: false,
    };
    if first(cpu, domain, name) {
        return None;
    }
    begin_write_slowpath(cpu, domain, lock)
}

// From the place to which the first row led that met somebody, up to where the call rests. It is out
// of the way of a call that finds nobody.
#[cold]
#[inline(never)]
fn begin_write_slowpath(cpu: &mut Cpu, domain: &Domain, lock: LockId) -> Option<WriteWaiter>
    requires domain { IsOf cpu.old domain.now }
    requires lock { lock.index < locks_of domain.now.plan }
    requires begun { (s : Start) × polled.Began domain.now lock.index s cpu.old None }
    ensures rest { KeepsRest cpu.old cpu.new }
    ensures entered { result ≡ None → (s : Start)
        → polled.Began domain.now lock.index s cpu.old None
        → Entered domain.now lock.index s cpu.new None }
    ensures lock { (w : WriteWaiter) → result ≡ Some w → w.lock ≡ lock }
    ensures waits { (w : WriteWaiter) → result ≡ Some w → (s : Start)
        → polled.Began domain.now lock.index s cpu.old None → Waits domain.now w s cpu.new }
{
    let writer = Writer {
        domain,
        lock: LockName {
            index: lock.index,
            wait: false,
        },
    };
    match writer.contend(cpu) {
        Some(place) => Some(WriteWaiter { lock, place }),
        None => None,
    }
}

/// Goes on with a call that waits, up to its next failed poll of the lock. `None` says that the
/// processor holds the lock, as its writer.
///
/// It never waits. Between two polls the processor may do whatever a handler may do while
/// `write_lock` waits.
pub fn poll_write(cpu: &mut Cpu, domain: &Domain, waiter: WriteWaiter) -> Option<WriteWaiter>
    requires domain { IsOf cpu.old domain.now }
    requires waits { (s : Start) × Waits domain.now waiter s cpu.old }
    ensures rest { KeepsRest cpu.old cpu.new }
    ensures entered { result ≡ None → (s : Start) → Waits domain.now waiter s cpu.old
        → Entered domain.now waiter.lock.index s cpu.new None }
    ensures lock { (w : WriteWaiter) → result ≡ Some w → w.lock ≡ waiter.lock }
    ensures waits { (w : WriteWaiter) → result ≡ Some w → (s : Start)
        → Waits domain.now waiter s cpu.old → Waits domain.now w s cpu.new }
{
    let lock = waiter.lock;
    let writer = Writer {
        domain,
        lock: LockName {
            index: lock.index,
            wait: false,
        },
    };
    match writer.turn(cpu, waiter.place) {
        Some(place) => Some(WriteWaiter { lock, place }),
        None => None,
    }
}

impl<'a> Writer<'a> {
    // From F1: it queues for the wait lock.
    pub(crate) fn contend(&self, cpu: &mut Cpu) -> Option<WritePlace>
        requires { Stands self.now Began cpu.old }
        ensures { Turns self.now Began result cpu.old cpu.new }
    {
        let queue = Call {
            domain: self.domain,
            verb: Verb::Write,
            lock: LockName {
                index: self.lock.index,
                wait: true,
            },
        };
        match queue.begin(cpu) {
            Some(rest) => Some(WritePlace::Queues(rest)),
            None => self.enter(cpu),
        }
    }

    // From where it rests.
    pub(crate) fn turn(&self, cpu: &mut Cpu, place: WritePlace) -> Option<WritePlace>
        requires fits { Fits self.now place cpu.old }
        requires waits { Stands self.now (Resting place) cpu.old }
        ensures { Turns self.now (Resting place) result cpu.old cpu.new }
    {
        match place {
            WritePlace::Queues(rest) => self.go_on(cpu, rest),
            WritePlace::Watches => self.wait(cpu),
        }
    }

    // From where it rests in the queue of the wait lock.
    fn go_on(&self, cpu: &mut Cpu, rest: Rest) -> Option<WritePlace>
        requires fits { FitsQueue self.now rest cpu.old }
        requires waits { Stands self.now (InQueue rest) cpu.old }
        ensures { Turns self.now (InQueue rest) result cpu.old cpu.new }
    {
        let queue = Call {
            domain: self.domain,
            verb: Verb::Write,
            lock: LockName {
                index: self.lock.index,
                wait: true,
            },
        };
        match queue.turn(cpu, rest) {
            Some(rest) => Some(WritePlace::Queues(rest)),
            None => self.enter(cpu),
        }
    }

    // From Wr2: it has the wait lock.
    fn enter(&self, cpu: &mut Cpu) -> Option<WritePlace>
        requires { Stands self.now Looks cpu.old }
        ensures { Turns self.now Looks result cpu.old cpu.new }
    {
        if self.seize(cpu) {
            self.leave(cpu);
            return None;
        }
        self.announce(cpu);
        self.wait(cpu)
    }

    // From Wr5: once nobody is inside, it takes the lock.
    fn wait(&self, cpu: &mut Cpu) -> Option<WritePlace>
        requires { Stands self.now Watches cpu.old }
        ensures { Turns self.now Watches result cpu.old cpu.new }
    {
        if self.watch(cpu) {
            if self.claim(cpu) {
                self.leave(cpu);
                return None;
            }
            return Some(WritePlace::Watches);
        }
        Some(WritePlace::Watches)
    }

    // From U1: it has its lock, and frees the wait lock.
    fn leave(&self, cpu: &mut Cpu)
        requires domain { IsOf cpu.old self.now.domain.now }
        requires passed { (s : Start) × (told : Option ℕ) × Passed self.now s cpu.old told }
        ensures rest { KeepsRest cpu.old cpu.new }
        ensures came { (s : Start) (told : Option ℕ) → Passed self.now s cpu.old told
            → writer.Entered self.now s cpu.new told }
    {
        let queue = Call {
            domain: self.domain,
            verb: Verb::Write,
            lock: LockName {
                index: self.lock.index,
                wait: true,
            },
        };
        queue.release(cpu);
    }
}
