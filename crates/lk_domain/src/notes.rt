// What a processor notes of its calls and its locks.
ghost use Rattle.std.specs.Prelude.{◌≡◌, ◌<◌, ◌≤◌, ◌+◌, ◌∷◌, ℕ, IfOk, List as Row, length};
ghost use Rattle.std.specs.Prelude.{false, slice_index_or, slice_set};
ghost use Rattle.lk_domain.specs.Calls.{Calls, Running, no_calls, holds_in, waits_in, slow_in};
ghost use Rattle.lk_domain.specs.Marked.{AreOrdered, CanStep, HasBegun, HasFreed, HasStepped};
ghost use Rattle.lk_domain.specs.Marked.{IsNoted, first_standing, upto, with_mark};
ghost use Rattle.lk_domain.specs.declared.notes.TheConstants.{NEAR};
ghost use Rattle.lk_domain.specs.declared.plan.TheConstants.{MOST_LOCKS};

use lk_names::{List, Memory};
use std::alloc::Global;

// The bytes of a line of the cache.
const LINE: usize = 64;

// How many locks have their marks in the processor itself.
const NEAR: usize = 32;

// What a processor notes of its calls and its locks, where its steps read it. What waits is noted by
// the calls, of which there are six at most. What it holds may be any set of the domain's locks, and a
// call that takes one more asks for no memory, so there is a mark for each lock. Those of the first
// locks lie in the processor itself, so a step at one of them loads no pointer.
#[derive(Drop)]
pub(crate) struct Notes {
    // how many of its calls wait, and how many of these are in the slow path
    pub(crate) depth: u32,
    pub(crate) queued: u32,
    // for which lock each of them waits, and whether in the slow path, the oldest first
    pub(crate) order: [u32; 6],
    pub(crate) slow: [bool; 6],
    // of each of the domain's first locks, whether it holds it
    pub(crate) near: [bool; NEAR],
    // how many locks the domain has
    pub(crate) locks: u32,
    // of each lock behind the first ones, whether it holds it
    pub(crate) far: List<bool>,
    // A line of the cache that nothing uses. Processors may lie side by side in a list, and what one of
    // them stores in the fields before this is in no line that another reads.
    line: [u64; 8],
}

// How the call for a lock stands after a row: whether it waits, whether it does so in the slow
// path, and whether the row took the lock.
#[derive(Clone, Copy)]
pub(crate) struct Standing {
    pub(crate) waits: bool,
    pub(crate) slow: bool,
    pub(crate) taken: bool,
}

// How many marks a processor has behind a pointer, in a domain of so many locks. Where there are any,
// the last ones are of no lock, and fill a line of the cache. A processor stores in its marks where it
// takes a lock and where it frees one, and the marks of two processors in one line would make each of
// these stores wait for the other processor.
fn far_marks(locks: usize) -> usize
    requires few { locks ≤ MOST_LOCKS }
    ensures enough { locks ≤ NEAR + result }
{
    if locks <= NEAR {
        return 0;
    }
    locks - NEAR + LINE
}

impl Notes {
    // Of a processor that has done nothing, in a domain of so many locks.
    //
    // # Errors
    //
    // There is not enough memory.
    pub(crate) fn new(alloc: Global, locks: usize) -> Result<Notes, Memory>
        requires few { locks ≤ MOST_LOCKS }
        ensures { IfOk result (λ notes. IsNoted notes locks no_calls) }
    {
        Ok(Notes {
            depth: 0,
            queued: 0,
            order: [0; 6],
            slow: [false; 6],
            near: [false; NEAR],
            locks: locks as u32,
            far: List::filled(alloc, false, far_marks(locks))?,
            line: [0; 8],
        })
    }

    // How many locks there are.
    pub(crate) fn locks(&self) -> u32
        ensures { (many : ℕ) (c : Calls) → IsNoted self.now many c → result ≡ many }
    {
        self.locks
    }

    // Whether it holds the lock.
    #[inline]
    pub(crate) fn holds(&self, lock: u32) -> bool
        ensures { (many : ℕ) (c : Calls) → IsNoted self.now many c
            → result ≡ holds_in c.holds lock }
    {
        let index = lock as usize;
        if index < NEAR {
            return self.near[index];
        }
        self.holds_far(index - NEAR)
    }

    // Whether it holds the lock that is so many behind the first ones. It stays out of the calls that
    // ask of a lock, which are short.
    #[cold]
    #[inline(never)]
    fn holds_far(&self, past: usize) -> bool
        ensures { result ≡ slice_index_or self.now.far.items past false }
    {
        past < self.far.len() && *self.far.get(past)
    }

    // Notes whether it holds the lock.
    #[inline]
    fn mark(&mut self, lock: u32, held: bool)
        requires there { lock < NEAR + length self.old.far.items }
        ensures { self.new ≡ with_mark self.old lock held }
    {
        let index = lock as usize;
        if index < NEAR {
            self.near[index] = held;
        } else {
            self.mark_far(index - NEAR, held);
        }
    }

    // Notes whether it holds the lock that is so many behind the first ones.
    #[cold]
    #[inline(never)]
    fn mark_far(&mut self, past: usize, held: bool)
        requires there { past < length self.old.far.items }
        ensures { self.new ≡ record self.old {
          far = record self.old.far {
            items = slice_set self.old.far.items past held;
          };
        } }
    {
        *self.far.get_mut(past) = held;
    }

    // How many there are of so many of its calls, from the oldest up to the newest one for the lock;
    // 0 where none of them waits for it.
    fn upto(&self, depth: u32, lock: u32) -> u32
        requires few { depth ≤ 6 }
        ensures upto { (many : ℕ) (rs : Row Running)
            → AreOrdered self.now.order self.now.slow many rs → length rs ≡ depth
            → result ≡ upto rs lock }
        ensures low { result ≤ depth }
    {
        if depth == 0 {
            return 0;
        }
        if self.order[depth as usize - 1] == lock {
            return depth;
        }
        self.upto(depth - 1, lock)
    }

    // Whether a call waits for the lock.
    #[inline]
    pub(crate) fn waits(&self, lock: u32) -> bool
        requires some { (many : ℕ) × (c : Calls) × IsNoted self.now many c }
        ensures { (many : ℕ) (c : Calls) → IsNoted self.now many c
            → result ≡ waits_in c.frames lock }
    {
        self.upto(self.depth, lock) != 0
    }

    // Whether a call waits for it in the slow path.
    #[inline]
    pub(crate) fn is_slow(&self, lock: u32) -> bool
        requires some { (many : ℕ) × (c : Calls) × IsNoted self.now many c }
        ensures { (many : ℕ) (c : Calls) → IsNoted self.now many c
            → result ≡ slow_in c.frames lock }
    {
        let upto = self.upto(self.depth, lock);
        upto != 0 && self.slow[upto as usize - 1]
    }

    // The lock for which the newest call waits.
    pub(crate) fn newest(&self) -> u32
        requires some { (many : ℕ) × (c : Calls) × IsNoted self.now many c × (0 < length c.frames) }
        ensures { (many : ℕ) (c : Calls) (r : Running) (rs : Row Running) → IsNoted self.now many c
            → c.frames ≡ r ∷ rs → result ≡ r.frame.lock.index }
    {
        self.order[self.depth as usize - 1]
    }

    // The call for the lock has made a row. One that waits on as it waited has nothing to note, as
    // most rows of a call that queues; and one that neither waited nor waits only that it took the
    // lock.
    #[inline]
    pub(crate) fn step(&mut self, lock: u32, after: Standing)
        requires steps { CanStep self.old lock after }
        ensures { HasStepped self.old self.new lock after }
    {
        let Standing { waits, slow, taken } = after;
        let waited = self.waits(lock);
        if waits && waited && self.is_slow(lock) == slow && !taken {
            return;
        }
        if waits | waited {
            self.step_waiting(lock, after);
        } else if taken {
            self.mark(lock, true);
        }
    }

    // A new call for the lock, for which none waited, has made its first row: it has taken the lock,
    // or it waits, and not yet in the slow path. Where it has one of the first locks nothing is read,
    // and where it has another one only the place of the marks: a load would wait for the exchange.
    #[inline]
    pub(crate) fn first_step(&mut self, lock: u32, taken: bool)
        requires steps { CanStep self.old lock (first_standing taken) }
        ensures { HasBegun self.old self.new lock taken }
    {
        if taken {
            self.mark(lock, true);
        } else {
            let waits = Standing {
                waits: true,
                slow: false,
                taken: false,
            };
            self.step_waiting(lock, waits);
        }
    }

    // The call for the lock, which waited or waits, has made a row.
    #[cold]
    #[inline(never)]
    fn step_waiting(&mut self, lock: u32, after: Standing)
        requires steps { CanStep self.old lock after }
        ensures { HasStepped self.old self.new lock after }
    {
        let Standing { waits, slow, taken } = after;
        let waited = self.waits(lock);
        let slowly = self.is_slow(lock);
        let others = self.depth - u32::from(waited);
        self.queued = self.queued - u32::from(slowly) + u32::from(slow);
        self.order[others as usize] = lock;
        self.slow[others as usize] = slow;
        self.depth = others + u32::from(waits);
        if taken {
            self.mark(lock, true);
        }
    }

    // The processor has freed a lock.
    #[inline]
    pub(crate) fn free(&mut self, lock: u32)
        requires { (many : ℕ) × (c : Calls) × IsNoted self.old many c × (lock < many) }
        ensures { HasFreed self.old self.new lock }
    {
        self.mark(lock, false);
    }
}
