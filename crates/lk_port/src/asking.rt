// Whether a call of a port may begin, and looks, which change nothing.
ghost use Rattle.std.specs.Prelude.{◌≡◌, ◌≢◌, ◌<◌, None, Some, true, false, IfSome};
ghost use Rattle.lk_names.specs.declared.holder.Manner.TheVariants.{Reads, Writes};
ghost use Rattle.lk_names.specs.declared.names.Kind.TheVariants.{Rw, Spin};
ghost use Rattle.lk_domain.specs.Plans.{kind_at, locks_of};
ghost use Rattle.lk_port.specs.Asking.{MayCall, Refuses, domain_in, has, way};
ghost use Rattle.lk_port.specs.Shares.{may_halt};
ghost use Rattle.lk_port.specs.declared.answer.Answer.{Answer};

use crate::answer::Answer;
use crate::last::NEAR;
use crate::pending::Pending;
use crate::port::Port;
use lk_domain::LockId;
use lk_names::Kind;

impl Port {
    // Whether a call may begin on a spinlock that the processor holds, or does not, because the last call
    // tells it. A no says nothing. These tests are all that a thread meets that takes one lock and frees
    // it, time after time: an atomic operation waits until the tests before it are done, and what they load
    // waits for the atomic operation before.
    #[inline(always)]
    pub(crate) fn allows(&self, lock: LockId, held: bool) -> bool
        ensures may { result ≡ true → MayCall self.now Spin lock.index held }
        ensures last { result ≡ true → self.now.last ≡ lock.index }
    {
        lock.index < NEAR && lock.index == self.last && self.holds_last == held
    }

    // Why no call may begin on a lock of this kind that the processor holds, or does not, if there is
    // a reason.
    #[inline]
    pub(crate) fn refuses(&self, lock: LockId, kind: Kind, held: bool) -> Option<Answer>
        ensures may { result ≡ None → MayCall self.now kind lock.index held }
        ensures why { (a : Answer) → result ≡ Some a → Refuses self.now kind lock.index a }
    {
        if !matches!(self.pending, Pending::Free) {
            return Some(Answer::Pending);
        }
        if lock.index >= self.share.domain().locks() {
            return Some(Answer::NoLock);
        }
        if !self.is_of(lock, kind) {
            return Some(Answer::WrongKind);
        }
        let holds = self.has(lock);
        if holds && !held {
            return Some(Answer::Held);
        }
        if held && !holds {
            return Some(Answer::NotHeld);
        }
        None
    }

    // Whether a lock of its domain is of this kind. Where waiters halt all are spinlocks.
    #[inline]
    fn is_of(&self, lock: LockId, kind: Kind) -> bool
        requires { lock.index < locks_of (domain_in self.now).plan }
        ensures is { result ≡ true → kind_at (domain_in self.now).plan lock.index ≡ kind }
        ensures other { result ≡ false → kind_at (domain_in self.now).plan lock.index ≢ kind }
    {
        if self.share.halts() {
            return kind == Kind::Spin;
        }
        self.share.domain().kind(lock) == kind
    }

    // Whether it holds a lock of its domain.
    #[inline]
    fn has(&self, lock: LockId) -> bool
        requires { lock.index < locks_of (domain_in self.now).plan }
        ensures { result ≡ has self.now lock.index }
    {
        if self.share.halts() {
            self.stands();
            return *self.notes.get(lock.index as usize);
        }
        self.cpu.holds(lock)
    }

    // Whether it is the writer of a reader-writer lock that it is in.
    pub(crate) fn is_writing(&self, lock: LockId) -> bool
        requires may { MayCall self.now Rw lock.index true }
        ensures writes { result ≡ true → way self.now lock.index ≡ Some Writes }
        ensures reads { result ≡ false → way self.now lock.index ≡ Some Reads }
    {
        self.runs();
        *self.notes.get(lock.index as usize)
    }

    /// Whether its family's waiters halt.
    #[inline]
    pub fn may_halt(&self) -> bool
        ensures { result ≡ may_halt self.now.share }
    {
        self.share.halts()
    }

    /// Whether it holds no lock, and no call of it waits.
    pub fn is_idle(&self) -> bool {
        if !matches!(self.pending, Pending::Free) {
            return false;
        }
        for index in 0..self.share.domain().locks() {
            if self.has(LockId { index }) {
                return false;
            }
        }
        true
    }

    /// Whether it holds the lock, in any manner; `None` where the domain has no such lock.
    pub fn holds(&self, lock: LockId) -> Option<bool>
        ensures { IfSome result (λ yes. yes ≡ has self.now lock.index) }
    {
        if lock.index >= self.share.domain().locks() {
            return None;
        }
        Some(self.has(lock))
    }

    /// Whether somebody holds the lock; `None` where the domain has no such lock. It may have changed
    /// when this returns. No clause says what this tells: tests do.
    pub fn is_locked(&self, lock: LockId) -> Option<bool> {
        let domain = self.share.domain();
        if lock.index >= domain.locks() {
            return None;
        }
        Some(domain.is_locked(lock))
    }

    /// Whether somebody waits for the lock; `None` where the domain has no such lock. In `virt` those
    /// who wait for a spinlock leave no mark in its word, and this is false. It may have changed when
    /// this returns. No clause says what this tells: tests do.
    pub fn is_contended(&self, lock: LockId) -> Option<bool> {
        let domain = self.share.domain();
        if lock.index >= domain.locks() {
            return None;
        }
        Some(domain.is_contended(lock))
    }

    /// Whether a kick of the processor is remembered: where its call has halted, the next poll goes on. Of a
    /// family whose waiters run nobody is kicked. It may have changed when this returns. No clause says
    /// what this tells: tests do.
    pub fn is_kicked(&self) -> bool {
        self.share.halts() && self.share.halting().is_kicked(self.cpu.number())
    }
}
