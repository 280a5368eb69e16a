// Looks that are no row of a call: whether a lock is held, and whether somebody waits for it. They need no
// processor, so that whoever has the domain may look.
ghost use Rattle.std.specs.Prelude.{◌<◌};
ghost use Rattle.lk_domain.specs.Plans.{locks_of};

use crate::domain::{Domain, LockId};
use lk_names::Kind;
use lk_word::{PENDING, READER, low_byte};

impl Domain {
    /// Whether somebody holds a lock: one look at its word (`queued_spin_is_locked`). Of a reader-writer
    /// lock a reader holds it too.
    ///
    /// It may have changed when this returns. No clause says what this tells: tests do.
    pub fn is_locked(&self, lock: LockId) -> bool
        requires { lock.index < locks_of self.now.plan }
    {
        let word = self.table.shared.peek(self.plan.lock_word(lock.index));
        match self.kind(lock) {
            Kind::Spin => low_byte(word) != 0,
            Kind::Rw => low_byte(word) != 0 || word >= READER,
        }
    }

    /// Whether somebody waits for a lock: one look (`queued_spin_is_contended`). Of a spinlock it tells
    /// that somebody pends or queues. In `virt` waiters leave no mark in the word of a spinlock, and it is
    /// always false. Of a reader-writer lock it tells that somebody has its wait lock.
    ///
    /// It may have changed when this returns. No clause says what this tells: tests do.
    pub fn is_contended(&self, lock: LockId) -> bool
        requires { lock.index < locks_of self.now.plan }
    {
        let shared = &self.table.shared;
        let word = self.plan.lock_word(lock.index);
        match self.kind(lock) {
            Kind::Spin => shared.peek(word) >= PENDING,
            Kind::Rw => low_byte(shared.peek(word + 1)) != 0,
        }
    }
}
