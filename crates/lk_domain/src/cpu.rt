// A processor: the right to step in a domain.
ghost use Rattle.std.specs.Prelude.{◌≡◌, Some, false, true, length};
ghost use Rattle.lk_domain.specs.Calls.{slows, holds_in, waits_in, are_calls};
ghost use Rattle.lk_domain.specs.Marked.{IsNoted};
ghost use Rattle.lk_domain.specs.Plans.{locks_of};
ghost use Rattle.lk_domain.specs.Plays.{carried_of};
ghost use Rattle.lk_law.specs.Agree.{halts};

use crate::domain::LockId;
use crate::notes::Notes;
use crate::slot::Slot;
use crate::view::View;
use atomic_table::Seat;

/// A seat: the right to step in a domain's table.
pub type Right = Seat<Slot, View>;

/// A processor of a domain. The thread that has it may step in the domain. What it waits for and what
/// it holds is noted where the lock family halts no waiter.
#[derive(Drop)]
pub struct Cpu {
    pub(crate) number: u32,
    pub(crate) notes: Notes,
    /// Its seat. A step of the ledger takes the seat, and leaves a seat of the same processor.
    pub seat: Right,
    ghost numbered: { seat.me.0.who.number ≡ Some number },
    ghost noted: { halts seat.me.0.who.plan.mode ≡ false
        → IsNoted notes (locks_of seat.me.0.who.plan) seat.me.0.calls },
    ghost apart: { halts seat.me.0.who.plan.mode ≡ false
        → are_calls seat.me.0.calls.frames ≡ true },
    ghost carried: { seat.me.1 ≡ carried_of seat.me.0 },
}

impl Cpu {
    /// Its number, counted from 0.
    pub fn number(&self) -> u32
        ensures { result ≡ self.now.number }
    {
        self.number
    }

    /// The number of locks of its domain.
    pub fn locks(&self) -> u32
        requires awake { halts self.now.seat.me.0.who.plan.mode ≡ false }
        ensures { result ≡ locks_of self.now.seat.me.0.who.plan }
    {
        self.notes.locks()
    }

    /// The number of its calls that wait for a lock: that of the task, and those of its nested
    /// interrupt handlers.
    pub fn depth(&self) -> u32
        requires awake { halts self.now.seat.me.0.who.plan.mode ≡ false }
        ensures { result ≡ length self.now.seat.me.0.calls.frames }
    {
        self.notes.depth
    }

    /// The number of these calls that are in the slow path. It is also the index of the node that
    /// the next of them gets.
    pub fn queued(&self) -> u32
        requires awake { halts self.now.seat.me.0.who.plan.mode ≡ false }
        ensures { result ≡ slows self.now.seat.me.0.calls.frames }
    {
        self.notes.queued
    }

    /// Whether it holds the lock, in any manner. A lock that no domain has is not held.
    pub fn holds(&self, lock: LockId) -> bool
        requires awake { halts self.now.seat.me.0.who.plan.mode ≡ false }
        ensures { result ≡ holds_in self.now.seat.me.0.calls.holds lock.index }
    {
        self.notes.holds(lock.index)
    }

    /// Whether one of its calls waits for the lock. No call waits for a lock that no domain has.
    pub fn waits(&self, lock: LockId) -> bool
        requires awake { halts self.now.seat.me.0.who.plan.mode ≡ false }
        ensures { result ≡ waits_in self.now.seat.me.0.calls.frames lock.index }
    {
        self.notes.waits(lock.index)
    }
}
