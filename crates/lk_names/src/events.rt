// What happens in a step, and what may be done to a machine.
ghost use Rattle.std.specs.Prelude.{◌≡◌};
ghost use Rattle.lk_names.specs.History.{lock_of, is_by_front};

use crate::list::List;
use crate::names::{LockName, Waiter};

/// How a spinlock was acquired: the last word of the event `take`.
#[derive(Clone, Copy, Debug, PartialEq, Eq)]
pub enum How {
    /// By the first compare-and-swap of a `lock`, on the fast path.
    Fast,
    /// By the compare-and-swap of a `try`.
    Try,
    /// By the waiter that had set the pending bit, when the holder before it released.
    Pending,
    /// By the test-and-set loop of mode `virt`.
    Virt,
    /// By the compare-and-swap that a waiter makes once more before it joins the queue.
    Retry,
    /// By a waiter whose processor had no queue node left. It polls the word and does not queue.
    NoNode,
    /// By a waiter in mode `pv` that acquires the free lock past its queue.
    Steal,
    /// By the queue head, in a step that leaves the tail in the word.
    Head,
    /// By the queue head, in the compare-and-swap that also empties the queue.
    Sole,
}

impl How {
    /// Whether only the queue head acquires so.
    pub fn is_by_front(self) -> bool
        ensures { result ≡ is_by_front self }
    {
        matches!(self, How::Head | How::Sole)
    }
}

/// How a reader-writer lock was acquired: the last word of the events `rtake` and `wtake`.
#[derive(Clone, Copy, Debug, PartialEq, Eq)]
pub enum RwHow {
    /// By the first step, on the fast path.
    Fast,
    /// By a reader in an interrupt, which waits for the writer and not for the queue.
    Irq,
    /// By the holder of the wait lock.
    Queued,
    /// By a `tryread` or a `trywrite`.
    Try,
}

/// What an event says.
#[derive(Clone, Copy, Debug, PartialEq, Eq)]
pub enum What {
    /// A waiter acquires a spinlock.
    Take {
        lock: LockName,
        how: How,
    },
    /// A try fails, on a lock of either kind.
    Miss {
        lock: LockName,
    },
    /// A waiter releases a spinlock. If `owing` names a processor, the release must also kick it.
    Release {
        lock: LockName,
        /// The processor that has a kick pending from this release on.
        owing: Option<u32>,
    },
    /// A processor is kicked.
    Kick {
        /// The processor that is kicked. The waiter of the event kicks it.
        cpu: u32,
    },
    /// A waiter joins the queue at its tail.
    Arrive {
        lock: LockName,
    },
    /// The queue head hands off to `to`. Before that it moved this many waiters to the secondary
    /// queue.
    Pass {
        lock: LockName,
        /// The waiter that is the queue head from here on.
        to: Waiter,
        /// How many waiters directly behind the old head are moved.
        moved: u32,
    },
    /// The secondary queue returns in front of the rest of the main queue.
    Flush {
        lock: LockName,
    },
    /// The secondary queue returns as the rest of the main queue, which was empty.
    Promote {
        lock: LockName,
    },
    /// The queue head, which holds the lock, leaves the queue and nobody stays in it.
    Leave {
        lock: LockName,
    },
    /// A processor halts while it waits for the lock.
    Halt {
        lock: LockName,
    },
    /// A kick ends a halt.
    Wake {
        lock: LockName,
    },
    /// An interrupt handler begins. If its processor had halted, the halt ends.
    Int,
    /// A halt ends without a kick: the hypervisor woke the processor for reasons of its own.
    Nudge,
    /// A reader acquires a reader-writer lock.
    RTake {
        lock: LockName,
        how: RwHow,
    },
    /// A reader releases a reader-writer lock.
    RRelease {
        lock: LockName,
    },
    /// A writer acquires a reader-writer lock.
    WTake {
        lock: LockName,
        how: RwHow,
    },
    /// A writer releases a reader-writer lock.
    WRelease {
        lock: LockName,
    },
}

impl What {
    /// The lock that the event names; none for `kick`, `int` and `nudge`.
    pub fn lock(self) -> Option<LockName>
        ensures { result ≡ lock_of self }
    {
        match self {
            What::Take { lock, .. }
            | What::Miss { lock }
            | What::Release { lock, .. }
            | What::Arrive { lock }
            | What::Pass { lock, .. }
            | What::Flush { lock }
            | What::Promote { lock }
            | What::Leave { lock }
            | What::Halt { lock }
            | What::Wake { lock }
            | What::RTake { lock, .. }
            | What::RRelease { lock }
            | What::WTake { lock, .. }
            | What::WRelease { lock } => Some(lock),
            What::Kick { .. } | What::Int | What::Nudge => None,
        }
    }
}

/// One event of a history: one line of a transcript without the number of its act.
#[derive(Clone, Copy, Debug, PartialEq, Eq)]
pub struct Event {
    /// The waiter that made the step.
    pub by: Waiter,
    /// What happened.
    pub what: What,
}

/// What one line of a schedule does to a machine. Each act names its processor.
#[derive(Clone, Copy, Debug, PartialEq, Eq)]
pub enum Act {
    /// The processor makes its next step.
    Step(u32),
    /// An interrupt comes to the processor.
    Interrupt(u32),
    /// The processor is preempted.
    Preempt(u32),
    /// The preempted processor goes on.
    Resume(u32),
    /// A halt of the processor ends without a kick.
    Nudge(u32),
}

/// The queues of one lock.
#[derive(Drop)]
pub struct Lists {
    /// The main queue, beginning with the queue head.
    pub main: List<Waiter>,
    /// The secondary queue: the waiters that were moved aside, the first moved first.
    pub second: List<Waiter>,
    /// For each waiter of the secondary queue, the number of handoffs since it was moved.
    pub passes: List<u32>,
}

/// Why a history with one more event is not lawful.
#[derive(Clone, Copy, Debug, PartialEq, Eq)]
pub enum Breach {
    /// A lock is acquired while it has a holder with which it cannot be shared.
    Beside {
        lock: LockName,
        /// The first of its holders, or a reader that acquires a lock which it holds already.
        held_by: Waiter,
        /// The waiter that acquires.
        by: Waiter,
    },
    /// A lock is released or handed off by a waiter that does not hold it in that manner.
    NotHolder {
        lock: LockName,
        /// The waiter of the event.
        by: Waiter,
    },
    /// A waiter that stands in a queue of the lock arrives, releases, or acquires in another way
    /// than a queue head does; or a waiter that holds the lock arrives.
    Twice {
        lock: LockName,
        /// The waiter of the event.
        by: Waiter,
    },
    /// A waiter that is not the queue head does what only the queue head may do.
    WrongHead {
        lock: LockName,
        /// The queue head, or `None` if the main queue is empty.
        first: Option<Waiter>,
        /// The waiter of the event.
        by: Waiter,
    },
    /// A handoff moves more waiters aside than is lawful.
    WrongMove {
        lock: LockName,
        /// How many waiters the handoff moves.
        moved: u32,
        /// How many it may move at most.
        lawful: u32,
    },
    /// A handoff goes to a waiter that is not the successor.
    WrongNext {
        lock: LockName,
        /// The successor: the first waiter behind the moved ones, or `None` if there is none.
        first: Option<Waiter>,
        /// The waiter to which the handoff goes.
        named: Waiter,
    },
    /// A moved waiter has been passed by more handoffs than the threshold.
    OverThreshold {
        lock: LockName,
        /// The moved waiter.
        waiter: Waiter,
        /// How many handoffs have passed it, the last one included.
        passes: u32,
    },
    /// The queue head of a free lock has halted, and its processor has no kick pending.
    NoKick {
        lock: LockName,
        /// The queue head.
        waiter: Waiter,
    },
}
