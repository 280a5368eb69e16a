// What a line behind `go` tells, and the names of breaches.
ghost use Rattle.std.specs.Prelude.{◌≡◌};
ghost use Rattle.lk_audit_forms.specs.Texts.{name_of};

use lk_names::{Breach, Event};

/// What an accepted line after `go` tells.
#[derive(Clone, Copy, Debug, PartialEq, Eq)]
pub enum Told {
    /// An event. `act` is the number of its act.
    Event { act: u64, event: Event },
    /// The end of the history: the line is `end`.
    End,
    /// A count, which the audit does not judge.
    Count,
}

/// The name of the clause of the laws that an event breaks. The judge's `Breach` also says whom it
/// concerns.
#[derive(Clone, Copy, Debug, PartialEq, Eq)]
pub enum BreachName {
    /// A lock is acquired while it has a holder with which it cannot be shared.
    Beside,
    /// A lock is released or handed off by a waiter that does not hold it in that manner.
    NotHolder,
    /// A waiter that stands in a queue of the lock arrives, releases, or acquires in another way
    /// than a queue head does; or a waiter that holds the lock arrives.
    Twice,
    /// A waiter that is not the queue head does what only the queue head may do.
    WrongHead,
    /// A handoff moves more waiters aside than is lawful.
    WrongMove,
    /// A handoff goes to a waiter that is not the successor.
    WrongNext,
    /// A moved waiter has been passed by more handoffs than the threshold.
    OverThreshold,
    /// The queue head of a free lock has halted, and its processor has no kick pending.
    NoKick,
}

impl BreachName {
    /// The name of a breach.
    pub fn of(breach: &Breach) -> BreachName
        ensures { result ≡ name_of breach.now }
    {
        match *breach {
            Breach::Beside { .. } => BreachName::Beside,
            Breach::NotHolder { .. } => BreachName::NotHolder,
            Breach::Twice { .. } => BreachName::Twice,
            Breach::WrongHead { .. } => BreachName::WrongHead,
            Breach::WrongMove { .. } => BreachName::WrongMove,
            Breach::WrongNext { .. } => BreachName::WrongNext,
            Breach::OverThreshold { .. } => BreachName::OverThreshold,
            Breach::NoKick { .. } => BreachName::NoKick,
        }
    }
}
