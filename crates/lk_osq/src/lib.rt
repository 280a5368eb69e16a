//! The optimistic spin queue (Linux's `kernel/locking/osq_lock.c`), whose waiters may give up: its
//! machine, and the laws of every history of it.
#![tactic(auto)]

mod events;
mod laws;
mod lock;
mod machine;
mod next;
mod nodes;
mod outcomes;
mod places;
mod quit;
mod unlock;

pub use events::{OsqEvent, OsqWhat};
pub use laws::{acts_keep, rest_shows, runs_in_parts, runs_keep};
pub use machine::OsqMachine;
pub use nodes::{Cpu, Node};
pub use outcomes::{Lead, Outcome, Store};
pub use places::Place;
