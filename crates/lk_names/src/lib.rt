//! What every other crate speaks of: names of locks and waiters, events, acts, lists, and the jobs of
//! the ledger. Its `specs/` say what a history of events tells of each lock, when a history is
//! lawful, and which outcomes a job file may have.
#![tactic(auto)]

mod balances;
mod events;
mod holder;
mod job_file;
mod ledger;
mod limits;
mod list;
mod memory;
mod names;

pub use balances::apply;
pub use events::{Act, Breach, Event, How, Lists, RwHow, What};
pub use holder::{Holder, Manner};
pub use job_file::JobFile;
pub use ledger::{Entry, Job, Reply, Seen};
pub use limits::{MAX_ACCOUNTS, MAX_AMOUNT, MAX_JOBS, MAX_SOCKET, MAX_TURNS, MAX_WORKERS};
pub use list::List;
pub use memory::Memory;
pub use names::{Format, Kind, LockName, Mode, Topology, Waiter};
