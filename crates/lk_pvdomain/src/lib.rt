//! The paravirtual lock for threads. Each thread has a processor of a domain. A waiter spins for a
//! while, and then halts until it is kicked. This is Linux's `qspinlock_paravirt.h`.
//!
//! A call that waits makes turns: rows up to a look that decides nothing, or up to a halt, where it
//! rests as a plain value. `pv_lock` makes turns until it has the lock. `pv_begin` and `pv_poll`
//! leave it to the caller when to make them, and how a halted processor sleeps.
#![tactic(auto)]

mod arriving;
mod call;
mod calls;
mod domain;
mod ending;
mod exchanges;
mod freeing;
pub mod halting;
mod handing;
mod hash;
mod kicks;
mod laws;
mod layout;
mod leading;
mod making;
mod nodes;
mod pacing;
mod plan;
mod polled;
mod rest;
mod rule;
mod slowpath;
mod states;
mod tries;
mod waiter;
mod waiting;
mod words;

pub use calls::{pv_lock, pv_try_lock, pv_try_unlock, pv_unlock};
pub use domain::{PvCpu, PvDomain};
pub use ending::{PvBack, PvClosed, pv_close};
pub use freeing::PvRelease;
pub use laws::{entries_are_found, fronts_are_kicked};
// The calls on the words of the ledger are those of each family.
pub use lk_domain::{
    journal_home as pv_journal_home, journal_out as pv_journal_out, load as pv_load,
    store as pv_store, version as pv_version,
};
pub use plan::PvPlan;
pub use polled::{pv_begin, pv_poll, pv_settle};
pub use waiter::{PvTurn, PvWaiter};
