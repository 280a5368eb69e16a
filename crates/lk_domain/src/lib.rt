//! Locks for threads over one table of atomic words, values under them, and a ledger that they guard.
//!
//! A domain has three parts over its table: its locks, its ledger, and the values under its locks. Each
//! part has the steps on its own words, and knows nothing of the other two. What all three stand on is
//! beside them: the plan, the rule of the table, processors, how a domain is made and how it ends.
#![tactic(auto)]

mod cpu;
mod domain;
mod ending;
mod free_turns;
mod ledger;
mod locks;
mod looking;
mod making;
pub mod met;
mod notes;
mod part;
mod place;
mod plan;
mod rule;
mod showing;
mod slot;
pub mod values;
mod view;

pub use cpu::{Cpu, Right};
pub use domain::{Domain, HasDomain, LockId};
pub use ending::{CloseBack, Closed, close};
pub use free_turns::{Waiting, turn, work_held};
pub use ledger::{Journal, journal_home, journal_out, load, steps as ledger_steps, store, version};
pub use locks::{moves, node_moves, steps};
pub use making::{opening_slots, opening_words};
pub use part::{Link, Part};
pub use place::{KICK_WORDS, NODES};
pub use plan::{MOST_CPUS, MOST_LOCKS, Plan};
pub use rule::{Deal, Draw, Order, WordSteps};
pub use slot::{Slot, Stowed};
pub use values::{bring_home, take_out, with_copy, with_key};
pub use view::View;
