//! The words of the ledger: its steps, and its journal.
//!
//! [`steps`] has the steps of a seat, of which the calls of all lock families are made. In `pages` are
//! those of a processor that holds lock 0.

mod journal;
mod pages;
pub mod steps;

pub use journal::Journal;
pub use pages::{journal_home, journal_out, load, store, version};
