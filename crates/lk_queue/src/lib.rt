//! The rows of the queue, and of a waiter without a node. Each row is proved to be the row that
//! `lk_rows` defines.
//!
//! The rows are steps of Linux's `queued_spin_lock_slowpath` from its label `queue` on. A word is
//! written as its tail, its pending bit and its locked byte, as in `n,0,0`. No tail is 0, and `*`
//! is any value.
#![tactic(auto, using(lk_machine::proofs::Kept::kept))]

mod arrive;
mod front;
mod row;

pub use row::queue_row;
