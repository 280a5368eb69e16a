//! The rows on the word of a spinlock that need no queue: the fast path, the try, the test-and-set
//! loop, the pending path, and the release. Each row is proved to be the row that `lk_rows`
//! defines.
//!
//! The rows are steps of Linux's `queued_spin_lock`, `queued_spin_trylock` and
//! `queued_spin_unlock`, of `queued_spin_lock_slowpath` up to its queue, and of `virt_spin_lock`.
//! A word is written as its tail, its pending bit and its locked byte, as in `t,1,0`. No tail is
//! 0.
#![tactic(auto, using(lk_machine::proofs::Kept::kept))]

mod fast;
mod pending;
mod row;

pub use row::spin_row;
