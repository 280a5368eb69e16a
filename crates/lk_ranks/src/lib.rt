//! Locks with ranks: what lockdep finds while a kernel runs, a check finds here before a program runs.
//!
//! [`Ranks`] makes locks as `Locks` of `lk_lock` does, and each has a *rank*: its number in the order of
//! making. A call that waits asks that the lock ranks above each lock which the processor holds or
//! waits for. A program that knows its order proves that; one that does not know it asks [`is_above`].
//! A try never waits, so it asks only that the processor does not hold the lock.
//!
//! So a domain goes on whose locks are taken by these calls: `standing_domains_go_on` of `lk_domain_law`.
#![tactic(auto)]

mod order;
mod ranks;
mod rw;
mod shared;
mod showing;
mod spin;

pub use order::is_above;
pub use ranks::Ranks;
pub use rw::RankedRw;
pub use shared::RankedShared;
pub use spin::RankedSpin;
