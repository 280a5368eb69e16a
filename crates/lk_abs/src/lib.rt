//! The judge of histories: one event at a time it tells whether the history is still lawful, and else
//! which clause of the laws the event breaks.
#![tactic(auto)]

mod judge;
mod kick_record;
mod laws;
mod lock_record;
mod queues;
mod rulebook;

pub use judge::Judge;
pub use laws::{aside_are_tasks, judge_is_exact};
