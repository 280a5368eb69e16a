//! The steps on the words of locks and of queue nodes: each is a row.
//!
//! Callers use [`steps`]. Below it, a step of a lock's word is in `moves`, a step of a node in
//! `node_moves`, and a step of a reader-writer lock's word in `rw_moves`.

mod choice_steps;
pub mod moves;
pub mod node_moves;
mod queue_steps;
pub(crate) mod rw_moves;
mod rw_steps;
pub mod steps;
mod verbs;
