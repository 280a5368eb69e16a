//! The rows as data: each is one atomic step of a lock, and stands once, in `specs/`, with the world
//! on which it acts. In code the crate has what rows speak of: their labels, frames and nodes, the
//! operations of a program and the setup of a run, and where a row leads by what it met.
#![tactic(auto)]

mod family;
mod parts;
mod search;
mod setup;
mod word;

pub use family::Family;
pub use parts::{Counts, Flag, Frame, Node, Pc, State, Why};
pub use search::{First, More, flag_for};
pub use setup::{Op, Setup, Verb};
pub use word::{
    HELD, after_fast, after_look, after_pending, is_free, is_held, is_last, is_sole, is_tail,
    is_unlocked, named, to_queue,
};
