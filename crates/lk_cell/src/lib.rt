//! A value in place, which its key alone reaches.
//!
//! A [`KeyCell`] has a value, and is made with its key. The key has no bytes and names no type of
//! value, so that it can lie wherever a proof says who may have it, as in a slot of another table. Who
//! has it works on the value in place, through a `&` to the cell.
#![tactic(auto)]

mod cell;
mod fits;
mod rule;
#[cfg(test)]
mod tests;

pub use cell::{Key, KeyCell};
pub use fits::{Any, Fits};
