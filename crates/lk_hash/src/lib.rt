//! The hash that tells a release which processor to kick: it maps each entered lock to a queue
//! node.
//!
//! It is a finite map from numbers to numbers, kept by open addressing with linear probing. It
//! takes all its memory when it is made.
#![tactic(auto)]

mod hash;
mod kept;
mod memory;
mod place;
mod probe;

pub use hash::LockHash;
pub use memory::Memory;
