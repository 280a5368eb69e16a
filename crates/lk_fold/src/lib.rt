//! Fewer states are enough: a set of states that stands for all, up to the numbers of processors
//! that are alike and to what nobody reads.
#![tactic(auto)]

mod laws;

pub use laws::small_space_is_enough;
