//! The machine of a replay: the words of the locks, the queue nodes and the frames of the processors,
//! kept in packed words and a probed hash, with the calls that read and change them. It is shown as
//! the plain data on which the rows of `lk_rows` act.
#![tactic(auto)]

mod machine;

pub use machine::{CpuState, MAX_FRAMES, MAX_NODES, Machine, Shared};
