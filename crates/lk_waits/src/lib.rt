//! Who waits for whom: no deadlock of a world whose locks have ranks, and what every row keeps of
//! queue heads.
#![tactic(auto)]

mod laws;

pub use laws::{no_deadlock, successors_come};
