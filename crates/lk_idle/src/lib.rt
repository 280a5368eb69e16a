//! What nobody reads before it is written: dead registers of frames, and queue nodes that no frame
//! has. A register *lives* while a row may still read what is in it. Two sound machines that differ
//! in nothing else go on alike: the same acts tell the same events, count the same, and leave two
//! machines that are alike.
#![tactic(auto)]

mod laws;
mod lives;

pub use laws::alike_goes_on;
pub use lives::{Lives, rested};
