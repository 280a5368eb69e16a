//! The command `osq`: it reads a run of the optimistic spin queue line by line, and writes the
//! history of the run.
#![tactic(auto)]

mod replay;
mod run;
mod script;

pub use replay::osq;
