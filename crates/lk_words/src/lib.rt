//! The words after the program's name, and the command that they ask for.
#![tactic(auto)]

mod asked;
mod command;
mod words;

pub use asked::Reading;
pub use words::reading;
