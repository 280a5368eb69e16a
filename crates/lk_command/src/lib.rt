//! The top call of the program. It does what the program's arguments ask, over a source and a
//! sink. It returns an exit status, and writes a line that says why if something is not done.
#![tactic(auto)]

mod auditing;
mod command;
mod exit;
mod jobs;
mod load;
mod notes;
mod spin_queue;
mod status;

pub use command::run;
pub use exit::answer;
pub use status::Status;
