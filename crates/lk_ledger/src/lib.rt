//! The command `ledger`: it reads a job file to its end, runs the jobs on threads, and writes
//! their outcome.
#![tactic(auto)]

mod job_file;
mod outcome_text;
mod run;
mod script;

pub use job_file::read_jobs;
pub use outcome_text::write_outcome;
pub use run::ledger;
