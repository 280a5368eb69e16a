//! Workers on threads over one ledger. Each worker does one list of a job file's jobs.
#![tactic(auto)]

mod counts;
mod ended;
mod host;
mod making;
mod running;
mod worker;

pub use ended::Ended;
pub use running::{Outcome, run_jobs};
