//! The law on transcripts: what a replay writes, an auditor takes.
#![tactic(auto)]

mod laws;

pub use laws::{runs_are_read, transcripts_are_accepted};
