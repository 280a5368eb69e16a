//! Renamings of processors. Processors are *alike* if they have the same programs and handlers and
//! stand on the same socket. If a renaming lets only those that are alike change places, a machine
//! and the same machine renamed go on as one: the renamed act leaves the renamed machine, and tells
//! the renamed event. So the schedules of a setup may be told up to such a renaming.
#![tactic(auto)]

mod laws;

pub use laws::{alike_stays_alike, renamed_goes_on, renamings_compose, schedules_run_renamed};
