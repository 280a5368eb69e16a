//! The tests of the program's calls: what its arguments ask for, its statuses, texts and notes, and
//! the jobs of a file on threads. The crate has nothing else.
#![tactic(auto)]

#[cfg(test)]
mod command;
#[cfg(test)]
mod full_sinks;
#[cfg(test)]
mod generated;
#[cfg(test)]
mod ledger_runs;
#[cfg(test)]
mod workers;
