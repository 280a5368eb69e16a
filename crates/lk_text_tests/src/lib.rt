//! The tests of texts: lines, sources and sinks, the grammars of traces, runs, job files and words,
//! what is refused and where, and what is printed. The crate has nothing else.
#![tactic(auto)]

#[cfg(test)]
mod failed_io;
#[cfg(test)]
mod faults;
#[cfg(test)]
mod generated;
#[cfg(test)]
mod grammar;
#[cfg(test)]
mod headers;
#[cfg(test)]
mod job_files;
#[cfg(test)]
mod lines;
#[cfg(test)]
mod printed;
#[cfg(test)]
mod readings;
#[cfg(test)]
mod refusals;
#[cfg(test)]
mod sinks;
#[cfg(test)]
mod texts;
