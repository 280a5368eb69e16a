//! The tests of machines, histories and judges: lists, words, the hash and the machine; what the
//! judge and an audit answer to histories; worked traces and runs, replayed. The crate has nothing
//! else.
#![tactic(auto)]

#[cfg(test)]
mod audits;
#[cfg(test)]
mod breaches;
#[cfg(test)]
mod events;
#[cfg(test)]
mod hashes;
#[cfg(test)]
mod histories;
#[cfg(test)]
mod judging;
#[cfg(test)]
mod ledger;
#[cfg(test)]
mod lists;
#[cfg(test)]
mod machine;
#[cfg(test)]
mod runs;
#[cfg(test)]
mod slowed;
#[cfg(test)]
mod stages;
#[cfg(test)]
mod traces;
#[cfg(test)]
mod transcripts;
#[cfg(test)]
mod words;
