//! The tests of calls that are polled: what no clause says of them, since none says when a call that
//! waits gets its lock.
#![tactic(auto)]

#[cfg(test)]
mod locking;
#[cfg(test)]
mod reading;
#[cfg(test)]
mod stage;
#[cfg(test)]
mod writing;
