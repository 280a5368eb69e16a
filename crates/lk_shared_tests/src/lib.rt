//! The tests of values that many read at once, of their copies, and of what is seen of a lock while
//! it is held: what no clause says of them. They stand beside the tests of all other values, so that
//! neither waits for the other.
#![tactic(auto)]

#[cfg(test)]
mod holds;
#[cfg(test)]
mod looks;
#[cfg(test)]
mod shared_values;
#[cfg(test)]
mod updates;
