//! The tests of values that one caller at a time works on, under spinlocks and for writers: what no
//! clause says of them. They stand beside the edits of `lk_lock`, so that neither waits for the
//! other, and those of shared values stand beside them, in `lk_shared_tests`.
#![tactic(auto)]

#[cfg(test)]
mod counts;
#[cfg(test)]
mod families;
mod processors;
#[cfg(test)]
mod tries;
#[cfg(test)]
mod values;

pub use processors::last;
