//! Values under locks: who may have one out.
//!
//! A table of `atomic_table` may have a slot for each of its locks, behind its own, in which the
//! value of the lock lies. Its rule then says that the values are guarded (`specs/Guarded.antt`): the
//! value of each lock is at home, or out with a seat that holds the lock alone. What a lock is, and by
//! which view a seat holds one, the table's rule says (`Rights`). A domain has a slot for each home of a
//! value: a lock has one of its own, and may have one for each processor. Each home is a lock here, which
//! a seat holds alone where nobody else may reach the home.
//!
//! The laws here are clauses of functions that do nothing. A rule that has values as a part of it
//! cites them for each of its steps.
#![tactic(auto)]

mod laws;
mod rights;

pub use laws::{
    holders_find, idle_values_are_home, new_seats_keep, one_seat_has_a_value, returns_keep,
    steps_keep, takings_keep,
};
pub use rights::Rights;
