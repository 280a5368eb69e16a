//! Progress: no schedule of an ordered setup comes to a deadlock.
#![tactic(auto)]

mod laws;

pub use laws::{
    fair_runs_finish, operations_are_short, ordered_runs_go_on, takes_are_in_turn,
    takes_before_are_few,
};
