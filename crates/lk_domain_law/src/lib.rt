//! The law of waits on running locks: a domain whose calls are in order goes on.
#![tactic(auto)]

mod laws;

pub use laws::{no_circle, order_is_kept, standing_domains_go_on};
