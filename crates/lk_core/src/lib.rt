//! Acts: what each line of a schedule does to a machine. Each act is proved to be the act that
//! `lk_rows` defines. It leaves the machine sound and its history lawful.
#![tactic(auto)]

mod acts;
mod laws;

pub use acts::act;
pub use laws::{acts_change_little, acts_keep, rest_shows, rows_are_ready, runs_keep};
