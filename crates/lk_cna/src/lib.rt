//! The rows in which a queue head of Dice and Kogan's lock chooses its successor and hands off.
//! Each row is proved to be the row that `lk_rows` defines.
#![tactic(auto, using(lk_machine::proofs::Kept::kept))]

mod hand;
mod part;
mod row;
mod scan;

pub use row::cna_row;
