//! The rows of Linux's queued reader-writer lock (`kernel/locking/qrwlock.c`). Each row is proved
//! to be the row that `lk_rows` defines.
#![tactic(auto, using(lk_machine::proofs::Kept::kept))]

mod reader;
mod row;
mod word;
mod writer;

pub use row::rw_row;
