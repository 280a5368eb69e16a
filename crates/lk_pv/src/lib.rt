//! The rows of the paravirtual lock. Each row is proved to be the row that `lk_rows` defines.
//!
//! A word is written as its tail, its pending bit and its locked byte, as in `t,0,1`. No tail is
//! 0, and the byte is 0, 1 or S for slow. The row's own node is n, and y is the successor's. Each
//! row names the function of Linux whose step it is, most of them in
//! `kernel/locking/qspinlock_paravirt.h`.
#![tactic(auto, using(lk_machine::proofs::Kept::kept))]

mod front;
mod hand;
mod release;
mod row;
mod steal;
mod wait;
mod word;

pub use row::pv_row;
