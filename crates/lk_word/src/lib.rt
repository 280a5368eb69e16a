//! The words of Linux's queued locks, and their fields. A word has 32 bits.
//!
//! `pack` and `unpack` convert between the word of a queued spinlock (`struct qspinlock`), in one
//! of two layouts, and its fields. `pack_rw` and `unpack_rw` convert between the word of a queued
//! reader-writer lock (`struct qrwlock`) and its fields. What a step on threads adds to such a word or
//! reads of it has a name in `steps`, and `node_word` numbers the nodes. No call takes memory.
#![tactic(auto)]

mod exact;
mod node_word;
mod rw_word;
mod spin_word;
mod steps;

pub use exact::packing_is_exact;
pub use node_word::{LOWEST_NODE, MARK, name_number, node_of_name};
pub use rw_word::{RwFields, pack_rw, unpack_rw};
pub use spin_word::{Fields, Layout, Locked, NodeName, pack, unpack};
pub use steps::{
    HELD, PENDING, READER, SLOW, WAITING, WRITER, has_no_writer, has_only_waiting,
    is_free_for_pending, lets_readers_in, low_byte, tail_number, tail_unit, without_low_byte,
};
