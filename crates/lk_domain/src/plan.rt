// What a domain is made of.

use lk_cell::Key;
use lk_names::{Format, Kind, List, Mode, Topology};
use std::snapshot::Snapshot;

/// The most processors of a domain.
pub const MOST_CPUS: usize = 1024;
/// The most locks of a domain.
pub const MOST_LOCKS: usize = 4096;

/// The plan of a domain: what it is made of.
#[derive(Drop)]
pub struct Plan {
    /// The format. It says how lock words are laid out, and which waiters a queue head of mode
    /// `cna` may move aside.
    pub format: Format,
    /// The lock family of all its locks.
    pub mode: Mode,
    /// The processors, each with the number of its socket.
    pub topology: Topology,
    /// The most handoffs that may pass a moved waiter, in mode `cna`.
    pub threshold: u32,
    /// The kind of each lock. Lock 0 guards the ledger.
    pub locks: List<Kind>,
    /// The opening balance of each account.
    pub balances: List<u64>,
    /// For each processor, the most journal entries that it may write.
    pub shares: List<u32>,
    /// The keys of the cells in which the values of the locks lie, as they were when the domain was
    /// made. It has no keys: it says which cell is whose. A domain without values has none.
    pub cells: Option<Snapshot<List<Option<Key>>>>,
}
