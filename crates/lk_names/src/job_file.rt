// A job file, once it is read.

use crate::ledger::Job;
use crate::list::List;
use crate::names::{Format, Kind, Mode, Topology};

/// What a job file says.
#[derive(Drop)]
pub struct JobFile {
    /// The format. It says how the lock's word is laid out, and which waiters a queue head of mode
    /// `cna` may move aside.
    pub format: Format,
    /// The lock family.
    pub mode: Mode,
    /// The kind of the one lock.
    pub guard: Kind,
    /// The socket of each worker.
    pub topology: Topology,
    /// The threshold of mode `cna`: the most handoffs that may pass a moved waiter.
    pub threshold: u32,
    /// The opening balance of each account.
    pub balances: List<u64>,
    /// The jobs of each worker, in the order of their lines.
    pub jobs: List<List<Job>>,
}
