// What the words behind the program's name can ask for.

/// What the words after the program's name ask for.
#[derive(Clone, Copy, Debug, PartialEq, Eq)]
pub enum Reading {
    /// `replay`: replay a trace.
    Replay,
    /// `osq`: replay a run of the optimistic spin queue.
    Osq,
    /// `audit`: judge a transcript from any program.
    Audit,
    /// `ledger`: run jobs on accounts under a lock.
    Ledger,
    /// `gen n`: write the trace that is generated from this start number.
    Gen(u32),
    /// `load n`: replay that trace in memory, and write its closing lines.
    Load(u32),
}
