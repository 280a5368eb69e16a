// The limits of a trace.

/// The most acts of a trace: 10^8.
pub const MAX_ACTS: u64 = 100_000_000;

/// The most processors of a trace in format 1, and of a run of the optimistic spin queue.
pub const MAX_CPUS: usize = 64;

/// The most processors of a trace in format 2.
pub const MAX_WIDE_CPUS: usize = 1_024;

/// How many polls a waiter of mode `pv` makes before it halts, if no line `spins` says it: Linux's
/// `SPIN_THRESHOLD` on x86.
pub const USUAL_SPINS: u32 = 32_768;

/// The most locks of a trace.
pub const MAX_LOCKS: usize = 32;

/// The most operations of a program or a handler.
pub const MAX_OPS: usize = 64;

/// The most interrupt handlers of a processor.
pub const MAX_HANDLERS: usize = 16;
