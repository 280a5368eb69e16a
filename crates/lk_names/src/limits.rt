// The limits of what a file can ask of locks, and of a job file.

/// The greatest number of a socket. Sockets are numbered from 0.
pub const MAX_SOCKET: u64 = 63;

/// The greatest threshold, in handoffs, and the greatest spin bound, in polls.
pub const MAX_TURNS: u64 = 65_535;

/// The most workers of a job file.
pub const MAX_WORKERS: u64 = 16;

/// The most accounts of a ledger.
pub const MAX_ACCOUNTS: usize = 64;

/// The greatest balance, the greatest sum of the opening balances, and the greatest amount of a
/// job: 2^63 - 1.
pub const MAX_AMOUNT: u64 = 9_223_372_036_854_775_807;

/// The most jobs of a job file.
pub const MAX_JOBS: usize = 100_000;
