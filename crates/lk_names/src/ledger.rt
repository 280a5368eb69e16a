// Jobs on a ledger, and what is written of them.

/// A job on the accounts of a ledger. Accounts are numbered from 0.
#[derive(Clone, Copy, Debug, PartialEq, Eq)]
pub enum Job {
    /// Moves an amount from one account to another.
    Move { from: u32, to: u32, amount: u64 },
    /// Adds an amount to an account.
    Add { account: u32, amount: u64 },
    /// Asks for the sum of all balances.
    Sum,
    /// Asks for one balance.
    Get { account: u32 },
}

/// The reply to a job.
#[derive(Clone, Copy, Debug, PartialEq, Eq)]
pub enum Reply {
    /// The job is done.
    Done,
    /// The balance is less than the amount, so nothing was done.
    Short,
    /// The sum of all balances would reach 2^63, so nothing was done.
    Full,
    /// The sum or the balance that the job asked for.
    Amount(u64),
}

/// An entry of the journal: a job that changes balances, and its reply.
#[derive(Clone, Copy, Debug, PartialEq, Eq)]
pub struct Entry {
    /// The worker, from 0.
    pub worker: u32,
    /// The number of the worker's job, from 1.
    pub number: u32,
    /// The job.
    pub job: Job,
    /// Its reply.
    pub reply: Reply,
}

/// The record of a job that only reads.
#[derive(Clone, Copy, Debug, PartialEq, Eq)]
pub struct Seen {
    /// The worker, from 0.
    pub worker: u32,
    /// The number of the worker's job, from 1.
    pub number: u32,
    /// How many entries the journal had when the job read.
    pub version: u64,
    /// The job.
    pub job: Job,
    /// Its reply.
    pub reply: Reply,
}
