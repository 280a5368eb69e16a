//! The command `audit`: it reads the header of a trace and after it a transcript from any program,
//! line by line in fixed memory, and judges each event. It answers whether the history is lawful,
//! and else which line is the first that breaks it.
#![tactic(auto)]

mod answers;
mod auditor;
mod faults;
mod header;
mod history;
mod verdict;

pub use answers::AuditFault;
pub use verdict::audit;
