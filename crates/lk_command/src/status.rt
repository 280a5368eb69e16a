// What a run of the program came to.
ghost use Rattle.std.specs.Prelude.{◌≡◌};

use lk_audit::AuditFault;
use lk_forms::{Fault, Which};
use lk_stream::{ReplayFault, exit};
use lk_text::WriteFault;

/// How a run of the program ended.
#[derive(Clone, Copy, Debug, PartialEq, Eq)]
pub enum Status {
    /// All that was asked was read and written. Exit status 0.
    Done,
    /// The words name no command. Exit status 2.
    Usage,
    /// The grammar refuses this line, counted from 1. Exit status 3.
    BadInput { line: u64, fault: Fault },
    /// A read failed. Exit status 4.
    ReadFault,
    /// A write failed. Exit status 5.
    WriteFault,
    /// There was not enough memory. Exit status 6.
    Memory,
    /// This line, counted from 1, passes a limit. Exit status 7.
    Limit { line: u64, which: Which },
    /// This line, counted from 1, is the first that breaks an audited history. Exit status 8.
    Unlawful { line: u64 },
}

impl Status {
    ghost use Rattle.lk_command.specs.Status.{number_of, came_to, status_of_put};
    ghost use Rattle.lk_command.specs.Audits.{status_audited};

    /// The program's exit status.
    pub fn number(&self) -> u8
        ensures { result ≡ number_of self.now }
    {
        match self {
            Status::Done => 0,
            Status::Usage => exit::USAGE,
            Status::BadInput { .. } => exit::BAD_INPUT,
            Status::ReadFault => exit::READ_FAULT,
            Status::WriteFault => exit::WRITE_FAULT,
            Status::Memory => exit::MEMORY,
            Status::Limit { .. } => exit::LIMIT,
            Status::Unlawful { .. } => exit::UNLAWFUL,
        }
    }

    /// The status of a replay, a run or a ledger with this answer.
    pub fn of<T: Drop>(answer: Result<T, ReplayFault>) -> Status
        ensures { result ≡ came_to answer }
    {
        match answer {
            Ok(_) => Status::Done,
            Err(ReplayFault::BadInput { line, fault }) => Status::BadInput { line, fault },
            Err(ReplayFault::Limit { line, which }) => Status::Limit { line, which },
            Err(ReplayFault::ReadFault) => Status::ReadFault,
            Err(ReplayFault::WriteFault) => Status::WriteFault,
            Err(ReplayFault::Memory) => Status::Memory,
        }
    }

    /// The status of an audit with this answer.
    pub fn of_audit(answer: Result<u64, AuditFault>) -> Status
        ensures { result ≡ status_audited answer }
    {
        match answer {
            Ok(_) => Status::Done,
            Err(AuditFault::BadInput { line, fault }) => Status::BadInput { line, fault },
            Err(AuditFault::Limit { line, which }) => Status::Limit { line, which },
            Err(AuditFault::Breach { line, .. }) => Status::Unlawful { line },
            Err(AuditFault::ReadFault) => Status::ReadFault,
            Err(AuditFault::WriteFault) => Status::WriteFault,
            Err(AuditFault::Memory) => Status::Memory,
        }
    }

    /// The status of a command that only writes, with this answer.
    pub fn of_put(answer: Result<(), WriteFault>) -> Status
        ensures { result ≡ status_of_put answer }
    {
        match answer {
            Ok(()) => Status::Done,
            Err(WriteFault) => Status::WriteFault,
        }
    }
}
