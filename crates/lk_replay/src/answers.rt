// What a replay answers.
ghost use Rattle.std.specs.Prelude.{◌≡◌};

use lk_forms::{Fault, Which};
use lk_rows::Counts;
use lk_stream::ReplayFault;
use lk_text::WriteFault;

/// What a replay of a whole trace came to.
#[derive(Clone, Copy, Debug, PartialEq, Eq)]
pub struct Summary {
    /// The number of acts, those that changed nothing included.
    pub acts: u64,
    /// The number of events. Each has a line in the transcript.
    pub events: u64,
    /// The ten counts of the closing lines.
    pub counts: Counts,
}

/// Why a trace was not replayed to its end, behind its line `go`. No memory is taken there.
#[derive(Clone, Copy, Debug, PartialEq, Eq)]
pub enum RunFault {
    /// The grammar refuses the line of this number, or the end of the input in its place. Lines are
    /// numbered from 1. The events of the lines before it were written, and no closing lines.
    BadInput { line: u64, fault: Fault },
    /// The line of this number passes a limit. The events of the lines before it were written.
    Limit { line: u64, which: Which },
    /// A read failed. The events of the lines that were read whole were written.
    ReadFault,
    /// A write failed. A prefix of the transcript was written.
    WriteFault,
}

impl From<RunFault> for ReplayFault {
    ghost use Rattle.lk_replay.specs.Outcome.{as_replay_fault};

    ghost from_gives = { λ why fault. fault ≡ as_replay_fault why };

    fn from(fault: RunFault) -> ReplayFault {
        match fault {
            RunFault::BadInput { line, fault } => ReplayFault::BadInput { line, fault },
            RunFault::Limit { line, which } => ReplayFault::Limit { line, which },
            RunFault::ReadFault => ReplayFault::ReadFault,
            RunFault::WriteFault => ReplayFault::WriteFault,
        }
    }
}

impl From<WriteFault> for RunFault {
    ghost use Rattle.lk_replay.specs.declared.answers.RunFault.{RunFault};

    ghost from_gives = { λ _ fault. fault ≡ RunFault.WriteFault };

    fn from(_: WriteFault) -> RunFault {
        RunFault::WriteFault
    }
}
