// What is answered where a text is not read to its end.
ghost use Rattle.std.specs.Prelude.{◌≡◌};

use lk_forms::{Fault, LineRefusal, Which};
use lk_names::Memory;
use lk_text::WriteFault;

/// Why a text was not read and obeyed to its end.
#[derive(Clone, Copy, Debug, PartialEq, Eq)]
pub enum ReplayFault {
    /// The grammar refuses the line of this number, or the end of the input in its place. Lines are
    /// numbered from 1. The output of the lines before it was written.
    BadInput { line: u64, fault: Fault },
    /// The line of this number passes a limit. The output of the lines before it was written.
    Limit { line: u64, which: Which },
    /// A read failed. The output of the lines that were read whole was written.
    ReadFault,
    /// A write failed. A prefix of the output was written.
    WriteFault,
    /// There is not enough memory. Nothing was written.
    Memory,
}

/// Why a script stops at a line.
#[derive(Clone, Copy, Debug, PartialEq, Eq)]
pub enum Stop {
    /// The line is refused.
    Refused(LineRefusal),
    /// A write failed.
    WriteFault,
}

impl From<Memory> for ReplayFault {
    ghost use Rattle.lk_stream.specs.declared.answers.ReplayFault.{ReplayFault};

    ghost from_gives = { λ _ fault. fault ≡ ReplayFault.Memory };

    fn from(_: Memory) -> ReplayFault {
        ReplayFault::Memory
    }
}

impl From<WriteFault> for ReplayFault {
    ghost use Rattle.lk_stream.specs.declared.answers.ReplayFault.{ReplayFault};

    ghost from_gives = { λ _ fault. fault ≡ ReplayFault.WriteFault };

    fn from(_: WriteFault) -> ReplayFault {
        ReplayFault::WriteFault
    }
}

impl From<LineRefusal> for Stop {
    ghost use Rattle.lk_stream.specs.declared.answers.Stop.{Stop};

    ghost from_gives = { λ why stop. stop ≡ Stop.Refused why };

    fn from(why: LineRefusal) -> Stop {
        Stop::Refused(why)
    }
}

impl From<WriteFault> for Stop {
    ghost use Rattle.lk_stream.specs.declared.answers.Stop.{Stop};

    ghost from_gives = { λ _ stop. stop ≡ Stop.WriteFault };

    fn from(_: WriteFault) -> Stop {
        Stop::WriteFault
    }
}
