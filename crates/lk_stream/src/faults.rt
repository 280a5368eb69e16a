// What refusals and faults of reading come to at a line.
ghost use Rattle.std.specs.Prelude.{◌≡◌};
ghost use Rattle.lk_stream.specs.Outcome.{refused_fault};
ghost use Rattle.lk_stream.specs.Stands.{cut_at, end_at};

use crate::answers::ReplayFault;
use lk_forms::{Fault, LineRefusal, Which};
use lk_text::LineFault;

/// The fault of a text whose reader of lines answered this fault for the line of this number.
pub fn cut(line: u64, fault: LineFault) -> ReplayFault
    ensures { result ≡ cut_at line fault }
{
    match fault {
        LineFault::ReadFault => ReplayFault::ReadFault,
        LineFault::TooLong => ReplayFault::Limit {
            line,
            which: Which::Line,
        },
        LineFault::TooMuch => ReplayFault::Limit {
            line,
            which: Which::Input,
        },
    }
}

/// The fault of a text whose line of this number was refused for this reason.
pub fn refused(line: u64, why: LineRefusal) -> ReplayFault
    ensures { result ≡ refused_fault line why }
{
    match why {
        LineRefusal::Bad(fault) => ReplayFault::BadInput { line, fault },
        LineRefusal::Limit(which) => ReplayFault::Limit { line, which },
        LineRefusal::Memory => ReplayFault::Memory,
    }
}

/// The answer if the input ends in place of the line of this number: `false`, there are no more
/// lines, or the fault that the script found in such an end.
pub(crate) fn ended(line: u64, wrong: Option<Fault>) -> Result<bool, ReplayFault>
    ensures { result ≡ end_at line wrong }
{
    match wrong {
        None => Ok(false),
        Some(fault) => Err(ReplayFault::BadInput { line, fault }),
    }
}
