// What refusals and faults of reading come to at a line.
ghost use Rattle.std.specs.Prelude.{◌≡◌};
ghost use Rattle.lk_audit.specs.Outcome.{refused_fault};
ghost use Rattle.lk_audit.specs.Stands.{cut_at, end_at};

use crate::answers::AuditFault;
use lk_forms::{Fault, LineRefusal, Which};
use lk_text::LineFault;

/// What a fault of the reader means at this line.
pub(crate) fn cut(line: u64, fault: LineFault) -> AuditFault
    ensures { result ≡ cut_at line fault }
{
    match fault {
        LineFault::ReadFault => AuditFault::ReadFault,
        LineFault::TooLong => AuditFault::Limit {
            line,
            which: Which::Line,
        },
        LineFault::TooMuch => AuditFault::Limit {
            line,
            which: Which::Input,
        },
    }
}

/// What a refusal of this line of the header means.
pub(crate) fn refused(line: u64, why: LineRefusal) -> AuditFault
    ensures { result ≡ refused_fault line why }
{
    match why {
        LineRefusal::Bad(fault) => AuditFault::BadInput { line, fault },
        LineRefusal::Limit(which) => AuditFault::Limit { line, which },
        LineRefusal::Memory => AuditFault::Memory,
    }
}

/// What the end of the input means in place of this line: there are no more lines, or this is
/// wrong.
pub(crate) fn ended(line: u64, wrong: Option<Fault>) -> Result<bool, AuditFault>
    ensures { result ≡ end_at line wrong }
{
    match wrong {
        None => Ok(false),
        Some(fault) => Err(AuditFault::BadInput { line, fault }),
    }
}
