// What refusals and faults of reading come to.
ghost use Rattle.std.specs.Prelude.{◌≡◌, ◌≢◌};
ghost use Rattle.lk_replay.specs.Stands.{cut_at};
ghost use Rattle.lk_replay.specs.Outcome.{as_replay_fault};
ghost use Rattle.lk_stream.specs.Outcome.{refused_fault};
ghost use Rattle.lk_forms.specs.declared.answers.LineRefusal.{LineRefusal};

use crate::answers::RunFault;
use lk_forms::{LineRefusal, Which};
use lk_text::LineFault;

/// The fault of a run whose reader of lines answered this fault for the line of this number.
pub(crate) fn cut_fault(line: u64, fault: LineFault) -> RunFault
    ensures { result ≡ cut_at line fault }
{
    match fault {
        LineFault::ReadFault => RunFault::ReadFault,
        LineFault::TooLong => RunFault::Limit {
            line,
            which: Which::Line,
        },
        LineFault::TooMuch => RunFault::Limit {
            line,
            which: Which::Input,
        },
    }
}

/// The fault of a run whose line of this number was refused for this reason, which is not `Memory`.
pub(crate) fn refusal_fault(line: u64, why: LineRefusal) -> RunFault
    requires { why ≢ LineRefusal.Memory }
    ensures { as_replay_fault result ≡ refused_fault line why }
{
    match why {
        LineRefusal::Bad(fault) => RunFault::BadInput { line, fault },
        LineRefusal::Limit(which) => RunFault::Limit { line, which },
        LineRefusal::Memory => unreachable!(),
    }
}
