// What an audit answers where a text is not lawful to its end.
ghost use Rattle.std.specs.Prelude.{◌≡◌};

use lk_audit_forms::BreachName;
use lk_forms::{Fault, Which};
use lk_names::Memory;

/// Why an audit accepts a text not as lawful.
#[derive(Clone, Copy, Debug, PartialEq, Eq)]
pub enum AuditFault {
    /// The line is refused, or the input ends before it. Lines are counted from 1.
    BadInput { line: u64, fault: Fault },
    /// The line passes a limit. Lines are counted from 1.
    Limit { line: u64, which: Which },
    /// The event of this line is not lawful after those before it. What follows the line was not
    /// judged.
    Breach { line: u64, name: BreachName },
    /// A read from the source failed.
    ReadFault,
    /// A write to the sink failed.
    WriteFault,
    /// There was not enough memory. Nothing was written.
    Memory,
}

impl From<Memory> for AuditFault {
    ghost use Rattle.lk_audit.specs.declared.answers.AuditFault.{AuditFault};

    ghost from_gives = { λ _ fault. fault ≡ AuditFault.Memory };

    fn from(_: Memory) -> AuditFault {
        AuditFault::Memory
    }
}
