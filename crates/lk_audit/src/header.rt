// The header, read line by line.
ghost use Rattle.std.specs.Prelude.{◌≡◌, ◌≤◌, ◌<◌, ℕ, List, Option, IfOk, IfErr, OnOk, true, false};
ghost use Rattle.lk_text.specs.Reader.{looked_at};
ghost use Rattle.lk_forms.specs.Grammar.{has_go};
ghost use Rattle.lk_forms.specs.Reader.{reading, step_of};
ghost use Rattle.lk_audit_forms.specs.Grammar.{in_header};
ghost use Rattle.lk_audit.specs.Stands.{Stands, IsSaid, HeaderTurns, FaultStops};

use crate::answers::AuditFault;
use crate::faults::{cut, refused};
use lk_forms::{HeaderReader, HeaderStep};
use lk_stream::next_header_step;
use lk_text::{LineReader, Source};

// Reads one line of the header.
fn read_step<S: Source>(
    header: &mut HeaderReader,
    reader: &mut LineReader,
    source: &mut S,
) -> Result<HeaderStep, AuditFault>
    requires { has_go (reading header.old) ≡ false }
    ensures turns { (input : Option (List ℕ))
        → Stands input reader.old (S.left source.old) (in_header (reading header.old))
        → HeaderTurns input reader.new (S.left source.new) (S.faults source.old)
        (S.faults source.new) (in_header (reading header.new)) result }
    ensures said { OnOk result
        (IsSaid (reading header.old) → IsSaid (reading header.new)) }
    ensures step { IfOk result (λ step. step ≡ step_of (reading header.new)) }
    ensures looked { OnOk result (looked_at reader.old < looked_at reader.new) }
    ensures later { S.faults source.old ≤ S.faults source.new }
{
    match next_header_step(header, reader, source) {
        Ok(Some(Ok(step))) => Ok(step),
        Ok(Some(Err(why))) => Err(refused(reader.lines(), why)),
        Ok(None) => Err(AuditFault::BadInput {
            line: reader.lines() + 1,
            fault: header.ending(),
        }),
        Err(fault) => Err(cut(reader.lines() + 1, fault)),
    }
}

/// Reads the header up to the line `go`.
pub(crate) fn read_header<S: Source>(
    header: &mut HeaderReader,
    reader: &mut LineReader,
    source: &mut S,
) -> Result<(), AuditFault>
    requires { has_go (reading header.old) ≡ false }
    ensures stands { OnOk result
        ((input : Option (List ℕ))
        → Stands input reader.old (S.left source.old) (in_header (reading header.old))
        → Stands input reader.new (S.left source.new) (in_header (reading header.new))) }
    ensures said { OnOk result
        (IsSaid (reading header.old) → IsSaid (reading header.new)) }
    ensures gone { OnOk result (has_go (reading header.new) ≡ true) }
    ensures refused { IfErr result
        (λ why. (input : Option (List ℕ))
        → Stands input reader.old (S.left source.old) (in_header (reading header.old))
        → FaultStops input (S.faults source.old) (S.faults source.new) why) }
    ensures later { S.faults source.old ≤ S.faults source.new }
{
    'lines: loop {
        match read_step(header, reader, source) {
            Ok(HeaderStep::Go) => return Ok(()),
            Ok(HeaderStep::More) => {}
            Err(fault) => return Err(fault),
        }
    }
}
