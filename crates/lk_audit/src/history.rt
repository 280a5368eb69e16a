// The lines behind the header, read and judged one by one.
ghost use Rattle.std.specs.Prelude.{◌≡◌, ◌≤◌, ◌<◌, ℕ, List, Option, IfOk, IfErr, IfSome, OnOk, Ok, None, true, false};
ghost use Rattle.lk_text.specs.Reader.{looked_at, is_ended, MetEnd, GaveFault};
ghost use Rattle.lk_audit.specs.Auditor.{CanGoOn, HasJudged};
ghost use Rattle.lk_audit.specs.Stands.{StandsBefore, TurnsTo, StopsAt};

use crate::answers::AuditFault;
use crate::auditor::Auditor;
use crate::faults::{cut, ended};
use lk_text::{LineFault, LineReader, Source};

// What the auditor makes of the next line, if there is one.
fn next_line<S: Source>(
    auditor: &mut Auditor,
    reader: &mut LineReader,
    source: &mut S,
) -> Result<Option<Result<(), AuditFault>>, LineFault>
    requires { CanGoOn auditor.old }
    ensures given { IfOk result (λ given. IfSome given (HasJudged auditor.old auditor.new reader.old
        reader.new (S.left source.old) (S.left source.new))) }
    ensures end { result ≡ Ok None
        → MetEnd reader.old reader.new (S.left source.old) (S.left source.new)
        × (auditor.new ≡ auditor.old) }
    ensures fault { IfErr result
        (GaveFault reader.old reader.new (S.left source.old) (S.left source.new)
        (S.faults source.old) (S.faults source.new)) }
    ensures idle { is_ended reader.old ≡ true → source.new ≡ source.old }
    ensures later { S.faults source.old ≤ S.faults source.new }
{
    let number = reader.lines() + 1;
    match reader.next_line(source) {
        Ok(Some(line)) => Ok(Some(auditor.line(number, line))),
        Ok(None) => Ok(None),
        Err(fault) => Err(fault),
    }
}

// Reads one line and judges it: whether there may be more lines.
fn turn<S: Source>(
    auditor: &mut Auditor,
    reader: &mut LineReader,
    source: &mut S,
) -> Result<bool, AuditFault>
    requires { CanGoOn auditor.old }
    ensures turns { (input : Option (List ℕ))
        → StandsBefore input reader.old (S.left source.old) auditor.old
        → TurnsTo input reader.new (S.left source.new) (S.faults source.old)
        (S.faults source.new) auditor.new result }
    ensures goes_on { OnOk result (CanGoOn auditor.new) }
    ensures looked { result ≡ Ok true → looked_at reader.old < looked_at reader.new }
    ensures later { S.faults source.old ≤ S.faults source.new }
{
    match next_line(auditor, reader, source) {
        Ok(Some(Ok(()))) => Ok(true),
        Ok(Some(Err(fault))) => Err(fault),
        Ok(None) => ended(reader.lines() + 1, auditor.ending()),
        Err(fault) => Err(cut(reader.lines() + 1, fault)),
    }
}

/// Reads the lines up to the last, and judges them.
pub(crate) fn read_on<S: Source>(
    auditor: &mut Auditor,
    reader: &mut LineReader,
    source: &mut S,
) -> Result<(), AuditFault>
    requires { CanGoOn auditor.old }
    ensures stops { (input : Option (List ℕ))
        → StandsBefore input reader.old (S.left source.old) auditor.old
        → StopsAt input (S.left source.new) (S.faults source.old) (S.faults source.new)
        auditor.new result }
    ensures goes_on { OnOk result (CanGoOn auditor.new) }
    ensures later { S.faults source.old ≤ S.faults source.new }
{
    'lines: loop {
        match turn(auditor, reader, source) {
            Ok(true) => {}
            Ok(false) => return Ok(()),
            Err(fault) => return Err(fault),
        }
    }
}
