// The header of a trace, read line by line.
ghost use Rattle.std.specs.Prelude.{◌≡◌, ◌≤◌, ◌<◌, ℕ, List, Option, IfOk, IfErr, OnOk, true, false};
ghost use Rattle.lk_text.specs.Reader.{looked_at};
ghost use Rattle.lk_forms.specs.Grammar.{has_go};
ghost use Rattle.lk_forms.specs.Reader.{reading, step_of};
ghost use Rattle.lk_replay.specs.Header.{HeaderStands, HeaderTurns, OpenRefused};

use crate::faults::cut_fault;
use lk_forms::{HeaderReader, HeaderStep};
use lk_stream::{ReplayFault, next_header_step, refused};
use lk_text::{LineReader, Source};

// Reads one line of the header.
fn read_step<S: Source>(
    header: &mut HeaderReader,
    reader: &mut LineReader,
    source: &mut S,
) -> Result<HeaderStep, ReplayFault>
    requires { has_go (reading header.old) ≡ false }
    ensures turns { (input : Option (List ℕ))
        → HeaderStands input (reading header.old) reader.old (S.left source.old)
        → HeaderTurns input (reading header.new) reader.new (S.left source.new)
        (S.faults source.old) (S.faults source.new) result }
    ensures step { IfOk result (λ step. step ≡ step_of (reading header.new)) }
    ensures looked { OnOk result (looked_at reader.old < looked_at reader.new) }
    ensures later { S.faults source.old ≤ S.faults source.new }
{
    match next_header_step(header, reader, source) {
        Ok(Some(Ok(step))) => Ok(step),
        Ok(Some(Err(why))) => Err(refused(reader.lines(), why)),
        Ok(None) => Err(ReplayFault::BadInput {
            line: reader.lines() + 1,
            fault: header.ending(),
        }),
        Err(fault) => Err(ReplayFault::from(cut_fault(reader.lines() + 1, fault))),
    }
}

/// Reads the header of a trace up to the line `go`, from the line behind those that `header` has
/// read.
///
/// # Errors
///
/// The first line that is refused, a failed read, or not enough memory.
pub fn read_header<S: Source>(
    header: &mut HeaderReader,
    reader: &mut LineReader,
    source: &mut S,
) -> Result<(), ReplayFault>
    requires { has_go (reading header.old) ≡ false }
    ensures stands { OnOk result
        ((input : Option (List ℕ))
        → HeaderStands input (reading header.old) reader.old (S.left source.old)
        → HeaderStands input (reading header.new) reader.new (S.left source.new)) }
    ensures gone { OnOk result (has_go (reading header.new) ≡ true) }
    ensures refused { IfErr result
        (λ why. (input : Option (List ℕ))
        → HeaderStands input (reading header.old) reader.old (S.left source.old)
        → OpenRefused input (S.left source.new) (S.faults source.old) (S.faults source.new) why) }
    ensures later { S.faults source.old ≤ S.faults source.new }
{
    'lines: loop {
        match read_step(header, reader, source) {
            Ok(HeaderStep::Go) => return Ok(()),
            Ok(HeaderStep::More) => {}
            Err(fault) => return Err(fault),
        }
    }
}
