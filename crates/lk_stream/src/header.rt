// The header of a trace, read line by line.
ghost use Rattle.std.specs.Prelude.{◌≡◌, ◌≤◌, IfOk, IfErr, IfSome, Ok, None, true, false};
ghost use Rattle.lk_text.specs.Reader.{is_ended, MetEnd, GaveFault};
ghost use Rattle.lk_forms.specs.Grammar.{has_go};
ghost use Rattle.lk_forms.specs.Reader.{reading};
ghost use Rattle.lk_stream.specs.Headers.{HasReadLine};

use lk_forms::{HeaderReader, HeaderStep, LineRefusal};
use lk_text::{LineFault, LineReader, Source};

/// Reads the next line of a trace's header. Returns what the header answers to it; none at the end
/// of the input. `header` must not have returned `Go`.
///
/// # Errors
///
/// A failed read, or a limit of bytes that is passed. The reader answers it from then on.
pub fn next_header_step<S: Source>(
    header: &mut HeaderReader,
    reader: &mut LineReader,
    source: &mut S,
) -> Result<Option<Result<HeaderStep, LineRefusal>>, LineFault>
    requires { has_go (reading header.old) ≡ false }
    ensures given { IfOk result (λ given. IfSome given (HasReadLine header.old header.new reader.old
        reader.new (S.left source.old) (S.left source.new))) }
    ensures end { result ≡ Ok None
        → MetEnd reader.old reader.new (S.left source.old) (S.left source.new)
        × (reading header.new ≡ reading header.old) }
    ensures fault { IfErr result
        (GaveFault reader.old reader.new (S.left source.old) (S.left source.new)
        (S.faults source.old) (S.faults source.new)) }
    ensures idle { is_ended reader.old ≡ true → source.new ≡ source.old }
    ensures later { S.faults source.old ≤ S.faults source.new }
{
    match reader.next_line(source) {
        Ok(Some(line)) => Ok(Some(header.line(line))),
        Ok(None) => Ok(None),
        Err(fault) => Err(fault),
    }
}
