// The header of a trace.

ghost use Rattle.std.specs.Prelude.{IfOk};
ghost use Rattle.lk_rows.specs.Programs.{IsLawfulSetup};

use lk_forms::HeaderReader;
use lk_replay::read_header;
use lk_rows::Setup;
use lk_stream::ReplayFault;
use lk_text::{LineReader, Source};
use std::alloc::Global;

/// Reads the header of a trace up to the line `go`. What stands behind it is not looked at.
///
/// # Errors
///
/// The first line that is refused, a failed read, or not enough memory.
pub(crate) fn read_setup<S: Source>(alloc: Global, source: &mut S) -> Result<Setup, ReplayFault>
    ensures { IfOk result IsLawfulSetup }
{
    let mut reader = LineReader::new(alloc)?;
    let mut header = HeaderReader::new(alloc)?;
    read_header(&mut header, &mut reader, source)?;
    Ok(header.finish())
}
