// Setups by the lines that say them.

ghost use Rattle.std.specs.Prelude.{◌≡◌, false, IfOk, IfSome};
ghost use Rattle.lk_rows.specs.Programs.{IsLawfulSetup};

use lk_forms::{HeaderReader, HeaderStep, LineRefusal, lines_say_lawful_setups};
use lk_rows::Setup;
use std::alloc::Global;

/// The setup of these lines up to `go`, if they come so far, or the refusal of the last of them.
pub fn setup_of(alloc: Global, lines: &str) -> Result<Option<Setup>, LineRefusal>
    ensures { IfOk result (λ said. IfSome said IsLawfulSetup) }
{
    lines_say_lawful_setups();
    let mut reader = HeaderReader::new(alloc)?;
    for line in lines.lines() {
        match reader.line(line.as_bytes())? {
            HeaderStep::More => {}
            HeaderStep::Go => return Ok(Some(reader.finish())),
        }
    }
    Ok(None)
}
