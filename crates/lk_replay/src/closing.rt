// The last lines of a transcript.
ghost use Rattle.std.specs.Prelude.{◌++◌, OnOk, OnErr};
ghost use Rattle.std.specs.Io.KnownBytes.{Appends};
ghost use Rattle.lk_text.specs.Causes.{HasCause};
ghost use Rattle.lk_text.specs.Bytes.{AppendsFront};
ghost use Rattle.lk_text.specs.Block.{waiting};
ghost use Rattle.lk_forms.specs.Texts.{closing};

use lk_forms::{count_line, end_line};
use lk_rows::Counts;
use lk_text::{Block, Sink, WriteFault};

// How many counts a transcript tells.
const COUNTS: u32 = 10;

/// Writes the bytes that wait in the block, and then the closing lines: the number of acts, and the
/// ten counts.
///
/// # Errors
///
/// A write failed. A prefix of these bytes was written.
pub fn write_closing<K: Sink>(
    block: &mut Block,
    sink: &mut K,
    acts: u64,
    counts: &Counts,
) -> Result<(), WriteFault>
    ensures ok { OnOk result
        (Appends (K.held sink.old) (K.held sink.new)
        (waiting block.old ++ closing acts counts.now)) }
    ensures err { OnErr result
        (AppendsFront (K.held sink.old) (K.held sink.new)
        (waiting block.old ++ closing acts counts.now)) }
    ensures cause { HasCause (K.faults sink.old) (K.faults sink.new) result }
{
    block.push(sink, end_line(acts).bytes())?;
    for which in 0..COUNTS {
        block.push(sink, count_line(counts, which).bytes())?;
    }
    block.flush(sink)
}
