// The text of an outcome.
ghost use Rattle.std.specs.Prelude.{◌<◌, ◌+◌, ◌^◌, ◌++◌, List, OnOk, OnErr, length};
ghost use Rattle.std.specs.Io.KnownBytes.{Appends};
ghost use Rattle.lk_text.specs.Causes.{HasCause};
ghost use Rattle.lk_text.specs.Bytes.{AppendsFront, Conveys};
ghost use Rattle.lk_text.specs.Block.{waiting};
ghost use Rattle.lk_job_forms.specs.Texts.{entry_lines_from, seen_lines, balance_lines_from, total_text, outcome_text};

use lk_job_forms::{balance_line, entry_line, seen_line, total_line};
use lk_names::{Entry, List, Seen};
use lk_text::{Block, Sink, WriteFault};

// Writes the lines of the journal, whose entries are numbered from 1.
fn write_entries<K: Sink>(
    block: &mut Block,
    sink: &mut K,
    journal: &[Entry],
) -> Result<(), WriteFault>
    ensures ok { OnOk result (Conveys (K.held sink.old) (K.held sink.new) (waiting block.old)
        (entry_lines_from 1 journal.now) (waiting block.new)) }
    ensures err { OnErr result (AppendsFront (K.held sink.old) (K.held sink.new)
        (waiting block.old ++ entry_lines_from 1 journal.now)) }
    ensures cause { HasCause (K.faults sink.old) (K.faults sink.new) result }
{
    for (at, entry) in journal.iter().enumerate() {
        let line = entry_line(at as u64 + 1, entry);
        block.push(sink, line.bytes())?;
    }
    Ok(())
}

// Writes the lines of the reads.
fn write_reads<K: Sink>(block: &mut Block, sink: &mut K, reads: &[Seen]) -> Result<(), WriteFault>
    ensures ok { OnOk result (Conveys (K.held sink.old) (K.held sink.new) (waiting block.old)
        (seen_lines reads.now) (waiting block.new)) }
    ensures err { OnErr result (AppendsFront (K.held sink.old) (K.held sink.new)
        (waiting block.old ++ seen_lines reads.now)) }
    ensures cause { HasCause (K.faults sink.old) (K.faults sink.new) result }
{
    for seen in reads {
        let line = seen_line(seen);
        block.push(sink, line.bytes())?;
    }
    Ok(())
}

// Writes the lines of the accounts.
fn write_balances<K: Sink>(
    block: &mut Block,
    sink: &mut K,
    balances: &[u64],
) -> Result<(), WriteFault>
    requires { length balances.now < 2 ^ 32 }
    ensures ok { OnOk result (Conveys (K.held sink.old) (K.held sink.new) (waiting block.old)
        (balance_lines_from 0 balances.now) (waiting block.new)) }
    ensures err { OnErr result (AppendsFront (K.held sink.old) (K.held sink.new)
        (waiting block.old ++ balance_lines_from 0 balances.now)) }
    ensures cause { HasCause (K.faults sink.old) (K.faults sink.new) result }
{
    for (account, amount) in balances.iter().enumerate() {
        let line = balance_line(account as u32, *amount);
        block.push(sink, line.bytes())?;
    }
    Ok(())
}

// Writes the last line, and all that waits.
fn write_total<K: Sink>(
    block: &mut Block,
    sink: &mut K,
    entries: usize,
    reads: usize,
) -> Result<(), WriteFault>
    ensures ok { OnOk result (Appends (K.held sink.old) (K.held sink.new)
        (waiting block.old ++ total_text entries reads)) }
    ensures err { OnErr result (AppendsFront (K.held sink.old) (K.held sink.new)
        (waiting block.old ++ total_text entries reads)) }
    ensures cause { HasCause (K.faults sink.old) (K.faults sink.new) result }
{
    let line = total_line(entries as u64, reads as u64);
    block.push(sink, line.bytes())?;
    block.flush(sink)
}

/// Writes what waits in the block, and then the text of an outcome: the journal, the reads, the
/// balances, and the numbers of entries and reads. It takes no memory.
///
/// # Errors
///
/// A fault of the sink. What was written before it stays.
pub fn write_outcome<K: Sink>(
    block: &mut Block,
    sink: &mut K,
    journal: &List<Entry>,
    reads: &List<Seen>,
    balances: &List<u64>,
) -> Result<(), WriteFault>
    requires { length balances.now.items < 2 ^ 32 }
    ensures ok { OnOk result (Appends (K.held sink.old) (K.held sink.new)
        (waiting block.old ++ outcome_text journal.now.items reads.now.items balances.now.items)) }
    ensures err { OnErr result (AppendsFront (K.held sink.old) (K.held sink.new)
        (waiting block.old ++ outcome_text journal.now.items reads.now.items balances.now.items)) }
    ensures cause { HasCause (K.faults sink.old) (K.faults sink.new) result }
{
    write_entries(block, sink, journal.as_slice())?;
    write_reads(block, sink, reads.as_slice())?;
    write_balances(block, sink, balances.as_slice())?;
    write_total(block, sink, journal.len(), reads.len())
}
