// The lines of the schedule.
ghost use Rattle.std.specs.Prelude.{◌≡◌, ◌≤◌, ℕ, List, Ok, None, true, IfOk, IfErr, IfSome};
ghost use Rattle.lk_text.specs.Reader.{is_at_hand, is_ended, GaveLine, MetEnd, GaveFault};
ghost use Rattle.lk_forms.specs.Schedule.{schedule_of};

use lk_forms::{LineRefusal, Sched, front_step, schedule_line};
use lk_text::{Block, LineFault, LineReader, Sink, Source, WriteFault};

/// Reads the next line of the schedule. Returns what it says or why it is refused; none at the end
/// of the input. Most lines are plain steps, and are read in the buffer of the reader.
pub(crate) fn next_said<S: Source>(
    reader: &mut LineReader,
    source: &mut S,
    cpus: u32,
    acts: u64,
    ended: bool,
) -> Result<Option<Result<Sched, LineRefusal>>, LineFault>
    ensures given { IfOk result (λ given. IfSome given (λ said. (line : List ℕ)
        × GaveLine reader.old reader.new (S.left source.old) (S.left source.new) line
        × (said ≡ schedule_of cpus acts ended line))) }
    ensures end { result ≡ Ok None
        → MetEnd reader.old reader.new (S.left source.old) (S.left source.new) }
    ensures fault { IfErr result
        (GaveFault reader.old reader.new (S.left source.old) (S.left source.new)
        (S.faults source.old) (S.faults source.new)) }
    ensures at_hand { is_at_hand reader.old ≡ true → source.new ≡ source.old }
    ensures idle { is_ended reader.old ≡ true → source.new ≡ source.old }
    ensures later { S.faults source.old ≤ S.faults source.new }
{
    if !ended
        && reader.has_line()
        && let Some((said, line)) = front_step(reader.ahead(), cpus, acts)
        && reader.take_front(line)
    {
        return Ok(Some(Ok(said)));
    }
    match reader.next_line(source) {
        Ok(Some(line)) => Ok(Some(schedule_line(line, cpus, acts, ended))),
        Ok(None) => Ok(None),
        Err(fault) => Err(fault),
    }
}
