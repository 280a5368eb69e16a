// A replay behind its header. It reads a line of the schedule and makes its acts. Before it asks
// the source for more lines it writes the events that wait.
ghost use Rattle.std.specs.Prelude.{◌≡◌, ◌≤◌, ◌<◌, ◌++◌, ◌||◌, ℕ, List, [], Option, Ok, Err, true, OnOk, OnErr, length};
ghost use Rattle.lk_text.specs.Causes.{HasCause};
ghost use Rattle.lk_text.specs.Bytes.{AppendsFront, Conveys};
ghost use Rattle.lk_text.specs.Block.{waiting};
ghost use Rattle.lk_text.specs.Reader.{looked_at};
ghost use Rattle.lk_forms.specs.Schedule.{IsWithin};
ghost use Rattle.lk_forms.specs.Texts.{lines};
ghost use Rattle.lk_replay.specs.Schedule.{acts_said, is_end};
ghost use Rattle.lk_replay.specs.Run.{CanGoOn, Makes, occurrences_in};
ghost use Rattle.lk_stream.specs.Outside.{outside};
ghost use Rattle.lk_replay.specs.Outcome.{Outcome, as_replay, as_replay_fault};

use crate::answers::{RunFault, Summary};
use crate::closing::write_closing;
use crate::faults::{cut_fault, refusal_fault};
use crate::run::Run;
use crate::schedule::next_said;
use lk_forms::{Fault, Sched};
use lk_stream::put_before_read;
use lk_text::{Block, LineReader, Sink, Source, WriteFault};

/// A replay whose header was read, with all the memory that it needs.
#[derive(Drop)]
pub(crate) struct Replaying {
    pub(crate) reader: LineReader,
    pub(crate) block: Block,
    pub(crate) run: Run,
    // Whether the line `end` was read.
    pub(crate) ended: bool,
}

impl Replaying {
    ghost use Rattle.lk_replay.specs.Stands.{Stands, IsOpen, StopsAtEnd, FaultStops, TurnsTo, StopsAt, FaultRose, HasCauses, end_of};
    ghost use Rattle.lk_replay.specs.declared.answers.RunFault.{RunFault};

    // Makes the acts of a line.
    fn obey<K: Sink>(&mut self, sink: &mut K, said: Sched) -> Result<(), WriteFault>
        requires ready { CanGoOn self.old.run }
        requires within { IsWithin (length self.old.run.machine.cpus) self.old.run.acts said }
        ensures ok { OnOk result
            (Conveys (K.held sink.old) (K.held sink.new) (waiting self.old.block)
            (lines (occurrences_in self.old.run (acts_said said))) (waiting self.new.block)) }
        ensures err { OnErr result
            (AppendsFront (K.held sink.old) (K.held sink.new)
            (waiting self.old.block ++ lines (occurrences_in self.old.run (acts_said said)))) }
        ensures made { OnOk result (Makes self.old.run self.new.run (acts_said said)) }
        ensures ready { OnOk result (CanGoOn self.new.run) }
        ensures ended { OnOk result (self.new.ended ≡ self.old.ended || is_end said) }
        ensures reader { self.new.reader ≡ self.old.reader }
        ensures cause { HasCause (K.faults sink.old) (K.faults sink.new) result }
    {
        match said {
            Sched::Blank => Ok(()),
            Sched::Run { act, times } => self.run.repeat(&mut self.block, sink, act, times),
            Sched::End => {
                self.ended = true;
                Ok(())
            }
        }
    }

    // Reads one line and makes its acts. Returns whether there may be more lines.
    fn turn<S: Source, K: Sink>(&mut self, source: &mut S, sink: &mut K) -> Result<bool, RunFault>
        requires { IsOpen self.old }
        ensures turns { (input held : Option (List ℕ))
            → Stands input held self.old (S.left source.old) (K.held sink.old)
            → TurnsTo input held self.new (S.left source.new) (K.held sink.new) result }
        ensures opened { result ≡ Ok true → IsOpen self.new }
        ensures shown { result ≡ Err RunFault.ReadFault → waiting self.new.block ≡ [] }
        ensures looked { result ≡ Ok true → looked_at self.old.reader < looked_at self.new.reader }
        ensures causes { HasCauses (S.faults source.old) (S.faults source.new) (K.faults sink.old)
            (K.faults sink.new) result }
    {
        put_before_read(&self.reader, &mut self.block, sink)?;
        let said = match next_said(
            &mut self.reader,
            source,
            self.run.cpus(),
            self.run.acts,
            self.ended,
        ) {
            Ok(Some(Ok(said))) => said,
            Ok(Some(Err(why))) => return Err(refusal_fault(self.reader.lines(), why)),
            Ok(None) => return self.end(),
            Err(fault) => return Err(cut_fault(self.reader.lines() + 1, fault)),
        };
        match self.obey(sink, said) {
            Ok(()) => Ok(true),
            Err(_) => Err(RunFault::WriteFault),
        }
    }

    // The answer at the end of the input: `false`, there are no more lines, if `end` was read.
    fn end(&self) -> Result<bool, RunFault>
        ensures { result ≡ end_of self.now }
    {
        if self.ended {
            return Ok(false);
        }
        Err(RunFault::BadInput {
            line: self.reader.lines() + 1,
            fault: Fault::NoEnd,
        })
    }

    // Reads lines up to the last, and makes their acts.
    fn read_on<S: Source, K: Sink>(&mut self, source: &mut S, sink: &mut K) -> Result<(), RunFault>
        requires { IsOpen self.old }
        ensures stops { (input held : Option (List ℕ))
            → Stands input held self.old (S.left source.old) (K.held sink.old)
            → StopsAt input held self.new (S.left source.new) (K.held sink.new) result }
        ensures causes { HasCauses (S.faults source.old) (S.faults source.new) (K.faults sink.old)
            (K.faults sink.new) result }
    {
        'lines: loop {
            match self.turn(source, sink) {
                Ok(true) => {}
                Ok(false) => return Ok(()),
                Err(fault) => return Err(fault),
            }
        }
    }

    // At the end of a whole trace: writes what is left of the transcript.
    fn close<K: Sink>(&mut self, sink: &mut K) -> Result<Summary, RunFault>
        ensures outcome { (input left held : Option (List ℕ)) (reads reads_now writes : ℕ)
            → StopsAtEnd input held self.old left (K.held sink.old) → writes ≤ K.faults sink.old
            → Outcome (outside input reads held writes)
            (outside left reads_now (K.held sink.new) (K.faults sink.new)) (as_replay result) }
        ensures causes { (reads reads_now : ℕ) → reads ≤ reads_now
            → HasCauses reads reads_now (K.faults sink.old) (K.faults sink.new) result }
    {
        let summary = Summary {
            acts: self.run.acts,
            events: self.run.events,
            counts: self.run.machine.counts(),
        };
        match write_closing(&mut self.block, sink, summary.acts, &summary.counts) {
            Ok(()) => Ok(summary),
            Err(_) => Err(RunFault::WriteFault),
        }
    }

    // Before the end: writes the events that wait. A fault in this is answered in place of what
    // came before.
    fn cut<K: Sink>(&mut self, sink: &mut K, why: RunFault) -> RunFault
        ensures outcome { (input left held : Option (List ℕ)) (reads reads_now writes : ℕ)
            → FaultStops input held self.old left (K.held sink.old) why
            → FaultRose reads reads_now writes (K.faults sink.old) why → writes ≤ K.faults sink.old
            → Outcome (outside input reads held writes)
            (outside left reads_now (K.held sink.new) (K.faults sink.new))
            (Err (as_replay_fault result)) }
        ensures rose { (reads reads_now writes : ℕ)
            → FaultRose reads reads_now writes (K.faults sink.old) why → writes ≤ K.faults sink.old
            → FaultRose reads reads_now writes (K.faults sink.new) result }
        ensures later { K.faults sink.old ≤ K.faults sink.new }
    {
        match why {
            RunFault::WriteFault => RunFault::WriteFault,
            _ => match self.block.flush(sink) {
                Ok(()) => why,
                Err(_) => RunFault::WriteFault,
            },
        }
    }

    /// Reads on to the end of the input, and writes the transcript.
    pub(crate) fn finish<S: Source, K: Sink>(
        mut self,
        source: &mut S,
        sink: &mut K,
    ) -> Result<Summary, RunFault>
        requires { IsOpen self }
        ensures outcome { (input held : Option (List ℕ))
            → Stands input held self (S.left source.old) (K.held sink.old)
            → Outcome (outside input (S.faults source.old) held (K.faults sink.old))
            (outside (S.left source.new) (S.faults source.new) (K.held sink.new)
            (K.faults sink.new)) (as_replay result) }
        ensures causes { HasCauses (S.faults source.old) (S.faults source.new) (K.faults sink.old)
            (K.faults sink.new) result }
    {
        match self.read_on(source, sink) {
            Ok(()) => self.close(sink),
            Err(why) => Err(self.cut(sink, why)),
        }
    }
}
