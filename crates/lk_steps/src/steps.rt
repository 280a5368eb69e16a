// The acts of a trace, told one by one as its lines are read.
ghost use Rattle.std.specs.Prelude.{◌≡◌, ◌≤◌, ◌<◌, ◌+◌, true, Ok, IfOk, OnOk, IfSome, length, replicate};
ghost use Rattle.lk_text.specs.Reader.{looked_at};
ghost use Rattle.lk_rows.specs.Acts.{processor_of};
ghost use Rattle.lk_rows.specs.Run.{machine_after};
ghost use Rattle.lk_forms.specs.Schedule.{IsWithin};
ghost use Rattle.lk_replay.specs.Schedule.{acts_said};
ghost use Rattle.lk_steps.specs.Told.{CanGoOn};

use crate::lines::Lines;
use crate::step::Step;
use crate::told::Told;
use lk_forms::{Fault, HeaderReader, LineRefusal, Sched, schedule_line};
use lk_names::Act;
use lk_replay::read_header;
use lk_stream::{ReplayFault, cut, refused};
use lk_text::{LineFault, LineReader, Sink, Source};
use std::alloc::Global;

/// A trace whose header was read. It has all the memory that the acts need.
#[derive(Drop)]
pub(crate) struct Steps {
    reader: LineReader,
    told: Told,
    // The text of the act that is told.
    step: Step,
    lines: Lines,
    // Whether the line `end` was read.
    ended: bool,
}

// Reads the next line of the schedule. Returns what it says or why it is refused; none at the end
// of the input.
fn next_said<S: Source>(
    reader: &mut LineReader,
    source: &mut S,
    told: &Told,
    ended: bool,
) -> Result<Option<Result<Sched, LineRefusal>>, LineFault>
    requires { CanGoOn told.now }
    ensures looked { IfOk result (λ given. IfSome given
        (λ said. looked_at reader.old < looked_at reader.new)) }
    ensures within { IfOk result (λ given. IfSome given
        (λ said. IfOk said (IsWithin (length told.now.machine.cpus) told.now.acts))) }
{
    match reader.next_line(source) {
        Ok(Some(line)) => Ok(Some(schedule_line(line, told.machine.cpus(), told.acts, ended))),
        Ok(None) => Ok(None),
        Err(fault) => Err(fault),
    }
}

impl Steps {
    /// Reads the header of a trace up to the line `go`.
    ///
    /// # Errors
    ///
    /// The first line that is refused, a failed read, or not enough memory.
    pub(crate) fn open<S: Source>(alloc: Global, source: &mut S) -> Result<Steps, ReplayFault>
        ensures { IfOk result (λ steps. CanGoOn steps.told) }
    {
        let mut reader = LineReader::new(alloc)?;
        let step = Step::new(alloc)?;
        let lines = Lines::new(alloc)?;
        let mut header = HeaderReader::new(alloc)?;
        read_header(&mut header, &mut reader, source)?;
        let told = Told::at_rest(alloc, header.finish())?;
        Ok(Steps {
            reader,
            told,
            step,
            lines,
            ended: false,
        })
    }

    // Makes an act `times` times, and tells each.
    fn repeat<K: Sink>(&mut self, sink: &mut K, act: Act, times: u64) -> Result<(), ReplayFault>
        requires ready { CanGoOn self.old.told }
        requires few { self.old.told.acts + times ≤ 100000000 }
        requires processor { processor_of act < length self.old.told.machine.cpus }
        ensures made { OnOk result (self.new.told.machine
            ≡ machine_after self.old.told.machine (replicate times act)) }
        ensures counted { OnOk result (self.new.told.acts ≡ self.old.told.acts + times) }
        ensures ready { CanGoOn self.new.told }
        ensures reader { self.new.reader ≡ self.old.reader }
    {
        for _made in 0..times {
            let event = self.told.act(act, &mut self.step);
            self.lines.tell(self.told.acts, &mut self.step, event);
            self.lines.put_much(sink)?;
        }
        Ok(())
    }

    // Makes the acts of a line.
    fn obey<K: Sink>(&mut self, sink: &mut K, said: Sched) -> Result<(), ReplayFault>
        requires ready { CanGoOn self.old.told }
        requires within { IsWithin (length self.old.told.machine.cpus) self.old.told.acts said }
        ensures made { OnOk result (self.new.told.machine
            ≡ machine_after self.old.told.machine (acts_said said)) }
        ensures counted { OnOk result
            (self.new.told.acts ≡ self.old.told.acts + length (acts_said said)) }
        ensures ready { CanGoOn self.new.told }
        ensures reader { self.new.reader ≡ self.old.reader }
    {
        match said {
            Sched::Blank => Ok(()),
            Sched::Run { act, times } => self.repeat(sink, act, times),
            Sched::End => {
                self.ended = true;
                Ok(())
            }
        }
    }

    // The answer at the end of the input: `false`, there are no more lines, if `end` was read.
    fn end(&self) -> Result<bool, ReplayFault>
        ensures { ¬ (result ≡ Ok true) }
    {
        if self.ended {
            return Ok(false);
        }
        Err(ReplayFault::BadInput {
            line: self.reader.lines() + 1,
            fault: Fault::NoEnd,
        })
    }

    // Reads one line and makes its acts. Returns whether there may be more lines.
    fn turn<S: Source, K: Sink>(
        &mut self,
        source: &mut S,
        sink: &mut K,
    ) -> Result<bool, ReplayFault>
        requires { CanGoOn self.old.told }
        ensures ready { CanGoOn self.new.told }
        ensures looked { result ≡ Ok true → looked_at self.old.reader < looked_at self.new.reader }
    {
        let said = match next_said(&mut self.reader, source, &self.told, self.ended) {
            Ok(Some(Ok(said))) => said,
            Ok(Some(Err(why))) => return Err(refused(self.reader.lines(), why)),
            Ok(None) => return self.end(),
            Err(fault) => return Err(cut(self.reader.lines() + 1, fault)),
        };
        match self.obey(sink, said) {
            Ok(()) => Ok(true),
            Err(fault) => Err(fault),
        }
    }

    // Reads lines up to the last, and tells their acts.
    fn read_on<S: Source, K: Sink>(
        &mut self,
        source: &mut S,
        sink: &mut K,
    ) -> Result<(), ReplayFault>
        requires { CanGoOn self.old.told }
    {
        'lines: loop {
            match self.turn(source, sink) {
                Ok(true) => {}
                Ok(false) => return Ok(()),
                Err(fault) => return Err(fault),
            }
        }
    }

    /// Reads the schedule to the end of the input, and tells its acts.
    ///
    /// # Errors
    ///
    /// The first line that is refused, a failed read, a failed write, or not enough memory for a
    /// text, which may come after lines were written. After a refused line or a failed read, the
    /// acts of the lines before it were written.
    pub(crate) fn run<S: Source, K: Sink>(
        mut self,
        source: &mut S,
        sink: &mut K,
    ) -> Result<(), ReplayFault>
        requires { CanGoOn self.told }
    {
        let read = self.read_on(source, sink);
        if let Err(ReplayFault::WriteFault) = read {
            return read;
        }
        self.lines.end_run();
        self.lines.put(sink)?;
        read
    }
}
