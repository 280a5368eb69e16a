// A run on its way: acts, made one after the other, and the lines of what happens in them.
ghost use Rattle.std.specs.Prelude.{◌≡◌, ◌≢◌, ◌≤◌, ◌<◌, ◌+◌, ◌∷◌, [], ◌++◌, false, Option, Err, IfOk, OnOk, OnErr, IfErr, length, replicate};
ghost use Rattle.std.specs.Io.KnownBytes.{Appends};
ghost use Rattle.lk_text.specs.Causes.{HasCause};
ghost use Rattle.lk_text.specs.Bytes.{AppendsFront, Conveys};
ghost use Rattle.lk_text.specs.Block.{waiting};
ghost use Rattle.lk_forms.specs.Texts.{end_text};
ghost use Rattle.lk_osq.specs.Run.{occurs};
ghost use Rattle.lk_forms.specs.declared.answers.LineRefusal.{LineRefusal};
ghost use Rattle.lk_stream.specs.Line.{LineMeans, StopRose};
ghost use Rattle.lk_stream.specs.declared.answers.Stop.{Stop};
ghost use Rattle.lk_osq_forms.specs.Grammar.{Said, act_of, ending};
ghost use Rattle.lk_osq_forms.specs.Texts.{lines};
ghost use Rattle.lk_osq_forms.specs.Trace.{osq_grammar};

use lk_forms::{Fault, MAX_ACTS, end_line};
use lk_names::{List, Memory};
use lk_osq::{OsqEvent, OsqMachine};
use lk_osq_forms::{Sched, schedule_line, write_event};
use lk_stream::Stop;
use lk_text::{Block, Sink, WriteFault};
use std::alloc::Global;

// Room for the line of an event.
const EVENT_ROOM: usize = 64;

/// A machine, how many acts were made on it, and whether the line `end` was read.
#[derive(Drop)]
pub(crate) struct Run {
    pub(crate) machine: OsqMachine,
    pub(crate) acts: u64,
    pub(crate) ended: bool,
}

impl Run {
    ghost use Rattle.lk_osq_replay.specs.Run.{Makes, RanTo, RunShows, occurrences_in};

    /// The machine at rest, on which no act was made. It takes all its memory here.
    pub(crate) fn at_rest(alloc: Global, rounds: &List<u32>) -> Result<Run, Memory>
        requires { length rounds.now.items ≤ 64 }
        ensures nothing { IfOk result (λ run. RanTo run rounds.now.items []) }
        ensures goes_on { IfOk result (λ run. run.ended ≡ false) }
    {
        let machine = OsqMachine::new(alloc, rounds)?;
        Ok(Run {
            machine,
            acts: 0,
            ended: false,
        })
    }

    // Makes one act.
    #[inline]
    fn act(&mut self, give: bool, cpu: u32) -> Option<OsqEvent>
        requires few { self.old.acts < MAX_ACTS }
        requires processor { cpu < length self.old.machine.cpus }
        ensures told { occurs self.new.acts result ≡ occurrences_in self.old
            (act_of give cpu ∷ []) }
        ensures made { Makes self.old self.new (act_of give cpu ∷ []) }
    {
        let event = self.machine.act(give, cpu);
        self.acts += 1;
        event
    }

    // Makes one act, and writes what happens in it.
    #[inline]
    fn make<K: Sink>(
        &mut self,
        block: &mut Block,
        sink: &mut K,
        give: bool,
        cpu: u32,
    ) -> Result<(), WriteFault>
        requires few { self.old.acts < MAX_ACTS }
        requires processor { cpu < length self.old.machine.cpus }
        ensures ok { OnOk result
            (Conveys (K.held sink.old) (K.held sink.new) (waiting block.old)
            (lines (occurrences_in self.old (act_of give cpu ∷ []))) (waiting block.new)) }
        ensures err { OnErr result
            (AppendsFront (K.held sink.old) (K.held sink.new) (waiting block.old)) }
        ensures made { Makes self.old self.new (act_of give cpu ∷ []) }
        ensures cause { HasCause (K.faults sink.old) (K.faults sink.new) result }
    {
        if let Some(event) = self.act(give, cpu) {
            block.make_room(sink, EVENT_ROOM)?;
            write_event(block, self.acts, event);
        }
        Ok(())
    }

    // Makes an act so many times, and writes what happens.
    fn repeat<K: Sink>(
        &mut self,
        block: &mut Block,
        sink: &mut K,
        give: bool,
        cpu: u32,
        times: u64,
    ) -> Result<(), WriteFault>
        requires few { self.old.acts + times ≤ MAX_ACTS }
        requires processor { cpu < length self.old.machine.cpus }
        ensures ok { OnOk result
            (Conveys (K.held sink.old) (K.held sink.new) (waiting block.old)
            (lines (occurrences_in self.old (replicate times (act_of give cpu))))
            (waiting block.new)) }
        ensures err { OnErr result
            (AppendsFront (K.held sink.old) (K.held sink.new)
            (waiting block.old ++ lines
            (occurrences_in self.old (replicate times (act_of give cpu))))) }
        ensures made { OnOk result (Makes self.old self.new (replicate times (act_of give cpu))) }
        ensures cause { HasCause (K.faults sink.old) (K.faults sink.new) result }
    {
        for _made in 0..times {
            self.make(block, sink, give, cpu)?;
        }
        Ok(())
    }

    /// Obeys a line of the schedule. It takes no memory.
    pub(crate) fn line<K: Sink>(
        &mut self,
        line: &[u8],
        block: &mut Block,
        sink: &mut K,
    ) -> Result<(), Stop>
        ensures means { (said : Said) → RunShows self.old said
            → LineMeans osq_grammar (RunShows self.new) said line.now (K.held sink.old)
            (K.held sink.new) (waiting block.old) (waiting block.new) result }
        ensures later { K.faults sink.old ≤ K.faults sink.new }
        ensures rose { IfErr result (StopRose (K.faults sink.old) (K.faults sink.new)) }
        ensures no_memory { result ≢ Err (Stop.Refused LineRefusal.Memory) }
    {
        match schedule_line(line, self.machine.cpus(), self.acts, self.ended) {
            Ok(Sched::Blank) => Ok(()),
            Ok(Sched::Run { give, cpu, times }) => {
                match self.repeat(block, sink, give, cpu, times) {
                    Ok(()) => Ok(()),
                    Err(_) => Err(Stop::WriteFault),
                }
            }
            Ok(Sched::End) => {
                self.ended = true;
                Ok(())
            }
            Err(why) => Err(Stop::Refused(why)),
        }
    }

    /// What is wrong where the input ends now: without the line `end` it may not end.
    pub(crate) fn ending(&self) -> Option<Fault>
        ensures { (said : Said) → RunShows self.now said → result ≡ ending said }
    {
        if self.ended { None } else { Some(Fault::NoEnd) }
    }

    /// Writes what waits, and then how many acts there were.
    pub(crate) fn close<K: Sink>(&self, block: &mut Block, sink: &mut K) -> Result<(), WriteFault>
        ensures ok { OnOk result
            (Appends (K.held sink.old) (K.held sink.new)
            (waiting block.old ++ end_text self.now.acts)) }
        ensures err { OnErr result
            (AppendsFront (K.held sink.old) (K.held sink.new)
            (waiting block.old ++ end_text self.now.acts)) }
        ensures cause { HasCause (K.faults sink.old) (K.faults sink.new) result }
    {
        block.push(sink, end_line(self.acts).bytes())?;
        block.flush(sink)
    }
}
