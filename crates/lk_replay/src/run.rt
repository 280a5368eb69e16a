// The acts of a replay, made one after the other, and the lines of their events.
ghost use Rattle.std.specs.Prelude.{◌≡◌, ◌≤◌, ◌<◌, ◌+◌, [], ◌++◌, IfOk, OnOk, OnErr, length, replicate};
ghost use Rattle.lk_text.specs.Causes.{HasCause};
ghost use Rattle.lk_text.specs.Bytes.{AppendsFront, Conveys};
ghost use Rattle.lk_text.specs.Block.{waiting};
ghost use Rattle.lk_rows.specs.Programs.{IsLawfulSetup};
ghost use Rattle.lk_rows.specs.Acts.{processor_of};
ghost use Rattle.lk_rows.specs.Run.{occurs};
ghost use Rattle.lk_forms.specs.Texts.{lines};

use lk_core::rest_shows;
use lk_forms::write_event;
use lk_machine::Machine;
use lk_names::{Act, Event, Memory};
use lk_rows::Setup;
use lk_text::{Block, Sink, WriteFault};
use std::alloc::Global;

// Room for the line of an event.
const EVENT_ROOM: usize = 128;

/// A machine, the number of acts that were made on it, and the number of events that they told.
#[derive(Drop)]
pub(crate) struct Run {
    pub(crate) machine: Machine,
    pub(crate) acts: u64,
    pub(crate) events: u64,
    ghost some: { events ≤ acts },
}

impl Run {
    ghost use Rattle.lk_replay.specs.Run.{CanGoOn, RanTo, Makes, occurrences_in};

    /// The machine of a setup, on which no act was made. It takes all its memory here.
    pub(crate) fn at_rest(alloc: Global, setup: Setup) -> Result<Run, Memory>
        requires { IsLawfulSetup setup }
        ensures nothing { IfOk result (λ run. RanTo run setup []) }
        ensures ready { IfOk result CanGoOn }
    {
        rest_shows();
        let machine = Machine::new(alloc, setup)?;
        Ok(Run {
            machine,
            acts: 0,
            events: 0,
        })
    }

    /// The number of processors.
    #[inline]
    pub(crate) fn cpus(&self) -> u32
        ensures { result ≡ length self.now.machine.cpus }
    {
        self.machine.cpus()
    }

    // Makes an act up to `times` times, and stops after one that tells an event. Returns how often
    // the act was made. The function knows no sink, so that it is compiled once for all sinks. It
    // adds to the count of acts once, when it stops.
    fn until_event(&mut self, act: Act, times: u64) -> (u64, Option<Event>)
        requires ready { CanGoOn self.old }
        requires few { self.old.acts + times ≤ 100000000 }
        requires processor { processor_of act < length self.old.machine.cpus }
        ensures most { result.0 ≤ times }
        ensures some { 0 < times → 0 < result.0 }
        ensures told { occurs self.new.acts result.1
            ≡ occurrences_in self.old (replicate result.0 act) }
        ensures ready { CanGoOn self.new }
        ensures made { Makes self.old self.new (replicate result.0 act) }
    {
        for made in 0..times {
            if let Some(event) = lk_core::act(&mut self.machine, act) {
                self.acts += made + 1;
                self.events += 1;
                return (made + 1, Some(event));
            }
        }
        self.acts += times;
        (times, None)
    }

    // Makes an act up to `times` times, and stops after one that tells an event, which it writes.
    // Returns how often the act was made.
    #[inline]
    fn make<K: Sink>(
        &mut self,
        block: &mut Block,
        sink: &mut K,
        act: Act,
        times: u64,
    ) -> Result<u64, WriteFault>
        requires ready { CanGoOn self.old }
        requires few { self.old.acts + times ≤ 100000000 }
        requires processor { processor_of act < length self.old.machine.cpus }
        ensures most { IfOk result (λ made. made ≤ times) }
        ensures some { IfOk result (λ made. 0 < times → 0 < made) }
        ensures ok { IfOk result (λ made.
            Conveys (K.held sink.old) (K.held sink.new) (waiting block.old)
            (lines (occurrences_in self.old (replicate made act))) (waiting block.new)) }
        ensures err { OnErr result
            (AppendsFront (K.held sink.old) (K.held sink.new) (waiting block.old)) }
        ensures ready { CanGoOn self.new }
        ensures made { IfOk result (λ made. Makes self.old self.new (replicate made act)) }
        ensures cause { HasCause (K.faults sink.old) (K.faults sink.new) result }
    {
        let (made, event) = self.until_event(act, times);
        if let Some(event) = event {
            block.make_room(sink, EVENT_ROOM)?;
            write_event(block, self.acts, &event);
        }
        Ok(made)
    }

    /// Makes an act `times` times, and writes the events that it tells.
    pub(crate) fn repeat<K: Sink>(
        &mut self,
        block: &mut Block,
        sink: &mut K,
        act: Act,
        times: u64,
    ) -> Result<(), WriteFault>
        requires ready { CanGoOn self.old }
        requires few { self.old.acts + times ≤ 100000000 }
        requires processor { processor_of act < length self.old.machine.cpus }
        ensures ok { OnOk result
            (Conveys (K.held sink.old) (K.held sink.new) (waiting block.old)
            (lines (occurrences_in self.old (replicate times act))) (waiting block.new)) }
        ensures err { OnErr result
            (AppendsFront (K.held sink.old) (K.held sink.new)
            (waiting block.old ++ lines (occurrences_in self.old (replicate times act)))) }
        ensures ready { OnOk result (CanGoOn self.new) }
        ensures made { OnOk result (Makes self.old self.new (replicate times act)) }
        ensures cause { HasCause (K.faults sink.old) (K.faults sink.new) result }
    {
        let mut made = 0;
        while made < times {
            made += self.make(block, sink, act, times - made)?;
        }
        Ok(())
    }
}
