// A trace: its header, and the acts of its schedule, behind which the exploration begins.

ghost use Rattle.std.specs.Prelude.{◌≡◌, ◌<◌, true, Ok, IfOk, IfSome, OnOk};
ghost use Rattle.lk_text.specs.Reader.{looked_at};
ghost use Rattle.lk_rows.specs.Acts.{processor_of};
ghost use Rattle.lk_rows.specs.Programs.{IsLawfulSetup};
ghost use Rattle.lk_forms.specs.Schedule.{IsWithin};
ghost use Rattle.lk_reach.specs.Copies.{tight_setup};
ghost use Rattle.lk_reach.specs.Explored.{IsStart};
ghost use Rattle.lk_reach.specs.Reach.{cpus_of};

use lk_forms::{Fault, HeaderReader, LineRefusal, Sched, schedule_line};
use lk_machine::Machine;
use lk_names::{Act, Kind, List, Memory};
use lk_reach::{Extras, Peers, Plan, copy_of};
use lk_replay::read_header;
use lk_rows::Setup;
use lk_stream::{ReplayFault, cut, refused};
use lk_text::{LineFault, LineReader, Source};
use std::alloc::Global;

/// Where an exploration begins.
#[derive(Drop)]
pub(crate) struct Start {
    /// The machine there.
    pub machine: Machine,
    pub plan: Plan,
    /// Whether there is a spinlock, and whether there is a reader-writer lock.
    pub has_spin: bool,
    pub has_rw: bool,
    // How many acts of the schedule were made, and whether the line `end` was read.
    acts: u64,
    ended: bool,
}

// Whether a lock of this kind is declared.
fn has_kind(kinds: &List<Kind>, kind: Kind) -> bool {
    for at in 0..kinds.len() {
        if *kinds.get(at) == kind {
            return true;
        }
    }
    false
}

// Reads the next line of the schedule. Returns what it says or why it is refused; none at the end
// of the input.
fn next_said<S: Source>(
    reader: &mut LineReader,
    source: &mut S,
    cpus: u32,
    start: (u64, bool),
) -> Result<Option<Result<Sched, LineRefusal>>, LineFault>
    ensures looked { IfOk result (λ given. IfSome given
        (λ said. looked_at reader.old < looked_at reader.new)) }
    ensures within { IfOk result (λ given. IfSome given
        (λ said. IfOk said (IsWithin cpus start.0))) }
{
    match reader.next_line(source) {
        Ok(Some(line)) => Ok(Some(schedule_line(line, cpus, start.0, start.1))),
        Ok(None) => Ok(None),
        Err(fault) => Err(fault),
    }
}

impl Start {
    // A machine of a copy of a setup, at rest. States are folded, if that is asked for.
    fn resting(alloc: Global, setup: &Setup, extras: Extras, fold: bool) -> Result<Start, Memory>
        requires { IsLawfulSetup setup.now }
        ensures start { IfOk result (λ start. IsStart start.plan start.machine) }
        ensures extras { IfOk result (λ start. start.plan.extras ≡ extras) }
        ensures setup { IfOk result (λ start. start.machine.setup ≡ tight_setup setup.now) }
    {
        let has_spin = has_kind(&setup.locks, Kind::Spin);
        let has_rw = has_kind(&setup.locks, Kind::Rw);
        let copy = copy_of(alloc, setup)?;
        let peers = Peers::new(&copy);
        let machine = Machine::new(alloc, copy)?;
        let mut plan = Plan::new(alloc, &machine, extras)?;
        if fold {
            plan.fold(&machine, peers);
        }
        Ok(Start {
            machine,
            plan,
            has_spin,
            has_rw,
            acts: 0,
            ended: false,
        })
    }

    // Makes an act `times` times.
    fn repeat(&mut self, act: Act, times: u64) -> Result<(), Memory>
        requires start { IsStart self.old.plan self.old.machine }
        requires range { processor_of act < cpus_of self.old.machine.setup }
        ensures start { OnOk result (IsStart self.new.plan self.new.machine) }
        ensures extras { OnOk result (self.new.plan.extras ≡ self.old.plan.extras) }
        ensures setup { OnOk result (self.new.machine.setup ≡ self.old.machine.setup) }
    {
        for _made in 0..times {
            self.plan.begin(&mut self.machine, act)?;
        }
        self.acts = self.acts.saturating_add(times);
        Ok(())
    }

    // Makes the acts of a line.
    fn obey(&mut self, said: Sched) -> Result<(), Memory>
        requires start { IsStart self.old.plan self.old.machine }
        requires within { IsWithin (cpus_of self.old.machine.setup) self.old.acts said }
        ensures start { OnOk result (IsStart self.new.plan self.new.machine) }
        ensures extras { OnOk result (self.new.plan.extras ≡ self.old.plan.extras) }
        ensures setup { OnOk result (self.new.machine.setup ≡ self.old.machine.setup) }
    {
        match said {
            Sched::Blank => Ok(()),
            Sched::Run { act, times } => self.repeat(act, times),
            Sched::End => {
                self.ended = true;
                Ok(())
            }
        }
    }

    // Reads one line and makes its acts. Returns whether there may be more lines.
    fn turn<S: Source>(
        &mut self,
        reader: &mut LineReader,
        source: &mut S,
    ) -> Result<bool, ReplayFault>
        requires { IsStart self.old.plan self.old.machine }
        ensures start { OnOk result (IsStart self.new.plan self.new.machine) }
        ensures extras { OnOk result (self.new.plan.extras ≡ self.old.plan.extras) }
        ensures setup { OnOk result (self.new.machine.setup ≡ self.old.machine.setup) }
        ensures looked { result ≡ Ok true → looked_at reader.old < looked_at reader.new }
    {
        let cpus = self.plan.cpus(&self.machine);
        let said = match next_said(reader, source, cpus, (self.acts, self.ended)) {
            Ok(Some(Ok(said))) => said,
            Ok(Some(Err(why))) => return Err(refused(reader.lines(), why)),
            Ok(None) if self.ended => return Ok(false),
            Ok(None) => {
                return Err(ReplayFault::BadInput {
                    line: reader.lines() + 1,
                    fault: Fault::NoEnd,
                });
            }
            Err(fault) => return Err(cut(reader.lines() + 1, fault)),
        };
        self.obey(said)?;
        Ok(true)
    }

    // Reads the schedule to the end of the input, and makes its acts.
    fn read_on<S: Source>(
        &mut self,
        reader: &mut LineReader,
        source: &mut S,
    ) -> Result<(), ReplayFault>
        requires { IsStart self.old.plan self.old.machine }
        ensures start { OnOk result (IsStart self.new.plan self.new.machine) }
        ensures extras { OnOk result (self.new.plan.extras ≡ self.old.plan.extras) }
        ensures setup { OnOk result (self.new.machine.setup ≡ self.old.machine.setup) }
    {
        'lines: loop {
            match self.turn(reader, source) {
                Ok(true) => {}
                Ok(false) => return Ok(()),
                Err(fault) => return Err(fault),
            }
        }
    }
}

/// Reads a trace. Returns where the exploration begins, which is behind its schedule, and its setup. If
/// there is no schedule, states are folded where that is asked for.
///
/// # Errors
///
/// The first line that is refused, a failed read, or not enough memory.
pub(crate) fn start_in<S: Source>(
    alloc: Global,
    source: &mut S,
    extras: Extras,
    fold: bool,
) -> Result<(Start, Setup), ReplayFault>
    ensures start { IfOk result (λ read. IsStart read.0.plan read.0.machine) }
    ensures extras { IfOk result (λ read. read.0.plan.extras ≡ extras) }
    ensures setup { IfOk result (λ read. read.0.machine.setup ≡ tight_setup read.1) }
    ensures lawful { IfOk result (λ read. IsLawfulSetup read.1) }
{
    let mut reader = LineReader::new(alloc)?;
    let mut header = HeaderReader::new(alloc)?;
    read_header(&mut header, &mut reader, source)?;
    let setup = header.finish();
    let mut start = Start::resting(alloc, &setup, extras, fold)?;
    start.read_on(&mut reader, source)?;
    Ok((start, setup))
}
