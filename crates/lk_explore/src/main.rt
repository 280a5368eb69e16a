//! The program behind `./qlock explore`. It reads a trace from standard input, explores every
//! schedule that goes on behind that of the trace, and writes to standard output what they reach,
//! or a shortest schedule to something. Nothing is claimed of the text: the theorems are those of
//! `lk_reach`, which this program calls.
#![tactic(auto)]

ghost use Rattle.std.specs.Prelude.{◌≡◌, ◌<◌, ◌≤◌, ℕ, List, IfOk, length};
ghost use Rattle.lk_names.specs.declared.events.Act.{Act as ActValue};
ghost use Rattle.lk_rows.specs.Programs.{IsLawfulSetup};
ghost use Rattle.lk_reach.specs.Copies.{tight_setup};
ghost use Rattle.lk_reach.specs.Reach.{AreMoves, state_after};
ghost use Rattle.lk_reach.specs.Explored.{IsGood, IsStart, KnowsLike};
ghost use Rattle.lk_reach.specs.Helped.{AreFresh};
ghost use Rattle.lk_reach.specs.Told.{IsGraph, IsWhole};

mod asked;
mod goal;
mod kinds;
mod lines;
mod overview;
mod reading;
mod rows;
mod watcher;

use asked::{Asked, Goal, asked_by};
use goal::add_goal;
use lines::Lines;
use lk_names::Memory;
use lk_reach::{Graph, Helpers, MAX_CPUS, explore};
use lk_rows::Setup;
use lk_stream::{ReplayFault, exit};
use lk_text::{StdSink, StdSource};
use overview::{Locks, add_overview};
use reading::{Start, start_in};
use std::alloc::Global;
use std::process::ExitCode;
use std::thread::Threads;
use watcher::Watcher;

/// What there is to say at the end.
#[derive(Drop)]
pub(crate) enum Answer {
    /// All was written.
    Done,
    /// What was sought is not there, in any schedule.
    None,
    /// The exploration ended before it had met all states.
    Limit,
}

// Writes why a header was refused. Returns the exit status.
fn refuse(rt: &HostRuntime, fault: ReplayFault) -> ExitCode {
    let (told, status) = match fault {
        ReplayFault::BadInput { line, fault } => (
            eprintln!(rt; "bad input line {line}: {fault:?}"),
            exit::BAD_INPUT,
        ),
        ReplayFault::Limit { line, which } => (
            eprintln!(rt; "limit line {line}: {which:?}"),
            exit::LIMIT,
        ),
        ReplayFault::ReadFault => (eprintln!(rt; "read fault"), exit::READ_FAULT),
        ReplayFault::WriteFault => (eprintln!(rt; "write fault"), exit::WRITE_FAULT),
        ReplayFault::Memory => (eprintln!(rt; "out of memory"), exit::MEMORY),
    };
    let _ = told;
    ExitCode::from(status)
}

// Explores every schedule from a start on.
fn explored<R: Threads + Sync>(
    alloc: Global,
    rt: &HostRuntime,
    asked: &Asked,
    start: Start,
    helpers: Helpers<'_, R>,
) -> Result<Graph, Memory>
    requires helpers { AreFresh start.machine.setup helpers.list.items }
    requires few { length start.machine.cpus ≤ 8 }
    requires start { IsStart start.plan start.machine }
    requires extras { start.plan.extras ≡ asked.now.extras }

    // If the graph is whole, it knows every state that a schedule reaches from there.
    ensures all { IfOk result (λ graph. IsWhole graph → (acts : List ActValue)
        → AreMoves asked.now.extras start.machine.setup acts
        → KnowsLike start.plan start.machine.setup graph.space
        (state_after start.plan start.machine.setup acts)) }

    // Every state that it knows is one that a schedule reaches from there.
    ensures only { IfOk result (λ graph. (k : ℕ) → k < length graph.space.keys
        → IsGood start.plan start.machine.setup graph.space k) }
    ensures graph { IfOk result (λ graph. IsGraph graph) }
{
    let mut watcher = Watcher::new(rt, asked);
    explore(alloc, start.machine, start.plan, &mut watcher, helpers)
}

// Appends what was asked for.
fn add_answer(
    alloc: Global,
    lines: &mut Lines,
    asked: &Asked,
    locks: &Locks,
    graph: &mut Graph,
) -> Result<Answer, Memory>
    requires graph { IsGraph graph.old }
{
    match asked.goal {
        Goal::Overview => add_overview(alloc, lines, asked, locks, graph),
        _ => add_goal(alloc, lines, asked, graph),
    }
}

// Explores every schedule from a start on, and writes what was asked for.
fn tell<R: Threads + Sync>(
    alloc: Global,
    rt: &HostRuntime,
    asked: &Asked,
    start: Start,
    helpers: Helpers<'_, R>,
) -> Result<Answer, ReplayFault>
    requires helpers { AreFresh start.machine.setup helpers.list.items }
    requires few { length start.machine.cpus ≤ 8 }
    requires start { IsStart start.plan start.machine }
    requires extras { start.plan.extras ≡ asked.now.extras }
{
    let locks = Locks {
        mode: start.machine.mode(),
        has_spin: start.has_spin,
        has_rw: start.has_rw,
    };
    let mut graph = explored(alloc, rt, asked, start, helpers)?;
    let mut lines = Lines::new(alloc)?;
    let answer = add_answer(alloc, &mut lines, asked, &locks, &mut graph)?;
    lines.put(&mut StdSink::new(rt.stdout()))?;
    Ok(answer)
}

// The same, with helpers for the setup of the start, which take their threads from a host.
fn answered<R: Threads + Sync>(
    host: &R,
    rt: &HostRuntime,
    asked: &Asked,
    start: Start,
    setup: &Setup,
) -> Result<Answer, ReplayFault>
    requires few { length start.machine.cpus ≤ 8 }
    requires start { IsStart start.plan start.machine }
    requires extras { start.plan.extras ≡ asked.now.extras }
    requires setup { start.machine.setup ≡ tight_setup setup.now }
    requires lawful { IsLawfulSetup setup.now }
{
    let alloc = rt.alloc();
    let helpers = Helpers::new(host, alloc, setup, asked.helpers())?;
    tell(alloc, rt, asked, start, helpers)
}

// Says how it ended. Returns the exit status.
fn end(answer: Answer) -> ExitCode {
    match answer {
        Answer::Done => ExitCode::SUCCESS,
        Answer::None => ExitCode::from(1),
        Answer::Limit => ExitCode::from(exit::LIMIT),
    }
}

// Refuses a trace of too many processors. Returns the exit status.
fn refuse_processors(rt: &HostRuntime, cpus: u32) -> ExitCode {
    let _ = eprintln!(rt; "limit processors: {cpus}, and at most {MAX_CPUS} are explored");
    ExitCode::from(exit::LIMIT)
}

// Refuses to fold states behind a schedule, at whose end processors that are alike differ. Returns
// the exit status.
fn refuse_fold(rt: &HostRuntime) -> ExitCode {
    let _ = eprintln!(rt; "limit schedule: states are folded only where there is none");
    ExitCode::from(exit::LIMIT)
}

fn main(rt: HostRuntime) -> ExitCode {
    let alloc = rt.alloc();
    let Some(asked) = asked_by(&rt) else {
        let _ = eprintln!(rt; "usage: qlock-explore [OPTIONS] < TRACE");
        return ExitCode::from(exit::USAGE);
    };
    let mut source = StdSource::new(rt.stdin());
    let (start, setup) = match start_in(alloc, &mut source, asked.extras, asked.fold) {
        Ok(read) => read,
        Err(fault) => return refuse(&rt, fault),
    };
    let cpus = start.machine.cpus();
    if cpus as usize > MAX_CPUS {
        return refuse_processors(&rt, cpus);
    }
    if asked.fold && !start.plan.is_folding() {
        return refuse_fold(&rt);
    }
    match answered(&rt, &rt, &asked, start, &setup) {
        Ok(answer) => end(answer),
        Err(fault) => refuse(&rt, fault),
    }
}
