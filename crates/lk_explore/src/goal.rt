// A shortest schedule to what is sought.

ghost use Rattle.lk_reach.specs.Told.{IsGraph};

use crate::Answer;
use crate::asked::{Asked, Goal};
use crate::lines::Lines;
use lk_names::{Act, Memory};
use lk_reach::{Deed, Graph, Sought};
use std::alloc::Global;

// Steps of one processor in a row, which are one line.
#[derive(Clone, Copy)]
struct Run {
    cpu: u32,
    count: u64,
}

// No steps.
const NO_STEPS: Run = Run { cpu: 0, count: 0 };

// The acts of a shortest schedule to a state that is lost, if there is one. If the exploration did
// not meet all states, none is: what leads on from a state may not be known yet.
fn lost(alloc: Global, goal: Goal, graph: &mut Graph) -> Result<Option<Vec<Act>>, Memory>
    requires graph { IsGraph graph.old }
{
    if !graph.is_whole() {
        return Ok(None);
    }
    match goal {
        Goal::Stuck => graph.acts_to_stuck(alloc),
        _ => graph.acts_to_doom(alloc),
    }
}

// What an act is to do, if one is sought.
fn deed_of(goal: Goal) -> Option<Deed> {
    match goal {
        Goal::Row(row) => Some(Deed::Row(row)),
        Goal::Event(kind) => Some(Deed::Event(kind)),
        Goal::Count(count) => Some(Deed::Count(count)),
        _ => None,
    }
}

// The acts of a shortest schedule to an act that is sought, with this act, unless it makes a row.
fn schedule_to(
    alloc: Global,
    asked: &Asked,
    deed: Deed,
    graph: &mut Graph,
) -> Result<Option<Vec<Act>>, Memory>
    requires graph { IsGraph graph.old }
{
    // Where states are folded no processor is named.
    let cpu = if graph.folds() { None } else { asked.cpu };
    let sought = Sought {
        deed,
        cpu,
        lock: asked.lock,
    };
    let Some((mut acts, last)) = graph.acts_to_deed(alloc, sought)? else {
        return Ok(None);
    };
    if !matches!(deed, Deed::Row(_)) {
        acts.push(last).map_err(|_| Memory)?;
    }
    Ok(Some(acts))
}

// The acts of a shortest schedule to what is sought of any processor, if there is one.
fn schedule(alloc: Global, goal: Goal, graph: &mut Graph) -> Result<Option<Vec<Act>>, Memory>
    requires graph { IsGraph graph.old }
{
    match goal {
        Goal::Row(row) => graph.acts_to_row(alloc, row),
        Goal::Event(kind) => graph.acts_to_event(alloc, kind),
        Goal::Finished => graph.acts_to_end(alloc),
        Goal::Stuck | Goal::Doomed => lost(alloc, goal, graph),
        Goal::Overview | Goal::Count(_) => Ok(None),
    }
}

// The acts of a shortest schedule to what is sought, if there is one.
fn acts_to_goal(alloc: Global, asked: &Asked, graph: &mut Graph) -> Result<Option<Vec<Act>>, Memory>
    requires graph { IsGraph graph.old }
{
    match deed_of(asked.goal) {
        Some(deed) if asked.is_particular() => schedule_to(alloc, asked, deed, graph),
        _ => schedule(alloc, asked.goal, graph),
    }
}

// Appends the line of steps, if there are any.
fn add_steps(lines: &mut Lines, run: Run) {
    if run.count > 0 {
        lines.word("step ");
        lines.number(u64::from(run.cpu));
        lines.line("", run.count);
    }
}

// The word of an act, and its processor.
fn word_of(doing: Act) -> (&'static str, u32) {
    match doing {
        Act::Step(cpu) => ("step", cpu),
        Act::Interrupt(cpu) => ("int", cpu),
        Act::Preempt(cpu) => ("pre", cpu),
        Act::Resume(cpu) => ("res", cpu),
        Act::Nudge(cpu) => ("nudge", cpu),
    }
}

// Appends the steps before an act, and the act, unless it is one more of these steps. Returns the
// steps that have no line yet.
fn add_act(lines: &mut Lines, run: Run, doing: Act) -> Run {
    let (word, cpu) = word_of(doing);
    let is_step = matches!(doing, Act::Step(_));
    if is_step && cpu == run.cpu {
        let count = run.count.saturating_add(1);
        return Run { cpu, count };
    }
    add_steps(lines, run);
    if is_step {
        return Run { cpu, count: 1 };
    }
    lines.line(word, u64::from(cpu));
    NO_STEPS
}

// Appends acts as a schedule.
fn add_schedule(lines: &mut Lines, acts: &[Act]) {
    let mut run = NO_STEPS;
    for at in 0..acts.len() {
        run = add_act(lines, run, acts[at]);
    }
    add_steps(lines, run);
    lines.word("end\n");
}

/// Appends a shortest schedule to what is sought.
///
/// # Errors
///
/// There is not enough memory.
pub(crate) fn add_goal(
    alloc: Global,
    lines: &mut Lines,
    asked: &Asked,
    graph: &mut Graph,
) -> Result<Answer, Memory>
    requires graph { IsGraph graph.old }
{
    let is_whole = graph.is_whole();
    match acts_to_goal(alloc, asked, graph)? {
        Some(acts) => {
            add_schedule(lines, &acts);
            Ok(Answer::Done)
        }
        None if is_whole => Ok(Answer::None),
        None => Ok(Answer::Limit),
    }
}
