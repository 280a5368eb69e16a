// What the states of a graph tell.

ghost use Rattle.lk_reach.specs.Told.{IsGraph, IsWhole};

use crate::Answer;
use crate::asked::Asked;
use crate::kinds::kind_name;
use crate::lines::Lines;
use crate::rows::{all_rows, is_of};
use lk_names::{Memory, Mode};
use lk_reach::{Graph, KINDS};
use lk_rows::Pc;
use std::alloc::Global;

/// The family and the kinds of the locks.
#[derive(Clone, Copy)]
pub(crate) struct Locks {
    pub mode: Mode,
    pub has_spin: bool,
    pub has_rw: bool,
}

// Whether the row of this number is marked so.
fn is_marked(marks: &[bool], number: usize, made: bool) -> bool {
    match marks.get(number) {
        Some(mark) => *mark == made,
        None => false,
    }
}

// The rows that some schedule makes, or those of the declared locks that none makes.
fn add_rows(lines: &mut Lines, locks: &Locks, rows: &[Pc], marks: &[bool], made: bool) {
    lines.word(if made { "rows" } else { "never" });
    for number in 0..rows.len() {
        let row = rows[number];
        if is_marked(marks, number, made) && (made || is_of(locks, row)) {
            lines.word(" ");
            lines.row(row);
        }
    }
    lines.word("\n");
}

// The kinds of events that were met.
fn add_events(lines: &mut Lines, graph: &Graph) {
    let events = graph.events();
    for kind in 0..KINDS {
        if events[kind] > 0 {
            lines.word("event ");
            lines.count(kind_name(kind), events[kind], graph.folds());
        }
    }
}

// How many marks are set.
fn count(marks: &[bool]) -> u64 {
    let mut count = 0u64;
    for at in 0..marks.len() {
        if marks[at] {
            count = count.saturating_add(1);
        }
    }
    count
}

// How the states end.
fn add_ends(alloc: Global, lines: &mut Lines, graph: &mut Graph) -> Result<(), Memory>
    requires graph { IsGraph graph.old }
    requires whole { IsWhole graph.old }
{
    let folds = graph.folds();
    lines.count("finished", count(&graph.finished(alloc)?), folds);
    lines.count("stuck", count(&graph.stuck(alloc)?), folds);
    lines.count("doomed", count(&graph.doomed(alloc)?), folds);
    Ok(())
}

// The first lines.
fn add_sizes(lines: &mut Lines, graph: &Graph)
    requires graph { IsGraph graph.now }
{
    lines.count("states", graph.states() as u64, graph.folds());
    lines.count("edges", graph.edges() as u64, graph.folds());
    lines.line("deepest", u64::from(graph.deepest()));
}

// The limit at which an exploration ended.
fn add_limit(lines: &mut Lines, asked: &Asked, graph: &Graph) {
    if graph.states() > asked.states {
        lines.line("limit states", asked.states as u64);
    } else {
        lines.line("limit memory", asked.memory as u64);
    }
}

/// Appends the overview of a graph.
///
/// # Errors
///
/// There is not enough memory.
pub(crate) fn add_overview(
    alloc: Global,
    lines: &mut Lines,
    asked: &Asked,
    locks: &Locks,
    graph: &mut Graph,
) -> Result<Answer, Memory>
    requires graph { IsGraph graph.old }
{
    let rows = all_rows(alloc)?;
    let marks = graph.rows_made(alloc, &rows)?;
    add_sizes(lines, graph);
    add_rows(lines, locks, &rows, &marks, true);
    if !graph.is_whole() {
        add_events(lines, graph);
        add_limit(lines, asked, graph);
        return Ok(Answer::Limit);
    }
    add_rows(lines, locks, &rows, &marks, false);
    add_events(lines, graph);
    add_ends(alloc, lines, graph)?;
    Ok(Answer::Done)
}
