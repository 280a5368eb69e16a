// A judge of one lock, what it is told, and what it answers.

ghost use Rattle.std.specs.Prelude.{◌≡◌, None, ◌+◌, ◌<◌, ◌≤◌, ◌^◌, IsTrue, IfOk, length};
ghost use Rattle.lk_abs.specs.Judge.{JudgeState, taken_by, IsInRange};

use crate::breaches::wanted_breach;
use crate::events::event_of;
use lk_abs::Judge;
use lk_names::{Breach, Event, Format, Kind, List, Memory, Mode, Topology, What};
use std::alloc::Global;
use std::process::Abort;
use std::test::Fail;

/// The format and the lock family by which a judge goes, and the kind of its lock.
pub type Family = (Format, Mode, Kind);

/// A judge of six processors, of which the fourth and the sixth stand on a second socket, and of
/// one lock.
pub fn judge(alloc: Global, family: Family, threshold: u32) -> Result<Judge, Memory>
    requires { threshold ≤ 65535 }
    ensures sockets { IfOk result (λ j. length j.rules.sockets ≡ 6) }
    ensures locks { IfOk result (λ j. length j.locks ≡ 2) }
    ensures new { IfOk result (λ j. taken_by j ≡ 0) }
{
    let topology = Topology {
        sockets: List::from_slice(alloc, &[0, 0, 0, 1, 0, 1])?,
    };
    let (format, mode, kind) = family;
    let locks = List::from_slice(alloc, &[kind])?;
    Judge::new(alloc, format, mode, &topology, threshold, &locks)
}

// Whether such a judge can be asked about the event.
fn is_in_range(event: &Event) -> bool
    ensures { (j : JudgeState)
        → length j.rules.sockets ≡ 6
        → length j.locks ≡ 2
        → taken_by j < 2 ^ 63
        → IsTrue result
        → IsInRange j event.now }
{
    if let What::Kick { cpu }
    | What::Release {
        owing: Some(cpu),
        ..
    } = event.what
        && cpu >= 6
    {
        return false;
    }
    let here = match event.what.lock() {
        Some(lock) => lock.index == 0,
        None => true,
    };
    here && event.by.cpu < 6 && event.by.ctx < 6
}

// The event of a text, which such a judge can be asked about.
fn event_in_range(rt: &impl Abort, text: &str) -> Event
    ensures { (j : JudgeState)
        → length j.rules.sockets ≡ 6
        → length j.locks ≡ 2
        → taken_by j < 2 ^ 63
        → IsInRange j result }
{
    let event = event_of(text).expect(rt, "an event");
    assert!(rt; is_in_range(&event), "at {text}");
    event
}

/// The first breach of these events, if there is one. They are divided by commas.
pub fn first_breach(rt: &impl Abort, judge: &mut Judge, events: &str) -> Option<Breach>
    requires sockets { length judge.old.rules.sockets ≡ 6 }
    requires locks { length judge.old.locks ≡ 2 }
    requires few { taken_by judge.old < 2 ^ 62 }
    ensures sockets { result ≡ None → length judge.new.rules.sockets ≡ 6 }
    ensures locks { result ≡ None → length judge.new.locks ≡ 2 }
    ensures few { result ≡ None → taken_by judge.new ≤ taken_by judge.old + 100 }
{
    let mut told: u64 = 0;
    for text in events.split_terminator(", ") {
        assert!(rt; told < 100);
        told += 1;
        let event = event_in_range(rt, text);
        if let Err(breach) = judge.take(&event) {
            return Some(breach);
        }
    }
    None
}

// Whether a judge that was told what stands before finds in a row what it says: its events, and the
// breach that the last one makes, or `lawful`.
fn answers_so(rt: &impl Abort, judge: &mut Judge, before: &str, row: &str) -> bool
    requires sockets { length judge.old.rules.sockets ≡ 6 }
    requires locks { length judge.old.locks ≡ 2 }
    requires few { taken_by judge.old ≡ 0 }
{
    let (events, wanted) = row.split_once(": ").expect(rt, "an answer");
    first_breach(rt, judge, before).is_none()
        && first_breach(rt, judge, events) == wanted_breach(rt, wanted)
}

// Judges a row behind what is given: a threshold, and what was done lawfully before.
fn judge_row(
    rt: &(impl Abort + AllocGlobal),
    family: Family,
    given: &str,
    row: &str,
) -> Result<(), Fail> {
    let (threshold, before) = given.split_once(": ").unwrap_or((given, ""));
    let threshold = u32::from(threshold.parse::<u16>()?);
    let mut judge = judge(rt.alloc(), family, threshold)?;
    assert!(rt; answers_so(rt, &mut judge, before, row), "at {row}");
    Ok(())
}

// Judges the rows of a section, whose first line is what is given. A line `#` says nothing.
fn judge_section(
    rt: &(impl Abort + AllocGlobal),
    family: Family,
    section: &str,
) -> Result<(), Fail> {
    let (given, rows) = section.split_once('\n').ok_or("no rows")?;
    for row in rows.lines() {
        if !row.starts_with('#') {
            judge_row(rt, family, given, row)?;
        }
    }
    Ok(())
}

/// Judges the histories of a text, one a row. A line `given` says what stands before each row
/// behind it.
pub fn judge_all(rt: &(impl Abort + AllocGlobal), family: Family, text: &str) -> Result<(), Fail> {
    for section in text.split("given ").skip(1) {
        judge_section(rt, family, section)?;
    }
    Ok(())
}
