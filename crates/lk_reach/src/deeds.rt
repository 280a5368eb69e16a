// What an act does, and whether that is sought.

ghost use Rattle.std.specs.Prelude.{◌≡◌, ◌<◌, length, true, false};
ghost use Rattle.lk_rows.specs.Acts.{next, processor_of};
ghost use Rattle.lk_law.specs.Sound.{IsSound};
ghost use Rattle.lk_reach.specs.Deeds.{IsSought, IsThat, Does, TellsKind, count_value, row_by};
ghost use Rattle.lk_reach.specs.Explored.{IsSuch};

use crate::kinds::kind_of;
use crate::making::{make, no_counts};
use crate::space::is_row;
use lk_core::act;
use lk_machine::Machine;
use lk_names::{Act, Event};
use lk_rows::{Counts, Pc};

/// What an act does.
#[derive(Clone, Copy)]
pub enum Deed {
    /// A step makes this row.
    Row(Pc),
    /// It tells an event of the kind with this number.
    Event(usize),
    /// It raises the count with this number, in the order of `Counts`.
    Count(usize),
}

/// An act that is sought.
#[derive(Clone, Copy)]
pub struct Sought {
    /// What it does.
    pub deed: Deed,
    /// Whose act it is, if it is that of one processor.
    pub cpu: Option<u32>,
    /// The declared lock on which the newest frame of its processor acts, if it is one of them.
    pub lock: Option<u32>,
}

// Whether a number is the one that is sought, if one is.
fn is_that(sought: Option<u32>, number: u32) -> bool
    ensures yes { result ≡ true → IsThat sought number }
    ensures no { result ≡ false → ¬ IsThat sought number }
{
    match sought {
        Some(which) => number == which,
        None => true,
    }
}

/// The processor of an act.
pub(crate) fn cpu_of(doing: Act) -> u32
    ensures { result ≡ processor_of doing }
{
    match doing {
        Act::Step(cpu) => cpu,
        Act::Interrupt(cpu) => cpu,
        Act::Preempt(cpu) => cpu,
        Act::Resume(cpu) => cpu,
        Act::Nudge(cpu) => cpu,
    }
}

// The row that an act makes.
fn row_made(machine: &Machine, doing: Act) -> Option<Pc>
    requires { processor_of doing < length machine.now.cpus }
    ensures { result ≡ row_by machine.now doing }
{
    match doing {
        Act::Step(cpu) => machine.cpu_part(cpu).next_row(),
        Act::Interrupt(_) => None,
        Act::Preempt(_) => None,
        Act::Resume(_) => None,
        Act::Nudge(_) => None,
    }
}

// Whether an event is of this kind.
fn is_of_kind(told: Option<Event>, kind: usize) -> bool
    ensures yes { result ≡ true → TellsKind told kind }
    ensures no { result ≡ false → ¬ TellsKind told kind }
{
    match told {
        Some(event) => kind_of(event.what) == kind,
        None => false,
    }
}

// The count with this number.
fn count_of(counts: Counts, number: usize) -> u64
    ensures { result ≡ count_value counts number }
{
    match number {
        0 => counts.lock_pending,
        1 => counts.lock_slowpath,
        2 => counts.lock_use_node2,
        3 => counts.lock_use_node3,
        4 => counts.lock_use_node4,
        5 => counts.lock_no_node,
        6 => counts.pv_lock_stealing,
        7 => counts.pv_wait_node,
        8 => counts.pv_wait_head,
        _ => counts.pv_kick_unlock,
    }
}

// Whether an act raises a count of a machine that has counted nothing. It counts nothing afterwards.
#[tactic(auto, unfolding(lk_rows::specs::Machine::set_counts))]
fn raises(machine: &mut Machine, doing: Act, count: usize) -> bool
    requires such { IsSuch machine.old.setup machine.old }
    requires sound { IsSound machine.old }
    requires range { processor_of doing < length machine.old.cpus }
    ensures yes { result ≡ true → 0 < count_value (next machine.old doing).0.counts count }
    ensures no { result ≡ false → count_value (next machine.old doing).0.counts count ≡ 0 }
    ensures such { IsSuch machine.old.setup machine.new }
{
    let _ = act(machine, doing);
    let counts = machine.counts();
    machine.set_counts(no_counts());
    count_of(counts, count) > 0
}

// Whether an act does this. The machine is any of its setup afterwards.
fn does(machine: &mut Machine, doing: Act, deed: Deed) -> bool
    requires such { IsSuch machine.old.setup machine.old }
    requires sound { IsSound machine.old }
    requires range { processor_of doing < length machine.old.cpus }
    ensures yes { result ≡ true → Does deed machine.old doing }
    ensures no { result ≡ false → ¬ Does deed machine.old doing }
    ensures such { IsSuch machine.old.setup machine.new }
{
    match deed {
        Deed::Row(row) => is_row(row_made(machine, doing), row),
        Deed::Event(kind) => {
            let told = make(machine, doing);
            is_of_kind(told, kind)
        }
        Deed::Count(count) => raises(machine, doing, count),
    }
}

/// Whether an act does what is sought. The machine is any of its setup afterwards.
pub(crate) fn is_sought(machine: &mut Machine, doing: Act, sought: Sought) -> bool
    requires such { IsSuch machine.old.setup machine.old }
    requires sound { IsSound machine.old }
    requires range { processor_of doing < length machine.old.cpus }
    ensures yes { result ≡ true → IsSought sought machine.old doing }
    ensures no { result ≡ false → ¬ IsSought sought machine.old doing }
    ensures such { IsSuch machine.old.setup machine.new }
{
    let cpu = cpu_of(doing);
    if !is_that(sought.cpu, cpu) {
        return false;
    }
    if !is_that(sought.lock, machine.lock(cpu).index) {
        return false;
    }
    does(machine, doing, sought.deed)
}
