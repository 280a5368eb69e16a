// What is seen of a processor: what an act of it changes, if it changes anything.

ghost use Rattle.std.specs.Prelude.{◌≡◌, ◌≢◌, ◌<◌, true};
ghost use Rattle.lk_rows.specs.Machine.{HasTop};
ghost use Rattle.lk_rows.specs.Programs.{HasPrograms};
ghost use Rattle.lk_reach.specs.Sights.{sight_of};

use lk_idle::rested;
use lk_machine::Machine;
use lk_rows::{Frame, Pc};

/// What is seen of a processor.
#[derive(Clone, Copy)]
pub(crate) struct Sight {
    /// How many frames it has.
    depth: u32,
    /// The newest one, with its dead registers at rest.
    top: Frame,
    preempted: bool,
    halted: bool,
    kicked: bool,
    /// How many of its handlers have not begun.
    handlers: u32,
}

/// What is seen of a processor.
#[tactic(auto, unfolding(lk_rows::specs::Machine::handlers_at))]
pub(crate) fn seen_of(machine: &Machine, cpu: u32) -> Sight
    requires top { HasTop machine.now cpu }
    requires programs { HasPrograms machine.now.setup cpu }
    ensures { result ≡ sight_of machine.now cpu }
{
    Sight {
        depth: machine.depth(cpu),
        top: rested(machine.frame(cpu)),
        preempted: machine.preempted(cpu),
        halted: machine.halted(cpu),
        kicked: machine.kicked(cpu),
        handlers: machine.handlers_left(cpu),
    }
}

/// Whether two rows, if there are any, are different ones.
pub(crate) fn other_row(a: Option<Pc>, b: Option<Pc>) -> bool
    ensures { result ≡ true → a ≢ b }
{
    a != b
}

// Whether two frames stand at different points of their programs.
fn other_point(a: &Frame, b: &Frame) -> bool
    ensures { result ≡ true → a.now ≢ b.now }
{
    other_row(a.place, b.place)
        || a.at != b.at
        || a.program != b.program
        || a.lock != b.lock
        || other_row(a.then, b.then)
}

// Whether the frames have different nodes before or behind their own.
fn other_names(a: &Frame, b: &Frame) -> bool
    ensures { result ≡ true → a.now ≢ b.now }
{
    a.me != b.me || a.prev != b.prev || a.second != b.second || a.y != b.y || a.target != b.target
}

// Whether the frames choose a successor differently.
fn other_choice(a: &Frame, b: &Frame) -> bool
    ensures { result ≡ true → a.now ≢ b.now }
{
    a.a != b.a || a.b != b.b || a.t != b.t || a.k != b.k || a.why != b.why
}

// Whether two frames are different.
fn other_frame(a: &Frame, b: &Frame) -> bool
    ensures { result ≡ true → a.now ≢ b.now }
{
    other_point(a, b)
        || a.left != b.left
        || a.hashed != b.hashed
        || a.tailed != b.tailed
        || other_names(a, b)
        || other_choice(a, b)
}

/// Whether two sights are different.
pub(crate) fn differ(a: &Sight, b: &Sight) -> bool
    ensures { result ≡ true → a.now ≢ b.now }
{
    other_frame(&a.top, &b.top)
        || a.depth != b.depth
        || a.handlers != b.handlers
        || a.preempted != b.preempted
        || a.halted != b.halted
        || a.kicked != b.kicked
}
