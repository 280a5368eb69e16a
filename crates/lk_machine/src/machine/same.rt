// Whether two frames, or two nodes, are the same. Each is compared field by field.

ghost use Rattle.std.specs.Prelude.{◌≡◌, true};
ghost use Rattle.lk_machine.specs.Parts.{AreSameNames, IsSamePoint};

use lk_rows::{Flag, Frame, Node, Pc, State, Why};
use lk_word::NodeName;

// Whether two rows are the same.
fn same_row(a: Pc, b: Pc) -> bool
    ensures { result ≡ true → a ≡ b }
{
    a == b
}

// Whether two places are the same.
fn same_place(a: Option<Pc>, b: Option<Pc>) -> bool
    ensures { result ≡ true → a ≡ b }
{
    match (a, b) {
        (None, None) => true,
        (Some(a), Some(b)) => same_row(a, b),
        _ => false,
    }
}

// Whether two nodes, if there are any, have the same name.
fn same_name(a: Option<NodeName>, b: Option<NodeName>) -> bool
    ensures { result ≡ true → a ≡ b }
{
    match (a, b) {
        (None, None) => true,
        (Some(a), Some(b)) => a.cpu == b.cpu && a.index == b.index,
        _ => false,
    }
}

fn same_why(a: Why, b: Why) -> bool
    ensures { result ≡ true → a ≡ b }
{
    matches!(
        (a, b),
        (Why::Append, Why::Append) | (Why::Flush, Why::Flush) | (Why::Promotion, Why::Promotion)
    )
}

fn same_flag(a: Flag, b: Flag) -> bool
    ensures { result ≡ true → a ≡ b }
{
    match (a, b) {
        (Flag::Unset, Flag::Unset) | (Flag::Go, Flag::Go) => true,
        (Flag::Second(a), Flag::Second(b)) => a.cpu == b.cpu && a.index == b.index,
        _ => false,
    }
}

fn same_state(a: State, b: State) -> bool
    ensures { result ≡ true → a ≡ b }
{
    matches!(
        (a, b),
        (State::Running, State::Running)
            | (State::Halted, State::Halted)
            | (State::Hashed, State::Hashed)
    )
}

// Whether two frames stand at the same point of their programs.
fn same_point(a: &Frame, b: &Frame) -> bool
    ensures { result ≡ true → IsSamePoint a.now b.now }
{
    a.ctx == b.ctx
        && a.program == b.program
        && a.at == b.at
        && same_place(a.place, b.place)
        && a.lock.index == b.lock.index
        && a.lock.wait == b.lock.wait
        && same_place(a.then, b.then)
}

// Whether two frames have the same nodes.
fn same_names(a: &Frame, b: &Frame) -> bool
    ensures { result ≡ true → AreSameNames a.now b.now }
{
    same_name(a.me, b.me)
        && same_name(a.prev, b.prev)
        && same_name(a.second, b.second)
        && same_name(a.y, b.y)
        && same_name(a.a, b.a)
        && same_name(a.b, b.b)
        && same_name(a.t, b.t)
        && same_name(a.target, b.target)
}

// Whether two frames are the same.
fn same_frame(a: &Frame, b: &Frame) -> bool
    ensures { result ≡ true → a.now ≡ b.now }
{
    same_point(a, b)
        && same_names(a, b)
        && a.k == b.k
        && a.left == b.left
        && same_why(a.why, b.why)
        && a.tailed == b.tailed
        && a.hashed == b.hashed
}

// Whether two nodes are the same.
fn same_node(a: &Node, b: &Node) -> bool
    ensures { result ≡ true → a.now ≡ b.now }
{
    same_flag(a.flag, b.flag)
        && same_name(a.next, b.next)
        && same_name(a.second_tail, b.second_tail)
        && a.runs == b.runs
        && same_state(a.state, b.state)
}

// Whether frames are the same.
pub(super) fn same_frames(a: &[Frame], b: &[Frame]) -> bool
    ensures { result ≡ true → a.now ≡ b.now }
{
    if a.len() != b.len() {
        return false;
    }
    for i in 0..a.len() {
        if !same_frame(&a[i], &b[i]) {
            return false;
        }
    }
    true
}

// Whether nodes are the same.
pub(super) fn same_nodes(a: &[Node], b: &[Node]) -> bool
    ensures { result ≡ true → a.now ≡ b.now }
{
    if a.len() != b.len() {
        return false;
    }
    for i in 0..a.len() {
        if !same_node(&a[i], &b[i]) {
            return false;
        }
    }
    true
}
