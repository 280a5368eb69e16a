// The other processor that a step touches.

ghost use Rattle.std.specs.Prelude.{◌≡◌};
ghost use Rattle.lk_touch.specs.Touching.{cpu_of, other_at, other_of};

use lk_rows::{Frame, Pc};
use lk_word::NodeName;

// The processor of the node that a register names.
fn cpu_of(name: Option<NodeName>) -> Option<u32>
    ensures { result ≡ cpu_of name }
{
    match name {
        Some(name) => Some(name.cpu),
        None => None,
    }
}

// The other processor that a row touches, or the one that makes it if it touches no other. Of three rows
// of a head that chooses a successor nothing is said.
fn other_of(row: Pc, frame: &Frame, cpu: u32) -> Option<u32>
    ensures { result ≡ other_of row frame.now cpu }
{
    use Pc::*;
    match row {
        C1 | C2 | C7 => None,
        G5 | W2 => cpu_of(frame.prev),
        G6 | G10 | W1 | W3 | W4 | W5 | W7 | E1 | E2 | E10 | E14 => cpu_of(frame.me),
        G11 | C8 | E15 | K1 => cpu_of(frame.y),
        C3 | C6 => cpu_of(frame.second),
        C4 | C9 => cpu_of(frame.t),
        C5 => cpu_of(frame.b),
        U5 => cpu_of(frame.target),
        _ => Some(cpu),
    }
}

/// The other processor that the row of a processor's frame touches, or the same one if it touches no
/// other; `None` if it may touch more.
pub fn other_at(frame: &Frame, cpu: u32) -> Option<u32>
    ensures { result ≡ other_at frame.now.place frame.now cpu }
{
    match frame.place {
        Some(row) => other_of(row, frame, cpu),
        None => Some(cpu),
    }
}
