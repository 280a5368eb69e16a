// What the rows read of a state and of a register.
ghost use Rattle.std.specs.Prelude.{◌≡◌, ◌-◌, ◌==◌, [], ◌∷◌, true, is_some, Some, if◌then◌else◌};
ghost use Rattle.lk_rows.specs.rows.Pv.{is_halted};
ghost use Rattle.lk_rows.specs.Row.{Left, gone};

use lk_rows::{Frame, Pc, State};
use lk_word::NodeName;

// Whether a state is halted.
#[inline]
pub(crate) fn is_halted(state: State) -> bool
    ensures { result ≡ is_halted state }
{
    matches!(state, State::Halted)
}

// The node that a register names. It must name one.
pub(crate) fn known(node: Option<NodeName>) -> NodeName
    requires { is_some node ≡ true }
    ensures { node ≡ Some result }
{
    match node {
        Some(node) => node,
        None => unreachable!(),
    }
}

// The frame after one failed poll: it polls again, or goes elsewhere if no polls are left.
pub(crate) fn after_turn(frame: Frame, again: Pc, over: Pc) -> Frame
    ensures { result
        ≡ (if frame.left - 1 == 0 then gone frame over (Left 0 ∷ []) else gone frame again
        (Left (frame.left - 1) ∷ [])) }
{
    let left = frame.left.saturating_sub(1);
    let place = if left == 0 { over } else { again };
    Frame {
        left,
        place: Some(place),
        ..frame
    }
}
