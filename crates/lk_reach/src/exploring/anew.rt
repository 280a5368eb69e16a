// Where an act leads from a state, by making it. Unlike where helpers look, parts that nobody had met are
// met then.

ghost use Rattle.std.specs.Prelude.{◌<◌, ◌≤◌, IfOk, OnOk, length};
ghost use Rattle.lk_rows.specs.Acts.{processor_of};
ghost use Rattle.lk_reach.specs.Explored.{IsSuch};
ghost use Rattle.lk_reach.specs.Reach.{cpus_of};
ghost use Rattle.lk_reach.specs.Space.{AddsParts};
ghost use Rattle.lk_reach.specs.Steps.{AreMade, IsLed, IsSpot};

use crate::making::make;
use crate::space::Space;
use crate::spot::{Led, Spot, remember};
use crate::steps::Steps;
use crate::touch::touched_by;
use lk_machine::Machine;
use lk_names::{Act, Memory};

/// Makes an act on a state, and remembers where it led. Each part of that is met then.
///
/// # Errors
///
/// There is not enough memory.
#[inline(never)]
pub(crate) fn make_anew(
    space: &mut Space,
    machine: &mut Machine,
    steps: &mut Steps,
    spot: &Spot,
    doing: Act,
) -> Result<Led, Memory>
    requires such { IsSuch machine.old.setup machine.old }
    requires few { length machine.old.cpus ≤ 8 }
    requires made { AreMade machine.old.setup space.old steps.old.made.items }
    requires spot { IsSpot machine.old.setup space.old spot.now }
    requires range { processor_of doing < cpus_of machine.old.setup }
    ensures states { OnOk result (AddsParts space.old space.new) }
    ensures led { IfOk result
        (λ led. IsLed machine.old.setup space.new spot.now.state doing led) }
    ensures such { OnOk result (IsSuch machine.old.setup machine.new) }
    ensures made { OnOk result (AreMade machine.old.setup space.new steps.new.made.items) }
{
    space.load(spot.state, machine);
    let touched = touched_by(machine, doing);
    let event = make(machine, doing);
    let key = space.key(machine, spot.state)?;
    let hash = space.hash_of(&key);
    let led = Led { key, hash, event };
    remember(steps, spot, &led, touched, space.len());
    Ok(led)
}
