// A state that is left, and where an act leads from it: as a step on the same parts led, and else by
// making it.

ghost use Rattle.std.specs.Prelude.{◌≡◌, ◌<◌, ◌≤◌, IfSome, length};
ghost use Rattle.lk_rows.specs.Acts.{processor_of};
ghost use Rattle.lk_reach.specs.Explored.{IsSuch};
ghost use Rattle.lk_reach.specs.Reach.{cpus_of};
ghost use Rattle.lk_reach.specs.Steps.{AreMade, IsLed, IsMadeOn, IsRemembered, IsSpot, Remembers, then_key};

use crate::key::Key;
use crate::making::make;
use crate::space::Space;
use crate::steps::{Made, Steps};
use crate::touch::touched_by;
use lk_machine::Machine;
use lk_names::{Act, Event};

/// The state that is left, by its number, its key, and the hash by which that is sought.
#[derive(Clone, Copy)]
pub(crate) struct Spot {
    pub state: usize,
    pub key: Key,
    pub hash: u64,
}

/// The key of what an act led to, the hash by which that is sought, and what the act told.
#[derive(Clone, Copy)]
pub(crate) struct Led {
    pub key: Key,
    pub hash: u64,
    pub event: Option<Event>,
}

// A step on a state, and where it led.
fn made_on(spot: &Spot, led: &Led, cpu: u32, other: u32) -> Made
    requires low { cpu < 8 }
    requires near { other < 8 }
    ensures { IsMadeOn spot.now led.now cpu other result }
{
    Made {
        cpu,
        other,
        shared: spot.key.shared,
        part: spot.key.cpus[cpu as usize],
        beside: spot.key.cpus[other as usize],
        then_shared: led.key.shared,
        then_part: led.key.cpus[cpu as usize],
        then_beside: led.key.cpus[other as usize],
        event: led.event,
        turn: led.hash.wrapping_sub(spot.hash),
    }
}

/// Counts an act that was made on a state. Remembers where it led, if it is a step and it is known
/// whom it touched. There are so many states.
pub(crate) fn remember(
    steps: &mut Steps,
    spot: &Spot,
    led: &Led,
    touched: Option<(u32, u32)>,
    states: usize,
)
    requires { IfSome touched (λ f. (f.0 < 8) × (f.1 < 8)) }
    ensures { Remembers touched spot.now led.now steps.old.made.items steps.new.made.items }
{
    steps.count = steps.count.saturating_add(1);
    if let Some((cpu, other)) = touched {
        steps.remember(made_on(spot, led, cpu, other), states);
    }
}

// Makes an act on a state. Returns where it led, if each part of that was met.
fn make_on(
    space: &Space,
    machine: &mut Machine,
    steps: &mut Steps,
    spot: &Spot,
    doing: Act,
) -> Option<Led>
    requires such { IsSuch machine.old.setup machine.old }
    requires few { length machine.old.cpus ≤ 8 }
    requires made { AreMade machine.old.setup space.now steps.old.made.items }
    requires spot { IsSpot machine.old.setup space.now spot.now }
    requires range { processor_of doing < cpus_of machine.old.setup }
    ensures led { IfSome result
        (λ led. IsLed machine.old.setup space.now spot.now.state doing led) }
    ensures such { IsSuch machine.old.setup machine.new }
    ensures made { AreMade machine.old.setup space.now steps.new.made.items }
{
    space.load(spot.state, machine);
    let touched = touched_by(machine, doing);
    let event = make(machine, doing);
    let key = space.key_seen(machine, spot.state)?;
    let hash = space.hash_of(&key);
    let led = Led { key, hash, event };
    remember(steps, spot, &led, touched, space.len());
    Some(led)
}

/// The step that was made on the same parts as this state has, if the act is one.
#[inline(always)]
pub(crate) fn remembered<'a>(steps: &'a Steps, spot: &Spot, doing: Act) -> Option<&'a Made>
    ensures { IfSome result (λ e. IsRemembered steps.now.made.items spot.now.key doing e.now) }
{
    match doing {
        Act::Step(cpu) => steps.find(&spot.key, cpu),
        _ => None,
    }
}

// Where a step leads on a state.
fn led_by(made: &Made, spot: &Spot) -> Led
    requires low { made.now.cpu < 8 }
    requires near { made.now.other < 8 }
    ensures key { result.key ≡ then_key made.now spot.now.key }
    ensures event { result.event ≡ made.now.event }
{
    let mut key = spot.key;
    made.change(&mut key);
    Led {
        key,
        hash: spot.hash.wrapping_add(made.turn),
        event: made.event,
    }
}

/// Where an act leads on a state, if a step was made on the same parts, or each part of what it leads to
/// was met.
pub(crate) fn lead(
    space: &Space,
    machine: &mut Machine,
    steps: &mut Steps,
    spot: &Spot,
    doing: Act,
) -> Option<Led>
    requires such { IsSuch machine.old.setup machine.old }
    requires few { length machine.old.cpus ≤ 8 }
    requires made { AreMade machine.old.setup space.now steps.old.made.items }
    requires spot { IsSpot machine.old.setup space.now spot.now }
    requires range { processor_of doing < cpus_of machine.old.setup }
    ensures led { IfSome result
        (λ led. IsLed machine.old.setup space.now spot.now.state doing led) }
    ensures such { IsSuch machine.old.setup machine.new }
    ensures made { AreMade machine.old.setup space.now steps.new.made.items }
{
    match remembered(steps, spot, doing) {
        Some(made) => Some(led_by(made, spot)),
        None => make_on(space, machine, steps, spot, doing),
    }
}
