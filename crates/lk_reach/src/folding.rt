// What is behind a state, under new numbers. The state behind a schedule under new numbers is the one
// behind the schedule under new numbers: so it is reached, and no number in it is changed.

ghost use Rattle.std.specs.Prelude.{◌≡◌, ◌<◌, ◌≤◌, IfOk, IfSome, OnOk, Some, length, slice_get, true};
ghost use Rattle.lk_renaming.specs.Renamed.{renamed};
ghost use Rattle.lk_reach.specs.Explored.{IsSuch};
ghost use Rattle.lk_reach.specs.Folded.{Fits, HaveFolds, IsBehind, IsHere, IsNoted, IsRenumbered};
ghost use Rattle.lk_reach.specs.Order.{renaming_of};
ghost use Rattle.lk_reach.specs.Path.{AreLow, IsPath};
ghost use Rattle.lk_reach.specs.Reach.{AreMoves, IsBegun, IsMove, state_after};

use crate::book::Book;
use crate::making::make;
use crate::order::Order;
use crate::path::path_to;
use crate::plan::Plan;
use crate::sorting::order_of;
use crate::space::Space;
use crate::spot::Spot;
use lk_machine::Machine;
use lk_names::{Act, Memory};

/// The state that is left.
#[derive(Drop)]
pub(crate) struct Here {
    pub spot: Spot,
    /// The acts of a schedule to it, if they are wanted.
    pub way: Option<Vec<Act>>,
}

// An act of a schedule.
fn step(way: &Vec<Act>, at: usize) -> Act
    requires { at < length way.now.items }
    ensures { slice_get way.now.items at ≡ Some result }
{
    way[at]
}

// New numbers that sort the processors of a machine that are alike.
fn order_for(plan: &Plan, machine: &Machine) -> Order
    requires few { length machine.now.cpus ≤ 8 }
    requires begun { IsBegun plan.now machine.now.setup }
    requires such { IsSuch machine.now.setup machine.now }
    requires folds { plan.now.folds ≡ true }
    ensures { Fits plan.now machine.now.setup (renaming_of result) }
{
    let order = order_of(machine, &plan.peers);
    if order.fits(&plan.peers, machine.cpus()) {
        order
    } else {
        Order::none()
    }
}

// The machine becomes the state behind a schedule, under new numbers.
fn run_renamed(space: &Space, machine: &mut Machine, plan: &Plan, way: &Vec<Act>, order: &Order)
    requires few { length machine.old.cpus ≤ 8 }
    requires such { IsSuch machine.old.setup machine.old }
    requires begun { IsBegun plan.now machine.old.setup }
    requires folds { HaveFolds plan.now machine.old.setup space.now }
    requires moves { AreMoves plan.now.extras machine.old.setup way.now.items }
    requires order { Fits plan.now machine.old.setup (renaming_of order.now) }
    ensures { machine.new ≡ renamed (renaming_of order.now)
        (state_after plan.now machine.old.setup way.now.items) }
{
    let _ = plan;
    space.load(0, machine);
    for at in 0..way.len() {
        let _ = make(machine, order.act(step(way, at)));
    }
}

/// The state that is left next, with a schedule to it if that is wanted.
///
/// # Errors
///
/// There is not enough memory.
pub(crate) fn here_at(
    plan: &Plan,
    book: &Book,
    space: &Space,
    state: usize,
    wanted: bool,
) -> Result<Here, Memory>
    requires low { AreLow plan.now book.now }
    requires there { state < length book.now.origins }
    requires met { state < length space.now.keys }
    ensures state { IfOk result (λ here. here.spot.state ≡ state) }
    ensures key { IfOk result (λ here. slice_get space.now.keys state ≡ Some here.spot.key) }
    ensures way { IfOk result
        (λ here. IfSome here.way (λ way. IsPath plan.now book.now 0 state way.items)) }
{
    let way = if wanted {
        Some(path_to(space.memory(), plan, book, state)?)
    } else {
        None
    };
    let key = space.key_at(state);
    let hash = space.hash_of(&key);
    let spot = Spot { state, key, hash };
    Ok(Here { spot, way })
}

/// The machine, which an act led to from the state that is left, becomes its fold. Without a schedule it
/// keeps its numbers. It is behind that schedule already if nobody gets a new number.
pub(crate) fn become_fold(
    space: &Space,
    machine: &mut Machine,
    plan: &Plan,
    here: &Here,
    doing: Act,
)
    requires few { length machine.old.cpus ≤ 8 }
    requires such { IsSuch machine.old.setup machine.old }
    requires here { IsHere plan.now machine.old.setup space.now here.now }
    requires folds { plan.now.folds ≡ true }
    requires moves { IsMove plan.now.extras machine.old.setup doing }
    requires behind { IsBehind plan.now machine.old.setup space.now here.now doing machine.old }
    ensures { IsRenumbered plan.now machine.old.setup machine.old machine.new }
{
    if let Some(way) = &here.way {
        let order = order_for(plan, machine);
        if order.is_own() {
            return;
        }
        run_renamed(space, machine, plan, way, &order);
        let _ = make(machine, order.act(doing));
    }
}

/// The number of a state that stands for the machine, which an act led to from the state that is left.
/// It gets one if there is none. The machine is any of its setup afterwards.
///
/// # Errors
///
/// There is not enough memory.
pub(crate) fn fold(
    space: &mut Space,
    machine: &mut Machine,
    plan: &Plan,
    here: &Here,
    doing: Act,
) -> Result<u32, Memory>
    requires few { length machine.old.cpus ≤ 8 }
    requires such { IsSuch machine.old.setup machine.old }
    requires here { IsHere plan.now machine.old.setup space.old here.now }
    requires folds { plan.now.folds ≡ true }
    requires moves { IsMove plan.now.extras machine.old.setup doing }
    requires behind { IsBehind plan.now machine.old.setup space.old here.now doing machine.old }
    ensures noted { IfOk result (λ k. IsNoted plan.now machine.old.setup space.old space.new
        here.now.spot.state machine.old k) }
    ensures such { OnOk result (IsSuch machine.old.setup machine.new) }
{
    let key = space.key(machine, here.spot.state)?;
    if let Some(number) = space.like(here.spot.state, &key) {
        return Ok(number);
    }
    become_fold(space, machine, plan, here, doing);
    let number = space.note_fold(machine, &key, here.spot.state)?;
    Ok(number)
}
