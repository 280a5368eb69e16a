// An act on a machine without counts.

ghost use Rattle.std.specs.Prelude.{◌≡◌, ◌<◌, length};
ghost use Rattle.lk_rows.specs.Acts.{next, processor_of};
ghost use Rattle.lk_rows.specs.Machine.{rest_counts};
ghost use Rattle.lk_law.specs.Sound.{IsSound};
ghost use Rattle.lk_reach.specs.Reach.{after};
ghost use Rattle.lk_reach.specs.Explored.{IsSuch};

use lk_core::act;
use lk_machine::Machine;
use lk_names::{Act, Event};
use lk_rows::Counts;

/// Nothing counted.
pub(crate) fn no_counts() -> Counts
    ensures { result ≡ rest_counts }
{
    Counts {
        lock_pending: 0,
        lock_slowpath: 0,
        lock_use_node2: 0,
        lock_use_node3: 0,
        lock_use_node4: 0,
        lock_no_node: 0,
        pv_lock_stealing: 0,
        pv_wait_node: 0,
        pv_wait_head: 0,
        pv_kick_unlock: 0,
    }
}

/// Makes an act, and counts nothing.
#[tactic(auto, unfolding(lk_rows::specs::Machine::set_counts))]
pub(crate) fn make(machine: &mut Machine, doing: Act) -> Option<Event>
    requires such { IsSuch machine.old.setup machine.old }
    requires sound { IsSound machine.old }
    requires range { processor_of doing < length machine.old.cpus }
    ensures after { machine.new ≡ after machine.old doing }
    ensures event { result ≡ (next machine.old doing).1 }
    ensures such { IsSuch machine.old.setup machine.new }
{
    let event = act(machine, doing);
    machine.set_counts(no_counts());
    event
}
