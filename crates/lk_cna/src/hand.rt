// The queue head hands off.
ghost use Rattle.std.specs.Prelude.{◌≡◌, Some};
ghost use Rattle.lk_rows.specs.Machine.{top_frame};
ghost use Rattle.lk_rows.specs.TopRow.{row};
ghost use Rattle.lk_cna.specs.Row.{IsCnaReady};

use lk_machine::Machine;
use lk_names::Event;
use lk_rows::{Pc, flag_for, named};

/// C7: stores into `runs` of the successor y how many handoffs were made since the secondary queue
/// became non-empty: `-> r + 1`, or `-> 0` if that queue is empty. Until C8 y is not the head, and
/// only a head reads the count of its own node.
pub(crate) fn count(machine: &mut Machine, cpu: u32) -> Option<Event>
    requires ready { IsCnaReady machine.old cpu }
    requires here { (top_frame machine.old cpu).place ≡ Some Pc.C7 }
    ensures next { machine.new ≡ (row machine.old cpu).0 }
    ensures event { result ≡ (row machine.old cpu).1 }
{
    let frame = machine.frame(cpu);
    let runs = if frame.second.is_some() {
        machine.node(named(frame.me)).runs + 1
    } else {
        0
    };
    let next = named(frame.y);
    machine.set_runs(next, runs);
    machine.set_place(cpu, Pc::C8);
    None
}

/// C8: stores into the flag of the successor y the first node of the secondary queue, or go if
/// that queue is empty: `unset -> second`. This makes y the head. The old head gives its own node
/// back, and goes on as the holder. It stored the count and the queue before, so y finds both.
pub(crate) fn hand_on(machine: &mut Machine, cpu: u32) -> Option<Event>
    requires ready { IsCnaReady machine.old cpu }
    requires here { (top_frame machine.old cpu).place ≡ Some Pc.C8 }
    ensures next { machine.new ≡ (row machine.old cpu).0 }
    ensures event { result ≡ (row machine.old cpu).1 }
{
    let frame = machine.frame(cpu);
    let event = machine.hand(cpu, named(frame.y), flag_for(frame.second), frame.k);
    machine.leave_granted(cpu);
    Some(event)
}
