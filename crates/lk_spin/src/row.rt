// Which row is made.
ghost use Rattle.std.specs.Prelude.{◌≡◌, Some};
ghost use Rattle.lk_rows.specs.declared.family.Family.TheVariants.{Spin};
ghost use Rattle.lk_rows.specs.Family.{family_of};
ghost use Rattle.lk_rows.specs.Machine.{top_frame};
ghost use Rattle.lk_machine.specs.Ready.{IsReady};
ghost use Rattle.lk_rows.specs.TopRow.{row};

use crate::{fast, pending};
use lk_machine::Machine;
use lk_names::Event;
use lk_rows::Pc;

/// Makes the row at which the newest frame of a processor stands, one of F1, T1, T2, U1, V1, V2
/// and P0 to P4. Returns the event, if there is one. It takes no memory.
#[inline]
pub fn spin_row(machine: &mut Machine, cpu: u32, place: Pc) -> Option<Event>
    requires ready { IsReady machine.old cpu }
    requires here { (top_frame machine.old cpu).place ≡ Some place }
    requires family { family_of place ≡ Spin }
    ensures next { machine.new ≡ (row machine.old cpu).0 }
    ensures event { result ≡ (row machine.old cpu).1 }
{
    match place {
        Pc::F1 => fast::fast(machine, cpu),
        Pc::T1 => fast::try_look(machine, cpu),
        Pc::T2 => fast::try_swap(machine, cpu),
        Pc::U1 => fast::release(machine, cpu),
        Pc::V1 => fast::loop_look(machine, cpu),
        Pc::V2 => fast::loop_swap(machine, cpu),
        Pc::P0 => pending::look_again(machine, cpu),
        Pc::P1 => pending::set_pending(machine, cpu),
        Pc::P2 => pending::clear_pending(machine, cpu),
        Pc::P3 => pending::watch(machine, cpu),
        Pc::P4 => pending::take_pending(machine, cpu),
        _ => unreachable!(),
    }
}
