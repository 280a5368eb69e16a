// Which row is made.
ghost use Rattle.std.specs.Prelude.{◌≡◌, Some};
ghost use Rattle.lk_rows.specs.declared.family.Family.TheVariants.{Queue};
ghost use Rattle.lk_rows.specs.Family.{family_of};
ghost use Rattle.lk_rows.specs.Machine.{top_frame};
ghost use Rattle.lk_machine.specs.Ready.{IsReady};
ghost use Rattle.lk_rows.specs.TopRow.{row};

use crate::{arrive, front};
use lk_machine::Machine;
use lk_names::Event;
use lk_rows::Pc;

/// Makes the row at which the newest frame of a processor stands, one of G1 to G11, N1 and N2.
/// Returns the event, if there is one. It takes no memory.
#[inline]
pub fn queue_row(machine: &mut Machine, cpu: u32, place: Pc) -> Option<Event>
    requires ready { IsReady machine.old cpu }
    requires here { (top_frame machine.old cpu).place ≡ Some place }
    requires family { family_of place ≡ Queue }
    ensures next { machine.new ≡ (row machine.old cpu).0 }
    ensures event { result ≡ (row machine.old cpu).1 }
{
    match place {
        Pc::G1 => arrive::enter(machine, cpu),
        Pc::G2 => arrive::look_again(machine, cpu),
        Pc::G3 => arrive::swap_again(machine, cpu),
        Pc::G4 => arrive::exchange_tail(machine, cpu),
        Pc::G5 => arrive::link(machine, cpu),
        Pc::G6 => arrive::wait(machine, cpu),
        Pc::G7 => front::wait_as_front(machine, cpu),
        Pc::G8 => front::take_sole(machine, cpu),
        Pc::G9 => front::take_head(machine, cpu),
        Pc::G10 => front::wait_for_next(machine, cpu),
        Pc::G11 => front::hand_on(machine, cpu),
        Pc::N1 => arrive::look_bare(machine, cpu),
        Pc::N2 => arrive::swap_bare(machine, cpu),
        _ => unreachable!(),
    }
}
