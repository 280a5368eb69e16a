// Which row is made.
ghost use Rattle.std.specs.Prelude.{◌≡◌, Some};
ghost use Rattle.lk_rows.specs.declared.family.Family.TheVariants.{Cna};
ghost use Rattle.lk_rows.specs.Family.{family_of};
ghost use Rattle.lk_rows.specs.Machine.{top_frame};
ghost use Rattle.lk_rows.specs.TopRow.{row};
ghost use Rattle.lk_cna.specs.Row.{IsCnaReady};

use crate::{hand, part, scan};
use lk_machine::Machine;
use lk_names::Event;
use lk_rows::Pc;

/// Makes the row at which the newest frame of a processor stands, one of C1 to C10. Returns the
/// event, if there is one. It takes no memory.
#[inline]
pub fn cna_row(machine: &mut Machine, cpu: u32, place: Pc) -> Option<Event>
    requires ready { IsCnaReady machine.old cpu }
    requires here { (top_frame machine.old cpu).place ≡ Some place }
    requires family { family_of place ≡ Cna }
    ensures next { machine.new ≡ (row machine.old cpu).0 }
    ensures event { result ≡ (row machine.old cpu).1 }
{
    match place {
        Pc::C1 => scan::look(machine, cpu),
        Pc::C2 => scan::pass_over(machine, cpu),
        Pc::C3 => scan::find_tail(machine, cpu),
        Pc::C4 => part::append(machine, cpu),
        Pc::C5 => part::cut(machine, cpu),
        Pc::C6 => part::set_tail(machine, cpu),
        Pc::C7 => hand::count(machine, cpu),
        Pc::C8 => hand::hand_on(machine, cpu),
        Pc::C9 => part::flush(machine, cpu),
        Pc::C10 => part::promote(machine, cpu),
        _ => unreachable!(),
    }
}
