// Which row is made.
ghost use Rattle.std.specs.Prelude.{◌≡◌, Some};
ghost use Rattle.lk_rows.specs.declared.family.Family.TheVariants.{Rw};
ghost use Rattle.lk_rows.specs.Family.{family_of};
ghost use Rattle.lk_rows.specs.Machine.{top_frame};
ghost use Rattle.lk_rows.specs.TopRow.{row};
ghost use Rattle.lk_rw.specs.Row.{IsRwReady};

use crate::{reader, writer};
use lk_machine::Machine;
use lk_names::Event;
use lk_rows::Pc;

/// Makes the row at which the newest frame of a processor stands, one of r1 to r5, w1 to w6, y1 to
/// y5, z1 and z2. Returns the event, if there is one. It takes no memory.
#[inline]
pub fn rw_row(machine: &mut Machine, cpu: u32, place: Pc) -> Option<Event>
    requires ready { IsRwReady machine.old cpu }
    requires here { (top_frame machine.old cpu).place ≡ Some place }
    requires family { family_of place ≡ Rw }
    ensures next { machine.new ≡ (row machine.old cpu).0 }
    ensures event { result ≡ (row machine.old cpu).1 }
{
    match place {
        Pc::R1 => reader::first(machine, cpu),
        Pc::R2 => reader::spin(machine, cpu),
        Pc::R3 => reader::retreat(machine, cpu),
        Pc::R4 => reader::join(machine, cpu),
        Pc::R5 => reader::wait(machine, cpu),
        Pc::Wr1 => writer::first(machine, cpu),
        Pc::Wr2 => writer::look(machine, cpu),
        Pc::Wr3 => writer::swap(machine, cpu),
        Pc::Wr4 => writer::announce(machine, cpu),
        Pc::Wr5 => writer::wait(machine, cpu),
        Pc::Wr6 => writer::claim(machine, cpu),
        Pc::Y1 => reader::try_look(machine, cpu),
        Pc::Y2 => reader::try_add(machine, cpu),
        Pc::Y3 => reader::try_fail(machine, cpu),
        Pc::Y4 => writer::try_look(machine, cpu),
        Pc::Y5 => writer::try_swap(machine, cpu),
        Pc::Z1 => reader::release(machine, cpu),
        Pc::Z2 => writer::release(machine, cpu),
        _ => unreachable!(),
    }
}
