// Which row is made.
ghost use Rattle.std.specs.Prelude.{◌≡◌, Some};
ghost use Rattle.lk_rows.specs.declared.family.Family.TheVariants.{Pv};
ghost use Rattle.lk_rows.specs.Family.{family_of};
ghost use Rattle.lk_rows.specs.Machine.{top_frame};
ghost use Rattle.lk_rows.specs.TopRow.{row};
ghost use Rattle.lk_pv.specs.Row.{IsPvReady};

use crate::{front, hand, release, steal, wait};
use lk_machine::Machine;
use lk_names::Event;
use lk_rows::Pc;

/// Makes the row at which the newest frame of a processor stands, one of H1, H2, W1 to W7, E1 to
/// E15, K1 to K3 and U2 to U5. Returns the event, if there is one. It takes no memory.
#[inline]
pub fn pv_row(machine: &mut Machine, cpu: u32, place: Pc) -> Option<Event>
    requires ready { IsPvReady machine.old cpu }
    requires here { (top_frame machine.old cpu).place ≡ Some place }
    requires family { family_of place ≡ Pv }
    ensures next { machine.new ≡ (row machine.old cpu).0 }
    ensures event { result ≡ (row machine.old cpu).1 }
{
    match place {
        Pc::H1 => steal::glance(machine, cpu),
        Pc::H2 => steal::steal(machine, cpu),
        Pc::W1 => wait::spin(machine, cpu),
        Pc::W2 => wait::watch(machine, cpu),
        Pc::W3 => wait::say_halted(machine, cpu),
        Pc::W4 => wait::look_once_more(machine, cpu),
        Pc::W5 => wait::test_state(machine, cpu),
        Pc::W6 => wait::halt(machine, cpu),
        Pc::W7 => wait::say_running(machine, cpu),
        Pc::E1 => front::look_at_state(machine, cpu),
        Pc::E2 => front::say_running(machine, cpu),
        Pc::E3 => front::set_pending(machine, cpu),
        Pc::E4 => front::take_pending(machine, cpu),
        Pc::E5 => front::clear_pending(machine, cpu),
        Pc::E6 => front::enter_hash(machine, cpu),
        Pc::E7 => front::exchange_slow(machine, cpu),
        Pc::E8 => front::store_held(machine, cpu),
        Pc::E9 => front::leave_hash(machine, cpu),
        Pc::E10 => front::say_hashed(machine, cpu),
        Pc::E11 => front::test_slow(machine, cpu),
        Pc::E12 => front::halt(machine, cpu),
        Pc::E13 => hand::leave_queue(machine, cpu),
        Pc::E14 => hand::wait_for_next(machine, cpu),
        Pc::E15 => hand::hand_on(machine, cpu),
        Pc::K1 => hand::mark_hashed(machine, cpu),
        Pc::K2 => hand::store_slow(machine, cpu),
        Pc::K3 => hand::enter_next(machine, cpu),
        Pc::U2 => release::swap_free(machine, cpu),
        Pc::U3 => release::find_target(machine, cpu),
        Pc::U4 => release::store_free(machine, cpu),
        Pc::U5 => release::kick(machine, cpu),
        _ => unreachable!(),
    }
}
