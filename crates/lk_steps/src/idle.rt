// Why an act is idle.

ghost use Rattle.std.specs.Prelude.{◌≡◌};
ghost use Rattle.lk_rows.specs.Acts.{processor_of};
ghost use Rattle.lk_rows.specs.Machine.{HasTop};
ghost use Rattle.lk_rows.specs.Programs.{HasPrograms};

use lk_machine::{MAX_FRAMES, Machine};
use lk_names::Act;
use lk_rows::Pc;

/// The processor that an act names.
pub(crate) fn cpu_of(act: Act) -> u32
    ensures { result ≡ processor_of act }
{
    match act {
        Act::Step(cpu)
        | Act::Interrupt(cpu)
        | Act::Preempt(cpu)
        | Act::Resume(cpu)
        | Act::Nudge(cpu) => cpu,
    }
}

// Why a step of a processor that is not preempted would be idle, if it would.
fn step_idle(machine: &Machine, cpu: u32) -> Option<&'static str>
    requires { HasTop machine.now cpu }
{
    if machine.halted(cpu) {
        return if machine.kicked(cpu) {
            None
        } else {
            Some("halted")
        };
    }
    match machine.place(cpu) {
        Some(_) => None,
        None => Some("finished"),
    }
}

// Why an interrupt of a processor that is not preempted would not come, if so.
fn interrupt_idle(machine: &Machine, cpu: u32) -> Option<&'static str>
    requires top { HasTop machine.now cpu }
    requires programs { HasPrograms machine.now.setup cpu }
{
    let is_before_halt = matches!(machine.place(cpu), Some(Pc::W6 | Pc::E12));
    if machine.depth(cpu) as usize == MAX_FRAMES {
        Some("six contexts")
    } else if machine.handlers_left(cpu) == 0 {
        Some("no handler left")
    } else if is_before_halt && !machine.halted(cpu) {
        Some("about to halt")
    } else {
        None
    }
}

/// Why the act would be idle, that is, change nothing; none if it would not.
pub(crate) fn idle_of(machine: &Machine, act: Act) -> Option<&'static str>
    requires top { HasTop machine.now (processor_of act) }
    requires programs { HasPrograms machine.now.setup (processor_of act) }
{
    let cpu = cpu_of(act);
    match (act, machine.preempted(cpu)) {
        (Act::Resume(_), true) => None,
        (Act::Resume(_), false) => Some("not preempted"),
        (_, true) => Some("preempted"),
        (Act::Step(_), false) => step_idle(machine, cpu),
        (Act::Interrupt(_), false) => interrupt_idle(machine, cpu),
        (Act::Nudge(_), false) if !machine.halted(cpu) => Some("not halted"),
        (Act::Nudge(_) | Act::Preempt(_), false) => None,
    }
}
