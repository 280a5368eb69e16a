// Whom an act touches on a machine.

ghost use Rattle.std.specs.Prelude.{◌≡◌, ◌<◌, IfSome, length};
ghost use Rattle.lk_names.specs.declared.events.Act.TheVariants as act;
ghost use Rattle.lk_rows.specs.Acts.{processor_of};
ghost use Rattle.lk_touch.specs.Touching.{Touches};

use lk_machine::{MAX_FRAMES, Machine};
use lk_names::Act;
use lk_touch::other_at;

// The other processor that a step touches, or the same one, if that is known.
fn touched(machine: &Machine, cpu: u32) -> Option<u32>
    requires { cpu < length machine.now.cpus }
    ensures { IfSome result (λ q. Touches machine.now cpu q) }
{
    let depth = machine.depth(cpu) as usize;
    if depth == 0 {
        return Some(cpu);
    }
    if depth > MAX_FRAMES {
        return None;
    }
    let frame = machine.frame(cpu);
    other_at(&frame, cpu)
}

// The processor, if the machine has it.
fn within(machine: &Machine, cpu: u32) -> Option<u32>
    ensures { IfSome result (λ q. (q ≡ cpu) × (q < length machine.now.cpus)) }
{
    if cpu < machine.cpus() {
        Some(cpu)
    } else {
        None
    }
}

/// Who makes a step, and the other processor that it touches, or the same one, if that is known.
pub(crate) fn touched_by(machine: &Machine, doing: Act) -> Option<(u32, u32)>
    requires { processor_of doing < length machine.now.cpus }
    ensures step { IfSome result (λ f. doing ≡ act.Step f.0) }
    ensures other { IfSome result (λ f. f.1 < length machine.now.cpus) }
    ensures touches { IfSome result (λ f. Touches machine.now f.0 f.1) }
{
    match doing {
        Act::Step(cpu) => {
            let other = touched(machine, cpu)?;
            let other = within(machine, other)?;
            Some((cpu, other))
        }
        _ => None,
    }
}
