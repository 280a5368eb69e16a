// One act.

ghost use Rattle.std.specs.Prelude.{◌≡◌, ◌&&◌, not, ◌<◌, ◌+◌, ◌-◌, ◌^◌, ℕ, None, Some, List, length};
ghost use Rattle.lk_names.specs.declared.events.Act.TheVariants as act;
ghost use Rattle.lk_names.specs.declared.events.Event.{Event as EventValue};
ghost use Rattle.lk_rows.specs.Acts.{next, processor_of, stands_halting, after_halt, woken, awake, step_halted};
ghost use Rattle.lk_rows.specs.Machine.{HasTop, top_frame, halted_at};
ghost use Rattle.lk_machine.specs.Ready.{CountsWithin};
ghost use Rattle.lk_law.specs.Sound.{IsSound};
ghost use Rattle.lk_law.specs.MachineLaws.{ShowsLawful};
ghost use Rattle.lk_law.specs.Kicked.{with_event};
ghost use Rattle.lk_core.specs.Idle.{IsIdle, Happens};

use lk_cna::cna_row;
use lk_machine::{MAX_FRAMES, Machine};
use lk_names::{Act, Event, Waiter, What};
use lk_pv::pv_row;
use lk_queue::queue_row;
use lk_rows::{Family, Frame, Pc};
use lk_rw::rw_row;
use lk_spin::spin_row;

/// Does one act, and returns its event, if there is one. An idle act changes nothing. No act is
/// refused, and none takes memory.
///
/// The act must name a processor of the machine, the machine must be sound, and each count must be
/// at most 2^64 - 2. A machine at rest with a lawful setup is sound, and every act leaves it so.
#[inline]
pub fn act(machine: &mut Machine, act: Act) -> Option<Event>
    requires range { processor_of act < length machine.old.cpus }
    requires sound { IsSound machine.old }
    requires counts { CountsWithin (2 ^ 64 - 2) machine.old.counts }

    ensures next { machine.new ≡ (next machine.old act).0 }
    ensures event { result ≡ (next machine.old act).1 }

    // The act is idle exactly if `IsIdle` says so.
    ensures idle { IsIdle machine.old act → (machine.new ≡ machine.old) × (result ≡ None) }
    ensures busy { ¬ IsIdle machine.old act → Happens machine.old act machine.new result }

    // The machine stays sound. Whatever lawful history it showed, it shows that history with the
    // event, which is lawful again.
    ensures sound { IsSound machine.new }
    ensures keeps { (es : List EventValue) → ShowsLawful machine.old es
        → ShowsLawful machine.new (with_event es result) }
    ensures counted { (n : ℕ) → CountsWithin n machine.old.counts
        → CountsWithin (n + 1) machine.new.counts }
    ensures setup { machine.new.setup ≡ machine.old.setup }
{
    match act {
        Act::Step(cpu) => step(machine, cpu),
        Act::Interrupt(cpu) => interrupt(machine, cpu),
        Act::Preempt(cpu) => {
            machine.set_preempted(cpu, true);
            None
        }
        Act::Resume(cpu) => {
            machine.set_preempted(cpu, false);
            None
        }
        Act::Nudge(cpu) => nudge(machine, cpu),
    }
}

// Makes the row of the newest frame, or ends a halt. A preempted processor does nothing, and a
// frame whose program has ended has no row.
#[inline]
fn step(machine: &mut Machine, cpu: u32) -> Option<Event>
    requires range { cpu < length machine.old.cpus }
    requires sound { IsSound machine.old }
    requires counts { CountsWithin (2 ^ 64 - 2) machine.old.counts }
    ensures next { machine.new ≡ (next machine.old (act.Step cpu)).0 }
    ensures event { result ≡ (next machine.old (act.Step cpu)).1 }
{
    if machine.preempted(cpu) {
        return None;
    }
    if machine.halted(cpu) {
        return wake(machine, cpu);
    }
    let place = machine.place(cpu)?;
    match place.family() {
        Family::Spin => spin_row(machine, cpu, place),
        Family::Queue => queue_row(machine, cpu, place),
        Family::Cna => cna_row(machine, cpu, place),
        Family::Pv => pv_row(machine, cpu, place),
        Family::Rw => rw_row(machine, cpu, place),
    }
}

// Whether a place is a row at which a processor halts.
#[inline]
fn stands_halting(place: Option<Pc>) -> bool
    ensures { result ≡ stands_halting place }
{
    matches!(place, Some(Pc::W6 | Pc::E12))
}

// The row behind a halt.
#[inline]
fn behind_halt(place: Option<Pc>) -> Option<Pc>
    ensures { result ≡ after_halt place }
{
    match place {
        Some(Pc::W6) => Some(Pc::W7),
        Some(Pc::E12) => Some(Pc::E2),
        _ => place,
    }
}

// Whether a processor is between the test before a halt (W5, E11) and the halt.
fn is_about_to_halt(machine: &Machine, cpu: u32) -> bool
    requires { HasTop machine.now cpu }
    ensures { result
        ≡ (stands_halting (top_frame machine.now cpu).place && not (halted_at machine.now cpu)) }
{
    stands_halting(machine.place(cpu)) && !machine.halted(cpu)
}

// Ends the halt of a processor, and its newest frame goes on behind the halt.
#[tactic(auto, using(lk_machine::proofs::Kept::kept))]
fn end_halt(machine: &mut Machine, cpu: u32)
    requires { HasTop machine.old cpu }
    ensures { machine.new ≡ woken machine.old cpu }
{
    let frame = machine.frame(cpu);
    machine.set_frame(
        cpu,
        Frame {
            place: behind_halt(frame.place),
            ..frame
        },
    );
    machine.set_halted(cpu, false);
}

// Ends the halt of a processor, if it has halted.
fn end_any_halt(machine: &mut Machine, cpu: u32)
    requires { HasTop machine.old cpu }
    ensures { machine.new ≡ awake machine.old cpu }
{
    if machine.halted(cpu) {
        end_halt(machine, cpu);
    }
}

// Ends the halt of a processor if it remembers a kick, which it then forgets.
#[inline]
#[tactic(auto, using(lk_machine::proofs::Kept::kept))]
fn wake(machine: &mut Machine, cpu: u32) -> Option<Event>
    requires { HasTop machine.old cpu }
    ensures next { machine.new ≡ (step_halted machine.old cpu).0 }
    ensures event { result ≡ (step_halted machine.old cpu).1 }
{
    if !machine.kicked(cpu) {
        return None;
    }
    let frame = machine.frame(cpu);
    end_halt(machine, cpu);
    machine.set_kicked(cpu, false);
    Some(Event {
        by: Waiter {
            cpu,
            ctx: frame.ctx,
        },
        what: What::Wake { lock: frame.lock },
    })
}

// Ends a halt without a kick. A kick that is remembered stays, for a later halt.
#[inline]
fn nudge(machine: &mut Machine, cpu: u32) -> Option<Event>
    requires range { cpu < length machine.old.cpus }
    requires sound { IsSound machine.old }
    ensures next { machine.new ≡ (next machine.old (act.Nudge cpu)).0 }
    ensures event { result ≡ (next machine.old (act.Nudge cpu)).1 }
{
    if machine.preempted(cpu) || !machine.halted(cpu) {
        return None;
    }
    let frame = machine.frame(cpu);
    end_halt(machine, cpu);
    Some(Event {
        by: Waiter {
            cpu,
            ctx: frame.ctx,
        },
        what: What::Nudge,
    })
}

// Begins the next handler in a new frame, if a handler is left and the processor has room for a
// frame. A halt ends by that. Between the test before a halt and the halt interrupts are off: a
// kick that came then could end a halt of the handler, and the interrupted frame would halt
// unkicked.
#[inline]
fn interrupt(machine: &mut Machine, cpu: u32) -> Option<Event>
    requires range { cpu < length machine.old.cpus }
    requires sound { IsSound machine.old }
    ensures next { machine.new ≡ (next machine.old (act.Interrupt cpu)).0 }
    ensures event { result ≡ (next machine.old (act.Interrupt cpu)).1 }
{
    let ctx = machine.depth(cpu);
    if machine.preempted(cpu)
        || ctx as usize == MAX_FRAMES
        || machine.handlers_left(cpu) == 0
        || is_about_to_halt(machine, cpu)
    {
        return None;
    }
    end_any_halt(machine, cpu);
    machine.interrupt(cpu);
    Some(Event {
        by: Waiter { cpu, ctx },
        what: What::Int,
    })
}
