// The release, and the kick after it.
ghost use Rattle.std.specs.Prelude.{◌≡◌, Some};
ghost use Rattle.lk_rows.specs.Machine.{top_frame};
ghost use Rattle.lk_rows.specs.TopRow.{row};
ghost use Rattle.lk_pv.specs.Row.{IsPvReady};

use lk_machine::Machine;
use lk_names::{Event, What};
use lk_rows::{Frame, Pc, is_held, named};
use lk_word::Locked;

/// U2: swaps the byte from held to free, `t,p,1 -> t,p,0`, and so releases the lock
/// (`__pv_queued_spin_unlock`). A slow byte stays, and the release goes on to find whom to kick
/// (U3). This is a swap, since the queue head may make the byte slow at any moment (E7).
pub(crate) fn swap_free(machine: &mut Machine, cpu: u32) -> Option<Event>
    requires ready { IsPvReady machine.old cpu }
    requires here { (top_frame machine.old cpu).place ≡ Some Pc.U2 }
    ensures next { machine.new ≡ (row machine.old cpu).0 }
    ensures event { result ≡ (row machine.old cpu).1 }
{
    let lock = machine.lock(cpu);
    if is_held(machine.word(lock)) {
        let event = machine.event(cpu, What::Release { lock, owing: None });
        machine.set_locked(lock, Locked::Free);
        machine.freed(cpu);
        return Some(event);
    }
    machine.set_place(cpu, Pc::U3);
    None
}

/// U3: removes the lock's entry from the hash, `n -> none`, and notes its node n as the target
/// (`pv_unhash`). There is an entry: who makes the byte slow has entered the head before (E6), or
/// is the holder, and enters it before it releases (K3).
pub(crate) fn find_target(machine: &mut Machine, cpu: u32) -> Option<Event>
    requires ready { IsPvReady machine.old cpu }
    requires here { (top_frame machine.old cpu).place ≡ Some Pc.U3 }
    ensures next { machine.new ≡ (row machine.old cpu).0 }
    ensures event { result ≡ (row machine.old cpu).1 }
{
    let frame = machine.frame(cpu);
    let target = machine.hash_remove(frame.lock);
    machine.set_frame(
        cpu,
        Frame {
            target: Some(target),
            place: Some(Pc::U4),
            ..frame
        },
    );
    None
}

/// U4: stores free into the byte, `t,p,S -> t,p,0`, and so releases the lock
/// (`__pv_queued_spin_unlock_slowpath`). From here on a kick of the target's processor is pending.
/// Only the holder changes a slow byte, so it needs no swap.
pub(crate) fn store_free(machine: &mut Machine, cpu: u32) -> Option<Event>
    requires ready { IsPvReady machine.old cpu }
    requires here { (top_frame machine.old cpu).place ≡ Some Pc.U4 }
    ensures next { machine.new ≡ (row machine.old cpu).0 }
    ensures event { result ≡ (row machine.old cpu).1 }
{
    let frame = machine.frame(cpu);
    let event = machine.event(
        cpu,
        What::Release {
            lock: frame.lock,
            owing: Some(named(frame.target).cpu),
        },
    );
    machine.set_locked(frame.lock, Locked::Free);
    machine.set_place(cpu, Pc::U5);
    Some(event)
}

/// U5: kicks the target's processor, which remembers the kick, `-> remembered` (`pv_kick`). The
/// kick ends its halt. If it has not halted, the kick ends its next halt.
#[tactic(auto, using(lk_machine::proofs::Kept::kept), unfolding(lk_rows::specs::Machine::set_kicked, lk_rows::specs::Machine::set_cpu))]
pub(crate) fn kick(machine: &mut Machine, cpu: u32) -> Option<Event>
    requires ready { IsPvReady machine.old cpu }
    requires here { (top_frame machine.old cpu).place ≡ Some Pc.U5 }
    ensures next { machine.new ≡ (row machine.old cpu).0 }
    ensures event { result ≡ (row machine.old cpu).1 }
{
    let frame = machine.frame(cpu);
    let target = named(frame.target).cpu;
    let event = machine.event(cpu, What::Kick { cpu: target });
    machine.set_kicked(target, true);
    let mut counts = machine.counts();
    counts.pv_kick_unlock += 1;
    machine.set_counts(counts);
    machine.freed(cpu);
    Some(event)
}
