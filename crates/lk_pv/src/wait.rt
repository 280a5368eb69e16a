// A waiter behind another, which halts its processor after a while.
ghost use Rattle.std.specs.Prelude.{◌≡◌, Some};
ghost use Rattle.lk_rows.specs.Machine.{top_frame};
ghost use Rattle.lk_rows.specs.TopRow.{row};
ghost use Rattle.lk_rows.specs.rows.Pv.{is_running, is_set};
ghost use Rattle.lk_pv.specs.Row.{IsPvReady};

use crate::word::{after_turn, is_halted};
use lk_machine::Machine;
use lk_names::{Event, What};
use lk_rows::{Flag, Frame, Pc, State, named};

// Whether a flag is set.
fn is_set(flag: Flag) -> bool
    ensures { result ≡ is_set flag }
{
    !matches!(flag, Flag::Unset)
}

// Whether a state is running.
fn is_running(state: State) -> bool
    ensures { result ≡ is_running state }
{
    matches!(state, State::Running)
}

/// W1: polls its own flag (`pv_wait_node`). If it is set, this waiter is the queue head (E1). Else
/// it polls its predecessor's state (W2). Only the queue head stores into the flag (E15).
pub(crate) fn spin(machine: &mut Machine, cpu: u32) -> Option<Event>
    requires ready { IsPvReady machine.old cpu }
    requires here { (top_frame machine.old cpu).place ≡ Some Pc.W1 }
    ensures next { machine.new ≡ (row machine.old cpu).0 }
    ensures event { result ≡ (row machine.old cpu).1 }
{
    let frame = machine.frame(cpu);
    let place = if is_set(machine.node(named(frame.me)).flag) {
        Pc::E1
    } else {
        Pc::W2
    };
    machine.set_place(cpu, place);
    None
}

/// W2: polls the state of its predecessor's node (`pv_wait_early`). If the predecessor runs, and
/// polls are left, it polls on (W1). Else it goes on to halt (W3). Another waiter may use that
/// node by now. That does no harm: the state decides only how soon this waiter tries to halt, and
/// W4 reads the flag once more.
pub(crate) fn watch(machine: &mut Machine, cpu: u32) -> Option<Event>
    requires ready { IsPvReady machine.old cpu }
    requires here { (top_frame machine.old cpu).place ≡ Some Pc.W2 }
    ensures next { machine.new ≡ (row machine.old cpu).0 }
    ensures event { result ≡ (row machine.old cpu).1 }
{
    let frame = machine.frame(cpu);
    if is_running(machine.node(named(frame.prev)).state) {
        machine.set_frame(cpu, after_turn(frame, Pc::W1, Pc::W3));
    } else {
        machine.set_place(cpu, Pc::W3);
    }
    None
}

/// W3: stores halted into its own state, `running -> halted` (`pv_wait_node`). It does so before
/// it reads the flag for the last time (W4), and a holder sets the flag (E15) before it tests the
/// state (K1). So if W4 sees the flag unset, that test comes after this store.
pub(crate) fn say_halted(machine: &mut Machine, cpu: u32) -> Option<Event>
    requires ready { IsPvReady machine.old cpu }
    requires here { (top_frame machine.old cpu).place ≡ Some Pc.W3 }
    ensures next { machine.new ≡ (row machine.old cpu).0 }
    ensures event { result ≡ (row machine.old cpu).1 }
{
    let frame = machine.frame(cpu);
    let me = named(frame.me);
    machine.set_state(me, State::Halted);
    machine.set_place(cpu, Pc::W4);
    None
}

/// W4: reads its own flag once more (`pv_wait_node`). If it is set, this waiter is the queue head,
/// and does not halt (W7). Else it goes on to halt (W5): a holder that hands off before the halt
/// has ended finds the state halted (K1), and sees to the kick.
pub(crate) fn look_once_more(machine: &mut Machine, cpu: u32) -> Option<Event>
    requires ready { IsPvReady machine.old cpu }
    requires here { (top_frame machine.old cpu).place ≡ Some Pc.W4 }
    ensures next { machine.new ≡ (row machine.old cpu).0 }
    ensures event { result ≡ (row machine.old cpu).1 }
{
    let frame = machine.frame(cpu);
    if is_set(machine.node(named(frame.me)).flag) {
        machine.set_place(cpu, Pc::W7);
        return None;
    }
    let mut counts = machine.counts();
    counts.pv_wait_node += 1;
    machine.set_counts(counts);
    machine.set_place(cpu, Pc::W5);
    None
}

/// W5: reads its own state (`pv_wait`). It halts (W6) only if that is still halted. Else the
/// holder has marked it as hashed (K1), and the kick may have been made already. Interrupts are
/// off from this read until the processor has halted.
pub(crate) fn test_state(machine: &mut Machine, cpu: u32) -> Option<Event>
    requires ready { IsPvReady machine.old cpu }
    requires here { (top_frame machine.old cpu).place ≡ Some Pc.W5 }
    ensures next { machine.new ≡ (row machine.old cpu).0 }
    ensures event { result ≡ (row machine.old cpu).1 }
{
    let frame = machine.frame(cpu);
    let state = machine.node(named(frame.me)).state;
    let place = if is_halted(state) { Pc::W6 } else { Pc::W7 };
    machine.set_place(cpu, place);
    None
}

/// W6: halts the processor (`pv_wait`). The frame stays at W6 until an act ends the halt, and then
/// goes on at W7. If this waiter is the queue head by now, one of these is true: the holder is
/// about to test its state (K1) or to make the byte slow (K2); the byte is slow; or a kick is
/// remembered or about to be made.
pub(crate) fn halt(machine: &mut Machine, cpu: u32) -> Option<Event>
    requires ready { IsPvReady machine.old cpu }
    requires here { (top_frame machine.old cpu).place ≡ Some Pc.W6 }
    ensures next { machine.new ≡ (row machine.old cpu).0 }
    ensures event { result ≡ (row machine.old cpu).1 }
{
    let lock = machine.lock(cpu);
    let event = machine.event(cpu, What::Halt { lock });
    machine.set_halted(cpu, true);
    machine.set_place(cpu, Pc::W6);
    Some(event)
}

/// W7: swaps its own state, `halted -> running` (`pv_wait_node`). If the holder has marked it as
/// hashed (K1), that stays: so this waiter learns at E1 that it need not enter itself into the
/// hash. Either way it polls again (W1), with the whole spin bound left.
pub(crate) fn say_running(machine: &mut Machine, cpu: u32) -> Option<Event>
    requires ready { IsPvReady machine.old cpu }
    requires here { (top_frame machine.old cpu).place ≡ Some Pc.W7 }
    ensures next { machine.new ≡ (row machine.old cpu).0 }
    ensures event { result ≡ (row machine.old cpu).1 }
{
    let frame = machine.frame(cpu);
    let me = named(frame.me);
    let left = machine.spins();
    if is_halted(machine.node(me).state) {
        machine.set_state(me, State::Running);
    }
    machine.set_frame(
        cpu,
        Frame {
            left,
            place: Some(Pc::W1),
            ..frame
        },
    );
    None
}
