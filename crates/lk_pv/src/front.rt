// The queue head, up to where it has the lock.
ghost use Rattle.std.specs.Prelude.{◌≡◌, Some};
ghost use Rattle.lk_rows.specs.Machine.{top_frame};
ghost use Rattle.lk_rows.specs.TopRow.{row};
ghost use Rattle.lk_rows.specs.rows.Pv.{is_hashed, is_slow_byte};
ghost use Rattle.lk_pv.specs.Row.{IsPvReady};

use crate::word::{after_turn, known};
use lk_machine::Machine;
use lk_names::{Event, How, What};
use lk_rows::{Frame, Pc, State, is_unlocked, named};
use lk_word::{Fields, Locked};

// Whether a state is hashed.
fn is_hashed(state: State) -> bool
    ensures { result ≡ is_hashed state }
{
    matches!(state, State::Hashed)
}

// Whether a byte is slow.
fn is_slow(word: Fields) -> bool
    ensures { result ≡ is_slow_byte word.locked }
{
    matches!(word.locked, Locked::Slow)
}

/// E1: reads its own state, and notes whether that is hashed (`pv_wait_head_or_lock`). If so, the
/// holder has entered this node into the hash, or is about to (K3), and the head does not enter it
/// itself.
pub(crate) fn look_at_state(machine: &mut Machine, cpu: u32) -> Option<Event>
    requires ready { IsPvReady machine.old cpu }
    requires here { (top_frame machine.old cpu).place ≡ Some Pc.E1 }
    ensures next { machine.new ≡ (row machine.old cpu).0 }
    ensures event { result ≡ (row machine.old cpu).1 }
{
    let frame = machine.frame(cpu);
    let hashed = is_hashed(machine.node(named(frame.me)).state);
    let mut counts = machine.counts();
    counts.lock_slowpath += 1;
    machine.set_counts(counts);
    machine.set_frame(
        cpu,
        Frame {
            hashed,
            place: Some(Pc::E2),
            ..frame
        },
    );
    None
}

/// E2: stores running into its own state, `-> running` (`pv_wait_head_or_lock`). Nobody else
/// stores there now: K1 swaps only a halted state, and the state of a head here is running or
/// hashed.
pub(crate) fn say_running(machine: &mut Machine, cpu: u32) -> Option<Event>
    requires ready { IsPvReady machine.old cpu }
    requires here { (top_frame machine.old cpu).place ≡ Some Pc.E2 }
    ensures next { machine.new ≡ (row machine.old cpu).0 }
    ensures event { result ≡ (row machine.old cpu).1 }
{
    let frame = machine.frame(cpu);
    let me = named(frame.me);
    machine.set_state(me, State::Running);
    machine.set_place(cpu, Pc::E3);
    None
}

/// E3: sets the pending bit, `t,p,l -> t,1,l` (`set_pending`), and begins to poll with the whole
/// spin bound left. In mode `pv` only the queue head sets the bit. Those who would steal stop at
/// it (H1).
pub(crate) fn set_pending(machine: &mut Machine, cpu: u32) -> Option<Event>
    requires ready { IsPvReady machine.old cpu }
    requires here { (top_frame machine.old cpu).place ≡ Some Pc.E3 }
    ensures next { machine.new ≡ (row machine.old cpu).0 }
    ensures event { result ≡ (row machine.old cpu).1 }
{
    let frame = machine.frame(cpu);
    let left = machine.spins();
    machine.set_pending(frame.lock, true);
    machine.set_frame(
        cpu,
        Frame {
            left,
            place: Some(Pc::E4),
            ..frame
        },
    );
    None
}

/// E4: swaps byte and bit, `t,1,0 -> t,0,1`, and so acquires the lock (`trylock_clear_pending`).
/// The byte was free, so nobody held the lock, and the bit is the one that it set at E3. The tail
/// stays. Another word stays. Then it polls again, or goes on to halt if no polls are left (E5).
pub(crate) fn take_pending(machine: &mut Machine, cpu: u32) -> Option<Event>
    requires ready { IsPvReady machine.old cpu }
    requires here { (top_frame machine.old cpu).place ≡ Some Pc.E4 }
    ensures next { machine.new ≡ (row machine.old cpu).0 }
    ensures event { result ≡ (row machine.old cpu).1 }
{
    let frame = machine.frame(cpu);
    let lock = frame.lock;
    let word = machine.word(lock);
    if is_unlocked(word) && word.pending {
        let event = machine.event(
            cpu,
            What::Take {
                lock,
                how: How::Head,
            },
        );
        machine.set_word(
            lock,
            Fields {
                locked: Locked::Held,
                pending: false,
                ..word
            },
        );
        machine.set_place(cpu, Pc::E13);
        return Some(event);
    }
    machine.set_frame(cpu, after_turn(frame, Pc::E4, Pc::E5));
    None
}

/// E5: clears the pending bit, `t,1,l -> t,0,l` (`clear_pending`). It is the bit that it set at
/// E3. From here on others may steal. It goes on to enter its node into the hash (E6), or to E10
/// if the node was entered since it queued.
pub(crate) fn clear_pending(machine: &mut Machine, cpu: u32) -> Option<Event>
    requires ready { IsPvReady machine.old cpu }
    requires here { (top_frame machine.old cpu).place ≡ Some Pc.E5 }
    ensures next { machine.new ≡ (row machine.old cpu).0 }
    ensures event { result ≡ (row machine.old cpu).1 }
{
    let frame = machine.frame(cpu);
    let place = if frame.hashed { Pc::E10 } else { Pc::E6 };
    machine.set_pending(frame.lock, false);
    machine.set_place(cpu, place);
    None
}

/// E6: enters its own node into the hash as the lock's entry, `none -> n` (`pv_hash`). Nobody else
/// enters the lock meanwhile: the holder does so only for a head whose state it found halted (K3).
pub(crate) fn enter_hash(machine: &mut Machine, cpu: u32) -> Option<Event>
    requires ready { IsPvReady machine.old cpu }
    requires here { (top_frame machine.old cpu).place ≡ Some Pc.E6 }
    ensures next { machine.new ≡ (row machine.old cpu).0 }
    ensures event { result ≡ (row machine.old cpu).1 }
{
    let frame = machine.frame(cpu);
    machine.hash_enter(frame.lock, known(frame.me));
    machine.set_place(cpu, Pc::E7);
    None
}

/// E7: exchanges the byte for slow, `t,p,l -> t,p,S` (`pv_wait_head_or_lock`). If l was free, it
/// has acquired the lock by this (E8). Else the release will meet the slow byte, and find the
/// entry of E6. The head notes that it is entered, and goes on to halt (E10).
pub(crate) fn exchange_slow(machine: &mut Machine, cpu: u32) -> Option<Event>
    requires ready { IsPvReady machine.old cpu }
    requires here { (top_frame machine.old cpu).place ≡ Some Pc.E7 }
    ensures next { machine.new ≡ (row machine.old cpu).0 }
    ensures event { result ≡ (row machine.old cpu).1 }
{
    let frame = machine.frame(cpu);
    let lock = frame.lock;
    let word = machine.word(lock);
    let event = machine.event(
        cpu,
        What::Take {
            lock,
            how: How::Head,
        },
    );
    machine.set_locked(lock, Locked::Slow);
    if is_unlocked(word) {
        machine.set_place(cpu, Pc::E8);
        return Some(event);
    }
    machine.set_frame(
        cpu,
        Frame {
            hashed: true,
            place: Some(Pc::E10),
            ..frame
        },
    );
    None
}

/// E8: stores held into the byte, `t,p,S -> t,p,1` (`pv_wait_head_or_lock`). It holds the lock
/// since E7, and nobody else stores into a byte that is not free, so it needs no swap.
pub(crate) fn store_held(machine: &mut Machine, cpu: u32) -> Option<Event>
    requires ready { IsPvReady machine.old cpu }
    requires here { (top_frame machine.old cpu).place ≡ Some Pc.E8 }
    ensures next { machine.new ≡ (row machine.old cpu).0 }
    ensures event { result ≡ (row machine.old cpu).1 }
{
    let lock = machine.lock(cpu);
    machine.set_locked(lock, Locked::Held);
    machine.set_place(cpu, Pc::E9);
    None
}

/// E9: removes the lock's entry from the hash, `n -> none` (`pv_wait_head_or_lock`). It is the
/// entry of E6. Nobody else has removed it: only a holder removes an entry (U3), and this waiter
/// is the holder since E7.
pub(crate) fn leave_hash(machine: &mut Machine, cpu: u32) -> Option<Event>
    requires ready { IsPvReady machine.old cpu }
    requires here { (top_frame machine.old cpu).place ≡ Some Pc.E9 }
    ensures next { machine.new ≡ (row machine.old cpu).0 }
    ensures event { result ≡ (row machine.old cpu).1 }
{
    let lock = machine.lock(cpu);
    machine.hash_remove(lock);
    machine.set_place(cpu, Pc::E13);
    None
}

/// E10: stores hashed into its own state, `-> hashed` (`pv_wait_head_or_lock`). By this the waiter
/// behind it learns that it does not run (W2).
#[tactic(auto, using(lk_machine::proofs::Kept::kept), unfolding(lk_rows::specs::Machine::set_node, lk_rows::specs::Machine::set_cpu))]
pub(crate) fn say_hashed(machine: &mut Machine, cpu: u32) -> Option<Event>
    requires ready { IsPvReady machine.old cpu }
    requires here { (top_frame machine.old cpu).place ≡ Some Pc.E10 }
    ensures next { machine.new ≡ (row machine.old cpu).0 }
    ensures event { result ≡ (row machine.old cpu).1 }
{
    let frame = machine.frame(cpu);
    let me = named(frame.me);
    machine.set_state(me, State::Hashed);
    let mut counts = machine.counts();
    counts.pv_wait_head += 1;
    machine.set_counts(counts);
    machine.set_place(cpu, Pc::E11);
    None
}

/// E11: reads the byte (`pv_wait`). It halts (E12) only if the byte is slow, `t,p,S`. Else it
/// polls again (E2): the lock was released meanwhile, or the holder has not made the byte slow yet
/// (K2). Interrupts are off from this read until the processor has halted.
pub(crate) fn test_slow(machine: &mut Machine, cpu: u32) -> Option<Event>
    requires ready { IsPvReady machine.old cpu }
    requires here { (top_frame machine.old cpu).place ≡ Some Pc.E11 }
    ensures next { machine.new ≡ (row machine.old cpu).0 }
    ensures event { result ≡ (row machine.old cpu).1 }
{
    let place = if is_slow(machine.word_met(cpu)) {
        Pc::E12
    } else {
        Pc::E2
    };
    machine.set_place(cpu, place);
    None
}

/// E12: halts the processor (`pv_wait`). The frame stays at E12 until an act ends the halt, and
/// then goes on at E2. One of these is true: the byte is slow, so that the release will kick; the
/// holder is about to make it slow (K2); or a kick is remembered or about to be made.
pub(crate) fn halt(machine: &mut Machine, cpu: u32) -> Option<Event>
    requires ready { IsPvReady machine.old cpu }
    requires here { (top_frame machine.old cpu).place ≡ Some Pc.E12 }
    ensures next { machine.new ≡ (row machine.old cpu).0 }
    ensures event { result ≡ (row machine.old cpu).1 }
{
    let lock = machine.lock(cpu);
    let event = machine.event(cpu, What::Halt { lock });
    machine.set_halted(cpu, true);
    machine.set_place(cpu, Pc::E12);
    Some(event)
}
