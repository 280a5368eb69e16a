// The operations of a program.
ghost use Rattle.std.specs.Prelude.{◌≡◌, ◌≤◌, ◌<◌, ◌+◌, ◌++◌, ◌∷◌, [], Option, IfSome, MatchOption, is_some, not, true, Some, None, ◌==◌, if◌then◌else◌, length, take, slice_get};
ghost use Rattle.std.specs.Option.{option_map};
ghost use Rattle.lk_rows.specs.Programs.{kind_of, is_try, is_release, op_way, way_after, way_before};
ghost use Rattle.lk_forms.specs.Operations.{verb_of, way_after_all, same_way, same_holds, try_at, same_kind, is_declared, is_crossed, fault_of_hold};
ghost use Rattle.lk_forms.specs.Holds.{manner_of};

use crate::answers::Fault;
use lk_names::Kind;
use lk_rows::{Op, Verb};

/// How a lock is held.
#[derive(Clone, Copy)]
enum Hold {
    /// As a spinlock.
    Spin,
    /// As a reader.
    Reader,
    /// As the writer.
    Writer,
}

// The verb that a word is, if it is one.
pub(crate) fn verb_of(word: &[u8]) -> Option<Verb>
    ensures { result ≡ verb_of word.now }
{
    match word {
        b"lock" => Some(Verb::Lock),
        b"try" => Some(Verb::Try),
        b"unlock" => Some(Verb::Unlock),
        b"read" => Some(Verb::Read),
        b"tryread" => Some(Verb::TryRead),
        b"runlock" => Some(Verb::RUnlock),
        b"write" => Some(Verb::Write),
        b"trywrite" => Some(Verb::TryWrite),
        b"wunlock" => Some(Verb::WUnlock),
        _ => None,
    }
}

// The kind of lock that a verb is for.
fn kind_of(verb: Verb) -> Kind
    ensures { result ≡ kind_of verb }
{
    match verb {
        Verb::Lock | Verb::Try | Verb::Unlock => Kind::Spin,
        _ => Kind::Rw,
    }
}

fn is_try(verb: Verb) -> bool
    ensures { result ≡ is_try verb }
{
    matches!(verb, Verb::Try | Verb::TryRead | Verb::TryWrite)
}

fn is_release(verb: Verb) -> bool
    ensures { result ≡ is_release verb }
{
    matches!(verb, Verb::Unlock | Verb::RUnlock | Verb::WUnlock)
}

// How the lock of a verb is held after it.
fn hold_after(verb: Verb) -> Option<Hold>
    ensures { option_map manner_of result ≡ way_after verb }
{
    match verb {
        Verb::Lock | Verb::Try => Some(Hold::Spin),
        Verb::Read | Verb::TryRead => Some(Hold::Reader),
        Verb::Write | Verb::TryWrite => Some(Hold::Writer),
        Verb::Unlock | Verb::RUnlock | Verb::WUnlock => None,
    }
}

// How the lock of a verb has to be held before it.
fn hold_before(verb: Verb) -> Option<Hold>
    ensures { option_map manner_of result ≡ way_before verb }
{
    match verb {
        Verb::Unlock => Some(Hold::Spin),
        Verb::RUnlock => Some(Hold::Reader),
        Verb::WUnlock => Some(Hold::Writer),
        _ => None,
    }
}

fn same_hold(hold: Option<Hold>, other: Option<Hold>) -> bool
    ensures { result ≡ same_way (option_map manner_of hold) (option_map manner_of other) }
{
    match (hold, other) {
        (None, None) => true,
        (Some(Hold::Spin), Some(Hold::Spin)) => true,
        (Some(Hold::Reader), Some(Hold::Reader)) => true,
        (Some(Hold::Writer), Some(Hold::Writer)) => true,
        _ => false,
    }
}

// How one more operation leaves a lock held.
fn hold_behind(hold: Option<Hold>, op: Op, lock: u32) -> Option<Hold>
    ensures { option_map manner_of result ≡ op_way op lock (option_map manner_of hold) }
{
    if op.lock == lock {
        hold_after(op.verb)
    } else {
        hold
    }
}

// The last operation on the lock: where it stands, and its verb. It decides how the operations
// leave the lock held.
fn last_on(ops: &[Op], lock: u32) -> Option<(usize, Verb)>
    ensures way { MatchOption result (way_after_all ops.now lock ≡ None)
        (λ last. way_after_all ops.now lock ≡ way_after last.1) }
    ensures place { MatchOption result (try_at ops.now lock ≡ None)
        (λ last. try_at ops.now lock ≡ (if is_try last.1 then Some last.0 else None)) }
    ensures within { IfSome result (λ last. last.0 < length ops.now) }
{
    for at in (0..ops.len()).rev() {
        let op = ops[at];
        if op.lock == lock {
            return Some((at, op.verb));
        }
    }
    None
}

// How the operations leave a lock held.
fn hold_of(ops: &[Op], lock: u32) -> Option<Hold>
    ensures { option_map manner_of result ≡ way_after_all ops.now lock }
{
    match last_on(ops, lock) {
        None => None,
        Some((_, verb)) => hold_after(verb),
    }
}

// Where the last operation on the lock stands, if that is a try.
fn try_at(ops: &[Op], lock: u32) -> Option<usize>
    ensures place { result ≡ try_at ops.now lock }
    ensures within { IfSome result (λ at. at < length ops.now) }
{
    match last_on(ops, lock) {
        Some((at, verb)) if is_try(verb) => Some(at),
        _ => None,
    }
}

// Whether a lock is held behind the operation as it was before the one at `at`.
#[tactic(auto, using(crate::proofs::WalkLemmas::push_steps))]
fn is_kept(before: &[Op], op: Op, at: usize, lock: u32) -> bool
    requires { at ≤ length before.now }
    ensures { result ≡ same_way (way_after_all (take at before.now) lock)
        (way_after_all (before.now ++ op ∷ []) lock) }
{
    let then = hold_of(&before[..at], lock);
    let now = hold_behind(hold_of(before, lock), op, lock);
    same_hold(then, now)
}

// Whether each lock below `locks` is held behind the operation as it was before the one at `at`.
#[tactic(auto, using(crate::proofs::WalkLemmas::hold_steps))]
fn are_kept(locks: u32, before: &[Op], op: Op, at: usize) -> bool
    requires { at ≤ length before.now }
    ensures { result ≡ same_holds locks (take at before.now) (before.now ++ op ∷ []) }
{
    for lock in 0..locks {
        if !is_kept(before, op, at, lock) {
            return false;
        }
    }
    true
}

fn is_held(ops: &[Op], lock: u32) -> bool
    ensures held { result ≡ is_some (way_after_all ops.now lock) }
    ensures same { not result ≡ same_way (way_after_all ops.now lock) (way_after_all [] lock) }
{
    hold_of(ops, lock).is_some()
}

// Whether none of the locks below `locks` is held behind these operations.
#[tactic(auto, using(crate::proofs::WalkLemmas::hold_steps))]
pub(crate) fn is_nothing_held(locks: u32, ops: &[Op]) -> bool
    ensures { result ≡ same_holds locks ops.now [] }
{
    for lock in 0..locks {
        if is_held(ops, lock) {
            return false;
        }
    }
    true
}

// Whether an operation releases a lock that was taken by a try, and leaves other holds than there
// were before the try.
fn is_crossed(locks: u32, before: &[Op], op: Op) -> bool
    ensures { result ≡ is_crossed locks before.now op }
{
    match try_at(before, op.lock) {
        None => false,
        Some(at) => !are_kept(locks, before, op, at),
    }
}

// Whether the lock of this number is declared, and of the verb's kind.
pub(crate) fn is_declared(kinds: &[Kind], lock: u64, verb: Verb) -> bool
    ensures value { result ≡ is_declared (slice_get kinds.now lock) verb }
    ensures within { result ≡ true → lock < length kinds.now }
{
    match kinds.get(lock as usize) {
        None => false,
        Some(kind) => same_kind(*kind, kind_of(verb)),
    }
}

fn same_kind(kind: Kind, other: Kind) -> bool
    ensures { result ≡ same_kind kind other }
{
    match (kind, other) {
        (Kind::Spin, Kind::Spin) | (Kind::Rw, Kind::Rw) => true,
        _ => false,
    }
}

// What is wrong with an operation on a declared lock of its kind, behind these ones.
pub(crate) fn fault_of_hold(locks: u32, before: &[Op], op: Op) -> Option<Fault>
    ensures { result ≡ fault_of_hold locks before.now op }
{
    if !is_release(op.verb) {
        if is_held(before, op.lock) {
            return Some(Fault::Reheld);
        }
    } else if !same_hold(hold_of(before, op.lock), hold_before(op.verb)) {
        return Some(Fault::NotHeld);
    } else if is_crossed(locks, before, op) {
        return Some(Fault::Crossed);
    }
    None
}
