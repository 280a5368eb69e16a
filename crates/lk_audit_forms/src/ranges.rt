// Which events are of a setup, and how the line of one is refused.
ghost use Rattle.std.specs.Prelude.{◌≡◌, nat_lt, length, slice_get};
ghost use Rattle.lk_names.specs.History.{lock_of};
ghost use Rattle.lk_forms.specs.Grammar.{cpus_of};
ghost use Rattle.lk_audit_forms.specs.Ranges.{is_next_act, is_waiter_of, is_lock_of, names_of, is_in_setup, is_spinning, is_shared, is_either, fits_lock, read_event};

use crate::event::event_told;
use lk_forms::{Fault, MAX_ACTS};
use lk_names::{Event, Kind, LockName, Waiter, What};
use lk_rows::Setup;

// The number of contexts of a processor.
const CONTEXTS: u32 = 6;

fn is_next_act(last: u64, act: u64) -> bool
    ensures { result ≡ is_next_act last act }
{
    last < act && act <= MAX_ACTS
}

fn is_cpu_of(setup: &Setup, cpu: u32) -> bool
    ensures { result ≡ nat_lt cpu (cpus_of setup.now) }
{
    (cpu as usize) < setup.topology.sockets.len()
}

fn is_waiter_of(setup: &Setup, waiter: Waiter) -> bool
    ensures { result ≡ is_waiter_of (cpus_of setup.now) waiter }
{
    is_cpu_of(setup, waiter.cpu) && waiter.ctx < CONTEXTS
}

// Whether the processors and contexts that an event names beside its own are of the setup.
fn names_of(setup: &Setup, what: What) -> bool
    ensures { result ≡ names_of (cpus_of setup.now) what }
{
    match what {
        What::Release {
            owing: Some(cpu),
            ..
        }
        | What::Kick { cpu } => is_cpu_of(setup, cpu),
        What::Pass { to, .. } => is_waiter_of(setup, to),
        _ => true,
    }
}

// Whether the setup has the lock of an event, if it is on one.
fn has_lock_of(setup: &Setup, what: What) -> bool
    ensures { result ≡ is_lock_of (length setup.now.locks.items) (lock_of what) }
{
    match what.lock() {
        Some(lock) => (lock.index as usize) < setup.locks.len(),
        None => true,
    }
}

fn is_in_setup(setup: &Setup, event: &Event) -> bool
    ensures { result ≡ is_in_setup setup.now event.now }
{
    is_waiter_of(setup, event.by) && names_of(setup, event.what) && has_lock_of(setup, event.what)
}

// The kind of a lock, if the setup has it.
fn kind_of(setup: &Setup, lock: LockName) -> Option<Kind>
    ensures { result ≡ slice_get setup.now.locks.items lock.index }
{
    setup.locks.as_slice().get(lock.index as usize).copied()
}

// A spinlock, or the wait lock of a reader-writer lock.
fn is_spinning(kind: Option<Kind>, wait: bool) -> bool
    ensures { result ≡ is_spinning kind wait }
{
    match kind {
        Some(Kind::Spin) => !wait,
        Some(Kind::Rw) => wait,
        None => false,
    }
}

// A reader-writer lock itself.
fn is_shared(kind: Option<Kind>, wait: bool) -> bool
    ensures { result ≡ is_shared kind wait }
{
    match kind {
        Some(Kind::Rw) => !wait,
        Some(Kind::Spin) | None => false,
    }
}

// Any but the wait lock of a spinlock.
fn is_either(kind: Option<Kind>, wait: bool) -> bool
    ensures { result ≡ is_either kind wait }
{
    match kind {
        Some(Kind::Rw) => true,
        Some(Kind::Spin) => !wait,
        None => false,
    }
}

// Whether the lock of an event is of the kind on which such an event happens.
fn fits_lock(setup: &Setup, what: What) -> bool
    ensures { result ≡ fits_lock setup.now what }
{
    match what {
        What::Miss { lock } => is_either(kind_of(setup, lock), lock.wait),
        What::RTake { lock, .. }
        | What::RRelease { lock }
        | What::WTake { lock, .. }
        | What::WRelease { lock } => is_shared(kind_of(setup, lock), lock.wait),
        What::Take { lock, .. }
        | What::Release { lock, .. }
        | What::Arrive { lock }
        | What::Pass { lock, .. }
        | What::Flush { lock }
        | What::Promote { lock }
        | What::Leave { lock }
        | What::Halt { lock }
        | What::Wake { lock } => is_spinning(kind_of(setup, lock), lock.wait),
        What::Kick { .. } | What::Int | What::Nudge => true,
    }
}

/// The number of the act and the event that a line tells, without its line feed, after events of
/// acts up to number `last`. It takes no memory.
///
/// # Errors
///
/// In this order: `UnknownWord` if the line is not spelled as the printer of transcripts spells an
/// event; `OutOfRange` if its act is not above `last` or is above
/// [`MAX_ACTS`](lk_forms::MAX_ACTS), or if it names a processor, a context or a lock that does not
/// exist; `WrongLock` if its lock is of the wrong kind.
pub fn read_event(line: &[u8], setup: &Setup, last: u64) -> Result<(u64, Event), Fault>
    ensures { result ≡ read_event setup.now last line.now }
{
    let (act, event) = event_told(line).ok_or(Fault::UnknownWord)?;
    if !is_next_act(last, act) || !is_in_setup(setup, &event) {
        return Err(Fault::OutOfRange);
    }
    if !fits_lock(setup, event.what) {
        return Err(Fault::WrongLock);
    }
    Ok((act, event))
}
