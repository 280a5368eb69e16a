// The calls on a spinlock, and that which goes on with a call of any kind.
ghost use Rattle.std.specs.Prelude.{◌≡◌, ◌≢◌, true};
ghost use Rattle.lk_port.specs.Ports.{Ends, Frees, Locks, Tries};
ghost use Rattle.qlock_c.specs.Crossing.{Crosses};

use crate::codes::{CLOSED, code, freed_code};
use crate::processor::Processor;
use lk_domain::LockId;
use lk_port::Port;

/// Takes a spinlock if it is free and nobody waits for it.
#[unsafe(no_mangle)]
pub extern "C" fn qlock_try_lock(cpu: &mut Processor, lock: u32) -> u32
    ensures { result ≡ 0 → Crosses (Tries lock) cpu.old cpu.new }
{
    if !cpu.used {
        return CLOSED;
    }
    let port = cpu.handle.port_mut();
    code(port.try_lock(LockId { index: lock }))
}

/// Begins to acquire a spinlock.
#[unsafe(no_mangle)]
pub extern "C" fn qlock_begin(cpu: &mut Processor, lock: u32) -> u32
    ensures { result ≡ 0 → Crosses (Locks lock) cpu.old cpu.new }
{
    if !cpu.used {
        return CLOSED;
    }
    begins(cpu.handle.port_mut(), lock)
}

// What is left of it with the port. A call that makes more tests is made by another function, in whose place
// this one saves no register.
fn begins(port: &mut Port, lock: u32) -> u32
    ensures { result ≡ 0 → Locks lock port.old port.new }
{
    match port.begin_running(LockId { index: lock }) {
        Some(answer) => code(answer),
        None => begins_halting(port, lock),
    }
}

#[inline(never)]
fn begins_halting(port: &mut Port, lock: u32) -> u32
    ensures { result ≡ 0 → Locks lock port.old port.new }
{
    match port.begin_halting(LockId { index: lock }) {
        Some(answer) => code(answer),
        None => begins_anew(port, lock),
    }
}

#[inline(never)]
fn begins_anew(port: &mut Port, lock: u32) -> u32
    ensures { result ≡ 0 → Locks lock port.old port.new }
{
    code(port.begin(LockId { index: lock }))
}

/// Frees a spinlock.
#[unsafe(no_mangle)]
pub extern "C" fn qlock_unlock(cpu: &mut Processor, lock: u32) -> u32
    ensures { result ≡ 0 → Crosses (Frees lock) cpu.old cpu.new }
{
    if !cpu.used {
        return CLOSED;
    }
    frees(cpu.handle.port_mut(), lock)
}

// What is left of it with the port, as in `begins`.
fn frees(port: &mut Port, lock: u32) -> u32
    ensures { result ≡ 0 → Frees lock port.old port.new }
{
    match port.unlock_last(LockId { index: lock }) {
        Some(freed) => code(freed.answer),
        None => frees_anew(port, lock),
    }
}

#[inline(never)]
fn frees_anew(port: &mut Port, lock: u32) -> u32
    ensures { result ≡ 0 → Frees lock port.old port.new }
{
    code(port.unlock(LockId { index: lock }).answer)
}

/// Frees a spinlock, and writes the number of the processor that it has kicked, or `NOBODY`.
#[unsafe(no_mangle)]
pub extern "C" fn qlock_unlock_kick(cpu: &mut Processor, lock: u32, kicked: &mut u32) -> u32
    ensures freed { result ≡ 0 → Crosses (Frees lock) cpu.old cpu.new }
    ensures same { result ≢ 0 → kicked.new ≡ kicked.old }
{
    if !cpu.used {
        return CLOSED;
    }
    tells(cpu.handle.port_mut(), lock, kicked)
}

// What is left of it with the port, as in `begins`.
fn tells(port: &mut Port, lock: u32, kicked: &mut u32) -> u32
    ensures freed { result ≡ 0 → Frees lock port.old port.new }
    ensures same { result ≢ 0 → kicked.new ≡ kicked.old }
{
    match port.unlock_last(LockId { index: lock }) {
        Some(freed) => freed_code(freed, kicked),
        None => tells_anew(port, lock, kicked),
    }
}

#[inline(never)]
fn tells_anew(port: &mut Port, lock: u32, kicked: &mut u32) -> u32
    ensures freed { result ≡ 0 → Frees lock port.old port.new }
    ensures same { result ≢ 0 → kicked.new ≡ kicked.old }
{
    freed_code(port.unlock(LockId { index: lock }), kicked)
}

/// Goes on with the call that waits, of whatever kind it is.
#[unsafe(no_mangle)]
pub extern "C" fn qlock_poll(cpu: &mut Processor) -> u32
    ensures { result ≡ 0 → Crosses Ends cpu.old cpu.new }
{
    if !cpu.used {
        return CLOSED;
    }
    let port = cpu.handle.port_mut();
    code(port.poll())
}
