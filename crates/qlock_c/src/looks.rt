// Looks at a lock, which change nothing.

use crate::codes::{CLOSED, told};
use crate::processor::Processor;
use lk_domain::LockId;

/// Writes 1 if the processor holds the lock, in any manner, and 0 if not.
#[unsafe(no_mangle)]
pub extern "C" fn qlock_holds(cpu: &mut Processor, lock: u32, yes: &mut u32) -> u32 {
    if !cpu.used {
        return CLOSED;
    }
    let port = cpu.handle.port_mut();
    told(port.holds(LockId { index: lock }), yes)
}

/// Writes 1 if somebody holds the lock, and 0 if not.
#[unsafe(no_mangle)]
pub extern "C" fn qlock_is_locked(cpu: &mut Processor, lock: u32, yes: &mut u32) -> u32 {
    if !cpu.used {
        return CLOSED;
    }
    let port = cpu.handle.port_mut();
    told(port.is_locked(LockId { index: lock }), yes)
}

/// Writes 1 if somebody waits for the lock, and 0 if not.
#[unsafe(no_mangle)]
pub extern "C" fn qlock_is_contended(cpu: &mut Processor, lock: u32, yes: &mut u32) -> u32 {
    if !cpu.used {
        return CLOSED;
    }
    let port = cpu.handle.port_mut();
    told(port.is_contended(LockId { index: lock }), yes)
}

/// Writes 1 if a kick of the processor is remembered, and 0 if not.
#[unsafe(no_mangle)]
pub extern "C" fn qlock_is_kicked(cpu: &mut Processor, yes: &mut u32) -> u32 {
    if !cpu.used {
        return CLOSED;
    }
    let port = cpu.handle.port_mut();
    told(Some(port.is_kicked()), yes)
}
