// The calls of a reader.
ghost use Rattle.std.specs.Prelude.{◌≡◌};
ghost use Rattle.lk_names.specs.declared.holder.Manner.TheVariants.{Reads};
ghost use Rattle.lk_rows.specs.declared.parts.Pc.TheVariants.{Z1};
ghost use Rattle.lk_rows.specs.declared.setup.Verb.TheVariants.{Read, TryRead};
ghost use Rattle.lk_port.specs.Ports.{Enters, EntersAtOnce, Leaves};
ghost use Rattle.qlock_c.specs.Crossing.{Crosses};

use crate::codes::{CLOSED, code};
use crate::processor::Processor;
use lk_domain::LockId;
use lk_port::Port;

/// Enters a reader-writer lock as a reader, if no writer is in it or waits for it.
#[unsafe(no_mangle)]
pub extern "C" fn qlock_try_read(cpu: &mut Processor, lock: u32) -> u32
    ensures { result ≡ 0 → Crosses (EntersAtOnce TryRead Reads lock) cpu.old cpu.new }
{
    if !cpu.used {
        return CLOSED;
    }
    let port = cpu.handle.port_mut();
    code(port.try_read(LockId { index: lock }))
}

/// Begins to enter a reader-writer lock as a reader.
#[unsafe(no_mangle)]
pub extern "C" fn qlock_begin_read(cpu: &mut Processor, lock: u32) -> u32
    ensures { result ≡ 0 → Crosses (Enters Read Reads lock) cpu.old cpu.new }
{
    if !cpu.used {
        return CLOSED;
    }
    begins_to_read(cpu.handle.port_mut(), lock)
}

// What is left of it with the port, which is a parameter here.
#[inline(never)]
fn begins_to_read(port: &mut Port, lock: u32) -> u32
    ensures { result ≡ 0 → Enters Read Reads lock port.old port.new }
{
    code(port.begin_read(LockId { index: lock }))
}

/// Leaves a reader-writer lock as a reader.
#[unsafe(no_mangle)]
pub extern "C" fn qlock_read_unlock(cpu: &mut Processor, lock: u32) -> u32
    ensures { result ≡ 0 → Crosses (Leaves Z1 lock) cpu.old cpu.new }
{
    if !cpu.used {
        return CLOSED;
    }
    let port = cpu.handle.port_mut();
    code(port.read_unlock(LockId { index: lock }))
}
