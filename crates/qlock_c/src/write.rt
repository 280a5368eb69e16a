// The calls of a writer.
ghost use Rattle.std.specs.Prelude.{◌≡◌};
ghost use Rattle.lk_names.specs.declared.holder.Manner.TheVariants.{Writes};
ghost use Rattle.lk_rows.specs.declared.parts.Pc.TheVariants.{Z2};
ghost use Rattle.lk_rows.specs.declared.setup.Verb.TheVariants.{Write, TryWrite};
ghost use Rattle.lk_port.specs.Ports.{Enters, EntersAtOnce, Leaves};
ghost use Rattle.qlock_c.specs.Crossing.{Crosses};

use crate::codes::{CLOSED, code};
use crate::processor::Processor;
use lk_domain::LockId;
use lk_port::Port;

/// Enters a reader-writer lock as its writer, if nobody is in it and no writer waits for it.
#[unsafe(no_mangle)]
pub extern "C" fn qlock_try_write(cpu: &mut Processor, lock: u32) -> u32
    ensures { result ≡ 0 → Crosses (EntersAtOnce TryWrite Writes lock) cpu.old cpu.new }
{
    if !cpu.used {
        return CLOSED;
    }
    let port = cpu.handle.port_mut();
    code(port.try_write(LockId { index: lock }))
}

/// Begins to enter a reader-writer lock as its writer.
#[unsafe(no_mangle)]
pub extern "C" fn qlock_begin_write(cpu: &mut Processor, lock: u32) -> u32
    ensures { result ≡ 0 → Crosses (Enters Write Writes lock) cpu.old cpu.new }
{
    if !cpu.used {
        return CLOSED;
    }
    begins_to_write(cpu.handle.port_mut(), lock)
}

// What is left of it with the port, which is a parameter here.
#[inline(never)]
fn begins_to_write(port: &mut Port, lock: u32) -> u32
    ensures { result ≡ 0 → Enters Write Writes lock port.old port.new }
{
    code(port.begin_write(LockId { index: lock }))
}

/// Leaves a reader-writer lock as its writer.
#[unsafe(no_mangle)]
pub extern "C" fn qlock_write_unlock(cpu: &mut Processor, lock: u32) -> u32
    ensures { result ≡ 0 → Crosses (Leaves Z2 lock) cpu.old cpu.new }
{
    if !cpu.used {
        return CLOSED;
    }
    let port = cpu.handle.port_mut();
    code(port.write_unlock(LockId { index: lock }))
}
