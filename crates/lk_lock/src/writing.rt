// The calls of a writer on a reader-writer lock, by a processor that is in no call. No domain whose waiters
// halt has one.
ghost use Rattle.std.specs.Prelude.{◌≡◌, true, false};
ghost use Rattle.lk_names.specs.declared.holder.Manner.TheVariants.{Writes};
ghost use Rattle.lk_names.specs.declared.names.Kind.TheVariants.{Rw};
ghost use Rattle.lk_domain.specs.Calls.{holds_in};
ghost use Rattle.lk_domain.specs.declared.cpu.Cpu.{Cpu};
ghost use Rattle.lk_lock.specs.Standing.{EntersLock, EntersOnce, IsHolding, IsOfKind, IsReady, LeavesLock, StaysOut, holds_of};
ghost use Rattle.lk_rows.specs.declared.parts.Pc.TheVariants.{Z2};
ghost use Rattle.lk_rows.specs.declared.setup.Verb.TheVariants.{Write};

use lk_domain::{Cpu, Domain, LockId};
use lk_run::{NoIrq, try_write, write_lock, write_unlock};
use std::sync::Wait;

// Takes the lock.
pub(crate) fn enter<R: Wait>(cpu: &mut Cpu, rt: &R, domain: &Domain, id: LockId)
    requires ready { IsReady domain.now cpu.old }
    requires lock { IsOfKind domain.now.plan Rw id.index }
    requires free { holds_in (holds_of cpu.old) id.index ≡ false }
    ensures { EntersLock domain.now Write id.index Writes cpu.old cpu.new }
{
    write_lock(cpu, rt, domain, id, &mut NoIrq);
}

// Takes the lock if nobody has it or waits for it.
pub(crate) fn try_enter(cpu: &mut Cpu, domain: &Domain, id: LockId) -> bool
    requires ready { IsReady domain.now cpu.old }
    requires lock { IsOfKind domain.now.plan Rw id.index }
    requires free { holds_in (holds_of cpu.old) id.index ≡ false }
    ensures taken { result ≡ true → EntersOnce domain.now id.index cpu.old cpu.new }
    ensures missed { result ≡ false → StaysOut domain.now id.index cpu.old cpu.new }
{
    try_write(cpu, domain, id)
}

// Frees the lock, which was taken last.
pub(crate) fn leave(cpu: &mut Cpu, domain: &Domain, id: LockId)
    requires ready { IsReady domain.now cpu.old }
    requires lock { IsOfKind domain.now.plan Rw id.index }
    requires holding { (before : Cpu) × IsHolding id.index Writes before cpu.old }
    ensures { LeavesLock domain.now Z2 id.index Writes cpu.old cpu.new }
{
    write_unlock(cpu, domain, id);
}
