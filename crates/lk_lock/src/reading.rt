// How a reader leaves a reader-writer lock, by a processor that is in no call. No domain whose waiters halt
// has one.
ghost use Rattle.lk_names.specs.declared.holder.Manner.TheVariants.{Reads};
ghost use Rattle.lk_names.specs.declared.names.Kind.TheVariants.{Rw};
ghost use Rattle.lk_domain.specs.declared.cpu.Cpu.{Cpu};
ghost use Rattle.lk_lock.specs.Standing.{IsHolding, IsOfKind, IsReady, LeavesLock};
ghost use Rattle.lk_rows.specs.declared.parts.Pc.TheVariants.{Z1};

use lk_domain::{Cpu, Domain, LockId};
use lk_run::read_unlock;

// Frees the lock, which was taken last.
pub(crate) fn go_out(cpu: &mut Cpu, domain: &Domain, id: LockId)
    requires ready { IsReady domain.now cpu.old }
    requires lock { IsOfKind domain.now.plan Rw id.index }
    requires holding { (before : Cpu) × IsHolding id.index Reads before cpu.old }
    ensures { LeavesLock domain.now Z1 id.index Reads cpu.old cpu.new }
{
    read_unlock(cpu, domain, id);
}
