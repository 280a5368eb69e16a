// Steps on the words of the ledger, by a processor of whichever family that holds lock 0.
ghost use Rattle.std.specs.Prelude.{◌≡◌, ◌<◌, Some, None};
ghost use Rattle.lk_domain.specs.Keeps.{holds_first, alone_first};
ghost use Rattle.lk_domain.specs.Ledgers.{Out};
ghost use Rattle.lk_domain.specs.Plans.{accounts_of};
ghost use Rattle.lk_domain.specs.Seats.{IsIn, KeepsCalls, HasLoaded, HasSeen, HasStored, IsOut};
ghost use Rattle.lk_domain.specs.Seats.{MayCome, CameHome, calls_of, ledger_of};

use crate::cpu::Cpu;
use crate::domain::HasDomain;
use crate::ledger::{Journal, steps};

/// Loads the balance of an account. The processor must hold lock 0.
pub fn load<D: HasDomain>(cpu: &mut Cpu, domain: &D, account: u32) -> u64
    requires domain { IsIn cpu.old (D.inside domain.now) }
    requires account { account < accounts_of (D.inside domain.now).plan }
    requires held { holds_first (calls_of cpu.old) }
    ensures rest { KeepsCalls cpu.old cpu.new }
    ensures loaded { HasLoaded account cpu.old result cpu.new }
{
    let domain = domain.domain();
    steps::load(&mut cpu.seat, &domain.table, &domain.plan, account)
}

/// Stores the balance of an account. The processor must hold lock 0, and must have taken the
/// journal out.
pub fn store<D: HasDomain>(cpu: &mut Cpu, domain: &D, account: u32, amount: u64)
    requires domain { IsIn cpu.old (D.inside domain.now) }
    requires account { account < accounts_of (D.inside domain.now).plan }
    requires held { holds_first (calls_of cpu.old) }
    requires out { (o : Out) × ((ledger_of cpu.old).out ≡ Some o) }
    ensures rest { KeepsCalls cpu.old cpu.new }
    ensures stored { HasStored account amount cpu.old cpu.new }
{
    let domain = domain.domain();
    steps::store(&mut cpu.seat, &domain.table, &domain.plan, account, amount);
}

/// Loads the version of the ledger: the number of entries of the journal. The processor must hold
/// lock 0.
pub fn version<D: HasDomain>(cpu: &mut Cpu, domain: &D) -> u64
    requires domain { IsIn cpu.old (D.inside domain.now) }
    requires held { holds_first (calls_of cpu.old) }
    ensures rest { KeepsCalls cpu.old cpu.new }
    ensures seen { HasSeen cpu.old result cpu.new }
{
    let domain = domain.domain();
    steps::version(&mut cpu.seat, &domain.table, &domain.plan)
}

/// Takes the journal out of the domain, which begins with a load of the version. The processor
/// must hold lock 0 as its only holder.
pub fn journal_out<D: HasDomain>(cpu: &mut Cpu, domain: &D) -> Journal
    requires domain { IsIn cpu.old (D.inside domain.now) }
    requires held { alone_first (calls_of cpu.old) }
    requires home { (ledger_of cpu.old).out ≡ None }
    ensures rest { KeepsCalls cpu.old cpu.new }
    ensures out { IsOut (D.inside domain.now).plan (ledger_of cpu.old) result (ledger_of cpu.new) }
{
    let domain = domain.domain();
    steps::journal_out(&mut cpu.seat, &domain.table, &domain.plan)
}

/// Brings the journal back into the domain, which ends with a store of the version. The processor
/// must hold lock 0.
pub fn journal_home<D: HasDomain>(cpu: &mut Cpu, domain: &D, journal: Journal)
    requires domain { IsIn cpu.old (D.inside domain.now) }
    requires held { holds_first (calls_of cpu.old) }
    requires may { MayCome (D.inside domain.now).plan cpu.old.number (ledger_of cpu.old) journal }
    ensures rest { KeepsCalls cpu.old cpu.new }
    ensures ledger { CameHome cpu.old.number (ledger_of cpu.old) journal (ledger_of cpu.new) }
{
    let domain = domain.domain();
    steps::journal_home(&mut cpu.seat, &domain.table, &domain.plan, journal);
}
