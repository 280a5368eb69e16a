// The region on which the jobs of a file are run, of whichever family.
ghost use Rattle.std.specs.Prelude.{◌≡◌, IfOk, false, length};
ghost use Rattle.lk_names.specs.Workload.{IsLawful, workers_of, workload_of};
ghost use Rattle.lk_names.specs.declared.names.Mode.{Mode};
ghost use Rattle.lk_names.specs.declared.names.Mode.TheVariants.{Pv};
ghost use Rattle.lk_domain.specs.Plans.{cpus_of};
ghost use Rattle.lk_guard.specs.Idle.{crew_of, pv_crew_of};
ghost use Rattle.lk_law.specs.Agree.{halts};
ghost use Rattle.lk_workers.specs.Ended.{IsEnd};
ghost use Rattle.lk_workers.specs.Plans.{IsFor};
ghost use Rattle.lk_workers.specs.Workers.{InOrder, IsDealt, Rests};

use crate::ended::Ended;
use crate::making::{plan_of, pv_plan_of};
use lk_domain::{Cpu, Domain, close};
use lk_guard::{Guarded, PvRegion, Region};
use lk_names::{JobFile, List, Memory};
use lk_pvdomain::{PvCpu, PvDomain, pv_close};
use std::alloc::Global;

/// A region that is made for a file, and ended after its jobs.
pub(crate) trait Host: Guarded + Drop + Sync {
    /// Whether it is for files of this mode.
    ghost hosts: { Mode → Type 0 };

    /// A region at rest for the file, and its processors.
    fn make(alloc: Global, file: &JobFile) -> Result<(Self, List<Cpu>), Memory>
        requires lawful { IsLawful (workload_of file.now) }
        requires mode { hosts file.now.mode }
        ensures suits { IfOk result
            (λ made. IsFor (workload_of file.now) (Self.crew made.0).plan) }
        ensures each { IfOk result
            (λ made. length made.1.items ≡ workers_of (workload_of file.now)) }
        ensures dealt { IfOk result (λ made. InOrder (IsDealt (Self.crew made.0)) made.1.items) };

    /// Closes its domain, with all processors.
    fn end(self, alloc: Global, cpus: List<Cpu>) -> Result<Ended, Memory>
        requires mode { hosts (Self.crew self).plan.mode }
        requires all { length cpus.items ≡ cpus_of (Self.crew self).plan }
        requires rest { InOrder (Rests (Self.crew self)) cpus.items }
        ensures { IfOk result (λ ended. IsEnd (Self.crew self) cpus.items ended) };
}

impl Host for Region {
    ghost hosts = { λ mode. halts mode ≡ false };

    fn make(alloc: Global, file: &JobFile) -> Result<(Region, List<Cpu>), Memory> {
        let (domain, cpus) = Domain::new(alloc, &plan_of(alloc, file)?)?;
        Ok((Region::new(domain, file.guard), cpus))
    }

    fn end(self, alloc: Global, cpus: List<Cpu>) -> Result<Ended, Memory>
        requires mode { halts self.domain.plan.mode ≡ false }
        requires all { length cpus.items ≡ cpus_of self.domain.plan }
        requires rest { InOrder (Rests (crew_of self.domain)) cpus.items }
        ensures { IfOk result (λ ended. IsEnd (crew_of self.domain) cpus.items ended) }
    {
        let Ok(closed) = close(alloc, self.into_domain(), cpus) else {
            return Err(Memory);
        };
        Ok(Ended::Queued(closed))
    }
}

impl Host for PvRegion {
    ghost hosts = { λ mode. mode ≡ Pv };

    fn make(alloc: Global, file: &JobFile) -> Result<(PvRegion, List<PvCpu>), Memory> {
        let (domain, cpus) = PvDomain::new(alloc, &pv_plan_of(alloc, file)?)?;
        Ok((PvRegion::new(domain), cpus))
    }

    fn end(self, alloc: Global, cpus: List<PvCpu>) -> Result<Ended, Memory>
        requires mode { self.domain.domain.plan.mode ≡ Pv }
        requires all { length cpus.items ≡ cpus_of self.domain.domain.plan }
        requires rest { InOrder (Rests (pv_crew_of self.domain)) cpus.items }
        ensures { IfOk result (λ ended. IsEnd (pv_crew_of self.domain) cpus.items ended) }
    {
        let Ok(closed) = pv_close(alloc, self.into_domain(), cpus) else {
            return Err(Memory);
        };
        Ok(Ended::Pv(closed))
    }
}
