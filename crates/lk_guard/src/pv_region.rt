// The ledger of a domain whose waiters halt, under its one lock.
ghost use Rattle.std.specs.Prelude.{◌≡◌, None};
ghost use Rattle.lk_names.specs.declared.holder.Manner.TheVariants.{Spins};
ghost use Rattle.lk_rows.specs.declared.setup.Verb.TheVariants.{Lock};
ghost use Rattle.lk_domain.specs.Ledgers.{closed};
ghost use Rattle.lk_domain.specs.Plans.{locks_of};
ghost use Rattle.lk_guard.specs.Guards.{guard_in};
ghost use Rattle.lk_guard.specs.Holding.{Begins, HoldsFirst};
ghost use Rattle.lk_guard.specs.Idle.{IsFree, pv_crew_of};
ghost use Rattle.lk_pvdomain.specs.PvCalls.{IsResting};
ghost use Rattle.lk_domain.specs.Seats.{IsSame, calls_of, ledger_of, view_of};
ghost use Rattle.lk_pvdomain.specs.PvSeats.{IsOf};

use crate::books::Books;
use crate::region::FIRST;
use crate::updates::Task;
use crate::working::Guarded;
use lk_names::{Job, Reply};
use lk_pvdomain::{PvCpu, PvDomain, pv_lock, pv_unlock};
use std::sync::Wait;

/// A domain with the paravirtual lock, whose one lock guards its ledger.
#[derive(Drop)]
pub struct PvRegion {
    pub(crate) domain: PvDomain,
    ghost alone: { locks_of domain.domain.plan ≡ 1 },
}

impl PvRegion {
    /// Puts the ledger of a domain under its lock. The domain must have exactly one lock.
    pub fn new(domain: PvDomain) -> PvRegion
        requires { locks_of domain.domain.plan ≡ 1 }
        ensures { result.domain ≡ domain }
    {
        PvRegion { domain }
    }

    /// Returns the domain.
    pub fn into_domain(self) -> PvDomain
        ensures { result ≡ self.domain }
    {
        let PvRegion { domain } = self;
        domain
    }

    // Acquires the lock, and so begins a look at the ledger.
    fn hold<R: Wait>(&self, cpu: &mut PvCpu, rt: &R)
        requires domain { IsOf cpu.old self.now.domain }
        requires free { IsFree cpu.old }
        ensures same { IsSame cpu.old cpu.new }
        ensures rests { IsResting (calls_of cpu.new) }
        ensures begun { Begins (guard_in self.now.domain.domain.plan) cpu.old.number Lock Spins
            (view_of cpu.old) (view_of cpu.new) None None }
    {
        pv_lock(cpu, rt, &self.domain, FIRST);
    }

    // Releases the lock, and so ends the look.
    fn end<R: Wait>(&self, cpu: &mut PvCpu, rt: &R)
        requires domain { IsOf cpu.old self.now.domain }
        requires rests { IsResting (calls_of cpu.old) }
        requires holding { HoldsFirst Spins (calls_of cpu.old) }
        requires home { (ledger_of cpu.old).out ≡ None }
        ensures same { IsSame cpu.old cpu.new }
        ensures free { IsFree cpu.new }
        ensures ledger { ledger_of cpu.new ≡ closed (ledger_of cpu.old) }
    {
        pv_unlock(cpu, rt, &self.domain, FIRST);
    }
}

impl Guarded for PvRegion {
    ghost crew = { λ region. pv_crew_of region.domain };

    #[tactic(auto, using(crate::proofs::PvBegins::pv_stays))]
    fn write<R: Wait>(&self, cpu: &mut PvCpu, rt: &R, number: u32, job: Job) -> Reply {
        self.hold(cpu, rt);
        let task = Task {
            worker: cpu.number(),
            number,
            job,
        };
        let books = Books {
            table: &self.domain.domain.table,
            plan: &self.domain.domain.plan,
        };
        let reply = books.append(&mut cpu.seat, task);
        self.end(cpu, rt);
        reply
    }

    #[tactic(auto, using(crate::proofs::PvBegins::pv_stays))]
    fn read<R: Wait>(&self, cpu: &mut PvCpu, rt: &R, job: Job) -> (u64, Reply) {
        self.hold(cpu, rt);
        let books = Books {
            table: &self.domain.domain.table,
            plan: &self.domain.domain.plan,
        };
        let seen = books.look(&mut cpu.seat, job);
        self.end(cpu, rt);
        seen
    }
}
