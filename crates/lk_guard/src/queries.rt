// A read of the ledger, in a critical section of its lock.
ghost use Rattle.std.specs.Prelude.{◌≡◌, ◌<◌, false};
ghost use Rattle.lk_names.specs.Jobs.{IsAmong};
ghost use Rattle.lk_names.specs.Journal.{is_write};
ghost use Rattle.lk_names.specs.declared.ledger.Job.TheVariants as job;
ghost use Rattle.lk_domain.specs.Keeps.{holds_first};
ghost use Rattle.lk_domain.specs.Plans.{accounts_of};
ghost use Rattle.lk_domain.specs.Plays.{OneState};
ghost use Rattle.lk_domain.specs.Seated.{IsKept, IsSeatOf};
ghost use Rattle.lk_domain.specs.Seats.{IsOf, IsSame, ledger_of};
ghost use Rattle.lk_domain.specs.Views.{own_number};
ghost use Rattle.lk_guard.specs.Guards.{guard_in};
ghost use Rattle.lk_guard.specs.Idle.{IsIdle};
ghost use Rattle.lk_guard.specs.Reads.{IsFreshLook, HasSummed, HasLooked, HasRead};

use crate::books::Books;
use crate::region::Region;
use lk_domain::ledger_steps::{accounts, load, version};
use lk_domain::{Cpu, Right};
use lk_names::{Job, Reply};
use lk_run::Irq;
use std::sync::Wait;

impl Books<'_> {
    // The sum of all balances, each loaded in the look that is open.
    fn load_all(&self, seat: &mut Right) -> u64
        requires seat { IsSeatOf self.now.plan.now self.now.table.now.shared.table_id seat.old }
        requires held { holds_first seat.old.me.0.calls }
        requires look { IsFreshLook seat.old.me.0.ledger }
        requires one { OneState seat.old.me.0 }
        ensures seat { IsSeatOf self.now.plan.now self.now.table.now.shared.table_id seat.new }
        ensures rest { IsKept seat.old seat.new }
        ensures summed { HasSummed (accounts_of self.now.plan.now) result seat.old.me.0.ledger
            seat.new.me.0.ledger }
        ensures one { OneState seat.new.me.0 }
    {
        let mut sum = 0;
        for account in 0..accounts(self.plan) {
            sum += load(seat, self.table, self.plan, account);
        }
        sum
    }

    // Loads the version and all balances, and returns the version and the sum.
    fn look_at_all(&self, seat: &mut Right) -> (u64, Reply)
        requires seat { IsSeatOf self.now.plan.now self.now.table.now.shared.table_id seat.old }
        requires held { holds_first seat.old.me.0.calls }
        requires look { IsFreshLook seat.old.me.0.ledger }
        ensures seat { IsSeatOf self.now.plan.now self.now.table.now.shared.table_id seat.new }
        ensures rest { IsKept seat.old seat.new }
        ensures looked { HasLooked self.now.plan.now.balances.items
            (own_number seat.old.me.0.who.number) result.0
            job.Sum result.1 seat.old.me.0.ledger seat.new.me.0.ledger }
    {
        let count = version(seat, self.table, self.plan);
        let sum = self.load_all(seat);
        (count, Reply::Amount(sum))
    }

    // Loads the version and one balance, and returns both.
    fn look_at(&self, seat: &mut Right, account: u32) -> (u64, Reply)
        requires seat { IsSeatOf self.now.plan.now self.now.table.now.shared.table_id seat.old }
        requires held { holds_first seat.old.me.0.calls }
        requires account { account < accounts_of self.now.plan.now }
        requires look { IsFreshLook seat.old.me.0.ledger }
        ensures seat { IsSeatOf self.now.plan.now self.now.table.now.shared.table_id seat.new }
        ensures rest { IsKept seat.old seat.new }
        ensures looked { HasLooked self.now.plan.now.balances.items
            (own_number seat.old.me.0.who.number) result.0
            (job.Get account) result.1 seat.old.me.0.ledger seat.new.me.0.ledger }
    {
        let count = version(seat, self.table, self.plan);
        let balance = load(seat, self.table, self.plan, account);
        (count, Reply::Amount(balance))
    }

    // Loads the version and the balances that the job asks for. Returns the version and the reply.
    pub(crate) fn look(&self, seat: &mut Right, job: Job) -> (u64, Reply)
        requires seat { IsSeatOf self.now.plan.now self.now.table.now.shared.table_id seat.old }
        requires held { holds_first seat.old.me.0.calls }
        requires job { IsAmong (accounts_of self.now.plan.now) job }
        requires reads { is_write job ≡ false }
        requires look { IsFreshLook seat.old.me.0.ledger }
        ensures seat { IsSeatOf self.now.plan.now self.now.table.now.shared.table_id seat.new }
        ensures rest { IsKept seat.old seat.new }
        ensures looked { HasLooked self.now.plan.now.balances.items
            (own_number seat.old.me.0.who.number) result.0
            job result.1 seat.old.me.0.ledger seat.new.me.0.ledger }
    {
        match job {
            Job::Sum => self.look_at_all(seat),
            Job::Get { account } => self.look_at(seat, account),
            _ => unreachable!(),
        }
    }
}

impl Region {
    /// Does a `Sum` or a `Get` in a critical section of its own. If the lock is a reader-writer
    /// lock, other readers may be in theirs at the same time. Returns the number of entries that
    /// the journal had then, and the reply. The processor must hold nothing. While it waits for the
    /// lock it polls `irq`, as `lock` does. It takes no memory.
    pub fn read<I: Irq, R: Wait>(
        &self,
        cpu: &mut Cpu,
        rt: &R,
        irq: &mut I,
        job: Job,
    ) -> (u64, Reply)
        requires domain { IsOf cpu.old self.now.domain }
        requires idle { IsIdle cpu.old }
        requires job { IsAmong (accounts_of self.now.domain.plan) job }
        requires reads { is_write job ≡ false }
        ensures same { IsSame cpu.old cpu.new }
        ensures idle { IsIdle cpu.new }
        ensures read { HasRead (guard_in self.now.domain.plan) cpu.old.number result.0 job result.1
            (ledger_of cpu.old) (ledger_of cpu.new) (I.polls irq.old) (I.polls irq.new) }
    {
        self.hold_to_read(cpu, rt, irq);
        let books = Books {
            table: &self.domain.table,
            plan: &self.domain.plan,
        };
        let seen = books.look(&mut cpu.seat, job);
        self.end_read(cpu);
        seen
    }
}
