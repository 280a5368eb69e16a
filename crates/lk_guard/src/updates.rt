// A write to the ledger, in a critical section of its lock.
ghost use Rattle.std.specs.Prelude.{◌≡◌, ◌<◌, ◌≤◌, true, Some, None};
ghost use Rattle.lk_names.specs.Jobs.{IsAmong};
ghost use Rattle.lk_names.specs.Journal.{is_write};
ghost use Rattle.lk_domain.specs.Keeps.{holds_first, alone_first};
ghost use Rattle.lk_domain.specs.Plans.{accounts_of};
ghost use Rattle.lk_domain.specs.Seated.{IsKept, IsSeatOf};
ghost use Rattle.lk_domain.specs.Seats.{IsOf, IsSame, ledger_of};
ghost use Rattle.lk_guard.specs.Guards.{guard_in};
ghost use Rattle.lk_guard.specs.Idle.{IsIdle};
ghost use Rattle.lk_guard.specs.Writes.{HasAppended, HasWritten};

use crate::books::Books;
use crate::region::Region;
use lk_domain::ledger_steps::{journal_home, journal_out};
use lk_domain::{Cpu, Right};
use lk_names::{Entry, Job, Reply};
use lk_run::Irq;
use std::sync::Wait;

// A job of a worker, with its number.
#[derive(Clone, Copy)]
pub(crate) struct Task {
    pub(crate) worker: u32,
    pub(crate) number: u32,
    pub(crate) job: Job,
}

impl Books<'_> {
    // Takes the journal out, does the job on the balances, and brings the journal back with its
    // entry.
    pub(crate) fn append(&self, seat: &mut Right, task: Task) -> Reply
        requires seat { IsSeatOf self.now.plan.now self.now.table.now.shared.table_id seat.old }
        requires worker { seat.old.me.0.who.number ≡ Some task.worker }
        requires held { holds_first seat.old.me.0.calls }
        requires alone { alone_first seat.old.me.0.calls }
        requires home { seat.old.me.0.ledger.out ≡ None }
        requires job { IsAmong (accounts_of self.now.plan.now) task.job }
        requires writes { is_write task.job ≡ true }
        requires share { 1 ≤ seat.old.me.0.ledger.share }
        ensures seat { IsSeatOf self.now.plan.now self.now.table.now.shared.table_id seat.new }
        ensures rest { IsKept seat.old seat.new }
        ensures appended { HasAppended self.now.plan.now.balances.items
            task.worker task.number task.job result
            seat.old.me.0.ledger seat.new.me.0.ledger }
    {
        let Task {
            worker,
            number,
            job,
        } = task;
        let mut journal = journal_out(seat, self.table, self.plan);
        let reply = self.settle(seat, job);
        journal.push(Entry {
            worker,
            number,
            job,
            reply,
        });
        journal_home(seat, self.table, self.plan, journal);
        reply
    }
}

impl Region {
    /// Does a `Move` or an `Add` in a critical section of its own, appends its entry to the
    /// journal, and returns the reply. `number` is the number of the job, which the entry names.
    /// The processor must hold nothing, and its share must have room for one more entry. While it
    /// waits for the lock it polls `irq`, as `lock` does. It takes no memory.
    pub fn write<I: Irq, R: Wait>(
        &self,
        cpu: &mut Cpu,
        rt: &R,
        irq: &mut I,
        number: u32,
        job: Job,
    ) -> Reply
        requires domain { IsOf cpu.old self.now.domain }
        requires idle { IsIdle cpu.old }
        requires job { IsAmong (accounts_of self.now.domain.plan) job }
        requires writes { is_write job ≡ true }
        requires share { 1 ≤ (ledger_of cpu.old).share }
        ensures same { IsSame cpu.old cpu.new }
        ensures idle { IsIdle cpu.new }
        ensures written { HasWritten (guard_in self.now.domain.plan) cpu.old.number number job
            result (ledger_of cpu.old) (ledger_of cpu.new) (I.polls irq.old) (I.polls irq.new) }
    {
        self.hold_to_write(cpu, rt, irq);
        let worker = cpu.number();
        let task = Task {
            worker,
            number,
            job,
        };
        let books = Books {
            table: &self.domain.table,
            plan: &self.domain.plan,
        };
        let reply = books.append(&mut cpu.seat, task);
        self.end_write(cpu);
        reply
    }
}
