// All jobs of a worker, on a region of whichever family.
ghost use Rattle.std.specs.Prelude.{◌≡◌, ◌<◌, ◌≤◌, ◌+◌, ◌^◌, All, true, false, None, length};
ghost use Rattle.lk_names.specs.Jobs.{IsAmong};
ghost use Rattle.lk_names.specs.Journal.{is_write};
ghost use Rattle.lk_domain.specs.Plans.{accounts_of};
ghost use Rattle.lk_domain.specs.Seats.{ledger_of};
ghost use Rattle.lk_guard.specs.Idle.{Crew, Stays};
ghost use Rattle.lk_guard.specs.Deeds.{HasDone, Worked, writes_in, reads_in};
ghost use Rattle.lk_guard.specs.Guards.{guard_in};
ghost use Rattle.lk_guard.specs.Reads.{HasRead};
ghost use Rattle.lk_guard.specs.Writes.{HasWritten};

use crate::gate::Gate;
use crate::updates::Task;
use lk_domain::Cpu;
use lk_names::{Job, List, Reply, Seen};
use std::sync::Wait;

/// Whether a job may change a balance: a `Move` or an `Add` may.
pub fn writes(job: Job) -> bool
    ensures { result ≡ is_write job }
{
    matches!(job, Job::Move { .. } | Job::Add { .. })
}

/// A domain whose one lock guards its ledger, of whichever family.
pub trait Guarded {
    /// What clauses say of its processors.
    ghost crew: { Self → Crew };

    /// Does a `Move` or an `Add` in a critical section of its own, appends its entry to the
    /// journal, and returns the reply. `number` is the number of the job, which the entry names.
    /// The processor must hold nothing, and its share must have room for one more entry. Nothing
    /// interrupts its wait for the lock. It takes no memory.
    fn write<R: Wait>(&self, cpu: &mut Cpu, rt: &R, number: u32, job: Job) -> Reply
        requires ready { (crew self.now).ready cpu.old }
        requires job { IsAmong (accounts_of (crew self.now).plan) job }
        requires writes { is_write job ≡ true }
        requires share { 1 ≤ (ledger_of cpu.old).share }
        ensures stays { Stays (crew self.now) cpu.old cpu.new }
        ensures written { HasWritten (guard_in (crew self.now).plan)
            cpu.old.number number job result (ledger_of cpu.old) (ledger_of cpu.new) None None };

    /// Does a `Sum` or a `Get` in a critical section of its own. Returns the number of entries that
    /// the journal had then, and the reply. The processor must hold nothing. Nothing interrupts its
    /// wait for the lock. It takes no memory.
    fn read<R: Wait>(&self, cpu: &mut Cpu, rt: &R, job: Job) -> (u64, Reply)
        requires ready { (crew self.now).ready cpu.old }
        requires job { IsAmong (accounts_of (crew self.now).plan) job }
        requires reads { is_write job ≡ false }
        ensures stays { Stays (crew self.now) cpu.old cpu.new }
        ensures read { HasRead (guard_in (crew self.now).plan)
            cpu.old.number result.0 job result.1
            (ledger_of cpu.old) (ledger_of cpu.new) None None };

    /// Does the jobs of one worker in their order, numbered from 1. It calls `before` and `after`
    /// of the gate around each job, and appends a record of each `Sum` and `Get` to `reads`, which
    /// must have room for them. The processor must hold nothing, and its share must have room for
    /// the entries of the other jobs. It takes no memory.
    final fn work<G: Gate, R: Wait>(
        &self,
        cpu: &mut Cpu,
        rt: &R,
        jobs: &List<Job>,
        reads: &mut List<Seen>,
        gate: &G,
    )
        requires ready { (crew self.now).ready cpu.old }
        requires jobs { All (IsAmong (accounts_of (crew self.now).plan)) jobs.now.items }
        requires few { length jobs.now.items < 2 ^ 32 }
        requires share { writes_in jobs.now.items ≤ (ledger_of cpu.old).share }
        requires room { length reads.old.items + reads_in jobs.now.items ≤ reads.old.room }
        ensures stays { Stays (crew self.now) cpu.old cpu.new }
        ensures room { reads.new.room ≡ reads.old.room }
        ensures worked { Worked (guard_in (crew self.now).plan)
            cpu.old.number jobs.now.items (ledger_of cpu.old) (ledger_of cpu.new)
            reads.old.items reads.new.items }
    {
        for index in 0..jobs.len() {
            let task = Task {
                worker: cpu.number(),
                number: index as u32 + 1,
                job: *jobs.get(index),
            };
            gate.before(task.worker, task.number);
            do_one(self, cpu, rt, reads, task);
            gate.after(task.worker, task.number);
        }
    }
}

// Does one job: writes it, or keeps the record of its read.
fn do_one<D: Guarded, R: Wait>(
    region: &D,
    cpu: &mut Cpu,
    rt: &R,
    reads: &mut List<Seen>,
    task: Task,
)
    requires ready { (D.crew region.now).ready cpu.old }
    requires worker { task.worker ≡ cpu.old.number }
    requires job { IsAmong (accounts_of (D.crew region.now).plan) task.job }
    requires share { is_write task.job ≡ true → 1 ≤ (ledger_of cpu.old).share }
    requires room { is_write task.job ≡ false → length reads.old.items < reads.old.room }
    ensures stays { Stays (D.crew region.now) cpu.old cpu.new }
    ensures room { reads.new.room ≡ reads.old.room }
    ensures done { HasDone (guard_in (D.crew region.now).plan)
        cpu.old.number task.number task.job (ledger_of cpu.old) (ledger_of cpu.new)
        reads.old.items reads.new.items }
{
    let Task {
        worker,
        number,
        job,
    } = task;
    if writes(job) {
        region.write(cpu, rt, number, job);
    } else {
        let (version, reply) = region.read(cpu, rt, job);
        reads.push(Seen {
            worker,
            number,
            version,
            job,
            reply,
        });
    }
}
