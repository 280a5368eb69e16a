// The jobs of a file are run, and the domain is closed.
ghost use Rattle.std.specs.Prelude.{◌≡◌, ◌+◌, ◌++◌, ◌≤◌, [], IfOk, length, map};
ghost use Rattle.lk_names.specs.Outcome.{IsOutcome};
ghost use Rattle.lk_names.specs.Workload.{IsLawful, workload_of};
ghost use Rattle.lk_workers.specs.Ended.{IsEndOf, balances_in, journal_in, looks_in};
ghost use Rattle.lk_workers.specs.UnderLock.{UnderLock};
ghost use Rattle.lk_workers.specs.Workers.{all_records, cpu_of};

use crate::counts::record_count;
use crate::ended::Ended;
use crate::host::Host;
use crate::making::hire;
use crate::worker::{Worker, run_all};
use lk_domain::Cpu;
use lk_guard::{Gate, PvRegion, Region};
use lk_names::{JobFile, List, Memory, Mode, Seen};
use std::alloc::Global;
use std::sync::Wait;
use std::thread::Threads;

/// The outcome of a job file.
#[derive(Drop)]
pub struct Outcome {
    /// The journal and the balances at the end.
    pub closed: Ended,
    /// The records of the jobs that read, sorted by worker and then by number.
    pub reads: List<Seen>,
}

// Appends the records of a worker to those of others.
fn append(all: &mut List<Seen>, reads: &[Seen])
    requires { length all.old.items + length reads.now ≤ all.old.room }
    ensures { all.new ≡ record all.old { items = all.old.items ++ reads.now } }
{
    for read in reads {
        all.push(*read);
    }
}

// The processors of the workers, and all their records, into lists that have the room.
fn gather(mut workers: List<Worker>, cpus: &mut List<Cpu>, reads: &mut List<Seen>)
    requires cpus { cpus.old ≡ record { items = []; room = length workers.items } }
    requires reads { reads.old ≡ record { items = []; room = length (all_records workers.items) } }
    ensures cpus { cpus.new.items ≡ map cpu_of workers.items }
    ensures reads { reads.new.items ≡ all_records workers.items }
{
    while workers.len() > 0 {
        let Worker { cpu, reads: seen } = workers.pop_front();
        cpus.push(cpu);
        append(reads, seen.as_slice());
    }
}

// The jobs of a file, on a region that is made for it.
fn run<D: Host, G: Gate, R: Threads + Wait + Sync>(
    rt: &R,
    alloc: Global,
    file: &JobFile,
    gate: &G,
) -> Result<Outcome, Memory>
    requires lawful { IsLawful (workload_of file.now) }
    requires mode { D.hosts file.now.mode }
    ensures outcome { IfOk result (λ o. IsOutcome (workload_of file.now) (journal_in o.closed)
        o.reads.items (balances_in o.closed)) }
    ensures under_lock { IfOk result
        (λ o. UnderLock (workload_of file.now) o.reads.items (looks_in o.closed)) }
    ensures end { IfOk result (λ o. IsEndOf file.now.mode file.now.guard o.closed) }
{
    let mut cpus = List::new(alloc, file.jobs.len())?;
    let mut reads = List::new(alloc, record_count(file))?;
    let (region, dealt) = D::make(alloc, file)?;
    let mut workers = hire(alloc, dealt, file)?;
    run_all(rt, &region, file, gate, &mut workers);
    gather(workers, &mut cpus, &mut reads);
    let closed = region.end(alloc, cpus)?;
    Ok(Outcome { closed, reads })
}

/// Does the jobs of a file over one ledger, those of each worker on a thread of its own, and then
/// closes the ledger. One lock guards the balances. Each worker passes the gate before and after
/// each job.
///
/// # Errors
///
/// There is not enough memory. All memory but that of the closing balances is taken before the
/// first job. If there is none for these, nothing of the run is kept.
pub fn run_jobs<G: Gate, R: Threads + Wait + Sync>(
    rt: &R,
    alloc: Global,
    file: &JobFile,
    gate: &G,
) -> Result<Outcome, Memory>
    requires lawful { IsLawful (workload_of file.now) }
    ensures outcome { IfOk result (λ o. IsOutcome (workload_of file.now) (journal_in o.closed)
        o.reads.items (balances_in o.closed)) }
    ensures under_lock { IfOk result
        (λ o. UnderLock (workload_of file.now) o.reads.items (looks_in o.closed)) }
    ensures end { IfOk result (λ o. IsEndOf file.now.mode file.now.guard o.closed) }
{
    match file.mode {
        Mode::Pv => run::<PvRegion, G, R>(rt, alloc, file, gate),
        Mode::Virt | Mode::Native | Mode::Cna => run::<Region, G, R>(rt, alloc, file, gate),
    }
}
