// The plan of a domain for a file, and its workers.
ghost use Rattle.std.specs.Prelude.{◌≡◌, IfOk, false, length, map};
ghost use Rattle.lk_names.specs.Workload.{IsLawful, workers_of, workload_of};
ghost use Rattle.lk_law.specs.Agree.{halts};
ghost use Rattle.lk_domain.specs.Plans.{IsLawfulPlan};
ghost use Rattle.lk_pvdomain.specs.PvPlans.{IsLawful as IsLawfulPv};
ghost use Rattle.lk_workers.specs.Plans.{IsPlanOf, IsPvPlanOf};
ghost use Rattle.lk_workers.specs.Workers.{cpu_of, no_records, reads_of};

use crate::counts::{count_reads, entry_counts};
use crate::worker::Worker;
use lk_domain::{Cpu, Plan};
use lk_names::{JobFile, List, Memory, Topology};
use lk_pvdomain::PvPlan;
use std::alloc::Global;

/// For how many turns a waiter spins before it halts.
const SPINS: u32 = 32_768;

// The plan of a domain for the file.
pub(crate) fn plan_of(alloc: Global, file: &JobFile) -> Result<Plan, Memory>
    requires lawful { IsLawful (workload_of file.now) }
    requires awake { halts file.now.mode ≡ false }
    ensures lawful { IfOk result (λ plan. IsLawfulPlan plan) }
    ensures plan { IfOk result (λ plan. IsPlanOf (workload_of file.now) plan) }
{
    let topology = Topology {
        sockets: List::from_slice(alloc, file.topology.sockets.as_slice())?,
    };
    let locks = List::filled(alloc, file.guard, 1)?;
    let balances = List::from_slice(alloc, file.balances.as_slice())?;
    let shares = entry_counts(alloc, file)?;
    Ok(Plan {
        format: file.format,
        mode: file.mode,
        topology,
        threshold: file.threshold,
        locks,
        balances,
        shares,
        cells: None,
    })
}

// The plan of a domain for the file whose waiters halt.
pub(crate) fn pv_plan_of(alloc: Global, file: &JobFile) -> Result<PvPlan, Memory>
    requires lawful { IsLawful (workload_of file.now) }
    ensures lawful { IfOk result (λ plan. IsLawfulPv plan) }
    ensures plan { IfOk result (λ plan. IsPvPlanOf (workload_of file.now) plan) }
{
    let balances = List::from_slice(alloc, file.balances.as_slice())?;
    let shares = entry_counts(alloc, file)?;
    Ok(PvPlan {
        format: file.format,
        spins: SPINS,
        locks: 1,
        balances,
        shares,
    })
}

// A worker on each processor, with room for its records.
pub(crate) fn hire(
    alloc: Global,
    mut cpus: List<Cpu>,
    file: &JobFile,
) -> Result<List<Worker>, Memory>
    requires { length cpus.items ≡ workers_of (workload_of file.now) }
    ensures each { IfOk result
        (λ workers. length workers.items ≡ workers_of (workload_of file.now)) }
    ensures cpus { IfOk result (λ workers. map cpu_of workers.items ≡ cpus.items) }
    ensures reads { IfOk result (λ workers. map reads_of workers.items
        ≡ map no_records (workload_of file.now).jobs) }
{
    let mut workers = List::new(alloc, cpus.len())?;
    for jobs in file.jobs.as_slice() {
        let reads = List::new(alloc, count_reads(jobs.as_slice()))?;
        let cpu = cpus.pop_front();
        workers.push(Worker { cpu, reads });
    }
    Ok(workers)
}
