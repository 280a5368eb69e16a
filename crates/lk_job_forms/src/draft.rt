// What the lines of a job file have said so far.
ghost use Rattle.std.specs.Prelude.{◌≡◌, ◌≤◌, [], IfOk, length, map, replicate};
ghost use Rattle.lk_names.specs.declared.limits.TheConstants.{MAX_ACCOUNTS, MAX_WORKERS};
ghost use Rattle.lk_names.specs.Workload.{job_count};

use lk_forms::{LineRefusal, Which};
use lk_names::{Format, Job, Kind, List, MAX_JOBS, MAX_TURNS, Memory, Mode};
use std::alloc::Global;

/// A job file whose jobs are still growing.
#[derive(Drop)]
pub(crate) struct Draft {
    /// The format.
    pub format: Format,
    /// The lock family.
    pub mode: Mode,
    /// The kind of the lock that guards the ledger.
    pub guard: Kind,
    /// The socket of each worker's processor.
    pub sockets: List<u32>,
    /// The CNA threshold, in handoffs.
    pub threshold: u32,
    /// The opening balance of each account.
    pub balances: List<u64>,
    /// The jobs of each worker.
    pub jobs: List<Vec<Job>>,
    /// How many jobs all workers have together.
    pub count: usize,
    ghost counted: { count ≡ job_count (map (λ js. js.items) jobs.items) },
    ghost few_workers: { length jobs.items ≤ MAX_WORKERS },
    ghost few_accounts: { length balances.items ≤ MAX_ACCOUNTS },
}

/// So many workers, each without a job.
pub(crate) fn no_jobs(alloc: Global, workers: usize) -> Result<List<Vec<Job>>, Memory>
    ensures items { IfOk result (λ jobs. map (λ js. js.items) jobs.items ≡ replicate workers []) }
    ensures size { IfOk result (λ jobs. length jobs.items ≡ workers) }
{
    let mut jobs = List::new(alloc, workers)?;
    for _worker in 0..workers {
        jobs.push(Vec::new(alloc));
    }
    Ok(jobs)
}

impl Draft {
    ghost use Rattle.std.specs.Prelude.{◌≡◌, ◌<◌, IfOk, false, map, nat_le};
    ghost use Rattle.lk_names.specs.declared.limits.TheConstants.{MAX_JOBS};
    ghost use Rattle.lk_names.specs.Workload.{workers_of, job_count};
    ghost use Rattle.lk_job_forms.specs.Grammar.{usual_workload};
    ghost use Rattle.lk_job_forms.specs.Lines.{with_job};
    ghost use Rattle.lk_job_forms.specs.Draft.{work_of, Makes};

    /// What no line has said.
    pub fn new(alloc: Global) -> Result<Draft, Memory>
        ensures { IfOk result (λ draft. work_of draft ≡ usual_workload) }
    {
        Ok(Draft {
            format: Format::One,
            mode: Mode::Virt,
            guard: Kind::Spin,
            sockets: List::filled(alloc, 0, 1)?,
            threshold: MAX_TURNS as u32,
            balances: List::new(alloc, 0)?,
            jobs: no_jobs(alloc, 1)?,
            count: 0,
        })
    }

    // Whether there are as many jobs as there may be.
    fn is_full(&self) -> bool
        ensures value { result ≡ nat_le MAX_JOBS (job_count (work_of self.now).jobs) }
        ensures few { result ≡ false → self.now.count < MAX_JOBS }
    {
        self.count >= MAX_JOBS
    }

    /// One more job of a worker.
    pub fn add_job(&mut self, worker: usize, job: Job) -> Result<(), LineRefusal>
        requires { worker < workers_of (work_of self.old) }
        ensures { Makes (with_job (work_of self.old) worker job) self.old self.new result }
    {
        if self.is_full() {
            return Err(LineRefusal::Limit(Which::Jobs));
        }
        match self.jobs.get_mut(worker).push(job) {
            Ok(()) => {}
            Err(_) => return Err(LineRefusal::Memory),
        }
        self.count += 1;
        Ok(())
    }

    /// The jobs of each worker, in room that fits.
    pub fn job_lists(&self, alloc: Global) -> Result<List<List<Job>>, Memory>
        ensures { IfOk result
            (λ lists. map (λ js. js.items) lists.items ≡ (work_of self.now).jobs) }
    {
        let mut lists = List::new(alloc, self.jobs.len())?;
        for jobs in self.jobs.as_slice() {
            lists.push(List::from_slice(alloc, jobs.as_slice())?);
        }
        Ok(lists)
    }
}
