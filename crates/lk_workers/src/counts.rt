// How many entries and records the jobs of a file will leave.
ghost use Rattle.std.specs.Prelude.{◌≡◌, ◌<◌, ◌^◌, IfOk, length, map};
ghost use Rattle.std.specs.List.{sum_by};
ghost use Rattle.lk_names.specs.Workload.{IsLawful, workload_of};
ghost use Rattle.lk_guard.specs.Deeds.{reads_in, writes_in};

use lk_guard::writes;
use lk_names::{Job, JobFile, List, Memory};
use std::alloc::Global;

// How many of the jobs write.
fn count_writes(jobs: &[Job]) -> u32
    requires { length jobs.now < 2 ^ 32 }
    ensures { result ≡ writes_in jobs.now }
{
    let mut count = 0;
    for job in jobs {
        count += u32::from(writes(*job));
    }
    count
}

// How many of the jobs read.
pub(crate) fn count_reads(jobs: &[Job]) -> usize
    ensures { result ≡ reads_in jobs.now }
{
    let mut count = 0;
    for job in jobs {
        count += usize::from(!writes(*job));
    }
    count
}

// For each worker, how many entries it will write.
pub(crate) fn entry_counts(alloc: Global, file: &JobFile) -> Result<List<u32>, Memory>
    requires { IsLawful (workload_of file.now) }
    ensures { IfOk result (λ counts. counts.items ≡ map writes_in (workload_of file.now).jobs) }
{
    let mut counts = List::new(alloc, file.jobs.len())?;
    for jobs in file.jobs.as_slice() {
        counts.push(count_writes(jobs.as_slice()));
    }
    Ok(counts)
}

// How many records all workers will make.
pub(crate) fn record_count(file: &JobFile) -> usize
    requires { IsLawful (workload_of file.now) }
    ensures { result ≡ sum_by reads_in (workload_of file.now).jobs }
{
    let mut count = 0;
    for jobs in file.jobs.as_slice() {
        count += count_reads(jobs.as_slice());
    }
    count
}
