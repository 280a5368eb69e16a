// A worker, and all workers at once.
ghost use Rattle.std.specs.Prelude.{◌≡◌, ◌<◌, length};
ghost use Rattle.lk_names.specs.Workload.{jobs_of, workers_of, workload_of};
ghost use Rattle.lk_workers.specs.Plans.{IsFor};
ghost use Rattle.lk_workers.specs.Workers.{AreReady, AreThrough, IsReady, IsThrough};

use lk_domain::Cpu;
use lk_guard::{Gate, Guarded};
use lk_names::{JobFile, List, Seen};
use std::sync::Wait;
use std::thread;
use std::thread::Threads;

/// A processor, and the records of what was read on it.
#[derive(Drop)]
pub(crate) struct Worker {
    pub(crate) cpu: Cpu,
    pub(crate) reads: List<Seen>,
}

impl Worker {
    // Does the jobs of the worker of this number.
    fn work<D: Guarded, G: Gate, R: Wait>(
        &mut self,
        rt: &R,
        region: &D,
        file: &JobFile,
        gate: &G,
        index: usize,
    )
        requires suits { IsFor (workload_of file.now) (D.crew region.now).plan }
        requires index { index < workers_of (workload_of file.now) }
        requires ready { IsReady (D.crew region.now) (jobs_of (workload_of file.now) index) index
            self.old }
        ensures { IsThrough (D.crew region.now) (jobs_of (workload_of file.now) index) index
            self.new }
    {
        let jobs = file.jobs.get(index);
        region.work(&mut self.cpu, rt, jobs, &mut self.reads, gate);
    }
}

/// Does the jobs of all workers, those of each in a thread of its own.
pub(crate) fn run_all<D: Guarded + Sync, G: Gate, R: Threads + Wait + Sync>(
    rt: &R,
    region: &D,
    file: &JobFile,
    gate: &G,
    workers: &mut List<Worker>,
)
    requires suits { IsFor (workload_of file.now) (D.crew region.now).plan }
    requires each { length workers.old.items ≡ workers_of (workload_of file.now) }
    requires ready { AreReady (D.crew region.now) (workload_of file.now) workers.old.items }
    ensures each { length workers.new.items ≡ length workers.old.items }
    ensures through { AreThrough (D.crew region.now) (workload_of file.now) workers.new.items }
{
    let count = workers.len();
    thread::for_each_mut(
        rt,
        workers.as_mut_slice(),
        count,
        &|index: usize, worker: &mut Worker|
            requires { IsFor (workload_of file.now) (D.crew region.now).plan
                × (index < workers_of (workload_of file.now))
                × IsReady (D.crew region.now) (jobs_of (workload_of file.now) index) index
                worker.now }
            ensures { IsThrough (D.crew region.entry.now)
                (jobs_of (workload_of file.entry.now) index) index worker.exit.now }
        { worker.work(rt, region, file, gate, index) },
    );
}
