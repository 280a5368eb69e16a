// Workers on threads over one ledger.
ghost use Rattle.std.specs.Prelude.{IfSome};
ghost use Rattle.lk_names.specs.Workload.{IsLawful, workload_of};

use crate::command::{args_of, call_with};
use crate::ledger_runs::FAMILIES;
use lk_guard::{Gate, OpenGate};
use lk_job_forms::JobReader;
use lk_names::{JobFile, Reply};
use lk_workers::{Outcome, run_jobs};
use std::alloc::Global;
use std::process::Abort;
use std::sync::Wait;
use std::sync::atomic::{AtomicU64, Ordering};
use std::test::Fail;
use std::thread::Threads;
use std::{str, thread};

/// How often a worker looks for the other before it gives up.
const TURNS: u32 = 2_000_000;

/// A gate of two workers, of which the first has three jobs and the second has two. Each goes on to
/// its first job when the other has come to its own: so both run at once. The first goes on to its
/// second job when the other has come to its own, and the second does when the first is through: so
/// the last job of all is the second worker's, where no job is done before its gate is passed.
#[derive(Drop)]
struct Meeting {
    // How often each worker has passed, before and after its jobs.
    first: AtomicU64,
    second: AtomicU64,
    // How often one passed out of turn, or gave up.
    wrong: AtomicU64,
}

impl Meeting {
    fn new() -> Meeting {
        Meeting {
            first: AtomicU64::new(0),
            second: AtomicU64::new(0),
            wrong: AtomicU64::new(0),
        }
    }

    // A worker passes by the job with this number, as the next thing after its passes so far: before
    // it where these are even.
    fn pass(&self, mine: &AtomicU64, number: u32, odd: u64) {
        let passed = mine.fetch_add(1, Ordering::SeqCst);
        if passed / 2 + 1 != u64::from(number) || passed % 2 != odd {
            self.wrong.fetch_add(1, Ordering::SeqCst);
        }
    }

    // Waits until the other worker has passed so often.
    fn wait(&self, other: &AtomicU64, passes: u64) {
        for _ in 0..TURNS {
            if other.load(Ordering::SeqCst) >= passes {
                return;
            }
            thread::yield_now();
        }
        self.wrong.fetch_add(1, Ordering::SeqCst);
    }

    // Each worker has passed before and after each of its jobs, once and in order, and none gave up.
    fn check(&self, rt: &impl Abort) {
        assert_eq!(rt; self.wrong.load(Ordering::SeqCst), 0);
        assert_eq!(rt; self.first.load(Ordering::SeqCst), 6);
        assert_eq!(rt; self.second.load(Ordering::SeqCst), 4);
    }
}

impl Gate for Meeting {
    fn before(&self, worker: u32, number: u32) {
        let (mine, other) = if worker == 0 {
            (&self.first, &self.second)
        } else {
            (&self.second, &self.first)
        };
        self.pass(mine, number, 0);
        match (worker, number) {
            (_, 1) => self.wait(other, 1),
            (0, 2) => self.wait(other, 3),
            (1, 2) => self.wait(other, 6),
            _ => {}
        }
    }

    fn after(&self, worker: u32, number: u32) {
        let mine = if worker == 0 {
            &self.first
        } else {
            &self.second
        };
        self.pass(mine, number, 1);
    }
}

// Reads these lines.
fn read_lines(reader: &mut JobReader, lines: &str) -> Option<()> {
    for line in lines.lines() {
        reader.line(line.as_bytes()).ok()?;
    }
    Some(())
}

// The file of these lines, with the lines of jobs so often behind them.
fn file_of(alloc: Global, lines: &str, jobs: &str, times: u32) -> Option<JobFile>
    ensures { IfSome result (λ file. IsLawful (workload_of file)) }
{
    let mut reader = JobReader::new(alloc).ok()?;
    read_lines(&mut reader, lines)?;
    for _ in 0..times {
        read_lines(&mut reader, jobs)?;
    }
    read_lines(&mut reader, "end")?;
    if reader.is_ended() {
        Some(reader.finish())
    } else {
        None
    }
}

// Runs the jobs of such a file, which pass this gate.
fn run_file(
    rt: &(impl Abort + AllocGlobal + Threads + Wait + Sync),
    lines: &str,
    jobs: &str,
    times: u32,
    gate: &impl Gate,
) -> Result<Outcome, Fail> {
    let file = file_of(rt.alloc(), lines, jobs, times).ok_or("refused")?;
    Ok(run_jobs(rt, rt.alloc(), &file, gate)?)
}

// Two workers that move amounts, the first thrice and the second twice.
const TWO: &str = "\
job 0 move 0 1 1
job 1 move 1 0 2
job 0 move 0 1 1
job 1 move 1 0 2
job 0 move 0 1 1";

// The end of what comes of it.
const ENDS: &str = "\
entry 5 1 move 1 0 2 ok
balance 0 6
balance 1 4
end 5 0
";

// Runs both with a gate at which they meet.
fn meet(
    rt: &(impl Abort + AllocGlobal + Threads + Wait + Sync),
    mode: &str,
    kind: &str,
) -> Result<(), Fail> {
    let alloc = rt.alloc();
    let lines = format!(in alloc; "qjobs 1\nmode {mode}\nguard {kind}\nworkers 2\naccounts 5 5")?;
    let gate = Meeting::new();
    let outcome = run_file(rt, lines.as_str(), TWO, 1, &gate)?;
    gate.check(rt);
    let journal = outcome.closed.journal();
    assert_eq!(rt; journal.len(), 5);
    let last = journal.as_slice().last().ok_or("no entry")?;
    assert_eq!(rt; last.worker, 1);
    assert_eq!(rt; last.number, 2);
    assert!(rt; outcome.closed.balances().as_slice() == [6, 4].as_slice());
    Ok(())
}

// So both run at once, and each job is done between the two passes of its gate.
#[test]
fn two_workers_meet(rt: HostRuntime) -> Result<(), Fail> {
    for (mode, kind) in FAMILIES {
        meet(&rt, mode, kind)?;
    }
    Ok(())
}

// The word `ledger` hands such a gate on.
#[test]
fn a_ledger_passes_its_gate(rt: HostRuntime) -> Result<(), Fail> {
    let alloc = rt.alloc();
    let file = format!(in alloc; "qjobs 1\nmode native\nworkers 2\naccounts 5 5\n{TWO}\nend\n")?;
    let gate = Meeting::new();
    let args = args_of(alloc, "ledger")?;
    let ran = call_with(&rt, Ok(args), file.as_bytes(), [0, 0, 0], &gate)?;
    assert_eq!(rt; ran.status, 0);
    gate.check(&rt);
    assert!(rt; str::from_utf8(ran.text.bytes())?.ends_with(ENDS));
    Ok(())
}

// Two workers that move amounts between two accounts, and two that read the sum of both.
const FOUR: &str = "\
job 0 move 0 1 1
job 1 move 1 0 1
job 2 sum
job 3 sum";

// Each read gives the opening sum: a reader sees both accounts before a move or after it.
fn read_beside(
    rt: &(impl Abort + AllocGlobal + Threads + Wait + Sync),
    mode: &str,
) -> Result<(), Fail> {
    let alloc = rt.alloc();
    let lines = format!(in alloc; "qjobs 1\nmode {mode}\nguard rw\nworkers 4\naccounts 5 5")?;
    let outcome = run_file(rt, lines.as_str(), FOUR, 500, &OpenGate)?;
    assert_eq!(rt; outcome.closed.journal().len(), 1_000);
    assert_eq!(rt; outcome.reads.len(), 1_000);
    for seen in outcome.reads.as_slice() {
        assert_eq!(rt; seen.reply, Reply::Amount(10));
    }
    Ok(())
}

#[test]
fn readers_beside_writers_see_one_sum(rt: HostRuntime) -> Result<(), Fail> {
    for mode in ["virt", "native", "cna"] {
        read_beside(&rt, mode)?;
    }
    Ok(())
}
