// The word `ledger`: job files over sources and sinks in memory.

use crate::command::{call, ended};
use std::process::Abort;
use std::str;
use std::sync::Wait;
use std::test::Fail;
use std::thread::Threads;

// What is wanted of a file: the status, what is written, and the note.
type Case = (&'static str, (u8, &'static str, &'static str));

// Job files of one worker, done or refused.
const CASES: [Case; 12] = [
    (
        "qjobs 1\nmode virt\naccounts 9223372036854775807\njob 0 add 0 1\nend",
        (
            0,
            "entry 1 0 add 0 1 full\nbalance 0 9223372036854775807\nend 1 0\n",
            "",
        ),
    ),
    (
        "qjobs 1\nmode virt\naccounts 5\njob 0 move 0 0 3\nend\n# behind\n\n",
        (0, "entry 1 0 move 0 0 3 ok\nbalance 0 5\nend 1 0\n", ""),
    ),
    (
        "qjobs 1\nmode virt\nworkers 16\njob 15 sum\nend\n",
        (0, "read 15 1 0 sum 0\nend 0 1\n", ""),
    ),
    ("qjobs 1\nmode virt\nend\n", (0, "end 0 0\n", "")),
    (
        "qjobs 1\nmode virt\naccounts 9223372036854775807 1\n",
        (7, "", "limit line 3: Total\n"),
    ),
    ("", (3, "", "bad input line 1: NoFormat\n")),
    (
        "qjobs 1\nmode virt\naccounts 1\njob 0 mul 0 2\nend\n",
        (3, "", "bad input line 4: UnknownWord\n"),
    ),
    (
        "qjobs 1\nmode mcs\nend\n",
        (3, "", "bad input line 2: UnknownWord\n"),
    ),
    (
        "qjobs 1\nmode pv\nguard rw\nend\n",
        (3, "", "bad input line 3: WrongLock\n"),
    ),
    (
        "qjobs 1\nmode virt\nguard try\nend\n",
        (3, "", "bad input line 3: UnknownWord\n"),
    ),
    (
        "qjobs 1\nmode virt\nend\njob 0 sum\n",
        (3, "", "bad input line 4: Misplaced\n"),
    ),
    (
        "qjobs 1\nmode virt\njob 0 sum\n",
        (3, "", "bad input line 4: NoEnd\n"),
    ),
];

#[test]
fn files_of_one_worker_have_their_outcomes(rt: HostRuntime) -> Result<(), Fail> {
    for (file, wanted) in CASES {
        let ran = call(&rt, "ledger", file.as_bytes(), [0, 0, 0])?;
        ended(&rt, &ran, wanted);
    }
    Ok(())
}

/// The modes of a job file, with the kinds of its lock.
pub const FAMILIES: [(&str, &str); 7] = [
    ("virt", "spin"),
    ("virt", "rw"),
    ("native", "spin"),
    ("native", "rw"),
    ("cna", "spin"),
    ("cna", "rw"),
    ("pv", "spin"),
];

// A file of one worker behind its mode and its lock, and its one outcome.
const JOBS: &str = "\
workers 1
accounts 10 0 5
job 0 move 0 1 4
job 0 get 1
job 0 move 0 2 7
job 0 add 2 1
job 0 sum
end
";

const OUTCOME: &str = "\
entry 1 0 move 0 1 4 ok
entry 2 0 move 0 2 7 short
entry 3 0 add 2 1 ok
read 0 2 1 get 1 4
read 0 5 3 sum 16
balance 0 6
balance 1 4
balance 2 6
end 3 2
";

#[test]
fn outcome_is_the_same_in_each_mode(rt: HostRuntime) -> Result<(), Fail> {
    for (mode, kind) in FAMILIES {
        let file = format!(in rt.alloc(); "qjobs 1\nmode {mode}\nguard {kind}\n{JOBS}")?;
        let ran = call(&rt, "ledger", file.as_bytes(), [0, 0, 0])?;
        ended(&rt, &ran, (0, OUTCOME, ""));
    }
    Ok(())
}

// Four workers, each of which adds one.
const FOUR: &str = "\
job 0 add 0 1
job 1 add 0 1
job 2 add 0 1
job 3 add 0 1
";

// The family of their lock: `cna` on two sockets, with a threshold, and one whose waiters halt.
const HEADERS: [&str; 3] = [
    "mode cna\nworkers 4\nsockets 0 1 0 1\nthreshold 1",
    "mode cna\nworkers 4\nsockets 0 1 0 1\nthreshold 0",
    "mode pv\nworkers 4",
];

// Each worker adds one a thousand times.
#[test]
fn four_workers_lose_no_job(rt: HostRuntime) -> Result<(), Fail> {
    let alloc = rt.alloc();
    let jobs = FOUR.repeat(alloc, 1_000)?;
    for header in HEADERS {
        let file = format!(in alloc; "qjobs 1\n{header}\naccounts 0\n{jobs}end\n")?;
        let ran = call(&rt, "ledger", file.as_bytes(), [0, 0, 0])?;
        assert_eq!(rt; ran.status, 0);
        let text = str::from_utf8(ran.text.bytes())?;
        assert!(rt;
            text.ends_with("\nbalance 0 4000\nend 4000 0\n"),
            "of {header}"
        );
    }
    Ok(())
}

// One job more than a file may have is refused at its line, and nothing is written.
#[test]
fn one_job_too_many_is_refused(rt: HostRuntime) -> Result<(), Fail> {
    let alloc = rt.alloc();
    let jobs = "job 0 sum\n".repeat(alloc, 100_001)?;
    let file = format!(in alloc; "qjobs 1\nmode virt\n{jobs}end\n")?;
    let ran = call(&rt, "ledger", file.as_bytes(), [0, 0, 0])?;
    ended(&rt, &ran, (7, "", "limit line 100003: Jobs\n"));
    Ok(())
}

// A file of 22 bytes is read byte by byte: each of its reads fails in turn, and the one that finds
// its end; and then its one write. Nothing is written.
#[test]
fn failed_call_of_a_ledger_writes_nothing(rt: HostRuntime) -> Result<(), Fail> {
    let file = b"qjobs 1\nmode virt\nend\n";
    for read in 1..24 {
        let ran = call(&rt, "ledger", file, [read, 0, 0])?;
        ended(&rt, &ran, (4, "", "read fault\n"));
    }
    ended(
        &rt,
        &call(&rt, "ledger", file, [24, 0, 0])?,
        (0, "end 0 0\n", ""),
    );
    ended(
        &rt,
        &call(&rt, "ledger", file, [0, 1, 0])?,
        (5, "", "write fault\n"),
    );
    Ok(())
}
