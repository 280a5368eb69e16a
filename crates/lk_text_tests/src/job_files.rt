// Job files and the lines of an outcome.

use lk_job_forms::{JobReader, balance_line, entry_line, seen_line, total_line};
use lk_names::{Entry, Job, JobFile, Kind, Mode, Reply, Seen};
use lk_text::LineBuf;
use std::alloc::{AllocError, Global};
use std::process::Abort;
use std::str;
use std::test::Fail;

// Whole files, with ` / ` for a line feed: good, or the line that is refused, and why.
const FILES: &str = "\
qjobs 1 / mode virt / end = good
# files / qjobs 1 /  / mode virt / guard spin / workers 2 / sockets 0 63 / threshold 0 / accounts 1 / end / # over = good
qjobs 1 / mode native / workers 16 / threshold 65535 / job 15 sum / end = good
qjobs 2 / mode cna / workers 16 / sockets 0 1 0 1 0 1 0 1 0 1 0 1 0 1 0 1 / end = good
 = 2 NoFormat
# qjobs 1 = 2 NoFormat
qtrace 1 = 1 Bad(NoFormat)
qjobs 01 = 1 Bad(NoFormat)
qjobs 1 2 = 1 Bad(NoFormat)
qjobs 1 = 2 NoEnd
qjobs 1 / mode virt = 3 NoEnd
qjobs 1 / # \u{7f} = 2 Bad(NotText)
qjobs 1 / workers 2 = 2 Bad(Misplaced)
qjobs 1 / jobs 1 = 2 Bad(UnknownWord)
qjobs 1 / end = 2 Bad(Misplaced)
qjobs 1 / mode mcs = 2 Bad(UnknownWord)
qjobs 1 / mode pv / guard spin / end = good
qjobs 1 / mode pv / guard rw = 3 Bad(WrongLock)
qjobs 1 / mode pv / guard try = 3 Bad(UnknownWord)
qjobs 1 / mode cna / workers 2 / sockets 0 1 / threshold 0 / end = good
qjobs 1 / mode cna 1 = 2 Bad(WordCount)
qjobs 1 / mode cna / guard rw / end = good
qjobs 1 / mode = 2 Bad(WordCount)
qjobs 1 / mode virt / mode virt = 3 Bad(Repeated)
qjobs 1 / mode virt / qjobs 1 = 3 Bad(Repeated)
qjobs 1 / mode virt / guard try = 3 Bad(UnknownWord)
qjobs 1 / mode virt / workers 0 = 3 Bad(OutOfRange)
qjobs 1 / mode virt / workers 17 = 3 Bad(OutOfRange)
qjobs 1 / mode virt / workers x = 3 Bad(BadNumber)
qjobs 1 / mode virt / workers 2 / guard rw = 4 Bad(Misplaced)
qjobs 1 / mode virt / workers 2 / sockets 0 = 4 Bad(WordCount)
qjobs 1 / mode virt / sockets 64 = 3 Bad(OutOfRange)
qjobs 1 / mode virt / threshold 65536 = 3 Bad(OutOfRange)
qjobs 1 / mode virt / accounts = 3 Bad(WordCount)
qjobs 1 / mode virt / accounts 1 x = 3 Bad(BadNumber)
qjobs 1 / mode virt / accounts 9223372036854775808 = 3 Bad(OutOfRange)
qjobs 1 / mode virt / accounts 9223372036854775807 1 = 3 Limit(Total)
qjobs 1 / mode virt / accounts 9223372036854775807 0 1 x = 3 Bad(BadNumber)
qjobs 1 / mode virt / accounts 1 / accounts 1 = 4 Bad(Repeated)
qjobs 1 / mode virt / job 0 sum / accounts 1 = 4 Bad(Misplaced)
qjobs 1 / mode virt / end / job 0 sum = 4 Bad(Misplaced)
qjobs 1 / mode virt / end 1 = 3 Bad(WordCount)";

// How a file is read.
fn told_of(alloc: Global, file: &str) -> Result<String, AllocError> {
    let Ok(mut reader) = JobReader::new(alloc) else {
        return Err(AllocError);
    };
    let mut number: u64 = 1;
    for line in file.split(" / ") {
        if let Err(why) = reader.line(line.as_bytes()) {
            return format!(in alloc; "{number} {why:?}");
        }
        number = number.wrapping_add(1);
    }
    if reader.is_ended() {
        String::from_str(alloc, "good")
    } else {
        format!(in alloc; "{number} {:?}", reader.ending())
    }
}

#[test]
fn files_are_good_or_refused_at_a_line(rt: HostRuntime) -> Result<(), Fail> {
    for row in FILES.lines() {
        let (file, wanted) = row.split_once(" = ").ok_or("no answer")?;
        assert_eq!(rt; told_of(rt.alloc(), file)?.as_str(), wanted, "in {file}");
    }
    Ok(())
}

// Lines behind two workers and the accounts 5 and 0: accepted, or why not.
const JOBS: &str = "\
job 0 move 0 1 4 = Ok(More)
  job\t1 add 00 9223372036854775807 \r = Ok(More)
job 1 sum = Ok(More)
job 0 get 1 = Ok(More)
end = Ok(End)
 = Ok(More)
# job = Ok(More)
job = Err(Bad(WordCount))
job 0 = Err(Bad(WordCount))
job x = Err(Bad(BadNumber))
job 2 = Err(Bad(OutOfRange))
job 0 mul 0 2 = Err(Bad(UnknownWord))
job 0 move 0 1 = Err(Bad(WordCount))
job 0 move 0 1 2 3 = Err(Bad(WordCount))
job 0 move x 2 y = Err(Bad(BadNumber))
job 0 move 0 2 y = Err(Bad(OutOfRange))
job 0 move 0 1 y = Err(Bad(BadNumber))
job 0 move 0 1 9223372036854775808 = Err(Bad(OutOfRange))
job 0 add 0 = Err(Bad(WordCount))
job 0 add 2 1 = Err(Bad(OutOfRange))
job 0 sum 0 = Err(Bad(WordCount))
job 0 get = Err(Bad(WordCount))
job 0 get 2 = Err(Bad(OutOfRange))";

fn reader_behind(alloc: Global, lines: &str) -> Option<JobReader> {
    let mut reader = JobReader::new(alloc).ok()?;
    for line in lines.lines() {
        reader.line(line.as_bytes()).ok()?;
    }
    Some(reader)
}

#[test]
fn lines_of_jobs_are_read(rt: HostRuntime) -> Result<(), Fail> {
    let before = "qjobs 1\nmode virt\nworkers 2\naccounts 5 0";
    for row in JOBS.lines() {
        let (line, wanted) = row.split_once(" = ").ok_or("no answer")?;
        let mut reader = reader_behind(rt.alloc(), before).ok_or("refused")?;
        let told = format!(in rt.alloc(); "{:?}", reader.line(line.as_bytes()))?;
        assert_eq!(rt; told.as_str(), wanted, "in {line}");
    }
    Ok(())
}

// The file of these lines.
fn file_of(alloc: Global, lines: &str) -> Option<JobFile> {
    let reader = reader_behind(alloc, lines)?;
    if reader.is_ended() {
        Some(reader.finish())
    } else {
        None
    }
}

const FILE: &str = "\
qjobs 1
mode native
guard spin
workers 2
sockets 3 0
threshold 16
accounts 10 0 5
job 0 move 0 1 4
job 1 get 1
job 0 add 2 7
end";

// Whether a file has what its lines say besides the jobs.
fn has_settings(file: &JobFile) -> bool {
    file.mode == Mode::Native
        && file.guard == Kind::Spin
        && file.topology.sockets.as_slice() == [3, 0].as_slice()
        && file.threshold == 16
        && file.balances.as_slice() == [10, 0, 5].as_slice()
}

// The jobs of a worker, as they are printed.
fn jobs_of(alloc: Global, file: &JobFile, worker: usize) -> Result<String, AllocError> {
    match file.jobs.as_slice().get(worker) {
        Some(jobs) => format!(in alloc; "{:?}", jobs.as_slice()),
        None => Ok(String::new(alloc)),
    }
}

#[test]
fn file_gives_its_settings_and_jobs(rt: HostRuntime) -> Result<(), Fail> {
    let file = file_of(rt.alloc(), FILE).ok_or("refused")?;
    assert!(rt; has_settings(&file));
    let first = "[Move { from: 0, to: 1, amount: 4 }, Add { account: 2, amount: 7 }]";
    assert_eq!(rt; jobs_of(rt.alloc(), &file, 0)?.as_str(), first);
    assert_eq!(rt;
        jobs_of(rt.alloc(), &file, 1)?.as_str(),
        "[Get { account: 1 }]"
    );
    assert_eq!(rt; jobs_of(rt.alloc(), &file, 2)?.as_str(), "");
    Ok(())
}

// 100,000 jobs are accepted, and one more is not.
#[test]
fn one_job_more_than_100000_is_refused(rt: HostRuntime) -> Result<(), Fail> {
    let mut reader = reader_behind(rt.alloc(), "qjobs 1\nmode virt").ok_or("refused")?;
    for _ in 0..100_000 {
        assert!(rt; reader.line(b"job 0 sum").is_ok());
    }
    let told = format!(in rt.alloc(); "{:?}", reader.line(b"job 0 sum"))?;
    assert_eq!(rt; told.as_str(), "Err(Limit(Jobs))");
    Ok(())
}

fn is_text(line: &LineBuf, text: &str) -> bool {
    str::from_utf8(line.bytes()) == Ok(text)
}

#[test]
fn outcome_is_written_as_lines(rt: HostRuntime) {
    let entry = |job, reply| Entry {
        worker: 3,
        number: 9,
        job,
        reply,
    };
    let moved = Job::Move {
        from: 0,
        to: 63,
        amount: 4,
    };
    let most = Job::Add {
        account: 2,
        amount: 9_223_372_036_854_775_807,
    };
    let line = entry_line(1, &entry(moved, Reply::Done));
    assert!(rt; is_text(&line, "entry 1 3 move 0 63 4 ok\n"));
    let line = entry_line(12, &entry(moved, Reply::Short));
    assert!(rt; is_text(&line, "entry 12 3 move 0 63 4 short\n"));
    let line = entry_line(2, &entry(most, Reply::Full));
    assert!(rt; is_text(&line, "entry 2 3 add 2 9223372036854775807 full\n"));
    let seen = |job| Seen {
        worker: 0,
        number: 5,
        version: 3,
        job,
        reply: Reply::Amount(16),
    };
    assert!(rt; is_text(&seen_line(&seen(Job::Sum)), "read 0 5 3 sum 16\n"));
    let get = Job::Get { account: 1 };
    assert!(rt; is_text(&seen_line(&seen(get)), "read 0 5 3 get 1 16\n"));
    assert!(rt; is_text(&balance_line(2, 6), "balance 2 6\n"));
    assert!(rt; is_text(&total_line(3, 2), "end 3 2\n"));
}
