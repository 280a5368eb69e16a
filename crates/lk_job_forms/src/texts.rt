// The lines of an outcome.
ghost use Rattle.std.specs.Prelude.{◌≡◌, ◌≤◌, ◌+◌, ◌++◌, length};
ghost use Rattle.lk_text.specs.Line.{line_text};
ghost use Rattle.lk_job_forms.specs.Texts.{job_text, reply_text, answered_text, entry_text, seen_text, balance_text, total_text};

use lk_names::{Entry, Job, Reply, Seen};
use lk_text::LineBuf;

// The words of a job.
#[tactic(auto, using(lk_forms::proofs::Decimals::decimal_small, lk_forms::proofs::Decimals::decimal_short))]
fn write_job(line: &mut LineBuf, job: Job)
    requires { length (line_text line.old) + 47 ≤ 128 }
    ensures text { line_text line.new ≡ line_text line.old ++ job_text job }
    ensures size { length (line_text line.new) ≤ length (line_text line.old) + 47 }
{
    match job {
        Job::Move { from, to, amount } => {
            line.word(b"move ");
            line.number(u64::from(from));
            line.word(b" ");
            line.number(u64::from(to));
            line.word(b" ");
            line.number(amount);
        }
        Job::Add { account, amount } => {
            line.word(b"add ");
            line.number(u64::from(account));
            line.word(b" ");
            line.number(amount);
        }
        Job::Sum => line.word(b"sum"),
        Job::Get { account } => {
            line.word(b"get ");
            line.number(u64::from(account));
        }
    }
}

// What came of a job.
#[tactic(auto, using(lk_forms::proofs::Decimals::decimal_short))]
fn write_reply(line: &mut LineBuf, reply: Reply)
    requires { length (line_text line.old) + 20 ≤ 128 }
    ensures text { line_text line.new ≡ line_text line.old ++ reply_text reply }
    ensures size { length (line_text line.new) ≤ length (line_text line.old) + 20 }
{
    match reply {
        Reply::Done => line.word(b"ok"),
        Reply::Short => line.word(b"short"),
        Reply::Full => line.word(b"full"),
        Reply::Amount(amount) => line.number(amount),
    }
}

// A job, what came of it, and the end of the line.
fn write_answered(line: &mut LineBuf, job: Job, reply: Reply)
    requires { length (line_text line.old) + 69 ≤ 128 }
    ensures { line_text line.new ≡ line_text line.old ++ answered_text job reply }
{
    write_job(line, job);
    line.word(b" ");
    write_reply(line, reply);
    line.word(b"\n");
}

/// The line of an entry of the journal. `n` is the number of the entry, counted from 1. The line
/// does not tell the number of the worker's job.
#[tactic(auto, using(lk_forms::proofs::Decimals::decimal_small, lk_forms::proofs::Decimals::decimal_short))]
pub fn entry_line(n: u64, entry: &Entry) -> LineBuf
    ensures { line_text result ≡ entry_text n entry.now }
{
    let mut line = LineBuf::new();
    line.word(b"entry ");
    line.number(n);
    line.word(b" ");
    line.number(u64::from(entry.worker));
    line.word(b" ");
    write_answered(&mut line, entry.job, entry.reply);
    line
}

/// The line of the record of a read.
#[tactic(auto, using(lk_forms::proofs::Decimals::decimal_small, lk_forms::proofs::Decimals::decimal_short))]
pub fn seen_line(seen: &Seen) -> LineBuf
    ensures { line_text result ≡ seen_text seen.now }
{
    let mut line = LineBuf::new();
    line.word(b"read ");
    line.number(u64::from(seen.worker));
    line.word(b" ");
    line.number(u64::from(seen.number));
    line.word(b" ");
    line.number(seen.version);
    line.word(b" ");
    write_answered(&mut line, seen.job, seen.reply);
    line
}

/// The line of an account, numbered from 0, and its balance.
#[tactic(auto, using(lk_forms::proofs::Decimals::decimal_small, lk_forms::proofs::Decimals::decimal_short))]
pub fn balance_line(account: u32, amount: u64) -> LineBuf
    ensures { line_text result ≡ balance_text account amount }
{
    let mut line = LineBuf::new();
    line.word(b"balance ");
    line.number(u64::from(account));
    line.word(b" ");
    line.number(amount);
    line.word(b"\n");
    line
}

/// The last line: the number of entries and the number of reads.
#[tactic(auto, using(lk_forms::proofs::Decimals::decimal_short))]
pub fn total_line(entries: u64, reads: u64) -> LineBuf
    ensures { line_text result ≡ total_text entries reads }
{
    let mut line = LineBuf::new();
    line.word(b"end ");
    line.number(entries);
    line.word(b" ");
    line.number(reads);
    line.word(b"\n");
    line
}
