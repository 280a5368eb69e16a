// The lines of jobs.
ghost use Rattle.std.specs.Prelude.{◌≡◌, ◌<◌};
ghost use Rattle.lk_names.specs.Workload.{workers_of};
ghost use Rattle.lk_forms.specs.Agrees.{IsAnswer};
ghost use Rattle.lk_forms.specs.Words.{words};
ghost use Rattle.lk_job_forms.specs.Lines.{three_words, amount_word, move_of, add_of, get_of, job_of, worker_job, job_line};
ghost use Rattle.lk_job_forms.specs.Draft.{work_of, Makes};

use crate::draft::Draft;
use lk_forms::{Fault, LineRefusal, cpu_word, next_word, no_words, number_in, one_word, two_words};
use lk_names::{Job, MAX_AMOUNT};

const TOO_MANY_OR_FEW: LineRefusal = LineRefusal::Bad(Fault::WordCount);

// Exactly three words.
fn three_words(args: &[u8]) -> Result<(&[u8], &[u8], &[u8]), LineRefusal>
    ensures { IsAnswer (three_words (words args.now))
        (λ all. (all.0.now, all.1.now, all.2.now)) result }
{
    let Some((first, rest)) = next_word(args) else {
        return Err(TOO_MANY_OR_FEW);
    };
    match two_words(rest) {
        Ok((second, third)) => Ok((first, second, third)),
        Err(_) => Err(TOO_MANY_OR_FEW),
    }
}

fn amount_word(word: &[u8]) -> Result<u64, LineRefusal>
    ensures { result ≡ amount_word word.now }
{
    number_in(0, MAX_AMOUNT, word)
}

// `move a b n`, where there are so many accounts.
fn move_of(accounts: u32, args: &[u8]) -> Result<Job, LineRefusal>
    ensures { result ≡ move_of accounts (words args.now) }
{
    let (from, to, amount) = three_words(args)?;
    let from = cpu_word(accounts, from)?;
    let to = cpu_word(accounts, to)?;
    let amount = amount_word(amount)?;
    Ok(Job::Move { from, to, amount })
}

// `add a n`
fn add_of(accounts: u32, args: &[u8]) -> Result<Job, LineRefusal>
    ensures { result ≡ add_of accounts (words args.now) }
{
    let (account, amount) = two_words(args)?;
    let account = cpu_word(accounts, account)?;
    let amount = amount_word(amount)?;
    Ok(Job::Add { account, amount })
}

// `get a`
fn get_of(accounts: u32, args: &[u8]) -> Result<Job, LineRefusal>
    ensures { result ≡ get_of accounts (words args.now) }
{
    let account = cpu_word(accounts, one_word(args)?)?;
    Ok(Job::Get { account })
}

// The job of a verb and of the words behind it.
fn job_of(accounts: u32, verb: &[u8], args: &[u8]) -> Result<Job, LineRefusal>
    ensures { result ≡ job_of accounts verb.now (words args.now) }
{
    match verb {
        b"move" => move_of(accounts, args),
        b"add" => add_of(accounts, args),
        b"sum" => {
            no_words(args)?;
            Ok(Job::Sum)
        }
        b"get" => get_of(accounts, args),
        _ => Err(LineRefusal::Bad(Fault::UnknownWord)),
    }
}

// A job of this worker.
fn worker_job(draft: &mut Draft, worker: u32, args: &[u8]) -> Result<(), LineRefusal>
    requires { worker < workers_of (work_of draft.old) }
    ensures { Makes (worker_job (work_of draft.old) worker (words args.now))
        draft.old draft.new result }
{
    let Some((verb, args)) = next_word(args) else {
        return Err(TOO_MANY_OR_FEW);
    };
    let job = job_of(draft.balances.len() as u32, verb, args)?;
    draft.add_job(worker as usize, job)
}

/// `job w verb ..`
pub(crate) fn job_line(draft: &mut Draft, args: &[u8]) -> Result<(), LineRefusal>
    ensures { Makes (job_line (work_of draft.old) (words args.now)) draft.old draft.new result }
{
    let Some((word, args)) = next_word(args) else {
        return Err(TOO_MANY_OR_FEW);
    };
    let worker = cpu_word(draft.jobs.len() as u32, word)?;
    worker_job(draft, worker, args)
}
