// The opening balances.
ghost use Rattle.std.specs.Prelude.{◌≡◌, ◌≤◌, ◌⊎◌, [], IfOk, IfErr, Ok, Err, length, nat_lt};
ghost use Rattle.std.specs.List.{sum};
ghost use Rattle.lk_names.specs.Jobs.{full};
ghost use Rattle.lk_names.specs.declared.limits.TheConstants.{MAX_ACCOUNTS};
ghost use Rattle.lk_forms.specs.Words.{words};
ghost use Rattle.lk_job_forms.specs.Lines.{balances_from, accounts_line};
ghost use Rattle.lk_job_forms.specs.Draft.{work_of, Makes};

use crate::draft::Draft;
use lk_forms::{Fault, LineRefusal, Which, next_word, number_in};
use lk_names::{List, MAX_ACCOUNTS, MAX_AMOUNT};
use std::alloc::Global;

// The balances that the words write.
fn read_balances(alloc: Global, args: &[u8]) -> Result<List<u64>, LineRefusal>
    ensures ok { IfOk result (λ list. balances_from [] (words args.now) ≡ Ok list.items) }
    ensures few { IfOk result (λ list. length list.items ≤ MAX_ACCOUNTS) }
    ensures err { IfErr result (λ why.
        (balances_from [] (words args.now) ≡ Err why) ⊎ (why ≡ LineRefusal.Memory)) }
{
    let mut balances = List::new(alloc, MAX_ACCOUNTS)?;
    let mut rest = args;
    while let Some((word, behind)) = next_word(rest) {
        if balances.len() >= MAX_ACCOUNTS {
            return Err(LineRefusal::Bad(Fault::OutOfRange));
        }
        balances.push(number_in(0, MAX_AMOUNT, word)?);
        rest = behind;
    }
    Ok(balances)
}

// Whether the sum of the balances stays below 2^63.
fn has_total(balances: &[u64]) -> bool
    ensures { result ≡ nat_lt (sum balances.now) full }
{
    let mut left = MAX_AMOUNT;
    for balance in balances {
        match left.checked_sub(*balance) {
            Some(rest) => left = rest,
            None => return false,
        }
    }
    true
}

/// `accounts b0 b1 ..`
pub(crate) fn accounts_line(
    alloc: Global,
    draft: &mut Draft,
    args: &[u8],
) -> Result<(), LineRefusal>
    ensures { Makes (accounts_line (work_of draft.old) (words args.now))
        draft.old draft.new result }
{
    if next_word(args).is_none() {
        return Err(LineRefusal::Bad(Fault::WordCount));
    }
    let balances = read_balances(alloc, args)?;
    if !has_total(balances.as_slice()) {
        return Err(LineRefusal::Limit(Which::Total));
    }
    draft.balances = balances;
    Ok(())
}
