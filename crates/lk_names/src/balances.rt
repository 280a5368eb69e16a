// What a job does to the balances of a ledger.
ghost use Rattle.std.specs.Prelude.{◌≡◌, ◌≤◌, ◌<◌, ◌+◌, length, slice_index};
ghost use Rattle.std.specs.List.{sum};
ghost use Rattle.lk_names.specs.declared.ledger.Job.TheVariants as job;
ghost use Rattle.lk_names.specs.Jobs.{full, given, taken, after_job, reply_to, IsAmong};

use crate::ledger::{Job, Reply};
use crate::list::List;

/// No sum of balances reaches it.
const FULL: u64 = 1 << 63;

// The sum of the balances.
fn sum_of(balances: &[u64]) -> u64
    requires { sum balances.now < full }
    ensures { result ≡ sum balances.now }
{
    balances.iter().sum()
}

// The balance of an account.
#[tactic(auto, using(std::proofs::lemmas::Option::get_or_from_slice_get))]
fn balance_of(balances: &List<u64>, account: u32) -> u64
    requires { account < length balances.now.items }
    ensures { result ≡ slice_index balances.now.items account }
{
    *balances.get(account as usize)
}

// Takes an amount from an account that has as much.
fn take(balances: &mut List<u64>, account: u32, amount: u64)
    requires range { account < length balances.old.items }
    requires enough { amount ≤ slice_index balances.old.items account }
    ensures { balances.new
        ≡ record balances.old { items = taken balances.old.items account amount } }
{
    *balances.get_mut(account as usize) -= amount;
}

// Gives an amount to an account.
fn give(balances: &mut List<u64>, account: u32, amount: u64)
    requires range { account < length balances.old.items }
    requires room { slice_index balances.old.items account + amount < full }
    ensures { balances.new
        ≡ record balances.old { items = given balances.old.items account amount } }
{
    *balances.get_mut(account as usize) += amount;
}

// Moves an amount, if the account has as much.
#[tactic(auto, using(crate::proofs::Sums::room_moved))]
fn move_amount(balances: &mut List<u64>, from: u32, to: u32, amount: u64) -> Reply
    requires from { from < length balances.old.items }
    requires to { to < length balances.old.items }
    requires small { sum balances.old.items < full }
    ensures balances { balances.new
        ≡ record balances.old { items = after_job balances.old.items (job.Move from to amount) } }
    ensures reply { result ≡ reply_to balances.old.items (job.Move from to amount) }
{
    if balance_of(balances, from) < amount {
        return Reply::Short;
    }
    take(balances, from, amount);
    give(balances, to, amount);
    Reply::Done
}

// Adds an amount, if the sum stays below the limit.
fn add(balances: &mut List<u64>, account: u32, amount: u64) -> Reply
    requires range { account < length balances.old.items }
    requires small { sum balances.old.items < full }
    ensures balances { balances.new
        ≡ record balances.old { items = after_job balances.old.items (job.Add account amount) } }
    ensures reply { result ≡ reply_to balances.old.items (job.Add account amount) }
{
    if amount >= FULL - sum_of(balances.as_slice()) {
        return Reply::Full;
    }
    give(balances, account, amount);
    Reply::Done
}

/// Does a job on the balances, which stand in the order of their accounts, and returns its reply.
/// A reply `Short` or `Full` means that no balance changed. The function takes no memory.
#[tactic(auto, using(crate::proofs::Sums::small_after))]
pub fn apply(balances: &mut List<u64>, job: Job) -> Reply
    requires accounts { IsAmong (length balances.old.items) job }
    requires small { sum balances.old.items < full }
    ensures balances { balances.new
        ≡ record balances.old { items = after_job balances.old.items job } }
    ensures reply { result ≡ reply_to balances.old.items job }
    ensures small { sum balances.new.items < full }
{
    match job {
        Job::Move { from, to, amount } => move_amount(balances, from, to, amount),
        Job::Add { account, amount } => add(balances, account, amount),
        Job::Sum => Reply::Amount(sum_of(balances.as_slice())),
        Job::Get { account } => Reply::Amount(balance_of(balances, account)),
    }
}
