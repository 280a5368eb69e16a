// A job on the balance words of a domain, by the seat of a processor that has the journal out.
ghost use Rattle.std.specs.Prelude.{◌≡◌, ◌<◌, true, slice_index, slice_set};
ghost use Rattle.std.specs.List.{sum};
ghost use Rattle.lk_names.specs.Jobs.{IsAmong, after_job, reply_to};
ghost use Rattle.lk_names.specs.Journal.{is_write};
ghost use Rattle.lk_names.specs.declared.ledger.Job.TheVariants as job;
ghost use Rattle.lk_domain.specs.Keeps.{holds_first};
ghost use Rattle.lk_domain.specs.Plans.{accounts_of};
ghost use Rattle.lk_domain.specs.Seated.{IsKept, IsSeatOf};
ghost use Rattle.lk_guard.specs.Settling.{Stands, words_of, with_words};

use crate::books::Books;
use lk_domain::Right;
use lk_domain::ledger_steps::{accounts, load, store};
use lk_names::{Job, Reply};

/// The sum of all balances stays below this amount.
const FULL: u64 = 1 << 63;

impl Books<'_> {
    // The balance of an account.
    fn balance_of(&self, seat: &mut Right, account: u32) -> u64
        requires seat { IsSeatOf self.now.plan.now self.now.table.now.shared.table_id seat.old }
        requires held { holds_first seat.old.me.0.calls }
        requires stands { Stands (accounts_of self.now.plan.now) seat.old.me.0.ledger }
        requires account { account < accounts_of self.now.plan.now }
        ensures seat { IsSeatOf self.now.plan.now self.now.table.now.shared.table_id seat.new }
        ensures rest { IsKept seat.old seat.new }
        ensures ledger { seat.new.me.0.ledger ≡ seat.old.me.0.ledger }
        ensures balance { result ≡ slice_index (words_of seat.old.me.0.ledger) account }
    {
        load(seat, self.table, self.plan, account)
    }

    // The sum of the balances.
    fn sum_of(&self, seat: &mut Right) -> u64
        requires seat { IsSeatOf self.now.plan.now self.now.table.now.shared.table_id seat.old }
        requires held { holds_first seat.old.me.0.calls }
        requires stands { Stands (accounts_of self.now.plan.now) seat.old.me.0.ledger }
        ensures seat { IsSeatOf self.now.plan.now self.now.table.now.shared.table_id seat.new }
        ensures rest { IsKept seat.old seat.new }
        ensures ledger { seat.new.me.0.ledger ≡ seat.old.me.0.ledger }
        ensures sum { result ≡ sum (words_of seat.old.me.0.ledger) }
    {
        let mut sum = 0;
        for account in 0..accounts(self.plan) {
            sum += self.balance_of(seat, account);
        }
        sum
    }

    // Sets the balance of an account to this amount.
    fn put(&self, seat: &mut Right, account: u32, amount: u64)
        requires seat { IsSeatOf self.now.plan.now self.now.table.now.shared.table_id seat.old }
        requires held { holds_first seat.old.me.0.calls }
        requires stands { Stands (accounts_of self.now.plan.now) seat.old.me.0.ledger }
        requires account { account < accounts_of self.now.plan.now }
        ensures seat { IsSeatOf self.now.plan.now self.now.table.now.shared.table_id seat.new }
        ensures rest { IsKept seat.old seat.new }
        ensures ledger { seat.new.me.0.ledger ≡ with_words seat.old.me.0.ledger
            (slice_set (words_of seat.old.me.0.ledger) account amount) }
    {
        store(seat, self.table, self.plan, account, amount);
    }

    // Moves an amount from one account to another, if the first has so much.
    fn move_amount(&self, seat: &mut Right, from: u32, to: u32, amount: u64) -> Reply
        requires seat { IsSeatOf self.now.plan.now self.now.table.now.shared.table_id seat.old }
        requires held { holds_first seat.old.me.0.calls }
        requires stands { Stands (accounts_of self.now.plan.now) seat.old.me.0.ledger }
        requires from { from < accounts_of self.now.plan.now }
        requires to { to < accounts_of self.now.plan.now }
        ensures seat { IsSeatOf self.now.plan.now self.now.table.now.shared.table_id seat.new }
        ensures rest { IsKept seat.old seat.new }
        ensures ledger { seat.new.me.0.ledger ≡ with_words seat.old.me.0.ledger
            (after_job (words_of seat.old.me.0.ledger) (job.Move from to amount)) }
        ensures reply { result
            ≡ reply_to (words_of seat.old.me.0.ledger) (job.Move from to amount) }
    {
        let held = self.balance_of(seat, from);
        if held < amount {
            return Reply::Short;
        }
        self.put(seat, from, held - amount);
        let held = self.balance_of(seat, to);
        self.put(seat, to, held + amount);
        Reply::Done
    }

    // Adds an amount, if the sum stays below the limit.
    fn add(&self, seat: &mut Right, account: u32, amount: u64) -> Reply
        requires seat { IsSeatOf self.now.plan.now self.now.table.now.shared.table_id seat.old }
        requires held { holds_first seat.old.me.0.calls }
        requires stands { Stands (accounts_of self.now.plan.now) seat.old.me.0.ledger }
        requires account { account < accounts_of self.now.plan.now }
        ensures seat { IsSeatOf self.now.plan.now self.now.table.now.shared.table_id seat.new }
        ensures rest { IsKept seat.old seat.new }
        ensures ledger { seat.new.me.0.ledger ≡ with_words seat.old.me.0.ledger
            (after_job (words_of seat.old.me.0.ledger) (job.Add account amount)) }
        ensures reply { result ≡ reply_to (words_of seat.old.me.0.ledger) (job.Add account amount) }
    {
        if amount >= FULL - self.sum_of(seat) {
            return Reply::Full;
        }
        let held = self.balance_of(seat, account);
        self.put(seat, account, held + amount);
        Reply::Done
    }

    // Does a job that writes, on the balance words.
    pub(crate) fn settle(&self, seat: &mut Right, job: Job) -> Reply
        requires seat { IsSeatOf self.now.plan.now self.now.table.now.shared.table_id seat.old }
        requires held { holds_first seat.old.me.0.calls }
        requires stands { Stands (accounts_of self.now.plan.now) seat.old.me.0.ledger }
        requires job { IsAmong (accounts_of self.now.plan.now) job }
        requires writes { is_write job ≡ true }
        ensures seat { IsSeatOf self.now.plan.now self.now.table.now.shared.table_id seat.new }
        ensures rest { IsKept seat.old seat.new }
        ensures ledger { seat.new.me.0.ledger ≡ with_words seat.old.me.0.ledger
            (after_job (words_of seat.old.me.0.ledger) job) }
        ensures reply { result ≡ reply_to (words_of seat.old.me.0.ledger) job }
    {
        match job {
            Job::Move { from, to, amount } => self.move_amount(seat, from, to, amount),
            Job::Add { account, amount } => self.add(seat, account, amount),
            _ => unreachable!(),
        }
    }
}
