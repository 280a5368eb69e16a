//! The steps of a seat on the words of the ledger, and the end of a domain. The calls of all lock
//! families are made of these.
ghost use Rattle.std.specs.Prelude.{◌≡◌, ◌<◌, ◌≤◌, ◌+◌, ℕ, Option, Some, None, [], take, drop};
ghost use Rattle.std.specs.Slots.{IsFull, slots_filled, slots_items, slots_len};
ghost use Rattle.lk_names.specs.Journal.{balances_after};
ghost use Rattle.lk_domain.specs.Ends.{AreTaken, IsEnd};
ghost use Rattle.lk_domain.specs.Keeps.{holds_first, alone_first};
ghost use Rattle.lk_domain.specs.Ledgers.{Out};
ghost use Rattle.lk_domain.specs.Plans.{IsRunningPlan, accounts_of, cpus_of};
ghost use Rattle.lk_domain.specs.Seated.{HasLoadedBy, HasSeenBy, HasStoredBy, HoldsNothing, IsKept};
ghost use Rattle.lk_domain.specs.Seated.{IsSeatOf, IsTableOf};
ghost use Rattle.lk_domain.specs.Seats.{IsOut, MayCome, CameHome};
ghost use Rattle.lk_domain.specs.Values.{AreLaid, FitsUnder, Key, homes_of, lodged};
ghost use Rattle.lk_domain.specs.Views.{view, joined, numbers, with_more, times};
ghost use Rattle.lk_domain.specs.Words.{balance_at};
ghost use Rattle.lk_values.specs.Guarded.{AreFit};

use crate::cpu::Right;
use crate::ledger::Journal;
use crate::plan::{MOST_LOCKS, Plan};
use crate::rule::{
    BringJournal, LoadBalance, LoadVersion, Order, StoreBalance, TakeJournal, TakeOver,
};
use crate::slot::{Slot, Stowed};
use crate::view::View;
use atomic_table::{Closed as Left, Table};
use lk_cell::Key;
use lk_names::{Entry, List};
use std::alloc::Global;

/// The table of a domain's words.
pub type Words = Table<Slot, View, Plan, Order, Global>;

// Where a balance stands.
fn balance_word(plan: &Plan, account: u32) -> usize
    requires lawful { IsRunningPlan plan.now }
    requires account { account < accounts_of plan.now }
    ensures { result ≡ balance_at plan.now account }
{
    prove!(plan.locks.len() <= MOST_LOCKS);
    prove!(plan.balances.len() <= 64);
    plan.first_balance() + account as usize
}

/// The number of accounts of the ledger, at most 64.
pub fn accounts(plan: &Plan) -> u32
    requires { IsRunningPlan plan.now }
    ensures { result ≡ accounts_of plan.now }
{
    prove!(plan.balances.len() <= 64);
    plan.balances.len() as u32
}

/// Loads the balance of an account. The seat's processor must hold lock 0.
pub fn load(seat: &mut Right, table: &Words, plan: &Plan, account: u32) -> u64
    requires table { IsTableOf plan.now table.now.shared.table_id table.now.shared.key }
    requires seat { IsSeatOf plan.now table.now.shared.table_id seat.old }
    requires account { account < accounts_of plan.now }
    requires held { holds_first seat.old.me.0.calls }
    ensures seat { IsSeatOf plan.now table.now.shared.table_id seat.new }
    ensures rest { IsKept seat.old seat.new }
    ensures loaded { HasLoadedBy account seat.old.me.0 result seat.new.me.0 }
{
    let word = balance_word(plan, account);
    table.shared.load::<LoadBalance>(seat, word)
}

/// Stores the balance of an account. The seat's processor must hold lock 0, and must have taken
/// the journal out.
pub fn store(seat: &mut Right, table: &Words, plan: &Plan, account: u32, amount: u64)
    requires table { IsTableOf plan.now table.now.shared.table_id table.now.shared.key }
    requires seat { IsSeatOf plan.now table.now.shared.table_id seat.old }
    requires account { account < accounts_of plan.now }
    requires held { holds_first seat.old.me.0.calls }
    requires out { (o : Out) × (seat.old.me.0.ledger.out ≡ Some o) }
    ensures seat { IsSeatOf plan.now table.now.shared.table_id seat.new }
    ensures rest { IsKept seat.old seat.new }
    ensures stored { HasStoredBy account amount seat.old.me.0 seat.new.me.0 }
{
    let word = balance_word(plan, account);
    table.shared.store::<StoreBalance>(seat, word, amount);
}

/// Loads the version of the ledger: the number of entries of the journal. The seat's processor
/// must hold lock 0.
pub fn version(seat: &mut Right, table: &Words, plan: &Plan) -> u64
    requires table { IsTableOf plan.now table.now.shared.table_id table.now.shared.key }
    requires seat { IsSeatOf plan.now table.now.shared.table_id seat.old }
    requires held { holds_first seat.old.me.0.calls }
    ensures seat { IsSeatOf plan.now table.now.shared.table_id seat.new }
    ensures rest { IsKept seat.old seat.new }
    ensures seen { HasSeenBy seat.old.me.0 result seat.new.me.0 }
{
    table.shared.load::<LoadVersion>(seat, 1)
}

/// Takes the journal out of the domain, which begins with a load of the version. The seat's
/// processor must hold lock 0 as its only holder.
pub fn journal_out(seat: &mut Right, table: &Words, plan: &Plan) -> Journal
    requires table { IsTableOf plan.now table.now.shared.table_id table.now.shared.key }
    requires seat { IsSeatOf plan.now table.now.shared.table_id seat.old }
    requires held { alone_first seat.old.me.0.calls }
    requires home { seat.old.me.0.ledger.out ≡ None }
    ensures seat { IsSeatOf plan.now table.now.shared.table_id seat.new }
    ensures rest { IsKept seat.old seat.new }
    ensures out { IsOut plan.now seat.old.me.0.ledger result seat.new.me.0.ledger }
{
    table.shared.load::<TakeJournal>(seat, 1);
    match table.shared.exchange(seat, 0, None) {
        Some(Stowed::Entries(journal)) => journal,
        Some(Stowed::CellKey(_)) => unreachable!(),
        None => unreachable!(),
    }
}

/// Brings the journal back into the domain, which ends with a store of the version. The seat's
/// processor must hold lock 0.
pub fn journal_home(seat: &mut Right, table: &Words, plan: &Plan, journal: Journal)
    requires table { IsTableOf plan.now table.now.shared.table_id table.now.shared.key }
    requires seat { IsSeatOf plan.now table.now.shared.table_id seat.old }
    requires held { holds_first seat.old.me.0.calls }
    requires may { (p : ℕ) × (seat.old.me.0.who.number ≡ Some p)
        × MayCome plan.now p seat.old.me.0.ledger journal }
    ensures seat { IsSeatOf plan.now table.now.shared.table_id seat.new }
    ensures rest { IsKept seat.old seat.new }
    ensures ledger { (p : ℕ) → seat.old.me.0.who.number ≡ Some p
        → CameHome p seat.old.me.0.ledger journal seat.new.me.0.ledger }
{
    let version = journal.entries.len() as u64;
    drop(
        table
            .shared
            .exchange(seat, 0, Some(Stowed::Entries(journal))),
    );
    table.shared.store::<BringJournal>(seat, 1, version);
}

/// Lets one seat take over the numbers of another, which must hold nothing, have nothing out and be
/// in no call.
pub fn join(seat: &mut Right, table: &Words, plan: &Plan, other: Right)
    requires table { IsTableOf plan.now table.now.shared.table_id table.now.shared.key }
    requires seat { IsSeatOf plan.now table.now.shared.table_id seat.old }
    requires other { IsSeatOf plan.now table.now.shared.table_id other }
    requires rests { HoldsNothing other.me.0 }
    requires none { other.me.0.who.outs ≡ [] }
    ensures seat { IsSeatOf plan.now table.now.shared.table_id seat.new }
    ensures view { seat.new.me.0 ≡ view (joined seat.old.me.0.who other.me.0)
        seat.old.me.0.calls (with_more seat.old.me.0.ledger other.me.0.ledger.share) }
{
    table.shared.join_seat::<TakeOver>(seat, other);
}

// So many words of a table at its end, from this one on.
fn read(closed: &Left<Slot, Global>, first: usize, count: usize, balances: &mut List<u64>)
    requires full { IsFull closed.now.words }
    requires inside { first + count ≤ slots_len closed.now.words }
    requires empty { balances.old ≡ record { items = []; room = count } }
    ensures { balances.new.items ≡ take count (drop first (slots_items closed.now.words)) }
{
    for account in 0..count {
        balances.push(closed.word(first + account));
    }
}

// The key that lies in the slot of a home, if one does.
fn key_in(slot: Slot) -> Option<Key>
    requires { (key : Option Key) × (slot ≡ lodged key) }
    ensures { slot ≡ lodged result }
{
    match slot {
        Some(Stowed::CellKey(key)) => Some(key),
        Some(Stowed::Entries(_)) => unreachable!(),
        None => None,
    }
}

// Takes what lies in the slots of the homes, behind that of the journal.
fn take_keys(closed: &mut Left<Slot, Global>, plan: &Plan, keys: &mut List<Option<Key>>)
    requires slots { slots_len closed.old.slots ≡ 1 + homes_of plan.now }
    requires first { AreTaken 1 (slots_filled closed.old.slots) }
    requires fit { AreFit 1 (homes_of plan.now) (FitsUnder plan.now)
        (slots_items closed.old.slots) }
    requires empty { keys.old ≡ record { items = []; room = homes_of plan.now } }
    ensures slots { slots_len closed.new.slots ≡ 1 + homes_of plan.now }
    ensures all { AreTaken (1 + homes_of plan.now) (slots_filled closed.new.slots) }
    ensures keys { AreLaid plan.now keys.new.items }
{
    let homes = closed.slot_count() - 1;
    for home in 0..homes {
        keys.push(key_in(closed.take(1 + home)));
    }
}

/// Ends the table, once one seat has the numbers of all processors, and holds nothing. Fills in the
/// balances, and the keys of the values, and returns the entries of the journal.
pub fn end(
    table: Words,
    plan: &Plan,
    seat: Right,
    balances: &mut List<u64>,
    keys: &mut List<Option<Key>>,
) -> List<Entry>
    requires table { IsTableOf plan.now table.shared.table_id table.shared.key }
    requires seat { IsSeatOf plan.now table.shared.table_id seat }
    requires all { (p : ℕ) → p < cpus_of plan.now → 1 ≤ times p (numbers seat.me.0) }
    requires home { seat.me.0.ledger.out ≡ None }
    requires holds { seat.me.0.calls.holds ≡ [] }
    requires empty { balances.old ≡ record { items = []; room = accounts_of plan.now } }
    requires none { keys.old ≡ record { items = []; room = homes_of plan.now } }
    ensures end { IsEnd plan.now seat.me.0 result.items }
    ensures keys { AreLaid plan.now keys.new.items }
    ensures balances { balances.new.items ≡ balances_after plan.now.balances.items result.items }
{
    let first = plan.first_balance();
    let count = plan.balances.len();
    let mut closed = table.close_with(seat);
    read(&closed, first, count, balances);
    let slot = closed.take(0);
    take_keys(&mut closed, plan, keys);
    closed.free();
    match slot {
        Some(Stowed::Entries(journal)) => journal.into_list(),
        Some(Stowed::CellKey(_)) => unreachable!(),
        None => unreachable!(),
    }
}
