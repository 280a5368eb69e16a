//! The steps of a seat on the word of a spinlock or a wait lock, each one operation. The calls of all
//! lock families are made of these.
ghost use Rattle.std.specs.Prelude.{◌≡◌, ◌<◌, None, true, false};
ghost use Rattle.lk_rows.specs.declared.setup.Verb.TheVariants.{Lock, Try, Unlock};
ghost use Rattle.lk_domain.specs.Calls.{lock_name};
ghost use Rattle.lk_domain.specs.Keeps.{AllHome};
ghost use Rattle.lk_domain.specs.Ledgers.{is_first};
ghost use Rattle.lk_domain.specs.NodePlays.{Arrives, AtPromotion, InCall, RowMade};
ghost use Rattle.lk_domain.specs.Plans.{locks_of};
ghost use Rattle.lk_domain.specs.Plays.{Acts, MadeBy, SwappedBy, WentBy};
ghost use Rattle.lk_domain.specs.Rows.{is_look, is_take, is_free};
ghost use Rattle.lk_domain.specs.Seated.{IsTableOf};
ghost use Rattle.lk_domain.specs.Uses.{Soles, UsesWord, frees};
ghost use Rattle.lk_domain.specs.Values.{out_in};
ghost use Rattle.lk_domain.specs.Views.{IsNumbered};
ghost use Rattle.lk_domain.specs.Words.{IsNode};

use crate::cpu::Right;
use crate::domain::Domain;
use crate::ledger::steps::Words;
use crate::plan::Plan;
use crate::rule::{Exchanges, Locks, Tries, Unlocks, WordSteps};
use lk_names::LockName;
use lk_word::{HELD, NodeName, PENDING, SLOW};

/// What a row of a call that goes on does with the word of a spinlock or a wait lock, in one operation.
#[derive(Clone, Copy)]
pub enum WordUse {
    /// Reads it.
    Looks,
    /// Exchanges the free word for the held one.
    Takes,
    /// Takes held off: the lock is free.
    Frees,
    /// Sets pending, whatever else the word is: nobody loses what he has set, and the call knows by the
    /// old word whether it was the first.
    Pends,
    /// Takes pending off, which the call has set.
    Clears,
    /// Takes pending off, which the call has set, and makes the byte held, which it has seen free. Nobody
    /// else may take it meanwhile, so that this clears pending and holds the lock.
    Claims,
    /// Makes the byte held, which the queue head has seen free. Nobody else may take it meanwhile, so that
    /// this holds the lock and leaves pending and the tail.
    Stakes,
    /// Makes the byte slow, whatever it is.
    Slows,
    /// Makes a slow byte held.
    Wins,
    /// Makes a held byte slow.
    Signs,
    /// Makes a slow byte free.
    Drops,
}

/// An exchange of the tail of a lock.
#[derive(Clone, Copy)]
pub struct Arrival {
    /// The word that the call expects.
    pub expected: u64,
    /// Its own node, which it puts at the tail.
    pub own: NodeName,
}

/// A row on the word of a lock or a wait lock, by a call that goes on. Returns the word before the step.
#[inline]
pub fn go_on(seat: &mut Right, table: &Words, plan: &Plan, lock: LockName, how: WordUse) -> u64
    requires table { IsTableOf plan.now table.now.shared.table_id table.now.shared.key }
    requires seat { seat.old.table_id ≡ table.now.shared.table_id }
    requires lock { lock.index < locks_of plan.now }
    requires number { IsNumbered seat.old.me.0 }
    requires row { InCall (UsesWord how lock) seat.old.me.0 }
    requires home { frees how ≡ true → AllHome lock seat.old.me.0 }
    ensures same { (seat.new.table_id ≡ seat.old.table_id) × (seat.new.id ≡ seat.old.id) }
    ensures step { WentBy seat.old.me result seat.new.me }
    ensures made { RowMade (UsesWord how lock) lock.index seat.old.me result seat.new.me }
{
    let word = plan.word_of(lock);
    let shared = &table.shared;
    match how {
        WordUse::Looks => shared.load::<WordSteps>(seat, word),
        WordUse::Takes => shared.compare_exchange::<WordSteps>(seat, word, 0, HELD),
        WordUse::Frees => shared.fetch_sub::<WordSteps>(seat, word, HELD),
        WordUse::Pends => shared.fetch_or::<WordSteps>(seat, word, PENDING),
        WordUse::Clears => shared.fetch_sub::<WordSteps>(seat, word, PENDING),
        WordUse::Claims => shared.fetch_sub::<WordSteps>(seat, word, PENDING - HELD),
        WordUse::Stakes => shared.fetch_add::<WordSteps>(seat, word, HELD),
        WordUse::Slows => shared.fetch_or::<WordSteps>(seat, word, SLOW),
        WordUse::Wins => shared.fetch_sub::<WordSteps>(seat, word, SLOW - HELD),
        WordUse::Signs => shared.fetch_add::<WordSteps>(seat, word, SLOW - HELD),
        WordUse::Drops => shared.fetch_sub::<WordSteps>(seat, word, SLOW),
    }
}

/// Reads the word, by a call of `try_lock`: the row T1. Returns it.
pub fn look_once(seat: &mut Right, table: &Words, plan: &Plan, lock: u32) -> u64
    requires table { IsTableOf plan.now table.now.shared.table_id table.now.shared.key }
    requires seat { seat.old.table_id ≡ table.now.shared.table_id }
    requires lock { lock < locks_of plan.now }
    requires number { IsNumbered seat.old.me.0 }
    requires row { Acts is_look seat.old.me.0 Try lock }
    ensures same { (seat.new.table_id ≡ seat.old.table_id) × (seat.new.id ≡ seat.old.id) }
    ensures step { MadeBy Try lock seat.old.me result seat.new.me }
{
    let word = plan.lock_word(lock);
    table.shared.load::<Tries>(seat, word)
}

/// Exchanges the free word for the held one, by a call of `lock`: the row F1. Returns the word before
/// the step.
#[inline]
pub fn take_free(seat: &mut Right, table: &Words, plan: &Plan, lock: u32) -> u64
    requires table { IsTableOf plan.now table.now.shared.table_id table.now.shared.key }
    requires seat { seat.old.table_id ≡ table.now.shared.table_id }
    requires lock { lock < locks_of plan.now }
    requires number { IsNumbered seat.old.me.0 }
    requires row { Acts is_take seat.old.me.0 Lock lock }
    ensures same { (seat.new.table_id ≡ seat.old.table_id) × (seat.new.id ≡ seat.old.id) }
    ensures step { MadeBy Lock lock seat.old.me result seat.new.me }
{
    let word = plan.lock_word(lock);
    table.shared.compare_exchange::<Locks>(seat, word, 0, HELD)
}

/// The same by a call of `try_lock`: the row T2.
pub fn take_once(seat: &mut Right, table: &Words, plan: &Plan, lock: u32) -> u64
    requires table { IsTableOf plan.now table.now.shared.table_id table.now.shared.key }
    requires seat { seat.old.table_id ≡ table.now.shared.table_id }
    requires lock { lock < locks_of plan.now }
    requires number { IsNumbered seat.old.me.0 }
    requires row { Acts is_take seat.old.me.0 Try lock }
    ensures same { (seat.new.table_id ≡ seat.old.table_id) × (seat.new.id ≡ seat.old.id) }
    ensures step { MadeBy Try lock seat.old.me result seat.new.me }
{
    let word = plan.lock_word(lock);
    table.shared.compare_exchange::<Tries>(seat, word, 0, HELD)
}

// Takes one off a held word: the lock is free.
pub(crate) fn release(seat: &mut Right, domain: &Domain, lock: u32) -> u64
    requires table { seat.old.table_id ≡ domain.now.table.shared.table_id }
    requires lock { lock < locks_of domain.now.plan }
    requires number { IsNumbered seat.old.me.0 }
    requires row { Acts is_free seat.old.me.0 Unlock lock }
    requires home { is_first (lock_name lock) ≡ true → seat.old.me.0.ledger.out ≡ None }
    requires value { out_in seat.old.me.0.calls.holds lock ≡ false }
    ensures same { (seat.new.table_id ≡ seat.old.table_id) × (seat.new.id ≡ seat.old.id) }
    ensures step { MadeBy Unlock lock seat.old.me result seat.new.me }
{
    let word = domain.plan.lock_word(lock);
    let met = domain.table.shared.fetch_sub::<Unlocks>(seat, word, HELD);
    met
}

// Exchanges the word of a queue of the own node alone for the held one. A node that comes behind,
// or a pending bit, makes it fail, so that neither is lost.
pub(crate) fn sole_claim(seat: &mut Right, domain: &Domain, lock: LockName, own: NodeName) -> u64
    requires table { seat.old.table_id ≡ domain.now.table.shared.table_id }
    requires lock { lock.index < locks_of domain.now.plan }
    requires number { IsNumbered seat.old.me.0 }
    requires own { IsNode domain.now.plan own }
    requires row { InCall (Soles lock own) seat.old.me.0 }
    ensures same { (seat.new.table_id ≡ seat.old.table_id) × (seat.new.id ≡ seat.old.id) }
    ensures step { RowMade (Soles lock own) lock.index seat.old.me result seat.new.me }
{
    let word = domain.plan.word_of(lock);
    let tail = domain.plan.tail_of(own);
    let met = domain
        .table
        .shared
        .compare_exchange::<WordSteps>(seat, word, tail, HELD);
    met
}

// Exchanges the word of a held lock of which the own node is the tail for that with another's. A
// node that comes behind, or a pending bit, makes it fail.
pub(crate) fn tail_to_second(
    seat: &mut Right,
    domain: &Domain,
    lock: LockName,
    own: NodeName,
    tail: NodeName,
) -> u64
    requires table { seat.old.table_id ≡ domain.now.table.shared.table_id }
    requires lock { lock.index < locks_of domain.now.plan }
    requires number { IsNumbered seat.old.me.0 }
    requires own { IsNode domain.now.plan own }
    requires tail { IsNode domain.now.plan tail }
    requires row { InCall (AtPromotion lock own tail) seat.old.me.0 }
    ensures same { (seat.new.table_id ≡ seat.old.table_id) × (seat.new.id ≡ seat.old.id) }
    ensures step { RowMade (AtPromotion lock own tail) lock.index seat.old.me result seat.new.me }
{
    let word = domain.plan.word_of(lock);
    let met_own = domain.plan.tail_of(own) + HELD;
    let new = domain.plan.tail_of(tail) + HELD;
    let met = domain
        .table
        .shared
        .compare_exchange::<WordSteps>(seat, word, met_own, new);
    met
}

/// Exchanges the expected word for that with the own node as the tail, and the same low half: the row
/// G4. It fails where the word is another, and changes nothing then. Returns the word before the step.
pub fn exchange_tail(
    seat: &mut Right,
    table: &Words,
    plan: &Plan,
    lock: LockName,
    arrival: Arrival,
) -> u64
    requires table { IsTableOf plan.now table.now.shared.table_id table.now.shared.key }
    requires seat { seat.old.table_id ≡ table.now.shared.table_id }
    requires lock { lock.index < locks_of plan.now }
    requires number { IsNumbered seat.old.me.0 }
    requires own { IsNode plan.now arrival.own }
    requires row { InCall (Arrives lock arrival.own) seat.old.me.0 }
    ensures same { (seat.new.table_id ≡ seat.old.table_id) × (seat.new.id ≡ seat.old.id) }
    ensures step { SwappedBy arrival.expected seat.old.me result seat.new.me }
{
    let word = plan.word_of(lock);
    let tail = plan.tail_of(arrival.own);
    let new = arrival.expected % plan.tail_unit() + tail;
    table
        .shared
        .compare_exchange::<Exchanges>(seat, word, arrival.expected, new)
}
