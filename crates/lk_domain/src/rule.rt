// The rule of a domain's table, and what its steps tell.
ghost use Rattle.lk_domain.specs.Calls.{no_calls};
ghost use Rattle.lk_domain.specs.Ledgers.{no_ledger};
ghost use Rattle.lk_domain.specs.NodePlays.{Readies, Enters, Links, SeesFlag, SeesLink, Hands, Names};
ghost use Rattle.lk_domain.specs.NodePlays.{Relinks};
ghost use Rattle.lk_domain.specs.NodePlays.{Counted, Tells, SeesTail};
ghost use Rattle.lk_domain.specs.Plays.{Makes, WentBy, Swaps, Draws, Loads, Sees, TakesJournal, Stores, Brings};
ghost use Rattle.lk_domain.specs.Plays.{TakesValue, BringsValue};
ghost use Rattle.lk_domain.specs.RwPlays.{Shares};
ghost use Rattle.lk_domain.specs.Stand.{Stand};
ghost use Rattle.lk_domain.specs.Views.{view, dealer, newcomer, nobody, own_number, joined};
ghost use Rattle.lk_domain.specs.Views.{with_more};
ghost use Rattle.lk_rows.specs.declared.setup.Verb.{Verb};
ghost use Rattle.lk_rows.specs.declared.setup.Verb.TheVariants.{Lock, Try, Unlock, Read, TryRead};
ghost use Rattle.lk_rows.specs.declared.setup.Verb.TheVariants.{RUnlock, Write, TryWrite, WUnlock};

use crate::plan::Plan;
use crate::slot::Slot;
use crate::view::View;
use atomic_table::{Join, Play, Split, TableRule};
use std::marker::PhantomData;

/// The rule of a domain's table: its invariant, and what its first seat knows.
pub struct Order;

impl TableRule<Slot, View, Plan> for Order {
    ghost holds = { λ plan. Stand plan };

    ghost first = { λ plan. view (dealer plan 0) no_calls no_ledger };
}

/// A step on the word of a lock, by a call of `lock`.
pub struct Locks;

impl Play<Slot, View> for Locks {
    ghost then = { Makes Lock };
}

/// A step on the word of a lock, by a call of `try_lock`.
pub struct Tries;

impl Play<Slot, View> for Tries {
    ghost then = { Makes Try };
}

/// A step on the word of a lock, by a call of `unlock`.
pub struct Unlocks;

impl Play<Slot, View> for Unlocks {
    ghost then = { Makes Unlock };
}

/// A step on the word of a spinlock or a wait lock, by a call that goes on.
pub struct WordSteps;

impl Play<Slot, View> for WordSteps {
    ghost then = { λ _. WentBy };
}

/// An exchange of the whole word of a spinlock or a wait lock. A call may try it again.
pub struct Exchanges;

impl Play<Slot, View> for Exchanges {
    ghost then = { Swaps };
}

/// The calls on a reader-writer lock of one operation.
pub trait RwCalls {
    // The operation.
    ghost verb: { Verb };
}

/// A step on the word of a reader-writer lock, by a call of the operation of `C`.
pub struct RwSteps<C> {
    marker: PhantomData<C>,
}

impl<C: RwCalls> Play<Slot, View> for RwSteps<C> {
    ghost then = { Shares C.verb };
}

/// Calls of `read_lock`.
pub struct ReadCalls;

impl RwCalls for ReadCalls {
    ghost verb = { Read };
}

/// Calls of `try_read`.
pub struct TryReadCalls;

impl RwCalls for TryReadCalls {
    ghost verb = { TryRead };
}

/// Calls of `read_unlock`.
pub struct ReadUnlockCalls;

impl RwCalls for ReadUnlockCalls {
    ghost verb = { RUnlock };
}

/// Calls of `write_lock`.
pub struct WriteCalls;

impl RwCalls for WriteCalls {
    ghost verb = { Write };
}

/// Calls of `try_write`.
pub struct TryWriteCalls;

impl RwCalls for TryWriteCalls {
    ghost verb = { TryWrite };
}

/// Calls of `write_unlock`.
pub struct WriteUnlockCalls;

impl RwCalls for WriteUnlockCalls {
    ghost verb = { WUnlock };
}

/// A call resets a word of the node that it will use, before it enters the slow path.
pub struct Resets;

impl Play<Slot, View> for Resets {
    ghost then = { Readies };
}

/// A call enters the slow path.
pub struct Entries;

impl Play<Slot, View> for Entries {
    ghost then = { λ _. Enters };
}

/// A call links its node behind its predecessor's.
pub struct Linkings;

impl Play<Slot, View> for Linkings {
    ghost then = { λ _. Links };
}

/// A call polls the flag of its node.
pub struct FlagLooks;

impl Play<Slot, View> for FlagLooks {
    ghost then = { λ _. SeesFlag };
}

/// A call reads the link of a node.
pub struct LinkLooks;

impl Play<Slot, View> for LinkLooks {
    ghost then = { λ _. SeesLink };
}

/// A call hands off.
pub struct Handovers;

impl Play<Slot, View> for Handovers {
    ghost then = { λ _. Hands };
}

/// A queue head reads which node is the last of the secondary queue.
pub struct TailLooks;

impl Play<Slot, View> for TailLooks {
    ghost then = { λ _. SeesTail };
}

/// A queue head that chooses its successor reads its count of handoffs.
pub struct RunsLooks;

impl Play<Slot, View> for RunsLooks {
    ghost then = { λ _. Counted };
}

/// A queue head stores the count of handoffs for its successor.
pub struct Counts;

impl Play<Slot, View> for Counts {
    ghost then = { λ _. Tells };
}

/// A queue head stores a link into the node of another waiter.
pub struct Relinkings;

impl Play<Slot, View> for Relinkings {
    ghost then = { λ _. Relinks };
}

/// A queue head stores the last node of the secondary queue into the first one.
pub struct Namings;

impl Play<Slot, View> for Namings {
    ghost then = { λ _. Names };
}

/// The first seat draws a number.
pub struct Draw;

impl Play<Slot, View> for Draw {
    ghost then = { Draws };
}

/// The first seat gives the number that it drew to a new seat.
pub struct Deal;

impl Split<View> for Deal {
    ghost left = { λ v. view (dealer v.who.plan (own_number v.who.dealt)) no_calls no_ledger };

    ghost right = { λ v. view (newcomer v.who.plan (own_number v.who.number)) no_calls v.ledger };
}

/// A seat takes over the numbers of another.
pub struct TakeOver;

impl Join<View> for TakeOver {
    ghost both = { λ v u. view (joined v.who u) v.calls (with_more v.ledger u.ledger.share) };

    ghost spent = { view nobody no_calls no_ledger };
}

/// A balance is loaded.
pub struct LoadBalance;

impl Play<Slot, View> for LoadBalance {
    ghost then = { Loads };
}

/// The version is loaded.
pub struct LoadVersion;

impl Play<Slot, View> for LoadVersion {
    ghost then = { Sees };
}

/// The journal is taken out, by a load of the version.
pub struct TakeJournal;

impl Play<Slot, View> for TakeJournal {
    ghost then = { TakesJournal };
}

/// A balance is stored.
pub struct StoreBalance;

impl Play<Slot, View> for StoreBalance {
    ghost then = { Stores };
}

/// The journal is brought home, by a store of the version.
pub struct BringJournal;

impl Play<Slot, View> for BringJournal {
    ghost then = { Brings };
}

// The key of a lock's value is taken out, by a load.
pub struct TakeValue;

impl Play<Slot, View> for TakeValue {
    ghost then = { TakesValue };
}

// It is brought home, by a load.
pub struct BringValue;

impl Play<Slot, View> for BringValue {
    ghost then = { BringsValue };
}
