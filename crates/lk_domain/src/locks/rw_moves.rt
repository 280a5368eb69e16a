// The steps of a seat on the word of a reader-writer lock, each one operation.
ghost use Rattle.std.specs.Prelude.{◌≡◌, ◌<◌, None, true, false};
ghost use Rattle.lk_domain.specs.Calls.{lock_name};
ghost use Rattle.lk_domain.specs.Ledgers.{is_first};
ghost use Rattle.lk_domain.specs.Plans.{locks_of};
ghost use Rattle.lk_domain.specs.RwPlays.{ActsFor, SharedBy};
ghost use Rattle.lk_domain.specs.RwUses.{frees_by_use, rw_uses_by};
ghost use Rattle.lk_domain.specs.Values.{out_in};
ghost use Rattle.lk_domain.specs.Views.{IsNumbered};
ghost use Rattle.lk_domain.specs.declared.locks.rw_moves.RwUse.TheVariants.{Leaves};

use crate::cpu::Right;
use crate::domain::Domain;
use crate::rule::{
    ReadCalls, ReadUnlockCalls, RwCalls, RwSteps, TryReadCalls, TryWriteCalls, WriteCalls,
    WriteUnlockCalls,
};
use lk_rows::Verb;
use lk_word::{READER, WAITING, WRITER};

// What a row does with the word of a reader-writer lock, in one operation.
#[derive(Clone, Copy)]
pub(crate) enum RwUse {
    // reads it
    Watches,
    // adds a reader
    Joins,
    // takes a reader away
    Quits,
    // exchanges the empty word for that of a writer
    Seizes,
    // sets waiting
    Awaits,
    // exchanges the word in which the call alone waits for that of a writer
    Follows,
    // takes the writer away, which holds the lock
    Leaves,
}

// A row on the word, by a call of the operation of `C`.
fn act<C: RwCalls>(seat: &mut Right, domain: &Domain, lock: u32, how: RwUse) -> u64
    requires table { seat.old.table_id ≡ domain.now.table.shared.table_id }
    requires lock { lock < locks_of domain.now.plan }
    requires number { IsNumbered seat.old.me.0 }
    requires row { ActsFor (rw_uses_by how C.verb) seat.old.me.0 C.verb lock }
    requires home { how ≡ Leaves → is_first (lock_name lock) ≡ true
        → seat.old.me.0.ledger.out ≡ None }
    requires value { frees_by_use how C.verb ≡ true
        → out_in seat.old.me.0.calls.holds lock ≡ false }
    ensures same { (seat.new.table_id ≡ seat.old.table_id) × (seat.new.id ≡ seat.old.id) }
    ensures step { SharedBy C.verb lock seat.old.me result seat.new.me }
{
    let word = domain.plan.lock_word(lock);
    let shared = &domain.table.shared;
    match how {
        RwUse::Watches => shared.load::<RwSteps<C>>(seat, word),
        RwUse::Joins => shared.fetch_add::<RwSteps<C>>(seat, word, READER),
        RwUse::Quits => shared.fetch_sub::<RwSteps<C>>(seat, word, READER),
        RwUse::Seizes => shared.compare_exchange::<RwSteps<C>>(seat, word, 0, WRITER),
        RwUse::Awaits => shared.fetch_or::<RwSteps<C>>(seat, word, WAITING),
        RwUse::Follows => shared.compare_exchange::<RwSteps<C>>(seat, word, WAITING, WRITER),
        RwUse::Leaves => shared.fetch_sub::<RwSteps<C>>(seat, word, WRITER),
    }
}

// The same, where the operation is a value.
pub(crate) fn act_by(seat: &mut Right, domain: &Domain, verb: Verb, lock: u32, how: RwUse) -> u64
    requires table { seat.old.table_id ≡ domain.now.table.shared.table_id }
    requires lock { lock < locks_of domain.now.plan }
    requires number { IsNumbered seat.old.me.0 }
    requires row { ActsFor (rw_uses_by how verb) seat.old.me.0 verb lock }
    requires home { how ≡ Leaves → is_first (lock_name lock) ≡ true
        → seat.old.me.0.ledger.out ≡ None }
    requires value { frees_by_use how verb ≡ true
        → out_in seat.old.me.0.calls.holds lock ≡ false }
    ensures same { (seat.new.table_id ≡ seat.old.table_id) × (seat.new.id ≡ seat.old.id) }
    ensures step { SharedBy verb lock seat.old.me result seat.new.me }
{
    match verb {
        Verb::Read => act::<ReadCalls>(seat, domain, lock, how),
        Verb::TryRead => act::<TryReadCalls>(seat, domain, lock, how),
        Verb::RUnlock => act::<ReadUnlockCalls>(seat, domain, lock, how),
        Verb::Write => act::<WriteCalls>(seat, domain, lock, how),
        Verb::TryWrite => act::<TryWriteCalls>(seat, domain, lock, how),
        Verb::WUnlock => act::<WriteUnlockCalls>(seat, domain, lock, how),
        _ => unreachable!(),
    }
}
