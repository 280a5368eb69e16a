// The steps of a seat on places of the hash, each one operation.
ghost use Rattle.std.specs.Prelude.{◌≡◌, ◌<◌, None, Some, true, false};
ghost use Rattle.lk_domain.specs.Calls.{lock_name};
ghost use Rattle.lk_domain.specs.Plans.{locks_of};
ghost use Rattle.lk_domain.specs.Plays.{Goes};
ghost use Rattle.lk_law.specs.Leads.{Named};
ghost use Rattle.lk_domain.specs.Words.{IsNode, places_of};
ghost use Rattle.lk_word.specs.declared.spin_word.NodeName.{NodeName as Name};
ghost use Rattle.lk_pvdomain.specs.PvPaths.{IsOn};
ghost use Rattle.lk_pvdomain.specs.PvPlays.{AtFill, AtSeek, EmptiesAt, Fills, SeesPlace, looked_at};

use crate::layout::{FIRST_PAIR, LOCKS, pair_of, place_of, places};
use crate::rule::{Erasings, Fillings, PlaceLooks};
use lk_domain::{Domain, Right};
use lk_word::NodeName;

// Puts the lock into the hash at a place, if that is empty: the rows E6, with the own node, and K3,
// with the successor's.
pub(crate) fn fill(
    seat: &mut Right,
    domain: &Domain,
    lock: u32,
    node: NodeName,
    place: usize,
) -> u64
    requires on { IsOn domain.now seat.old }
    requires lock { lock < locks_of domain.now.plan }
    requires node { IsNode domain.now.plan node }
    requires place { place < places_of domain.now.plan }
    requires row { AtFill node (lock_name lock) seat.old.me.0 }
    ensures same { (seat.new.table_id ≡ seat.old.table_id) × (seat.new.id ≡ seat.old.id) }
    ensures step { Fills seat.old.me result seat.new.me }
{
    let word = place_of(domain, place);
    let pair = pair_of(domain, lock, node);
    domain
        .table
        .shared
        .compare_exchange::<Fillings>(seat, word, 0, pair)
}

// Puts the lock into the hash at the first place that it finds empty: the rows E6 and K3. It tries
// each place once, and returns whether it found one. The places that others free meanwhile it may
// have passed.
pub(crate) fn put_in(seat: &mut Right, domain: &Domain, lock: u32, node: NodeName) -> bool
    requires on { IsOn domain.now seat.old }
    requires lock { lock < locks_of domain.now.plan }
    requires node { IsNode domain.now.plan node }
    requires row { AtFill node (lock_name lock) seat.old.me.0 }
    ensures same { (seat.new.table_id ≡ seat.old.table_id) × (seat.new.id ≡ seat.old.id) }
    ensures fills { result ≡ true → Goes (Named None) seat.old.me seat.new.me }
    ensures stays { result ≡ false → seat.new.me ≡ seat.old.me }
{
    for place in 0..places(domain) {
        if fill(seat, domain, lock, node, place) == 0 {
            return true;
        }
    }
    false
}

// Looks at the next place for the entry of the lock.
pub(crate) fn look_place(seat: &mut Right, domain: &Domain, lock: u32, place: usize) -> u64
    requires on { IsOn domain.now seat.old }
    requires lock { lock < locks_of domain.now.plan }
    requires place { place < places_of domain.now.plan }
    requires row { AtSeek (lock_name lock) seat.old.me.0 }
    requires next { seat.old.me.0.calls.looked ≡ place }
    ensures same { (seat.new.table_id ≡ seat.old.table_id) × (seat.new.id ≡ seat.old.id) }
    ensures step { SeesPlace lock seat.old.me result seat.new.me }
{
    let word = place_of(domain, place);
    domain.table.shared.load::<PlaceLooks>(seat, word)
}

// Finds the place of the lock's entry. It reads each place at most once.
pub(crate) fn find(seat: &mut Right, domain: &Domain, lock: u32) -> usize
    requires on { IsOn domain.now seat.old }
    requires lock { lock < locks_of domain.now.plan }
    requires row { AtSeek (lock_name lock) seat.old.me.0 }
    requires fresh { seat.old.me.0.calls.looked ≡ 0 }
    ensures same { (seat.new.table_id ≡ seat.old.table_id) × (seat.new.id ≡ seat.old.id) }
    ensures place { result < places_of domain.now.plan }
    ensures found { (a : Name) × (seat.new.me ≡ (looked_at result (Some a) seat.old.me.0, seat.old.me.1)) }
{
    for place in 0..places(domain) {
        let met = look_place(seat, domain, lock, place);
        if met != 0 && (met - FIRST_PAIR) % LOCKS == lock as u64 {
            return place;
        }
    }
    unreachable!()
}

// Takes the entry of the lock out of the hash, where it was found: the rows U3 and E9.
pub(crate) fn erase(seat: &mut Right, domain: &Domain, lock: u32, place: usize) -> u64
    requires on { IsOn domain.now seat.old }
    requires lock { lock < locks_of domain.now.plan }
    requires place { place < places_of domain.now.plan }
    requires row { AtSeek (lock_name lock) seat.old.me.0 }
    requires found { (a : Name) × (seat.old.me.0.calls.spot ≡ Some a) }
    requires next { seat.old.me.0.calls.looked ≡ place }
    ensures same { (seat.new.table_id ≡ seat.old.table_id) × (seat.new.id ≡ seat.old.id) }
    ensures step { EmptiesAt lock seat.old.me result seat.new.me }
{
    let word = place_of(domain, place);
    domain.table.shared.swap::<Erasings>(seat, word, 0)
}

// Finds the entry of the lock and takes it out: the rows U3 and E9, with the reads before them.
pub(crate) fn take_out(seat: &mut Right, domain: &Domain, lock: u32) -> u64
    requires on { IsOn domain.now seat.old }
    requires lock { lock < locks_of domain.now.plan }
    requires row { AtSeek (lock_name lock) seat.old.me.0 }
    requires fresh { seat.old.me.0.calls.looked ≡ 0 }
    ensures same { (seat.new.table_id ≡ seat.old.table_id) × (seat.new.id ≡ seat.old.id) }
    ensures step { EmptiesAt lock seat.old.me result seat.new.me }
{
    let place = find(seat, domain, lock);
    erase(seat, domain, lock, place)
}
