// Probes: a lock is sought from its home on, and past the last place from the first one.

ghost use Rattle.std.specs.Prelude.{◌≡◌, ◌<◌, ◌≤◌, IfSome, IfNone, ℕ, true, false, length};
ghost use Rattle.lk_hash.specs.declared.place.Place.TheVariants.{Taken};
ghost use Rattle.lk_hash.specs.Table.{EndsAt, IsSound, IsAbsent, place_at, home, ends, is_vacant, entries_of};

use crate::place::Place;

// The place from which a lock is sought.
fn home(places: &[Place], lock: u32) -> usize
    requires { 0 < length places.now }
    ensures home { result ≡ home (length places.now) lock }
    ensures inside { result < length places.now }
{
    lock as usize & (places.len() - 1)
}

// The first of these places at which a probe for a lock ends.
fn end_in(places: &[Place], from: usize, to: usize, lock: u32) -> Option<usize>
    requires inside { to ≤ length places.now }
    ensures end { IfSome result (λ at. (from ≤ at) × (at < to) × (ends lock (place_at places.now at) ≡ true)
        × ((j : ℕ) → from ≤ j → j < at → ends lock (place_at places.now j) ≡ false)) }
    ensures none { IfNone result
        ((j : ℕ) → from ≤ j → j < to → ends lock (place_at places.now j) ≡ false) }
{
    for at in from..to {
        if places[at].ends(lock) {
            return Some(at);
        }
    }
    None
}

// The first of these places at which an entry may come.
fn vacant_in(places: &[Place], from: usize, to: usize) -> Option<usize>
    requires inside { to ≤ length places.now }
    ensures vacant { IfSome result (λ at. (from ≤ at) × (at < to) × (is_vacant (place_at places.now at) ≡ true)
        × ((j : ℕ) → from ≤ j → j < at → is_vacant (place_at places.now j) ≡ false)) }
    ensures none { IfNone result
        ((j : ℕ) → from ≤ j → j < to → is_vacant (place_at places.now j) ≡ false) }
{
    for at in from..to {
        if places[at].is_vacant() {
            return Some(at);
        }
    }
    None
}

// Where a probe for a lock ends, if it does.
#[tactic(auto, using(crate::proofs::Table::probes))]
fn end_of(places: &[Place], lock: u32) -> Option<usize>
    requires { 0 < length places.now }
    ensures end { IfSome result (λ at. EndsAt (ends lock) places.now (home (length places.now) lock) at) }
    ensures none { IfNone result
        ((j : ℕ) → j < length places.now → ends lock (place_at places.now j) ≡ false) }
{
    let home = home(places, lock);
    match end_in(places, home, places.len(), lock) {
        Some(at) => Some(at),
        None => end_in(places, 0, home, lock),
    }
}

/// The place of a lock with its node, if it is entered.
#[tactic(auto, using(crate::proofs::Table::probes))]
pub(crate) fn place_of(places: &[Place], lock: u32) -> Option<(usize, u32)>
    requires { IsSound places.now }
    ensures found { IfSome result (λ f. (f.0 < length places.now)
        × (place_at places.now f.0 ≡ Taken lock f.1)) }
    ensures absent { IfNone result (IsAbsent lock places.now) }
{
    let at = end_of(places, lock)?;
    match places[at] {
        Place::Taken { node, .. } => Some((at, node)),
        _ => None,
    }
}

/// The first place, from the home of a lock on, at which an entry may come.
#[tactic(auto, using(crate::proofs::Table::probes))]
pub(crate) fn vacant_of(places: &[Place], lock: u32) -> usize
    requires sound { IsSound places.now }
    requires room { length (entries_of places.now) < length places.now }
    ensures { EndsAt is_vacant places.now (home (length places.now) lock) result }
{
    let home = home(places, lock);
    match vacant_in(places, home, places.len()) {
        Some(at) => at,
        None => match vacant_in(places, 0, home) {
            Some(at) => at,
            None => unreachable!(),
        },
    }
}
