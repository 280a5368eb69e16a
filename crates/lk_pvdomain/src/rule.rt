// What each kind of step on the table does to a seat.
ghost use Rattle.lk_domain.specs.NodePlays.{Enters, Readies};
ghost use Rattle.lk_pvdomain.specs.PvPlays.{SeesState, Halts, Wakes, Kicks, Fills, SeesHash, Empties, Tries};
ghost use Rattle.lk_pvdomain.specs.PvPlays.{SparedBy, release_fails, head_fails, steal_fails};
ghost use Rattle.lk_rows.specs.declared.setup.Verb.TheVariants.{Lock, Unlock};

use atomic_table::Play;
use lk_domain::{Slot, View};

// A step on the state of a node.
pub struct StateSteps;

impl Play<Slot, View> for StateSteps {
    ghost then = { λ _. SeesState };
}

// The processor halts, in a read of its kick word.
pub struct HaltLooks;

impl Play<Slot, View> for HaltLooks {
    ghost then = { λ _. Halts };
}

// The exchange that takes a kick.
pub struct Wakings;

impl Play<Slot, View> for Wakings {
    ghost then = { λ _. Wakes };
}

// A kick is remembered.
pub struct KickStores;

impl Play<Slot, View> for KickStores {
    ghost then = { λ _. Kicks };
}

// A swap by a release, which may be tried again.
pub struct ReleaseTries;

impl Play<Slot, View> for ReleaseTries {
    ghost then = { Tries release_fails Unlock };
}

// A swap by a queue head, which may be tried again.
pub struct HeadTries;

impl Play<Slot, View> for HeadTries {
    ghost then = { Tries head_fails Lock };
}

// A swap by a call that steals, which may be tried again.
pub struct StealTries;

impl Play<Slot, View> for StealTries {
    ghost then = { Tries steal_fails Lock };
}

// A look at a word of the node to come, which need not be reset where it is 0.
pub struct ResetLooks;

impl Play<Slot, View> for ResetLooks {
    ghost then = { λ st m. SparedBy (Readies st m) m };
}

// The last private store of a node to come, by which the call enters the slow path.
pub struct Entries;

impl Play<Slot, View> for Entries {
    ghost then = { λ _. Enters };
}

// A look at that word, by which the call enters the slow path where it is 0.
pub struct EntryLooks;

impl Play<Slot, View> for EntryLooks {
    ghost then = { λ _ m. SparedBy (Enters m) m };
}

// An entry is put into the hash, where its place is empty.
pub struct Fillings;

impl Play<Slot, View> for Fillings {
    ghost then = { λ _. Fills };
}

// A look at a place of the hash.
pub struct PlaceLooks;

impl Play<Slot, View> for PlaceLooks {
    ghost then = { λ _. SeesHash };
}

// An entry is taken out of the hash.
pub struct Erasings;

impl Play<Slot, View> for Erasings {
    ghost then = { λ _. Empties };
}
