// A processor and its node.
ghost use Rattle.std.specs.Prelude.{◌≡◌};
ghost use Rattle.lk_osq.specs.Machine.{no_cpu};
ghost use Rattle.lk_osq.specs.Rows.{stored, moved, gives};
ghost use Rattle.lk_osq.specs.Run.{rest_cpu};

use crate::outcomes::{Lead, Store};
use crate::places::Place;

/// A processor's node.
#[derive(Clone, Copy, Debug, PartialEq, Eq)]
pub struct Node {
    /// Whether the lock was handed off to the processor.
    pub flag: bool,
    /// The successor; none if it has not stored its link, or if the link is cut or grabbed.
    pub next: Option<u32>,
    /// The predecessor that was stored last. It may be out of date.
    pub prev: Option<u32>,
}

/// A processor: its node, its registers, and its place.
#[derive(Clone, Copy, Debug, PartialEq, Eq)]
pub struct Cpu {
    /// Its node, which other processors read and write.
    pub node: Node,
    /// The register for the predecessor.
    pub prev: Option<u32>,
    /// The register for the successor.
    pub y: Option<u32>,
    /// Whether the processor was asked to give up.
    pub request: bool,
    /// How many rounds are left, the present one included.
    pub rounds: u32,
    /// The row at which the processor stands; none if it is finished.
    pub place: Option<Place>,
}

impl Node {
    // The node after a store.
    pub(crate) fn stored(self, store: Store) -> Node
        ensures { result ≡ stored self store }
    {
        match store {
            Store::Flag(flag) => Node { flag, ..self },
            Store::Next(next) => Node { next, ..self },
            Store::Prev(prev) => Node { prev, ..self },
            Store::Reset => Node {
                flag: false,
                next: None,
                ..self
            },
        }
    }
}

impl Cpu {
    // A processor that has no round left.
    pub(crate) fn finished() -> Cpu
        ensures { result ≡ no_cpu }
    {
        Cpu {
            node: Node {
                flag: false,
                next: None,
                prev: None,
            },
            prev: None,
            y: None,
            request: false,
            rounds: 0,
            place: None,
        }
    }

    // A processor at rest, with so many rounds.
    pub(crate) fn at_rest(rounds: u32) -> Cpu
        ensures { result ≡ rest_cpu rounds }
    {
        Cpu {
            rounds,
            place: if 0 < rounds { Some(Place::O1) } else { None },
            ..Cpu::finished()
        }
    }

    // Where its row leads it. A round's end clears the request.
    pub(crate) fn moved(self, lead: Lead) -> Cpu
        ensures { result ≡ moved self lead }
    {
        match lead {
            Lead::Goes(place) => Cpu {
                place: Some(place),
                ..self
            },
            Lead::Knows(place, prev) => Cpu {
                prev,
                place: Some(place),
                ..self
            },
            Lead::Meets(place, y) => Cpu {
                y: Some(y),
                place: Some(place),
                ..self
            },
            Lead::Ends => Cpu {
                request: false,
                rounds: self.rounds.saturating_sub(1),
                place: if 1 < self.rounds {
                    Some(Place::O1)
                } else {
                    None
                },
                ..self
            },
        }
    }

    // Whether it may be asked to give up: it has not the lock, is not giving up, and was not asked
    // yet.
    pub(crate) fn gives(self) -> bool
        ensures { result ≡ gives self }
    {
        matches!(
            self.place,
            Some(Place::O1) | Some(Place::O2) | Some(Place::O3) | Some(Place::O4) | Some(Place::O5)
        ) && !self.request
    }
}
