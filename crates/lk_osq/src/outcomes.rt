// What a row does, as data.
ghost use Rattle.std.specs.Prelude.{◌≡◌};
ghost use Rattle.lk_osq.specs.Rows.{looks, writes, tells, takes, swaps, is_cpu};

use crate::events::OsqWhat;
use crate::places::Place;

/// Where a row leads its processor.
#[derive(Clone, Copy, Debug, PartialEq, Eq)]
pub enum Lead {
    /// To this place.
    Goes(Place),
    /// To this place, with this predecessor in its register.
    Knows(Place, Option<u32>),
    /// To this place, with this successor in its register.
    Meets(Place, u32),
    /// To the end of the round.
    Ends,
}

/// What a row stores into a node.
#[derive(Clone, Copy, Debug, PartialEq, Eq)]
pub enum Store {
    /// A new flag.
    Flag(bool),
    /// A new successor, or none.
    Next(Option<u32>),
    /// A new predecessor, or none.
    Prev(Option<u32>),
    /// Flag not set, and no successor.
    Reset,
}

/// What a row does. Each row is atomic.
#[derive(Clone, Copy, Debug, PartialEq, Eq)]
pub struct Outcome {
    /// The value that it stores into the tail, if it stores there.
    pub tail: Option<Option<u32>>,
    /// The processor into whose node it stores, and what it stores there.
    pub node: Option<(u32, Store)>,
    /// Where it leads the acting processor.
    pub leads: Lead,
    /// The event, if there is one.
    pub tells: Option<OsqWhat>,
}

// Whether the processor is this one.
pub(crate) fn is_cpu(name: Option<u32>, cpu: u32) -> bool
    ensures { result ≡ is_cpu name cpu }
{
    match name {
        Some(name) => name == cpu,
        None => false,
    }
}

impl Outcome {
    // It only looks.
    pub(crate) fn looks(place: Place) -> Outcome
        ensures { result ≡ looks place }
    {
        Outcome {
            tail: None,
            node: None,
            leads: Lead::Goes(place),
            tells: None,
        }
    }

    // It stores in a node, if there is one.
    pub(crate) fn writes(at: Option<u32>, store: Store, place: Place) -> Outcome
        ensures { result ≡ writes at store place }
    {
        Outcome {
            tail: None,
            node: match at {
                Some(at) => Some((at, store)),
                None => None,
            },
            leads: Lead::Goes(place),
            tells: None,
        }
    }

    // It tells a node whom that stands behind.
    pub(crate) fn tells(at: Option<u32>, prev: Option<u32>, place: Place) -> Outcome
        ensures { result ≡ tells at prev place }
    {
        Outcome::writes(at, Store::Prev(prev), place)
    }

    // It takes the lock that was handed to it.
    pub(crate) fn takes() -> Outcome
        ensures { result ≡ takes }
    {
        Outcome {
            tail: None,
            node: None,
            leads: Lead::Goes(Place::X1),
            tells: Some(OsqWhat::TakeHanded),
        }
    }

    // It swaps the tail, and its round ends.
    pub(crate) fn swaps(tail: Option<u32>, what: OsqWhat) -> Outcome
        ensures { result ≡ swaps tail what }
    {
        Outcome {
            tail: Some(tail),
            node: None,
            leads: Lead::Ends,
            tells: Some(what),
        }
    }
}
