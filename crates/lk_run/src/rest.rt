// Where a call that queues rests between two polls of the lock. It is plain data, so that whoever
// drives the call may keep it beside the processor, and no loop has to keep it on a stack.

use lk_rows::Pc;
use lk_word::NodeName;

// The row that it makes next, and what it knows there.
#[derive(Clone, Copy)]
pub(crate) enum Rest {
    // V1: it looks until the word is free.
    Spins,
    // P3: it pends, and watches the holder go.
    Pends,
    // N1: it waits without a node.
    Bare,
    // G4: its exchanges of the tail met other words.
    Joins(Joining),
    // G6: it queues, and waits for its flag.
    Queues(NodeName),
    // G7: it heads its queue, and waits until the lock is free and nobody pends.
    Leads(Head),
    // G10: it has the lock, and waits for its successor's link.
    Hands(Head),
    // C1: it has the lock, and waits for somebody behind it.
    Chooses(Head),
    // C2: it has the lock, has passed over some waiters, and looks behind them.
    Passes(Passing),
}

impl Rest {
    // The row that it makes next.
    pub(crate) fn row(&self) -> Pc {
        match *self {
            Rest::Spins => Pc::V1,
            Rest::Pends => Pc::P3,
            Rest::Bare => Pc::N1,
            Rest::Joins(_) => Pc::G4,
            Rest::Queues(_) => Pc::G6,
            Rest::Leads(_) => Pc::G7,
            Rest::Hands(_) => Pc::G10,
            Rest::Chooses(_) => Pc::C1,
            Rest::Passes(_) => Pc::C2,
        }
    }
}

// A call that is to exchange the tail, with its node, and the word that it met last.
#[derive(Clone, Copy)]
pub(crate) struct Joining {
    pub(crate) own: NodeName,
    pub(crate) met: u64,
}

// A queue head, with its node, and the first of the secondary queue, if there is one.
#[derive(Clone, Copy)]
pub(crate) struct Head {
    pub(crate) own: NodeName,
    pub(crate) second: Option<NodeName>,
}

// Those that a head has passed over, from the first to the last. The mark is that of the link in
// which the head met the first.
#[derive(Clone, Copy)]
pub(crate) struct Skipped {
    pub(crate) first: NodeName,
    pub(crate) mark: bool,
    pub(crate) last: NodeName,
}

// A queue head, and those that it has passed over.
#[derive(Clone, Copy)]
pub(crate) struct Passing {
    pub(crate) head: Head,
    pub(crate) skipped: Skipped,
}
