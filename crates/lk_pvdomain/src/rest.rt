// Where a call of `pv_lock` that waits rests between two turns. It is plain data, so that whoever
// drives the call may keep it beside the processor, and no loop has to keep it on a stack.
ghost use Rattle.std.specs.Prelude.{◌≡◌};
ghost use Rattle.lk_pvdomain.specs.PvRests.{is_asleep};

use lk_rows::Pc;
use lk_word::NodeName;

// The row that it makes next, or at which it has halted, and what it knows there.
#[derive(Clone, Copy)]
pub(crate) enum PvRest {
    // H1: it looks until it may steal the lock, or has to queue.
    Looks,
    // H2: its exchange met another tail or pending bit than it expected, and took nothing.
    Steals(Stealing),
    // G4: its exchange of the tail met this word.
    Joins(u64),
    // W1: it spins behind another.
    Spins(Spinning),
    // W6: it has halted behind this node.
    Halts(NodeName),
    // E2: it heads the queue, is in the hash, and found the byte no longer slow.
    Runs,
    // E4: it spins as the queue head.
    Leads(Leading),
    // E6: it heads the queue, and found no empty place in the hash.
    Enlists,
    // E12: it has halted as the queue head.
    Naps,
    // E14: it has the lock, and waits for its successor's link.
    Hands,
    // K3: it has the lock, and found no empty place in the hash for this successor.
    EnlistsNext(NodeName),
}

impl PvRest {
    // The row that it makes next, or at which it has halted.
    pub(crate) fn row(&self) -> Pc {
        match *self {
            PvRest::Looks => Pc::H1,
            PvRest::Steals(_) => Pc::H2,
            PvRest::Joins(_) => Pc::G4,
            PvRest::Spins(_) => Pc::W1,
            PvRest::Halts(_) => Pc::W6,
            PvRest::Runs => Pc::E2,
            PvRest::Leads(_) => Pc::E4,
            PvRest::Enlists => Pc::E6,
            PvRest::Naps => Pc::E12,
            PvRest::Hands => Pc::E14,
            PvRest::EnlistsNext(_) => Pc::K3,
        }
    }

    // Whether its processor has halted.
    pub(crate) fn is_halted(&self) -> bool
        ensures { result ≡ is_asleep self.now }
    {
        match *self {
            PvRest::Halts(_) => true,
            PvRest::Naps => true,
            _ => false,
        }
    }
}

// A call that is about to steal its lock: whether the word had a tail, and the word that it met last.
#[derive(Clone, Copy)]
pub(crate) struct Stealing {
    pub(crate) tailed: bool,
    pub(crate) met: u64,
}

// A call that spins behind another: that one's node, and how many turns are left before it halts.
#[derive(Clone, Copy)]
pub(crate) struct Spinning {
    pub(crate) prev: NodeName,
    pub(crate) left: u32,
}

// A queue head: whether its lock is in the hash, and how many turns are left before it halts.
#[derive(Clone, Copy)]
pub(crate) struct Leading {
    pub(crate) hashed: bool,
    pub(crate) left: u32,
}
