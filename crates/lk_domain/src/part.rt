// The words of a node, and what the link among them says.
ghost use Rattle.std.specs.Prelude.{◌≡◌, ◌<◌};
ghost use Rattle.lk_domain.specs.Words.{part_index, is_last};

use lk_names::Mode;
use lk_word::NodeName;

/// A word of a queue node. A call resets the words of its node in this order.
#[derive(Clone, Copy, Debug, PartialEq, Eq)]
pub enum Part {
    /// Whether the waiter of the node is the queue head.
    Flag,
    /// The node of the successor.
    Next,
    /// The last node of the secondary queue. It stands in the first node of that queue.
    SecondTail,
    /// The number of handoffs since the secondary queue became non-empty. It stands in the node of
    /// the queue head.
    Runs,
}

/// What a link says that names a node.
#[derive(Clone, Copy, Debug, PartialEq, Eq)]
pub struct Link {
    /// The node.
    pub node: NodeName,
    /// Whether its waiter is in an interrupt.
    pub mark: bool,
}

impl Part {
    // Its place among the words of a node.
    pub(crate) fn index(self) -> usize
        ensures { (result ≡ part_index self) × (result < 4) }
    {
        match self {
            Part::Flag => 0,
            Part::Next => 1,
            Part::SecondTail => 2,
            Part::Runs => 3,
        }
    }

    // Whether it is the last word that a node has in a domain of this family.
    pub(crate) fn is_last(self, mode: Mode) -> bool
        ensures { result ≡ is_last mode self }
    {
        match self {
            Part::Flag | Part::SecondTail => false,
            Part::Next => !matches!(mode, Mode::Cna | Mode::Pv),
            Part::Runs => true,
        }
    }
}
