// What a queue head of the CNA lock meets that looks for its successor, and what that means for it.

ghost use Rattle.std.specs.Prelude.{◌≡◌, None, Some};
ghost use Rattle.lk_rows.specs.rows.Cna.{Sight, flag_for, may_stay};
ghost use Rattle.lk_rows.specs.Searching.{first_by, more_by};

use crate::parts::Flag;
use lk_word::NodeName;

/// What the link of the head's own node means for it (C1).
#[derive(Clone, Copy, Debug, PartialEq, Eq)]
pub enum First {
    /// Nobody is linked, and there is no secondary queue: it looks again.
    Waits,
    /// Nobody is linked. The secondary queue, of which this is the first, may be all of the rest.
    Promotes(NodeName),
    /// The successor is this one.
    Chooses(NodeName),
    /// This one is passed over.
    Skips(NodeName),
    /// The secondary queue, of which this is the first, returns before the other.
    Flushes(NodeName, NodeName),
}

/// What the link of the last waiter that was passed over means for the head (C2).
#[derive(Clone, Copy, Debug, PartialEq, Eq)]
pub enum More {
    /// This one is passed over too.
    Skips(NodeName),
    /// The successor is the other, and those that were passed over go behind the secondary queue, of
    /// which this is the first.
    Appends(NodeName, NodeName),
    /// The successor is this one, and those that were passed over begin a secondary queue.
    Begins(NodeName),
    /// Nobody is linked, and this is the first of the secondary queue, which returns.
    Flushes(NodeName),
    /// Nobody is linked, and there is no secondary queue: the successor is the first that was passed
    /// over.
    Chooses,
}

impl First {
    /// Nobody is linked behind the head.
    #[inline]
    pub fn nobody(second: Option<NodeName>) -> First
        ensures { (s : Sight) → result ≡ first_by s second None }
    {
        match second {
            None => First::Waits,
            Some(first) => First::Promotes(first),
        }
    }

    /// This waiter is linked behind the head. While fewer handoffs than the threshold were made, it
    /// is chosen if it is local, and else passed over. After that the secondary queue returns before
    /// it, or it is chosen if there is none.
    #[inline]
    pub fn somebody(
        second: Option<NodeName>,
        next: NodeName,
        goes_on: bool,
        is_local: bool,
    ) -> First
        ensures { (s : Sight) → may_stay s ≡ goes_on → s.local next ≡ is_local
            → result ≡ first_by s second (Some next) }
    {
        match second {
            _ if goes_on && is_local => First::Chooses(next),
            _ if goes_on => First::Skips(next),
            None => First::Chooses(next),
            Some(first) => First::Flushes(first, next),
        }
    }
}

impl More {
    /// Nobody is linked behind the last that was passed over.
    #[inline]
    pub fn nobody(second: Option<NodeName>) -> More
        ensures { (s : Sight) → result ≡ more_by s second None }
    {
        match second {
            None => More::Chooses,
            Some(first) => More::Flushes(first),
        }
    }

    /// This waiter is linked behind it.
    #[inline]
    pub fn somebody(second: Option<NodeName>, next: NodeName, is_local: bool) -> More
        ensures { (s : Sight) → s.local next ≡ is_local → result ≡ more_by s second (Some next) }
    {
        match second {
            _ if !is_local => More::Skips(next),
            None => More::Begins(next),
            Some(first) => More::Appends(first, next),
        }
    }
}

/// The flag by which the successor learns of the secondary queue: its first node, or go if there is
/// none.
#[inline]
pub fn flag_for(second: Option<NodeName>) -> Flag
    ensures { result ≡ flag_for second }
{
    match second {
        None => Flag::Go,
        Some(first) => Flag::Second(first),
    }
}
