// The laws on which a domain of running processors rests, beside the laws of the rows. The
// functions do nothing: their contracts are the laws.

ghost use Rattle.lk_law.specs.Holds.{HolderIsOne, HoldMoves, ShareMoves};
ghost use Rattle.lk_law.specs.Leads.{RowIsLed, RowIsDone, RowIsCalm, NodeComesAtEntry};
ghost use Rattle.lk_law.specs.Nodes.{FreeNodeKeeps, FreshIsFree, PrevIsUsed, LinkIsUsed, LeadGoesOn};
ghost use Rattle.lk_law.specs.Nodes.{SecondTailIsUsed, BehindIsUsed, FirstIsUsed, ChosenWaits};
ghost use Rattle.lk_law.specs.Nodes.{LinkedIsUsed, PassedIsUsed};
ghost use Rattle.lk_law.specs.Resting.{RestIsSound};
ghost use Rattle.lk_law.specs.Halting.{SleepingFrontIsKicked, HaltingLinkIsUsed};

/// Every row is one store and then its course: where the frame goes on, and which event it tells.
/// The frame and the value that the row meets decide the course.
///
/// A row outside the families `Pv` and `Rw` never leads to a row of a release. Of the rows outside
/// `Rw` only G1 gives a frame a node.
pub fn rows_are_led()
    ensures led { RowIsLed }
    ensures done { RowIsDone }
    ensures calm { RowIsCalm }
    ensures entry { NodeComesAtEntry }
{}

/// Which nodes are used, in every sound world, and which are not.
///
/// A store into a node that nobody uses keeps the world sound. Outside mode `cna` the stored flag
/// must not name a secondary queue. Nobody uses the node that the next frame of a processor gets.
///
/// Some waiter uses each of these nodes:
///
/// - the predecessor's node, when a waiter links (G5);
/// - the node that the head's own link names (G10), and the node to which a row hands off;
/// - the nodes that a CNA queue head meets while it chooses its successor (C1 to C3), the first
///   node of the secondary queue in a flag (G6), and the first node that a head will link behind
///   the secondary queue;
/// - outside mode `pv`, each node that the link of a used node names.
///
/// The flag of the waiter that a CNA queue head has chosen is unset, and that waiter chooses
/// nobody.
pub fn nodes_are_free()
    ensures store { FreeNodeKeeps }
    ensures fresh { FreshIsFree }
    ensures prev { PrevIsUsed }
    ensures link { LinkIsUsed }
    ensures lead { LeadGoesOn }
    ensures second_tail { SecondTailIsUsed }
    ensures behind { BehindIsUsed }
    ensures first { FirstIsUsed }
    ensures chosen { ChosenWaits }
    ensures linked { LinkedIsUsed }
    ensures passed { PassedIsUsed }
{}

/// At most one waiter holds a spinlock. A spinlock or a reader-writer lock that is held may pass
/// from one waiter to another, if neither is at work on it. Then the world stays sound, and the
/// history names the other waiter as the holder.
pub fn holds_move()
    ensures one { HolderIsOne }
    ensures moves { HoldMoves }
    ensures shares { ShareMoves }
{}

/// A world is sound, with empty histories, if all its locks and nodes are at rest and no processor
/// has a frame. The spin bound must be at least 1.
pub fn rest_is_sound()
    ensures rest { RestIsSound }
{}

/// In mode `pv`, if the queue head of a free lock has halted or is about to, a kick of it is
/// pending: its processor remembers a kick, or a release is about to make one. The world alone
/// says so, without the events before. And the node that the head's own link names is used (E14).
pub fn halts_are_kicked()
    ensures kicked { SleepingFrontIsKicked }
    ensures link { HaltingLinkIsUsed }
{}
