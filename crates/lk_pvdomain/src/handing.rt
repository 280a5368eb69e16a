// The rows of a queue head that has acquired the lock, until it has left the queue: E13 to K3, one
// step each. The comments show a word as (queue tail, pending, locked).
ghost use Rattle.std.specs.Prelude.{◌≡◌, true, false, None, Some};
ghost use Rattle.lk_rows.specs.declared.parts.Pc.TheVariants.{E13, E14, E15, K1, K2, K3};
ghost use Rattle.lk_pvdomain.specs.PvWords.{IsNodeOf, Owns, Precedes, Steps, Takes, Turns, Waits};
ghost use Rattle.lk_word.specs.declared.spin_word.NodeName.{NodeName as Node};

use crate::call::Queued;
use crate::rest::PvRest;
use crate::states::{self, HALTED};
use crate::{hash, words};
use lk_domain::met::{is_last, node_met};
use lk_domain::moves::WordUse;
use lk_domain::{Right, node_moves};
use lk_rows::{Flag, State};
use lk_word::NodeName;

impl<'a> Queued<'a> {
    // The row E13: (own, 0, 1) -> (0, 0, 1). Returns whether it was the last of the queue, which ends
    // with it. Any other word stays: there is one behind it.
    pub(crate) fn leave_queue(&self, seat: &mut Right) -> bool
        requires { Waits self.now E13 Owns seat.old }
        ensures last { result ≡ true → Takes self.now E13 Owns seat.old seat.new }
        ensures others { result ≡ false → Steps self.now E13 Owns E14 Owns seat.old seat.new }
    {
        let met = words::quit(seat, self.domain, self.lock, self.own);
        is_last(self.domain.plan.word_met(met), self.own)
    }

    // The row E14 polls the link of the own node. Returns the successor once that has linked itself.
    // There is one, since the tail is not this call's node.
    pub(crate) fn wait_for_next(&self, seat: &mut Right) -> Option<NodeName>
        requires { Waits self.now E14 Owns seat.old }
        ensures node { (to : Node) → result ≡ Some to → IsNodeOf self.now to }
        ensures goes { (to : Node) → result ≡ Some to
            → Steps self.now E14 Owns E15 (Precedes to) seat.old seat.new }
        ensures stays { result ≡ None → Steps self.now E14 Owns E14 Owns seat.old seat.new }
    {
        node_met(node_moves::look_next(seat, &self.domain.table, &self.domain.plan, self.own))
    }

    // The row E15 sets the flag of the successor, which is the queue head from now on.
    pub(crate) fn hand_on(&self, seat: &mut Right, to: NodeName)
        requires to { IsNodeOf self.now to }
        requires waits { Waits self.now E15 (Precedes to) seat.old }
        ensures { Steps self.now E15 (Precedes to) K1 (Precedes to) seat.old seat.new }
    {
        node_moves::hand(seat, &self.domain.table, &self.domain.plan, to, Flag::Go);
    }

    // The row K1 makes the state of the successor hashed where that has halted. Returns whether it
    // has: it leads to K2, and else the call is over.
    pub(crate) fn mark_hashed(&self, seat: &mut Right, to: NodeName) -> bool
        requires to { IsNodeOf self.now to }
        requires waits { Waits self.now K1 (Precedes to) seat.old }
        ensures halted { result ≡ true → Steps self.now K1 (Precedes to) K2 (Precedes to) seat.old
            seat.new }
        ensures runs { result ≡ false → Takes self.now K1 (Precedes to) seat.old seat.new }
    {
        states::rouse(seat, self.domain, to, State::Hashed) == HALTED
    }

    // The row K2: (n, p, 1) -> (n, p, slow), so that the release looks into the hash.
    pub(crate) fn store_slow(&self, seat: &mut Right, to: NodeName)
        requires { Waits self.now K2 (Precedes to) seat.old }
        ensures { Steps self.now K2 (Precedes to) K3 (Precedes to) seat.old seat.new }
    {
        words::go_on(seat, self.domain, self.lock, WordUse::Signs);
    }

    // The row K3 puts the lock into the hash, with the successor's node, which the release kicks. Where
    // there is no empty place it is no row, and the call rests.
    pub(crate) fn enlist_next(&self, seat: &mut Right, to: NodeName) -> Option<PvRest>
        requires to { IsNodeOf self.now to }
        requires waits { Waits self.now K3 (Precedes to) seat.old }
        ensures { Turns self.now K3 (Precedes to) result seat.old seat.new }
    {
        if hash::put_in(seat, self.domain, self.lock, to) {
            return None;
        }
        Some(PvRest::EnlistsNext(to))
    }
}
