// The rows of a call that has found its lock held, up to its place in the queue: G1, H1, H2, G4 and
// G5, one step each. The comments show a word as (queue tail, pending, locked).
ghost use Rattle.std.specs.Prelude.{◌≡◌, ◌&&◌, not, is_some, true, false, Some, ℕ};
ghost use Rattle.lk_rows.specs.declared.parts.Pc.TheVariants.{E1, G1, G4, G5, H1, H2, W1};
ghost use Rattle.lk_rows.specs.rows.Pv.{after_glance};
ghost use Rattle.lk_rows.specs.rows.Spin.{is_unlocked as unlocked};
ghost use Rattle.lk_pvdomain.specs.PvWords.{Any, Follows, IsNodeOf, Owns, Spins, Steals};
ghost use Rattle.lk_pvdomain.specs.PvWords.{Steps, Takes as Took, Waits};
ghost use Rattle.lk_pvdomain.specs.declared.exchanges.Swap.TheVariants.{Takes, Fails, Misses};
ghost use Rattle.lk_pvdomain.specs.declared.exchanges.Tail.TheVariants.{First, Behind, Other};
ghost use Rattle.lk_word.specs.declared.spin_word.NodeName.{NodeName as Node};

use crate::call::Queued;
use crate::exchanges::{Swap, Tail};
use crate::rest::Stealing;
use crate::{nodes, states, tries, words};
use lk_domain::moves::{Arrival, WordUse};
use lk_domain::{Link, Part, Right, moves, node_moves};
use lk_names::LockName;
use lk_rows::is_unlocked;
use lk_word::{Fields, NodeName, low_byte, without_low_byte};

// A word as its number, and what the number says.
#[derive(Clone, Copy)]
pub(crate) struct Glance {
    pub(crate) met: u64,
    pub(crate) word: Fields,
}

impl<'a> Queued<'a> {
    // The row G1, with the private stores before it.
    pub(crate) fn enter(&self, seat: &mut Right)
        requires { Waits self.now G1 Any seat.old }
        ensures { Steps self.now G1 Any H1 Owns seat.old seat.new }
    {
        nodes::reset(seat, self.domain, self.own, Part::Flag);
        nodes::reset(seat, self.domain, self.own, Part::Next);
        states::enter(seat, self.domain, self.own);
    }

    // The row H1. Returns the word. It leads to H2 by (*, 0, 0), back to H1 by (n, 0, 1) or a slow
    // byte with a tail, and else to G4.
    pub(crate) fn glance(&self, seat: &mut Right) -> Glance
        requires { Waits self.now H1 Owns seat.old }
        ensures { Steps self.now H1 Owns (after_glance (Some self.now.own) result.word)
            (Steals (is_some result.word.tail)) seat.old seat.new }
    {
        let met = words::go_on(seat, self.domain, self.lock, WordUse::Looks);
        let word = self.domain.plan.word_met(met);
        Glance { met, word }
    }

    // The row H2, or no row. Nobody holds the lock, so it is this call's, past the queue.
    //   (n, p, 0) -> (n, p, 1): the tail and the pending bit stay.
    //   a word whose byte is not free stays: it fails.
    pub(crate) fn take_past(&self, seat: &mut Right, stealing: Stealing) -> Swap
        requires { Waits self.now H2 (Steals stealing.tailed) seat.old }
        ensures takes { result ≡ Takes → Took self.now H2 (Steals stealing.tailed) seat.old
            seat.new }
        ensures again { (met : ℕ) → result ≡ Fails met → stealing.tailed ≡ true
            → Steps self.now H2 (Steals stealing.tailed) H1 Owns seat.old seat.new }
        ensures joins { (met : ℕ) → result ≡ Fails met → stealing.tailed ≡ false
            → Steps self.now H2 (Steals stealing.tailed) G4 Owns seat.old seat.new }
        ensures stays { (met : ℕ) → result ≡ Misses met → Steps self.now H2
            (Steals stealing.tailed) H2 (Steals stealing.tailed) seat.old seat.new }
    {
        let expected = without_low_byte(stealing.met);
        let met = tries::try_steal(seat, self.domain, self.lock, expected);
        if met == expected {
            return Swap::Takes;
        }
        if low_byte(met) == 0 {
            return Swap::Misses(met);
        }
        Swap::Fails(met)
    }

    // The row G4: (n, p, l) -> (own, p, l). Where the word is not the expected one, nothing changes,
    // and it is no row.
    pub(crate) fn exchange(&self, seat: &mut Right, expected: u64) -> Tail
        requires { Waits self.now G4 Owns seat.old }
        ensures node { (prev : Node) → result ≡ Behind prev → IsNodeOf self.now prev }
        ensures first { result ≡ First → Steps self.now G4 Owns E1 Owns seat.old seat.new }
        ensures behind { (prev : Node) → result ≡ Behind prev
            → Steps self.now G4 Owns G5 (Follows prev) seat.old seat.new }
        ensures other { (met : ℕ) → result ≡ Other met
            → Steps self.now G4 Owns G4 Owns seat.old seat.new }
    {
        let domain = self.domain;
        let lock = LockName {
            index: self.lock,
            wait: false,
        };
        let own = self.own;
        let arrival = Arrival { expected, own };
        let met = moves::exchange_tail(seat, &domain.table, &domain.plan, lock, arrival);
        if met != expected {
            return Tail::Other(met);
        }
        match domain.plan.word_met(met).tail {
            Some(prev) => Tail::Behind(prev),
            None => Tail::First,
        }
    }

    // The row G5. No call here is nested in another, so the link has no mark.
    pub(crate) fn link(&self, seat: &mut Right, prev: NodeName)
        requires prev { IsNodeOf self.now prev }
        requires waits { Waits self.now G5 (Follows prev) seat.old }
        ensures { Steps self.now G5 (Follows prev) W1 (Spins prev) seat.old seat.new }
    {
        let own = Link {
            node: self.own,
            mark: false,
        };
        node_moves::link(seat, &self.domain.table, &self.domain.plan, prev, own);
    }
}

// Whether a call may steal the lock: the byte is free and nobody pends.
pub(crate) fn is_open(word: Fields) -> bool
    ensures { result ≡ (unlocked word.locked && not word.pending) }
{
    is_unlocked(word) && !word.pending
}

// Whether a call that may not steal reads the word again: there is a queue and nobody pends.
pub(crate) fn is_passing(word: Fields) -> bool
    ensures { result ≡ (is_some word.tail && not word.pending) }
{
    word.tail.is_some() && !word.pending
}

pub(crate) fn is_queued(word: Fields) -> bool
    ensures { result ≡ is_some word.tail }
{
    word.tail.is_some()
}
