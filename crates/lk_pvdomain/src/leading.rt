// The rows of a queue head, up to the lock: E1 to E12, one step each. The comments show a word as
// (queue tail, pending, locked).
ghost use Rattle.std.specs.Prelude.{◌≡◌, ◌<◌, ◌≤◌, ◌-◌, ℕ, true, false};
ghost use Rattle.lk_rows.specs.declared.parts.Pc.TheVariants.{E1, E2, E3, E4, E5, E6, E7, E8, E9};
ghost use Rattle.lk_rows.specs.declared.parts.Pc.TheVariants.{E10, E11, E12, E13};
ghost use Rattle.lk_pvdomain.specs.PvWords.{Leads, Owns, Pends, Tries, Steps, Waits};
ghost use Rattle.lk_pvdomain.specs.PvWords.{Sleeps, Turns, Wakes, WaitsAsleep};
ghost use Rattle.lk_pvdomain.specs.declared.exchanges.Swap.TheVariants.{Takes, Fails, Misses};

use crate::call::Queued;
use crate::exchanges::Swap;
use crate::rest::{Leading, PvRest};
use crate::states::{self, HASHED};
use crate::{hash, kicks, tries, words};
use lk_domain::Right;
use lk_domain::moves::WordUse;
use lk_rows::State;
use lk_word::{SLOW, is_free_for_pending, low_byte};

impl<'a> Queued<'a> {
    // The row E1 reads the own state. Returns whether that is hashed: who handed off has put the
    // lock into the hash, or is about to.
    pub(crate) fn look_at_state(&self, seat: &mut Right) -> bool
        requires { Waits self.now E1 Owns seat.old }
        ensures hashed { result ≡ true → Steps self.now E1 Owns E2 (Leads true) seat.old seat.new }
        ensures other { result ≡ false → Steps self.now E1 Owns E2 (Leads false) seat.old seat.new }
    {
        states::look_state(seat, self.domain, self.own) == HASHED
    }

    // The row E2 stores that it runs.
    pub(crate) fn run_as_head(&self, seat: &mut Right, hashed: bool)
        requires { Waits self.now E2 (Leads hashed) seat.old }
        ensures { Steps self.now E2 (Leads hashed) E3 (Leads hashed) seat.old seat.new }
    {
        states::store_state(seat, self.domain, self.own, State::Running);
    }

    // The row E3: (n, 0, l) -> (n, 1, l). While it pends nobody steals the lock.
    pub(crate) fn set_pending(&self, seat: &mut Right, hashed: bool)
        requires { Waits self.now E3 (Leads hashed) seat.old }
        ensures { Steps self.now E3 (Leads hashed) E4 (Pends hashed) seat.old seat.new }
    {
        words::go_on(seat, self.domain, self.lock, WordUse::Pends);
    }

    // The row E4, or no row. It reads first: a read leaves the cache line with the holder, and if the
    // head may not take the word as it is, the read is the row.
    //   (n, 1, 0) -> (n, 0, 1): the lock is free, and nobody can have stolen it.
    //   any other word stays: the head has one turn less, and goes on with E5 after the last.
    pub(crate) fn take_pending(&self, seat: &mut Right, leading: Leading) -> Swap
        requires { Waits self.now E4 (Tries leading.hashed leading.left) seat.old }
        ensures takes { result ≡ Takes → Steps self.now E4 (Tries leading.hashed leading.left)
            E13 Owns seat.old seat.new }
        ensures last { (met : ℕ) → result ≡ Fails met → leading.left ≤ 1
            → Steps self.now E4 (Tries leading.hashed leading.left) E5 (Leads leading.hashed)
            seat.old seat.new }
        ensures again { (met : ℕ) → result ≡ Fails met → 1 < leading.left
            → Steps self.now E4 (Tries leading.hashed leading.left)
            E4 (Tries leading.hashed (leading.left - 1)) seat.old seat.new }
        ensures stays { (met : ℕ) → result ≡ Misses met
            → Steps self.now E4 (Tries leading.hashed leading.left)
            E4 (Tries leading.hashed leading.left) seat.old seat.new }
    {
        let seen = tries::look_head(seat, self.domain, self.lock);
        if !is_free_for_pending(seen) {
            return Swap::Fails(seen);
        }
        let met = tries::try_head(seat, self.domain, self.lock, seen);
        if met == seen {
            return Swap::Takes;
        }
        if is_free_for_pending(met) {
            return Swap::Misses(met);
        }
        Swap::Fails(met)
    }

    // The row E5: (n, 1, l) -> (n, 0, l). It leads to E10 where the lock is in the hash, and else to
    // E6.
    pub(crate) fn clear_pending(&self, seat: &mut Right, hashed: bool)
        requires { Waits self.now E5 (Leads hashed) seat.old }
        ensures hashed { hashed ≡ true → Steps self.now E5 (Leads hashed) E10 (Leads true) seat.old
            seat.new }
        ensures other { hashed ≡ false → Steps self.now E5 (Leads hashed) E6 Owns seat.old
            seat.new }
    {
        words::go_on(seat, self.domain, self.lock, WordUse::Clears);
    }

    // The row E6 puts the lock into the hash, with the own node. Returns whether there was an empty
    // place: else it is no row.
    pub(crate) fn enter_hash(&self, seat: &mut Right) -> bool
        requires { Waits self.now E6 Owns seat.old }
        ensures enters { result ≡ true → Steps self.now E6 Owns E7 Owns seat.old seat.new }
        ensures stays { result ≡ false → Steps self.now E6 Owns E6 Owns seat.old seat.new }
    {
        hash::put_in(seat, self.domain, self.lock, self.own)
    }

    // The row E7: (n, p, l) -> (n, p, slow). Returns whether the lock was free, which it has taken so:
    // it leads to E8, and else to E10. The entry stands in the hash before the byte is slow.
    pub(crate) fn exchange_slow(&self, seat: &mut Right) -> bool
        requires { Waits self.now E7 Owns seat.old }
        ensures takes { result ≡ true → Steps self.now E7 Owns E8 Owns seat.old seat.new }
        ensures waits { result ≡ false → Steps self.now E7 Owns E10 (Leads true) seat.old seat.new }
    {
        low_byte(words::go_on(seat, self.domain, self.lock, WordUse::Slows)) == 0
    }

    // The row E8: (n, p, slow) -> (n, p, 1).
    pub(crate) fn store_held(&self, seat: &mut Right)
        requires { Waits self.now E8 Owns seat.old }
        ensures { Steps self.now E8 Owns E9 Owns seat.old seat.new }
    {
        words::go_on(seat, self.domain, self.lock, WordUse::Wins);
    }

    // The row E9 takes the lock out of the hash.
    pub(crate) fn leave_hash(&self, seat: &mut Right)
        requires { Waits self.now E9 Owns seat.old }
        ensures { Steps self.now E9 Owns E13 Owns seat.old seat.new }
    {
        hash::take_out(seat, self.domain, self.lock);
    }

    // The row E10 stores that it is hashed.
    pub(crate) fn say_hashed(&self, seat: &mut Right)
        requires { Waits self.now E10 (Leads true) seat.old }
        ensures { Steps self.now E10 (Leads true) E11 (Leads true) seat.old seat.new }
    {
        states::store_state(seat, self.domain, self.own, State::Hashed);
    }

    // The row E11 polls the word. Returns whether the byte is still slow: it leads to E12, and else
    // to E2.
    pub(crate) fn test_slow(&self, seat: &mut Right) -> bool
        requires { Waits self.now E11 (Leads true) seat.old }
        ensures slow { result ≡ true → Steps self.now E11 (Leads true) E12 (Leads true) seat.old
            seat.new }
        ensures other { result ≡ false → Steps self.now E11 (Leads true) E2 (Leads true) seat.old
            seat.new }
    {
        low_byte(words::go_on(seat, self.domain, self.lock, WordUse::Looks)) == SLOW
    }

    // The row E12: the processor halts, until it is kicked. There the call rests.
    pub(crate) fn halt_as_head(&self, seat: &mut Right) -> Option<PvRest>
        requires { Waits self.now E12 (Leads true) seat.old }
        ensures { Turns self.now E12 (Leads true) result seat.old seat.new }
    {
        kicks::halt(seat, self.domain, self.own);
        Some(PvRest::Naps)
    }

    // Ends the halt where the processor was kicked, which is no row. Returns whether it was: it
    // leads to E2.
    pub(crate) fn wake_as_head(&self, seat: &mut Right) -> bool
        requires { WaitsAsleep self.now E12 E2 (Leads true) seat.old }
        ensures kicked { result ≡ true → Wakes self.now E12 E2 (Leads true) seat.old seat.new }
        ensures sleeps { result ≡ false → Sleeps self.now E12 E2 (Leads true) seat.old seat.new }
    {
        kicks::is_woken(seat, self.domain, self.own)
    }
}
