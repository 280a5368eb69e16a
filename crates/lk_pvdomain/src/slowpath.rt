// The slow path of a call of `pv_lock` that has found its lock held, read from the top: `contend`
// goes on from the row G1. The comments name the row from which a function goes on.
//
//   steal   G1 takes a node, H1 looks, met a free byte --------- H2 takes it
//             met a held byte and a tail, and nobody pends: looks again
//             met the pending bit, or a held byte and no tail: queues
//
//   queue   G4 becomes the tail
//             behind another G5 links
//               W1 looks at its flag, and W2 at its predecessor, for as many turns as it spins
//               W3 to W6 halt until a kick, and W7 goes on with W1
//             E1 is the queue head
//               E2 runs, E3 sets the pending bit --------------- E4 takes it
//               E5 takes the bit back
//                 is not in the hash: E6 enters it, E7 makes the byte slow
//                   met a free byte ---------------------------- E8 and E9 take it
//               E10 to E12 halt until a kick, and go on with E2
//             E13 leaves the queue as the last in it
//               others are behind: E14 waits for the successor, E15 hands off
//                 K1 finds that it has halted: K2 and K3 leave its kick to the release
//
// A turn makes rows up to a look that decides nothing, or up to a halt. There it rests. No turn
// loops: a call that takes its state back (W7), or finds the byte no longer slow (E11), rests too.
ghost use Rattle.lk_rows.specs.declared.parts.Pc.TheVariants.{E1, E2, E4, E5, E6, E10, E13, E14};
ghost use Rattle.lk_rows.specs.declared.parts.Pc.TheVariants.{E15, G1, G4, H1, H2, W1, W3};
ghost use Rattle.lk_rows.specs.declared.parts.Pc.TheVariants.{E12, W6, W7};
ghost use Rattle.std.specs.Prelude.{true};
ghost use Rattle.lk_pvdomain.specs.PvWords.{Any, Follows, IsNodeOf, Leads, Owns, Precedes, Spares};
ghost use Rattle.lk_pvdomain.specs.PvWords.{GoesOn, RestsAt, Steals, Takes, Tries, Turns, TurnsAsleep};
ghost use Rattle.lk_pvdomain.specs.PvWords.{Waits, WaitsAsleep};

use crate::arriving::{is_open, is_passing, is_queued};
use crate::call::Queued;
use crate::exchanges::{Swap, Tail};
use crate::pacing::{give_way, renew};
use crate::rest::{Leading, PvRest, Spinning, Stealing};
use crossbeam_utils::Backoff;
use lk_domain::Right;
use lk_word::NodeName;
use std::sync::Wait;

impl<'a> Queued<'a> {
    // From G1, until it has the lock: by turns, and between them it gives way.
    pub(crate) fn wait_on<R: Wait>(&self, seat: &mut Right, rt: &R)
        requires { Waits self.now G1 Any seat.old }
        ensures { Takes self.now G1 Any seat.old seat.new }
    {
        let Some(mut place) = self.contend(seat) else {
            return;
        };
        let backoff = Backoff::new();
        for _ in rt.forever() {
            give_way(rt, self.domain, self.own.cpu, &backoff, place);
            match self.turn(seat, place) {
                None => return,
                Some(next) => {
                    renew(&backoff, place, next);
                    place = next;
                }
            }
        }
        unreachable!()
    }

    // From G1.
    pub(crate) fn contend(&self, seat: &mut Right) -> Option<PvRest>
        requires { Waits self.now G1 Any seat.old }
        ensures { Turns self.now G1 Any result seat.old seat.new }
    {
        self.enter(seat);
        self.look(seat)
    }

    // From where it rests.
    pub(crate) fn turn(&self, seat: &mut Right, rest: PvRest) -> Option<PvRest>
        requires { RestsAt self.now rest seat.old }
        ensures { GoesOn self.now rest result seat.old seat.new }
    {
        match rest {
            PvRest::Looks => self.look(seat),
            PvRest::Steals(stealing) => self.steal(seat, stealing),
            PvRest::Joins(met) => self.queue(seat, met),
            PvRest::Spins(spinning) => self.wait(seat, spinning),
            PvRest::Halts(prev) => self.sleep(seat, prev),
            PvRest::Runs => self.strive(seat, true),
            PvRest::Leads(leading) => self.press(seat, leading),
            PvRest::Enlists => self.enlist(seat),
            PvRest::Naps => self.nap(seat),
            PvRest::Hands => self.pass_on(seat),
            PvRest::EnlistsNext(to) => self.enlist_next(seat, to),
        }
    }

    // From H1.
    fn look(&self, seat: &mut Right) -> Option<PvRest>
        requires { Waits self.now H1 Owns seat.old }
        ensures { Turns self.now H1 Owns result seat.old seat.new }
    {
        let seen = self.glance(seat);
        if is_open(seen.word) {
            let stealing = Stealing {
                tailed: is_queued(seen.word),
                met: seen.met,
            };
            return self.steal(seat, stealing);
        }
        if is_passing(seen.word) {
            return Some(PvRest::Looks);
        }
        self.queue(seat, seen.met)
    }

    // From H2.
    fn steal(&self, seat: &mut Right, stealing: Stealing) -> Option<PvRest>
        requires { Waits self.now H2 (Steals stealing.tailed) seat.old }
        ensures { Turns self.now H2 (Steals stealing.tailed) result seat.old seat.new }
    {
        let tailed = stealing.tailed;
        match self.take_past(seat, stealing) {
            Swap::Takes => None,
            Swap::Misses(met) => Some(PvRest::Steals(Stealing { tailed, met })),
            Swap::Fails(met) => {
                if tailed {
                    return Some(PvRest::Looks);
                }
                self.queue(seat, met)
            }
        }
    }

    // From G4, with the word that it met last.
    fn queue(&self, seat: &mut Right, met: u64) -> Option<PvRest>
        requires { Waits self.now G4 Owns seat.old }
        ensures { Turns self.now G4 Owns result seat.old seat.new }
    {
        match self.exchange(seat, met) {
            Tail::First => self.head(seat),
            Tail::Behind(prev) => {
                self.link(seat, prev);
                let left = self.turns();
                self.wait(seat, Spinning { prev, left })
            }
            Tail::Other(now) => Some(PvRest::Joins(now)),
        }
    }

    // From W1: it waits behind another.
    fn wait(&self, seat: &mut Right, spinning: Spinning) -> Option<PvRest>
        requires prev { IsNodeOf self.now spinning.prev }
        requires waits { Waits self.now W1 (Spares spinning.prev spinning.left) seat.old }
        ensures { Turns self.now W1 (Spares spinning.prev spinning.left) result seat.old seat.new }
    {
        if self.spin(seat, spinning) {
            return self.head(seat);
        }
        let prev = spinning.prev;
        if self.watch(seat, spinning) {
            return self.stop(seat, prev);
        }
        let left = spinning.left - 1;
        Some(PvRest::Spins(Spinning { prev, left }))
    }

    // From W3: it halts, if nothing has come meanwhile.
    fn stop(&self, seat: &mut Right, prev: NodeName) -> Option<PvRest>
        requires prev { IsNodeOf self.now prev }
        requires waits { Waits self.now W3 (Follows prev) seat.old }
        ensures { Turns self.now W3 (Follows prev) result seat.old seat.new }
    {
        self.say_halted(seat, prev);
        if self.look_once_more(seat, prev) {
            return self.rise(seat, prev);
        }
        if self.test_state(seat, prev) {
            return self.halt(seat, prev);
        }
        self.rise(seat, prev)
    }

    // From W7, and no further than W1.
    fn rise(&self, seat: &mut Right, prev: NodeName) -> Option<PvRest>
        requires prev { IsNodeOf self.now prev }
        requires waits { Waits self.now W7 (Follows prev) seat.old }
        ensures { Turns self.now W7 (Follows prev) result seat.old seat.new }
    {
        self.say_running(seat, prev);
        let left = self.turns();
        Some(PvRest::Spins(Spinning { prev, left }))
    }

    // From W6, where it has halted.
    fn sleep(&self, seat: &mut Right, prev: NodeName) -> Option<PvRest>
        requires prev { IsNodeOf self.now prev }
        requires sleeps { WaitsAsleep self.now W6 W7 (Follows prev) seat.old }
        ensures { TurnsAsleep self.now W6 W7 (Follows prev) result seat.old seat.new }
    {
        if !self.wake(seat, prev) {
            return Some(PvRest::Halts(prev));
        }
        self.say_running(seat, prev);
        let left = self.turns();
        self.wait(seat, Spinning { prev, left })
    }

    // From E1: it is the queue head.
    fn head(&self, seat: &mut Right) -> Option<PvRest>
        requires { Waits self.now E1 Owns seat.old }
        ensures { Turns self.now E1 Owns result seat.old seat.new }
    {
        if self.look_at_state(seat) {
            return self.strive(seat, true);
        }
        self.strive(seat, false)
    }

    // From E2.
    fn strive(&self, seat: &mut Right, hashed: bool) -> Option<PvRest>
        requires { Waits self.now E2 (Leads hashed) seat.old }
        ensures { Turns self.now E2 (Leads hashed) result seat.old seat.new }
    {
        self.run_as_head(seat, hashed);
        self.set_pending(seat, hashed);
        let left = self.turns();
        self.press(seat, Leading { hashed, left })
    }

    // From E4.
    fn press(&self, seat: &mut Right, leading: Leading) -> Option<PvRest>
        requires { Waits self.now E4 (Tries leading.hashed leading.left) seat.old }
        ensures { Turns self.now E4 (Tries leading.hashed leading.left) result seat.old seat.new }
    {
        let hashed = leading.hashed;
        match self.take_pending(seat, leading) {
            Swap::Takes => self.hand(seat),
            Swap::Misses(_) => Some(PvRest::Leads(leading)),
            Swap::Fails(_) => {
                if leading.left <= 1 {
                    return self.give_up(seat, hashed);
                }
                let left = leading.left - 1;
                Some(PvRest::Leads(Leading { hashed, left }))
            }
        }
    }

    // From E5: its turns are over.
    fn give_up(&self, seat: &mut Right, hashed: bool) -> Option<PvRest>
        requires { Waits self.now E5 (Leads hashed) seat.old }
        ensures { Turns self.now E5 (Leads hashed) result seat.old seat.new }
    {
        self.clear_pending(seat, hashed);
        if hashed {
            return self.doze(seat);
        }
        self.enlist(seat)
    }

    // From E6: its lock is not in the hash.
    fn enlist(&self, seat: &mut Right) -> Option<PvRest>
        requires { Waits self.now E6 Owns seat.old }
        ensures { Turns self.now E6 Owns result seat.old seat.new }
    {
        if !self.enter_hash(seat) {
            return Some(PvRest::Enlists);
        }
        if self.exchange_slow(seat) {
            self.store_held(seat);
            self.leave_hash(seat);
            return self.hand(seat);
        }
        self.doze(seat)
    }

    // From E10: it halts, if the byte is slow.
    fn doze(&self, seat: &mut Right) -> Option<PvRest>
        requires { Waits self.now E10 (Leads true) seat.old }
        ensures { Turns self.now E10 (Leads true) result seat.old seat.new }
    {
        self.say_hashed(seat);
        if self.test_slow(seat) {
            return self.halt_as_head(seat);
        }
        Some(PvRest::Runs)
    }

    // From E12, where it has halted.
    fn nap(&self, seat: &mut Right) -> Option<PvRest>
        requires { WaitsAsleep self.now E12 E2 (Leads true) seat.old }
        ensures { TurnsAsleep self.now E12 E2 (Leads true) result seat.old seat.new }
    {
        if !self.wake_as_head(seat) {
            return Some(PvRest::Naps);
        }
        self.strive(seat, true)
    }

    // From E13: it has the lock.
    fn hand(&self, seat: &mut Right) -> Option<PvRest>
        requires { Waits self.now E13 Owns seat.old }
        ensures { Turns self.now E13 Owns result seat.old seat.new }
    {
        if self.leave_queue(seat) {
            return None;
        }
        self.pass_on(seat)
    }

    // From E14: others are behind.
    fn pass_on(&self, seat: &mut Right) -> Option<PvRest>
        requires { Waits self.now E14 Owns seat.old }
        ensures { Turns self.now E14 Owns result seat.old seat.new }
    {
        match self.wait_for_next(seat) {
            Some(to) => self.pass(seat, to),
            None => Some(PvRest::Hands),
        }
    }

    // From E15: this one is the next.
    fn pass(&self, seat: &mut Right, to: NodeName) -> Option<PvRest>
        requires to { IsNodeOf self.now to }
        requires waits { Waits self.now E15 (Precedes to) seat.old }
        ensures { Turns self.now E15 (Precedes to) result seat.old seat.new }
    {
        self.hand_on(seat, to);
        if self.mark_hashed(seat, to) {
            self.store_slow(seat, to);
            return self.enlist_next(seat, to);
        }
        None
    }
}
