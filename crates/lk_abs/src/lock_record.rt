// What the events so far say of one lock, kept in memory, and the clauses that an event on the lock
// may break.
ghost use Rattle.std.specs.Prelude.{◌≡◌, ◌<◌, ◌≤◌, IfOk, IfSome, length, OnOk, OnErr, None, slice_get};
ghost use Rattle.std.specs.List.{list_any, position};
ghost use Rattle.std.specs.Result.{result_err};
ghost use Rattle.lk_names.specs.History.{no_history, is_hold, without, changed};
ghost use Rattle.lk_abs.specs.Breaches.{holds, holds_so, is_queued, beside_first, beside, not_holder, twice, wrong_head, wrong_move, wrong_next, moved_over, over_threshold, first_breach};
ghost use Rattle.lk_names.specs.Lawful.{writes};
ghost use Rattle.lk_names.specs.Lists.{IsOneOf};
ghost use Rattle.lk_abs.specs.NoKick.{free_front};

use crate::queues::{first_over, hand_on, rejoin};
use crate::rulebook::Rulebook;
use lk_names::{Breach, Holder, How, List, Lists, LockName, Manner, Memory, Waiter, What};
use std::alloc::Global;
use std::marker::Model;

/// The holders of a lock and its queues.
#[derive(Drop)]
pub(crate) struct LockRecord {
    holders: List<Holder>,
    lists: Lists,
}

impl Model for LockRecord {
    ghost use Rattle.lk_abs.specs.Judge.{KeptLock};

    ghost Value = { KeptLock };

    ghost use Rattle.lk_names.specs.Lists.{IsInOrder, IsHeld, history_of_lists};

    ghost view = { λ r. record { history = history_of_lists r.holders.items r.lists; room = r.lists.main.room } };

    ghost invariant = { λ r. IsInOrder r.lists × IsHeld r.lists.main.room r.holders };
}

/// Where the earliest hold of the waiter in that manner stands.
fn place_of_hold(holders: &[Holder], by: Waiter, manner: Manner) -> Option<usize>
    ensures value { result ≡ position (is_hold by manner) holders.now }
    ensures bound { IfSome result (λ at. at < length holders.now) }
{
    holders
        .iter()
        .position(|x| x.waiter == by && x.manner == manner)
}

/// The waiter's hold in that manner ends, if there is one.
fn let_go(holders: &mut List<Holder>, by: Waiter, manner: Manner)
    ensures { holders.new ≡ record holders.old { items = without by manner holders.old.items } }
{
    match place_of_hold(holders.as_slice(), by, manner) {
        Some(at) => {
            holders.remove(at);
        }
        None => {}
    }
}

impl LockRecord {
    /// A lock of which nothing is said, with room for so many waiters.
    pub(crate) fn new(alloc: Global, waiters: usize) -> Result<LockRecord, Memory>
        requires { waiters ≤ 6144 }
        ensures { IfOk result (λ lock. lock ≡ record { history = no_history; room = waiters }) }
    {
        let holders = List::new(alloc, waiters)?;
        let main = List::new(alloc, waiters)?;
        let second = List::new(alloc, waiters)?;
        let passes = List::new(alloc, waiters)?;
        let lists = Lists {
            main,
            second,
            passes,
        };
        Ok(LockRecord { holders, lists })
    }

    /// Whether the waiter holds the lock, in whatever manner.
    fn is_held_by(&self, waiter: Waiter) -> bool
        ensures { result ≡ holds self.now.history waiter }
    {
        self.holders.as_slice().iter().any(|x| x.waiter == waiter)
    }

    /// Whether the waiter holds the lock in that manner.
    fn is_held_so(&self, waiter: Waiter, manner: Manner) -> bool
        ensures { result ≡ holds_so self.now.history waiter manner }
    {
        self.holders
            .as_slice()
            .iter()
            .any(|x| x.waiter == waiter && x.manner == manner)
    }

    /// Whether a holder admits no other.
    fn has_writer(&self) -> bool
        ensures { result ≡ list_any writes self.now.history.holders }
    {
        self.holders.as_slice().iter().any(|x| x.manner.is_writer())
    }

    /// Whether the waiter stands in a queue of the lock.
    fn is_queued(&self, waiter: Waiter) -> bool
        ensures { result ≡ is_queued self.now.history waiter }
    {
        self.lists.main.as_slice().contains(&waiter)
            || self.lists.second.as_slice().contains(&waiter)
    }

    /// The waiter at a place of the main queue, if it is so long.
    fn main_at(&self, place: usize) -> Option<Waiter>
        ensures { result ≡ slice_get self.now.history.main place }
    {
        self.lists.main.as_slice().get(place).copied()
    }

    /// A take beside the earliest holder, if there is one.
    fn beside_first(&self, lock: LockName, by: Waiter) -> Option<Breach>
        ensures { result ≡ beside_first lock self.now.history.holders by }
    {
        match self.holders.as_slice().get(0) {
            Some(first) => {
                Some(Breach::Beside {
                    lock,
                    held_by: first.waiter,
                    by,
                })
            }
            None => None,
        }
    }

    /// A take beside a holder with which the lock cannot be shared.
    fn beside(&self, by: Waiter, what: What) -> Option<Breach>
        ensures { result ≡ beside self.now.history by what }
    {
        match what {
            What::Take { lock, .. } | What::WTake { lock, .. } => self.beside_first(lock, by),
            What::RTake { lock, .. } => {
                if self.has_writer() {
                    self.beside_first(lock, by)
                } else if self.is_held_by(by) {
                    Some(Breach::Beside {
                        lock,
                        held_by: by,
                        by,
                    })
                } else {
                    None
                }
            }
            _ => None,
        }
    }

    /// A release by a waiter that does not hold the lock in that manner, or a handoff, a flush, a
    /// promotion or a leave by one that does not hold it.
    fn not_holder(&self, by: Waiter, what: What) -> Option<Breach>
        ensures { result ≡ not_holder self.now.history by what }
    {
        let (lock, held) = match what {
            What::Release { lock, .. } => (lock, self.is_held_so(by, Manner::Spins)),
            What::RRelease { lock } => (lock, self.is_held_so(by, Manner::Reads)),
            What::WRelease { lock } => (lock, self.is_held_so(by, Manner::Writes)),
            What::Pass { lock, .. }
            | What::Flush { lock }
            | What::Promote { lock }
            | What::Leave { lock } => (lock, self.is_held_by(by)),
            _ => return None,
        };
        if held {
            None
        } else {
            Some(Breach::NotHolder { lock, by })
        }
    }

    /// A second acquisition, or a second place in a queue.
    fn twice(&self, by: Waiter, what: What) -> Option<Breach>
        ensures { result ≡ twice self.now.history by what }
    {
        match what {
            What::Arrive { lock } if self.is_held_by(by) || self.is_queued(by) => {
                Some(Breach::Twice { lock, by })
            }
            What::Release { lock, .. } if self.is_queued(by) => Some(Breach::Twice { lock, by }),
            What::Take { lock, how } if !how.is_by_front() && self.is_queued(by) => {
                Some(Breach::Twice { lock, by })
            }
            _ => None,
        }
    }

    /// A step that only the queue head may make, by another waiter.
    fn wrong_head(&self, by: Waiter, what: What) -> Option<Breach>
        ensures { result ≡ wrong_head self.now.history by what }
    {
        let lock = match what {
            What::Take { lock, how } if how.is_by_front() => lock,
            What::Pass { lock, .. }
            | What::Flush { lock }
            | What::Promote { lock }
            | What::Leave { lock } => lock,
            _ => return None,
        };
        let first = self.main_at(0);
        if first == Some(by) {
            None
        } else {
            Some(Breach::WrongHead { lock, first, by })
        }
    }

    /// A handoff that moves more waiters aside than is lawful.
    fn wrong_move(&self, rules: &Rulebook, what: What) -> Option<Breach>
        ensures { result ≡ wrong_move rules.now self.now.history what }
    {
        match what {
            What::Pass { lock, moved, .. } => {
                let lawful = rules.lawful_moves(self.lists.main.as_slice());
                if moved > lawful {
                    Some(Breach::WrongMove {
                        lock,
                        moved,
                        lawful,
                    })
                } else {
                    None
                }
            }
            _ => None,
        }
    }

    /// A handoff to a waiter that is not the successor.
    fn wrong_next(&self, what: What) -> Option<Breach>
        ensures { result ≡ wrong_next self.now.history what }
    {
        let What::Pass { lock, to, moved } = what else {
            return None;
        };
        let first = self.main_at(moved as usize + 1);
        if first == Some(to) {
            None
        } else {
            Some(Breach::WrongNext {
                lock,
                first,
                named: to,
            })
        }
    }

    /// The first waiter that a handoff moves aside, if the threshold allows no handoff past it.
    fn moved_over(&self, rules: &Rulebook, lock: LockName, moved: u32) -> Option<Breach>
        ensures { result
            ≡ moved_over lock rules.now.threshold (slice_get self.now.history.main 1) moved }
    {
        match self.main_at(1) {
            Some(waiter) if moved > 0 && rules.threshold() == 0 => {
                Some(Breach::OverThreshold {
                    lock,
                    waiter,
                    passes: 1,
                })
            }
            _ => None,
        }
    }

    /// A handoff past a waiter that was passed by too often.
    fn over_threshold(&self, rules: &Rulebook, by: Waiter, what: What) -> Option<Breach>
        ensures { result ≡ over_threshold rules.now self.now.history by what }
    {
        match what {
            What::Pass { lock, moved, .. } => first_over(
                lock,
                rules.threshold(),
                self.lists.second.as_slice(),
                self.lists.passes.as_slice(),
            )
            .or(self.moved_over(rules, lock, moved)),
            _ => None,
        }
    }

    /// The first clause that the event breaks.
    fn first_breach(&self, rules: &Rulebook, by: Waiter, what: What) -> Option<Breach>
        ensures { result ≡ first_breach rules.now self.now.history by what }
    {
        self.beside(by, what)
            .or(self.not_holder(by, what))
            .or(self.twice(by, what))
            .or(self.wrong_head(by, what))
            .or(self.wrong_move(rules, what))
            .or(self.wrong_next(what))
            .or(self.over_threshold(rules, by, what))
    }

    /// Adds an event that breaks no clause to the history of the lock.
    fn tell(&mut self, rules: &Rulebook, by: Waiter, what: What)
        requires in_range { IsOneOf self.old.room by }
        requires small { rules.now.threshold ≤ 65535 }
        requires clear { first_breach rules.now self.old.history by what ≡ None }
        ensures { self.new ≡ record self.old { history = changed self.old.history by what } }
    {
        match what {
            What::Take { how, .. } => {
                self.holders.push(Holder {
                    waiter: by,
                    manner: Manner::Spins,
                });
                match how {
                    How::Sole => {
                        self.lists.main.pop_front();
                    }
                    _ => {}
                }
            }
            What::RTake { .. } => self.holders.push(Holder {
                waiter: by,
                manner: Manner::Reads,
            }),
            What::WTake { .. } => self.holders.push(Holder {
                waiter: by,
                manner: Manner::Writes,
            }),
            What::Release { .. } => let_go(&mut self.holders, by, Manner::Spins),
            What::RRelease { .. } => let_go(&mut self.holders, by, Manner::Reads),
            What::WRelease { .. } => let_go(&mut self.holders, by, Manner::Writes),
            What::Arrive { .. } => self.lists.main.push(by),
            What::Pass { moved, .. } => hand_on(&mut self.lists, moved as usize),
            What::Flush { .. } | What::Promote { .. } => rejoin(&mut self.lists),
            What::Leave { .. } => {
                self.lists.main.pop_front();
            }
            // The others say nothing of holders and queues.
            _ => {}
        }
    }

    /// Judges one more event, and adds it to the history of the lock if it breaks no clause.
    pub(crate) fn take(&mut self, rules: &Rulebook, by: Waiter, what: What) -> Result<(), Breach>
        requires small { rules.now.threshold ≤ 65535 }
        requires in_range { IsOneOf self.old.room by }
        ensures verdict { result_err result ≡ first_breach rules.now self.old.history by what }
        ensures ok { OnOk result (self.new
            ≡ record self.old { history = changed self.old.history by what }) }
        ensures err { OnErr result (self.new ≡ self.old) }
    {
        if let Some(breach) = self.first_breach(rules, by, what) {
            return Err(breach);
        }
        self.tell(rules, by, what);
        Ok(())
    }

    /// The queue head, if nobody holds the lock.
    pub(crate) fn free_front(&self) -> Option<Waiter>
        ensures value { result ≡ free_front self.now.history }
        ensures in_range { IfSome result (λ w. IsOneOf self.now.room w) }
    {
        if self.holders.len() == 0 {
            self.main_at(0)
        } else {
            None
        }
    }

    /// The queues of the lock.
    pub(crate) fn lists(&self) -> &Lists
        ensures main { result.now.main.items ≡ self.now.history.main }
        ensures second { result.now.second.items ≡ self.now.history.second }
        ensures passes { result.now.passes.items ≡ self.now.history.passes }
    {
        &self.lists
    }
}
