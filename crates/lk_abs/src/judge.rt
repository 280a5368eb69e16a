// The judge of histories, one event at a time.
ghost use Rattle.std.specs.Prelude.{◌≡◌, ◌≢◌, ◌<◌, ◌≤◌, ◌*◌, ◌↔◌, [], ◌∷◌, ◌++◌, IfOk, OnOk, OnErr, IsOk, None, length, replicate};
ghost use Rattle.std.specs.Result.{result_err};
ghost use Rattle.lk_names.specs.Names.{lock_at, locks_from};
ghost use Rattle.lk_names.specs.History.{no_history};
ghost use Rattle.lk_names.specs.Lawful.{IsLawful};
ghost use Rattle.lk_abs.specs.NoKick.{left_asleep, no_kick, unkicked};
ghost use Rattle.lk_abs.specs.Remembered.{state_of};

use crate::kick_record::KickRecord;
use crate::lock_record::LockRecord;
use crate::rulebook::Rulebook;
use lk_names::{Breach, Event, Format, Kind, List, Lists, LockName, Memory, Mode, Topology};
use std::alloc::Global;
use std::marker::Model;

/// Judges histories event by event. Contracts see its rules, for each lock what the events so far
/// say of it, and what they say of halts and kicks.
#[derive(Drop)]
pub struct Judge {
    rules: Rulebook,
    locks: List<LockRecord>,
    kicks: KickRecord,
}

impl Model for Judge {
    ghost use Rattle.lk_abs.specs.Judge.{JudgeState, FitsTogether};

    ghost Value = { JudgeState };

    ghost view = { λ j. record { rules = j.rules; locks = j.locks.items; kicks = j.kicks } };

    ghost invariant = { λ j. FitsTogether j.rules j.locks.items j.kicks };
}

/// Records of locks of which nothing is said, each with room for so many waiters.
fn silent_locks(alloc: Global, locks: usize, waiters: usize) -> Result<List<LockRecord>, Memory>
    requires { waiters ≤ 6144 }
    ensures { IfOk result (λ list. list.items
        ≡ replicate locks (record { history = no_history; room = waiters })) }
{
    let mut list = List::new(alloc, locks)?;
    for _ in 0..locks {
        list.push(LockRecord::new(alloc, waiters)?);
    }
    Ok(list)
}

impl Judge {
    ghost use Rattle.lk_abs.specs.Judge.{IsDeclared, IsInRange, history_at, table_breach, breach_of, Events, TellsLocks, TakesOne, HasTaken};

    /// A judge that has taken no event. It is made for a format, a lock family, the sockets of up
    /// to 1,024 processors, the threshold in handoffs (at most 65,535), and up to 32 declared
    /// locks. It takes all its memory here.
    ///
    /// # Errors
    ///
    /// There is not enough memory.
    pub fn new(
        alloc: Global,
        format: Format,
        mode: Mode,
        topology: &Topology,
        threshold: u32,
        locks: &List<Kind>,
    ) -> Result<Judge, Memory>
        requires processors { length topology.now.sockets.items ≤ 1024 }
        requires threshold { threshold ≤ 65535 }
        requires declared { length locks.now.items ≤ 32 }
        ensures rules { IfOk result (λ j. j.rules
            ≡ record {
              format = format;
              mode = mode;
              sockets = topology.now.sockets.items;
              threshold = threshold;
            }) }
        ensures locks { IfOk result (λ j. length j.locks ≡ length locks.now.items * 2) }
        ensures taken { IfOk result (λ j. HasTaken j []) }
    {
        let processors = topology.sockets.len();
        let sockets = List::from_slice(alloc, topology.sockets.as_slice())?;
        let locks = silent_locks(alloc, locks.len() * 2, processors * 6)?;
        let kicks = KickRecord::new(alloc, processors)?;
        let rules = Rulebook {
            format,
            mode,
            sockets,
            threshold,
        };
        Ok(Judge {
            rules,
            locks,
            kicks,
        })
    }

    /// Judges one more event, after fewer than 2^63 events. `Ok` says that the history with this
    /// event is lawful, and that the event is taken. The call takes no memory: a waiter that
    /// stands in a queue does not arrive again, so no queue is longer than there are waiters.
    ///
    /// # Errors
    ///
    /// The first clause that the event breaks. `NoKick` is looked for last, and after it the event
    /// is taken; after any other breach the judge is as it was. Ask a judge that has answered a
    /// breach no more.
    pub fn take(&mut self, event: &Event) -> Result<(), Breach>
        requires { IsInRange self.old event.now }
        ensures verdict { result_err result ≡ breach_of self.old event.now }
        ensures ok { OnOk result (TakesOne self.old self.new event.now) }
        ensures err { table_breach self.old event.now ≢ None → self.new ≡ self.old }

        // After lawful events the answer is Ok exactly where the history with this event is lawful.
        ensures exact { (es : Events)
            → HasTaken self.old es
            → (IsOk result ↔ IsLawful self.old.rules (es ++ event.now ∷ [])) }
        ensures taken { OnOk result ((es : Events)
            → HasTaken self.old es
            → HasTaken self.new (es ++ event.now ∷ [])) }
    {
        self.take_by_table(event)?;
        self.kicks.tell(event);
        match self.unkicked() {
            Some(breach) => Err(breach),
            None => Ok(()),
        }
    }

    /// Judges an event by the table, and tells the history of its lock on where it breaks no
    /// clause.
    fn take_by_table(&mut self, event: &Event) -> Result<(), Breach>
        requires { IsInRange self.old event.now }
        ensures verdict { result_err result ≡ table_breach self.old event.now }
        ensures ok { OnOk result (TellsLocks self.old self.new event.now) }
        ensures err { OnErr result (self.new ≡ self.old) }
    {
        match event.what.lock() {
            Some(lock) => self
                .locks
                .get_mut(lock.place())
                .take(&self.rules, event.by, event.what),
            None => Ok(()),
        }
    }

    /// The breach that the queue head of this lock has halted without a pending kick, if so.
    fn left_asleep(&self, place: usize) -> Option<Breach>
        requires { place < length self.now.locks }
        ensures { let lock = lock_at place in
            result ≡ left_asleep (state_of self.now.kicks) lock (history_at self.now lock) }
    {
        match self.locks.get(place).free_front() {
            Some(waiter) if self.kicks.is_left(waiter) => {
                Some(Breach::NoKick {
                    lock: LockName::at(place),
                    waiter,
                })
            }
            _ => None,
        }
    }

    /// The breach of the first lock, by number, whose queue head has halted without a pending
    /// kick.
    fn no_kick(&self) -> Option<Breach>
        ensures { let locks = locks_from 0 (length self.now.locks) in
            result ≡ no_kick (state_of self.now.kicks) (history_at self.now) locks }
    {
        for place in 0..self.locks.len() {
            let breach = self.left_asleep(place);
            if breach.is_some() {
                return breach;
            }
        }
        None
    }

    /// The same, in mode `pv`; none in the other modes.
    fn unkicked(&self) -> Option<Breach>
        ensures { let kicks = state_of self.now.kicks in
            result ≡ unkicked self.now.rules.mode kicks (history_at self.now)
            (length self.now.locks) }
    {
        match self.rules.mode {
            Mode::Pv => self.no_kick(),
            Mode::Virt | Mode::Native | Mode::Cna => None,
        }
    }

    /// The queues of a lock.
    pub fn lists(&self, lock: LockName) -> &Lists
        requires { IsDeclared self.now lock }
        ensures main { result.now.main.items ≡ (history_at self.now lock).main }
        ensures second { result.now.second.items ≡ (history_at self.now lock).second }
        ensures passes { result.now.passes.items ≡ (history_at self.now lock).passes }
    {
        self.locks.get(lock.place()).lists()
    }
}
