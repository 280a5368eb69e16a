// A call that waits goes on.
ghost use Rattle.std.specs.Prelude.{◌≡◌, true, false};
ghost use Rattle.lk_port.specs.Ports.{Ends, LocksNow, ReadsNow, WritesNow, has_halted};
ghost use Rattle.lk_port.specs.declared.answer.Answer.TheVariants.{Done, Halts, Idle, Waits};
ghost use Rattle.lk_port.specs.declared.pending.Pending.TheVariants.{Free, Spins, Reads, Writes};

use crate::answer::Answer;
use crate::pending::Pending;
use crate::port::Port;
use lk_run::{ReadWaiter, Waiter, WriteWaiter};

impl Port {
    /// Goes on with the call that waits, of whatever kind, up to its next failed look at the lock, or up
    /// to a halt. Where its processor has halted and was not kicked, nothing changes. `Done` says that the
    /// processor has the lock now. It never waits.
    pub fn poll(&mut self) -> Answer
        ensures domain { self.new.share ≡ self.old.share }
        ensures has { result ≡ Done → Ends self.old self.new }
        ensures halts { result ≡ Halts → has_halted self.new ≡ true }
        ensures waits { result ≡ Waits → has_halted self.new ≡ false }
        ensures idle { result ≡ Idle → (self.old.pending ≡ Free) × (self.new ≡ self.old) }
    {
        let has = match self.pending {
            Pending::Free => return Answer::Idle,
            Pending::Spins(waiter) => self.locks(waiter),
            Pending::Reads(waiter) => self.comes_to_read(waiter),
            Pending::Writes(waiter) => self.comes_to_write(waiter),
            Pending::Halts(waiter) => return self.turns(waiter),
        };
        if has { Answer::Done } else { Answer::Waits }
    }

    // True: it has the spinlock.
    fn locks(&mut self, waiter: Waiter) -> bool
        requires waits { self.old.pending ≡ Spins waiter }
        ensures domain { self.new.share ≡ self.old.share }
        ensures has { result ≡ true → LocksNow waiter self.old self.new }
    {
        self.runs();
        match lk_run::poll(&mut self.cpu, self.share.domain(), waiter) {
            None => {
                self.pending = Pending::Free;
                self.last = waiter.lock.index;
                self.holds_last = true;
                true
            }
            Some(waiter) => {
                self.pending = Pending::Spins(waiter);
                false
            }
        }
    }

    // True: it is in the lock as a reader.
    fn comes_to_read(&mut self, waiter: ReadWaiter) -> bool
        requires waits { self.old.pending ≡ Reads waiter }
        ensures domain { self.new.share ≡ self.old.share }
        ensures has { result ≡ true → ReadsNow waiter self.old self.new }
    {
        self.runs();
        match lk_run::poll_read(&mut self.cpu, self.share.domain(), waiter) {
            None => {
                self.pending = Pending::Free;
                *self.notes.get_mut(waiter.lock.index as usize) = false;
                true
            }
            Some(waiter) => {
                self.pending = Pending::Reads(waiter);
                false
            }
        }
    }

    // True: it is in the lock as its writer.
    fn comes_to_write(&mut self, waiter: WriteWaiter) -> bool
        requires waits { self.old.pending ≡ Writes waiter }
        ensures domain { self.new.share ≡ self.old.share }
        ensures has { result ≡ true → WritesNow waiter self.old self.new }
    {
        self.runs();
        match lk_run::poll_write(&mut self.cpu, self.share.domain(), waiter) {
            None => {
                self.pending = Pending::Free;
                *self.notes.get_mut(waiter.lock.index as usize) = true;
                true
            }
            Some(waiter) => {
                self.pending = Pending::Writes(waiter);
                false
            }
        }
    }
}
