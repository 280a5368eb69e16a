// The calls of a writer.
ghost use Rattle.std.specs.Prelude.{◌≡◌, ◌≢◌, None, Some, true, false};
ghost use Rattle.lk_names.specs.declared.holder.Manner.TheVariants.{Reads, Writes};
ghost use Rattle.lk_names.specs.declared.names.Kind.TheVariants.{Rw};
ghost use Rattle.lk_rows.specs.declared.parts.Pc.TheVariants.{Z2};
ghost use Rattle.lk_rows.specs.declared.setup.Verb.TheVariants.{Write, TryWrite};
ghost use Rattle.lk_port.specs.Asking.{MayCall, Refuses, way};
ghost use Rattle.lk_port.specs.Ports.{Enters, EntersAtOnce, Leaves, MissesEntry};
ghost use Rattle.lk_port.specs.declared.answer.Answer.TheVariants.{Done, Busy, Waits, WrongManner};

use crate::answer::Answer;
use crate::last::NONE;
use crate::pending::Pending;
use crate::port::Port;
use lk_domain::LockId;
use lk_names::Kind;

impl Port {
    /// Enters a reader-writer lock as its writer if nobody is in it and no writer waits at its head. It
    /// never waits.
    pub fn try_write(&mut self, lock: LockId) -> Answer
        ensures domain { self.new.share ≡ self.old.share }
        ensures taken { result ≡ Done → EntersAtOnce TryWrite Writes lock.index self.old self.new }
        ensures missed { result ≡ Busy → MissesEntry TryWrite lock.index self.old self.new }
        ensures same { result ≢ Done → result ≢ Busy → self.new ≡ self.old }
        ensures why { result ≢ Done → result ≢ Busy → Refuses self.old Rw lock.index result }
    {
        match self.refuses(lock, Kind::Rw, false) {
            Some(answer) => answer,
            None => {
                if self.tries_to_write(lock) {
                    Answer::Done
                } else {
                    Answer::Busy
                }
            }
        }
    }

    // True: it is in.
    fn tries_to_write(&mut self, lock: LockId) -> bool
        requires may { MayCall self.old Rw lock.index false }
        ensures domain { self.new.share ≡ self.old.share }
        ensures taken { result ≡ true → EntersAtOnce TryWrite Writes lock.index self.old self.new }
        ensures missed { result ≡ false → MissesEntry TryWrite lock.index self.old self.new }
    {
        self.runs();
        self.last = NONE;
        let has = lk_run::try_write(&mut self.cpu, self.share.domain(), lock);
        if has {
            *self.notes.get_mut(lock.index as usize) = true;
        }
        has
    }

    /// Begins to enter a reader-writer lock as its writer. `Done` says that the processor is in it,
    /// `Waits` that the caller is to poll until it is. It never waits.
    pub fn begin_write(&mut self, lock: LockId) -> Answer
        ensures domain { self.new.share ≡ self.old.share }
        ensures entered { result ≡ Done → Enters Write Writes lock.index self.old self.new }
        ensures same { result ≢ Done → result ≢ Waits → self.new ≡ self.old }
        ensures why { result ≢ Done → result ≢ Waits → Refuses self.old Rw lock.index result }
    {
        match self.refuses(lock, Kind::Rw, false) {
            Some(answer) => answer,
            None => {
                if self.begins_to_write(lock) {
                    Answer::Done
                } else {
                    Answer::Waits
                }
            }
        }
    }

    // True: it is in. False: the call waits.
    fn begins_to_write(&mut self, lock: LockId) -> bool
        requires may { MayCall self.old Rw lock.index false }
        ensures domain { self.new.share ≡ self.old.share }
        ensures entered { result ≡ true → Enters Write Writes lock.index self.old self.new }
    {
        self.runs();
        self.last = NONE;
        match lk_run::begin_write(&mut self.cpu, self.share.domain(), lock) {
            None => {
                *self.notes.get_mut(lock.index as usize) = true;
                true
            }
            Some(waiter) => {
                self.pending = Pending::Writes(waiter);
                false
            }
        }
    }

    /// Leaves a reader-writer lock that the processor is in as its writer. `WrongManner` says that it
    /// is in it as a reader.
    pub fn write_unlock(&mut self, lock: LockId) -> Answer
        ensures domain { self.new.share ≡ self.old.share }
        ensures left { result ≡ Done → Leaves Z2 lock.index self.old self.new }
        ensures same { result ≢ Done → self.new ≡ self.old }
        ensures manner { result ≡ WrongManner → way self.old lock.index ≡ Some Reads }
        ensures why { result ≢ Done → result ≢ WrongManner → Refuses self.old Rw lock.index result }
    {
        match self.refuses(lock, Kind::Rw, true) {
            Some(answer) => answer,
            None => {
                if !self.is_writing(lock) {
                    return Answer::WrongManner;
                }
                self.ends_writing(lock);
                Answer::Done
            }
        }
    }

    fn ends_writing(&mut self, lock: LockId)
        requires may { MayCall self.old Rw lock.index true }
        requires way { way self.old lock.index ≡ Some Writes }
        ensures domain { self.new.share ≡ self.old.share }
        ensures left { Leaves Z2 lock.index self.old self.new }
    {
        self.runs();
        self.last = NONE;
        lk_run::write_unlock(&mut self.cpu, self.share.domain(), lock);
    }
}
