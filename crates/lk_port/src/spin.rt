// The calls on a spinlock: what they answer in each family, and what they do where its waiters run.
ghost use Rattle.std.specs.Prelude.{◌≡◌, ◌≢◌, ◌<◌, IfSome, None, Some, true, false};
ghost use Rattle.lk_names.specs.declared.holder.Manner.TheVariants.{Spins};
ghost use Rattle.lk_names.specs.declared.names.Kind.TheVariants.{Spin};
ghost use Rattle.lk_rows.specs.declared.setup.Verb.TheVariants.{Lock, Try};
ghost use Rattle.lk_domain.specs.Plans.{locks_of};
ghost use Rattle.lk_domain.specs.Seats.{IsOf, KeepsRest};
ghost use Rattle.lk_run.specs.Phases.{Start, Holds};
ghost use Rattle.lk_run.specs.Polled.{Arrived};
ghost use Rattle.lk_port.specs.Asking.{MayCall, Refuses};
ghost use Rattle.lk_port.specs.Ports.{Frees, Locks, Misses, Stays, Tries};
ghost use Rattle.lk_port.specs.Ports.{HasLocked, HasMissed, HasTried, HasUnlocked, IsPending};
ghost use Rattle.lk_port.specs.Ports.{has_halted, is_turn};
ghost use Rattle.lk_port.specs.Shares.{domain_of, may_halt};
ghost use Rattle.lk_port.specs.declared.answer.Answer.TheVariants.{Again, Busy, Done, Halts, Waits};

use crate::answer::{Answer, Freed};
use crate::halting::freed_by;
use crate::last::NONE;
use crate::pending::Pending;
use crate::port::Port;
use crate::share::Share;
use lk_domain::{Cpu, LockId};
use lk_names::Kind;
use lk_run::Arrival;

impl Port {
    /// Takes a spinlock if it is free and nobody waits for it. It never waits.
    pub fn try_lock(&mut self, lock: LockId) -> Answer
        ensures domain { self.new.share ≡ self.old.share }
        ensures taken { result ≡ Done → Tries lock.index self.old self.new }
        ensures missed { result ≡ Busy → Misses lock.index self.old self.new }
        ensures same { result ≢ Done → result ≢ Busy → self.new ≡ self.old }
        ensures why { result ≢ Done → result ≢ Busy → Refuses self.old Spin lock.index result }
    {
        match self.refuses(lock, Kind::Spin, false) {
            Some(answer) => answer,
            None => {
                if self.tries(lock) {
                    Answer::Done
                } else {
                    Answer::Busy
                }
            }
        }
    }

    // True: it has it.
    fn tries(&mut self, lock: LockId) -> bool
        requires may { MayCall self.old Spin lock.index false }
        ensures domain { self.new.share ≡ self.old.share }
        ensures taken { result ≡ true → Tries lock.index self.old self.new }
        ensures missed { result ≡ false → Misses lock.index self.old self.new }
    {
        if self.share.halts() {
            self.tries_halting(lock)
        } else {
            self.tries_running(lock)
        }
    }

    fn tries_running(&mut self, lock: LockId) -> bool
        requires may { MayCall self.old Spin lock.index false }
        requires runs { may_halt self.old.share ≡ false }
        ensures domain { self.new.share ≡ self.old.share }
        ensures taken { result ≡ true → HasTried Try Spins lock.index self.old self.new }
        ensures missed { result ≡ false → HasMissed Try lock.index self.old self.new }
    {
        self.runs();
        self.last = NONE;
        let has = lk_run::try_lock(&mut self.cpu, self.share.domain(), lock);
        if has {
            self.last = lock.index;
            self.holds_last = true;
        }
        has
    }

    /// Begins to acquire a spinlock. `Done` says that the processor holds it, `Waits` that the caller
    /// is to poll until it does, and `Halts` that its next turn comes once the processor is kicked. It
    /// never waits.
    #[inline(always)]
    pub fn begin(&mut self, lock: LockId) -> Answer
        ensures domain { self.new.share ≡ self.old.share }
        ensures taken { result ≡ Done → Locks lock.index self.old self.new }
        ensures halts { result ≡ Halts → has_halted self.new ≡ true }
        ensures waits { result ≡ Waits → has_halted self.new ≡ false }
        ensures same { is_turn result ≡ false → self.new ≡ self.old }
        ensures why { is_turn result ≡ false → Refuses self.old Spin lock.index result }
    {
        match self.refuses(lock, Kind::Spin, false) {
            Some(answer) => answer,
            None => {
                self.last = lock.index;
                self.holds_last = false;
                self.begins(lock)
            }
        }
    }

    /// Does as `begin` does where the family's waiters run and the last call tells that the call may begin.
    /// `None` says that it is not so: nothing has changed, and `begin` is to be called, or `begin_halting`
    /// before it.
    #[inline(always)]
    pub fn begin_running(&mut self, lock: LockId) -> Option<Answer>
        ensures domain { self.new.share ≡ self.old.share }
        ensures taken { result ≡ Some Done → Locks lock.index self.old self.new }
        ensures waits { IfSome result (λ _. has_halted self.new ≡ false) }
        ensures same { result ≡ None → self.new ≡ self.old }
    {
        if self.share.halts() || !self.allows(lock, false) {
            return None;
        }
        if self.begins_running(lock) {
            return Some(Answer::Done);
        }
        Some(Answer::Waits)
    }

    /// The same where waiters halt.
    #[inline(always)]
    pub fn begin_halting(&mut self, lock: LockId) -> Option<Answer>
        ensures domain { self.new.share ≡ self.old.share }
        ensures taken { result ≡ Some Done → Locks lock.index self.old self.new }
        ensures halts { result ≡ Some Halts → has_halted self.new ≡ true }
        ensures waits { result ≡ Some Waits → has_halted self.new ≡ false }
        ensures same { result ≡ None → self.new ≡ self.old }
    {
        if !self.share.halts() || !self.allows(lock, false) {
            return None;
        }
        Some(self.begins_halting(lock))
    }

    #[inline(always)]
    fn begins(&mut self, lock: LockId) -> Answer
        requires may { MayCall self.old Spin lock.index false }
        requires last { self.old.last ≡ lock.index }
        ensures domain { self.new.share ≡ self.old.share }
        ensures turn { is_turn result ≡ true }
        ensures taken { result ≡ Done → Locks lock.index self.old self.new }
        ensures halts { result ≡ Halts → has_halted self.new ≡ true }
        ensures waits { result ≡ Waits → has_halted self.new ≡ false }
    {
        if self.share.halts() {
            return self.begins_halting(lock);
        }
        if self.begins_running(lock) {
            Answer::Done
        } else {
            Answer::Waits
        }
    }

    // True: it has it. False: the call waits.
    #[inline(always)]
    fn begins_running(&mut self, lock: LockId) -> bool
        requires may { MayCall self.old Spin lock.index false }
        requires last { self.old.last ≡ lock.index }
        requires runs { may_halt self.old.share ≡ false }
        ensures domain { self.new.share ≡ self.old.share }
        ensures taken { result ≡ true → HasLocked lock.index self.old self.new }
    {
        self.runs();
        match lk_run::arrive(&mut self.cpu, self.share.domain(), lock) {
            None => {
                self.holds_last = true;
                true
            }
            Some(arrival) => {
                self.last = NONE;
                settles(&mut self.cpu, &self.share, lock, arrival, &mut self.pending)
            }
        }
    }

    /// Frees a spinlock that the processor holds, and says which processor it has kicked. `Again` says
    /// that others came to the lock at each of its tries, so that the processor holds it as before: that
    /// can be where the family's waiters halt. By the rows there are always enough tries, but no proof
    /// counts them. It never waits.
    #[inline(always)]
    pub fn unlock(&mut self, lock: LockId) -> Freed
        ensures domain { self.new.share ≡ self.old.share }
        ensures freed { result.answer ≡ Done → Frees lock.index self.old self.new }
        ensures again { result.answer ≡ Again → Stays self.old self.new }
        ensures same { result.answer ≢ Done → result.answer ≢ Again → self.new ≡ self.old }
        ensures why { result.answer ≢ Done → result.answer ≢ Again
            → Refuses self.old Spin lock.index result.answer }
    {
        match self.refuses(lock, Kind::Spin, true) {
            Some(answer) => Freed {
                answer,
                kicked: None,
            },
            None => {
                self.last = lock.index;
                self.holds_last = true;
                self.frees(lock)
            }
        }
    }

    /// Does as `unlock` does where the last call tells that it may. `None` says that it does not tell that:
    /// nothing has changed, and `unlock` is to be called.
    #[inline(always)]
    pub fn unlock_last(&mut self, lock: LockId) -> Option<Freed>
        ensures domain { self.new.share ≡ self.old.share }
        ensures freed { IfSome result (λ freed. freed.answer ≡ Done
            → Frees lock.index self.old self.new) }
        ensures again { IfSome result (λ freed. freed.answer ≡ Again → Stays self.old self.new) }
        ensures same { result ≡ None → self.new ≡ self.old }
    {
        if !self.allows(lock, true) {
            return None;
        }
        Some(self.frees(lock))
    }

    #[inline(always)]
    fn frees(&mut self, lock: LockId) -> Freed
        requires may { MayCall self.old Spin lock.index true }
        requires last { self.old.last ≡ lock.index }
        ensures domain { self.new.share ≡ self.old.share }
        ensures freed { result.answer ≡ Done → Frees lock.index self.old self.new }
        ensures again { result.answer ≢ Done → (result.answer ≡ Again) × Stays self.old self.new }
    {
        if self.share.halts() {
            return freed_by(self.frees_halting(lock));
        }
        self.frees_running(lock);
        Freed {
            answer: Answer::Done,
            kicked: None,
        }
    }

    #[inline(always)]
    fn frees_running(&mut self, lock: LockId)
        requires may { MayCall self.old Spin lock.index true }
        requires last { self.old.last ≡ lock.index }
        requires runs { may_halt self.old.share ≡ false }
        ensures domain { self.new.share ≡ self.old.share }
        ensures freed { HasUnlocked lock.index self.old self.new }
    {
        self.runs();
        lk_run::unlock(&mut self.cpu, self.share.domain(), lock);
        self.holds_last = false;
    }
}

// Goes on with a call that found its lock not free. True: it has it. False: the call waits. It is out
// of the way of a call that finds its lock free, which builds no `Pending`. It gets the share of the
// domain and not the domain, whose place would have to be kept for it in a register.
#[cold]
#[inline(never)]
fn settles(
    cpu: &mut Cpu,
    share: &Share,
    lock: LockId,
    arrival: Arrival,
    pending: &mut Pending,
) -> bool
    requires domain { IsOf cpu.old (domain_of share.now) }
    requires lock { lock.index < locks_of (domain_of share.now).plan }
    requires begun { (s : Start) × Arrived (domain_of share.now) lock.index arrival.met s cpu.old }
    ensures rest { KeepsRest cpu.old cpu.new }
    ensures holds { result ≡ true → (s : Start)
        → Arrived (domain_of share.now) lock.index arrival.met s cpu.old
        → Holds (domain_of share.now) Lock lock.index Spins s cpu.new None }
    ensures same { result ≡ true → pending.new ≡ pending.old }
    ensures waits { result ≡ false → (s : Start)
        → Arrived (domain_of share.now) lock.index arrival.met s cpu.old
        → IsPending (domain_of share.now) lock pending.new s cpu.new }
{
    match lk_run::settle(cpu, share.domain(), lock, arrival) {
        None => true,
        Some(waiter) => {
            *pending = Pending::Spins(waiter);
            false
        }
    }
}
