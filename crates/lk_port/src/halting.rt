// What the calls on a spinlock do where the family's waiters halt.
ghost use Rattle.std.specs.Prelude.{◌≡◌, ◌≢◌, ◌%◌, IfSome, None, Some, true, false};
ghost use Rattle.lk_names.specs.declared.names.Kind.TheVariants.{Spin};
ghost use Rattle.lk_rows.specs.declared.setup.Verb.TheVariants.{Unlock};
ghost use Rattle.lk_word.specs.declared.spin_word.NodeName.{NodeName};
ghost use Rattle.lk_domain.specs.Calls as grip;
ghost use Rattle.lk_domain.specs.Seats.{IsSame, calls_of};
ghost use Rattle.lk_pvdomain.specs.PvCalls.{HasTried, IsAsItWas};
ghost use Rattle.lk_pvdomain.specs.PvPaths.{Ended, Start};
ghost use Rattle.lk_pvdomain.specs.PvReleases.{has_freed};
ghost use Rattle.lk_port.specs.Asking.{MayCall};
ghost use Rattle.lk_port.specs.Ports.{Frees, HasBegun, HasSettled, IsAsleep, Locks, Misses, Stays};
ghost use Rattle.lk_port.specs.Ports.{Tries, TurnsNow, has_halted, is_turn};
ghost use Rattle.lk_port.specs.Shares.{IsOf, domain_of, may_halt};
ghost use Rattle.lk_port.specs.declared.answer.Answer.TheVariants.{Again, Done, Waits};
ghost use Rattle.lk_port.specs.declared.answer.Answer.TheVariants as answer;
ghost use Rattle.lk_port.specs.declared.pending.Pending.TheVariants.{Halts};

use crate::answer::{Answer, Freed};
use crate::last::NONE;
use crate::pending::Pending;
use crate::port::Port;
use crate::share::Share;
use lk_domain::{Cpu, LockId, Right};
use lk_pvdomain::{PvRelease, PvTurn, PvWaiter, halting, pv_poll, pv_settle, pv_try_lock};
use lk_word::HELD;

// How often a release is tried behind its first try, which makes 2,048 tries. While a processor holds a
// lock each other processor joins its queue once at most, and the queue head sets the pending bit and
// clears it once at most before it makes the byte slow: so three tries more than there are processors
// are enough. No proof counts them.
const TRIES: u32 = 2_047;

// Whether a release has freed its lock.
fn is_free(release: PvRelease) -> bool
    ensures { result ≡ has_freed release }
{
    match release {
        PvRelease::Freed | PvRelease::Kicked(_) => true,
        PvRelease::Still => false,
    }
}

impl Port {
    // True: it has it.
    pub(crate) fn tries_halting(&mut self, lock: LockId) -> bool
        requires may { MayCall self.old Spin lock.index false }
        requires halts { may_halt self.old.share ≡ true }
        ensures domain { self.new.share ≡ self.old.share }
        ensures taken { result ≡ true → Tries lock.index self.old self.new }
        ensures missed { result ≡ false → Misses lock.index self.old self.new }
    {
        self.stands();
        self.last = NONE;
        let has = pv_try_lock(&mut self.cpu, self.share.halting(), lock);
        if has {
            *self.notes.get_mut(lock.index as usize) = true;
            self.last = lock.index;
            self.holds_last = true;
        }
        has
    }

    // The mark is found before the row F1: a load behind it would delay the store, and with it the next
    // atomic operation.
    #[inline(always)]
    pub(crate) fn begins_halting(&mut self, lock: LockId) -> Answer
        requires may { MayCall self.old Spin lock.index false }
        requires last { self.old.last ≡ lock.index }
        requires halts { may_halt self.old.share ≡ true }
        ensures domain { self.new.share ≡ self.old.share }
        ensures turn { is_turn result ≡ true }
        ensures taken { result ≡ Done → Locks lock.index self.old self.new }
        ensures halts { result ≡ answer.Halts → has_halted self.new ≡ true }
        ensures waits { result ≡ Waits → has_halted self.new ≡ false }
    {
        self.stands();
        let note = self.notes.get_mut(lock.index as usize);
        if halting::take(&mut self.cpu.seat, self.share.domain(), lock.index) {
            *note = true;
            self.holds_last = true;
            return Answer::Done;
        }
        self.last = NONE;
        settles_halting(&self.share, lock, &mut self.cpu, note, &mut self.pending)
    }

    // Goes on with a call that waits or has halted.
    pub(crate) fn turns(&mut self, waiter: PvWaiter) -> Answer
        requires waits { self.old.pending ≡ Halts waiter }
        ensures domain { self.new.share ≡ self.old.share }
        ensures turn { is_turn result ≡ true }
        ensures has { result ≡ Done → TurnsNow waiter self.old self.new }
        ensures halts { result ≡ answer.Halts → has_halted self.new ≡ true }
        ensures waits { result ≡ Waits → has_halted self.new ≡ false }
    {
        self.stands();
        match pv_poll(&mut self.cpu, self.share.halting(), waiter) {
            PvTurn::Has => {
                self.pending = Pending::Free;
                *self.notes.get_mut(waiter.lock.index as usize) = true;
                self.last = waiter.lock.index;
                self.holds_last = true;
                Answer::Done
            }
            PvTurn::Waits(waiter) => {
                self.pending = Pending::Halts(waiter);
                Answer::Waits
            }
            PvTurn::Halts(waiter) => {
                self.pending = Pending::Halts(waiter);
                Answer::Halts
            }
        }
    }

    // The mark is found before the row U2, as in `begins_halting`.
    #[inline(always)]
    pub(crate) fn frees_halting(&mut self, lock: LockId) -> PvRelease
        requires may { MayCall self.old Spin lock.index true }
        requires last { self.old.last ≡ lock.index }
        requires halts { may_halt self.old.share ≡ true }
        ensures domain { self.new.share ≡ self.old.share }
        ensures freed { has_freed result ≡ true → Frees lock.index self.old self.new }
        ensures still { has_freed result ≡ false → Stays self.old self.new }
    {
        self.stands();
        let note = self.notes.get_mut(lock.index as usize);
        let seat = &mut self.cpu.seat;
        let met = halting::free(seat, self.share.domain(), lock.index);
        if met == HELD {
            *note = false;
            self.holds_last = false;
            return PvRelease::Freed;
        }
        self.last = NONE;
        frees_on(&self.share, lock, seat, met, note)
    }
}

// What a release comes to for who calls.
pub(crate) fn freed_by(release: PvRelease) -> Freed
    ensures freed { result.answer ≡ Done → has_freed release ≡ true }
    ensures again { result.answer ≡ Again → has_freed release ≡ false }
    ensures ends { result.answer ≢ Done → result.answer ≡ Again }
{
    let (answer, kicked) = match release {
        PvRelease::Freed => (Answer::Done, None),
        PvRelease::Kicked(number) => (Answer::Done, Some(number)),
        PvRelease::Still => (Answer::Again, None),
    };
    Freed { answer, kicked }
}

// Goes on with a call that found its lock not free. It is out of the way of a call that finds its lock
// free, which builds no `PvTurn`. What it is given has the order in which that one has it at hand.
#[cold]
#[inline(never)]
fn settles_halting(
    share: &Share,
    lock: LockId,
    cpu: &mut Cpu,
    note: &mut bool,
    pending: &mut Pending,
) -> Answer
    requires of { IsOf cpu.old share.now }
    requires halts { may_halt share.now ≡ true }
    requires begun { (s : Start) × HasBegun share.now lock.index s cpu.old }
    ensures same { IsSame cpu.old cpu.new }
    ensures turn { is_turn result ≡ true }
    ensures taken { result ≡ Done → (s : Start) → HasBegun share.now lock.index s cpu.old
        → HasSettled share.now lock.index s cpu.new }
    ensures noted { result ≡ Done → (note.new ≡ true) × (pending.new ≡ pending.old) }
    ensures pending { result ≢ Done → (s : Start) → HasBegun share.now lock.index s cpu.old
        → IsAsleep share.now pending.new s cpu.new }
    ensures still { result ≢ Done → note.new ≡ note.old }
    ensures halted { result ≡ answer.Halts → (calls_of cpu.new).halted ≡ true }
    ensures awake { result ≡ Waits → (calls_of cpu.new).halted ≡ false }
{
    match pv_settle(cpu, share.halting(), lock) {
        PvTurn::Has => {
            *note = true;
            Answer::Done
        }
        PvTurn::Waits(waiter) => {
            *pending = Pending::Halts(waiter);
            Answer::Waits
        }
        PvTurn::Halts(waiter) => {
            *pending = Pending::Halts(waiter);
            Answer::Halts
        }
    }
}

// Goes on with a release whose first try did not free the lock. It is out of the way of one that is made at
// its first try.
#[cold]
#[inline(never)]
fn frees_on(share: &Share, lock: LockId, seat: &mut Right, met: u64, note: &mut bool) -> PvRelease
    requires other { met ≢ 1 }
    requires tried { (own : NodeName) × (s : Start)
        × HasTried (domain_of share.now) lock.index own s met seat.old }
    ensures freed { has_freed result ≡ true → (own : NodeName) (s : Start)
        → HasTried (domain_of share.now) lock.index own s met seat.old
        → Ended (domain_of share.now) Unlock lock.index own s grip.Frees seat.new }
    ensures still { has_freed result ≡ false → (met % 256 ≡ 1) × IsAsItWas seat.old seat.new }
    ensures unmarked { has_freed result ≡ true → note.new ≡ false }
    ensures marked { has_freed result ≡ false → note.new ≡ note.old }
{
    let release = halting::try_release(seat, share.domain(), lock.index, met, TRIES);
    if is_free(release) {
        *note = false;
    }
    release
}
