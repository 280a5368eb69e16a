//! Values under locks: a processor that holds a lock alone works on its value, which is the key of a
//! cell, where it lies; or it takes the value out, and brings it home. Where the lock has copies a reader
//! works on the one for its own processor, where it lies. The calls of all lock families are made of
//! [`work_at`], [`take`] and [`bring`].
ghost use Rattle.std.specs.Prelude.{◌≡◌, ◌+◌, ◌^◌, ◌<◌, Some, None};
ghost use Rattle.std.specs.Fn.{FnOnceReturnsAtMut, FnOnceTakesAtMut};
ghost use Rattle.lk_cell.specs.Work.{HasWorked, KeepsFit};
ghost use Rattle.lk_domain.specs.Plans.{IsRunningPlan, cpus_of, locks_of};
ghost use Rattle.lk_domain.specs.Plays.{carried_of};
ghost use Rattle.lk_domain.specs.Seated.{IsSeatOf, IsTableOf};
ghost use Rattle.lk_domain.specs.Seats.{BringsValueOf, IsIn, IsStill, TakesValueOf};
ghost use Rattle.lk_domain.specs.Seats.{calls_of, ledger_of, view_of};
ghost use Rattle.lk_domain.specs.declared.slot.Stowed.TheVariants.{CellKey};
ghost use Rattle.lk_domain.specs.Values.{HasCell, IsClear, IsHomeAt, IsHomeWith, IsKeyOf, IsNewestAt};
ghost use Rattle.lk_domain.specs.Values.{Key};
ghost use Rattle.lk_domain.specs.Values.{MayCopy, bringing, copy_at, homes_of, lock_of, outs_of, taking};
ghost use Rattle.lk_domain.specs.Words.{quiet_at};

use crate::cpu::{Cpu, Right};
use crate::domain::{Domain, LockId};
use crate::ledger::steps::Words;
use crate::plan::{MOST_CPUS, MOST_LOCKS, Plan};
use crate::rule::{BringValue, TakeValue};
use crate::slot::{Slot, Stowed};
use lk_cell::Key;

// The home of the copy of a lock for a processor.
pub(crate) fn copy_home(plan: &Plan, lock: u32, number: u32) -> usize
    requires lawful { IsRunningPlan plan.now }
    requires lock { lock < locks_of plan.now }
    requires number { number < cpus_of plan.now }
    ensures home { result ≡ copy_at plan.now lock number }
{
    prove!(plan.locks.len() <= MOST_LOCKS);
    prove!(plan.topology.sockets.len() <= MOST_CPUS);
    let before = (1 + number as usize) * plan.locks.len();
    before + lock as usize
}

// The word by whose load the value of a home goes out and comes home.
#[inline]
fn quiet_word(table: &Words, plan: &Plan, home: usize) -> usize
    requires table { IsTableOf plan.now table.now.shared.table_id table.now.shared.key }
    requires low { home < homes_of plan.now }
    ensures word { result ≡ quiet_at plan.now home }
    ensures fits { 1 + home < 2 ^ 64 }
{
    table.word_count() - 1 - home
}

/// Takes the value of a home out, which the seat's processor reaches: the key of its cell. No value of
/// its lock may be out.
pub fn take(seat: &mut Right, table: &Words, plan: &Plan, home: usize) -> Key
    requires table { IsTableOf plan.now table.now.shared.table_id table.now.shared.key }
    requires seat { IsSeatOf plan.now table.now.shared.table_id seat.old }
    requires valued { HasCell plan.now home }
    requires held { IsHomeAt plan.now home seat.old.me.0.who.number seat.old.me.0.calls.holds }
    requires journal { seat.old.me.0.ledger.out ≡ None }
    ensures same { (seat.new.table_id ≡ seat.old.table_id) × (seat.new.id ≡ seat.old.id) }
    ensures view { seat.new.me.0 ≡ taking (lock_of plan.now home) home seat.old.me.0 }
    ensures carried { seat.new.me.1 ≡ carried_of seat.new.me.0 }
    ensures key { IsKeyOf plan.now home result }
    ensures apart { IsClear plan.now (lock_of plan.now home) seat.old.me.0.who.outs }
{
    let word = quiet_word(table, plan, home);
    table.shared.load::<TakeValue>(seat, word);
    let place = seat.slot_mut(&table.shared, 1 + home);
    match place.take() {
        Some(Stowed::CellKey(key)) => key,
        Some(Stowed::Entries(_)) => unreachable!(),
        None => unreachable!(),
    }
}

/// Brings the value of a home there, the newest of those that are out with the seat.
pub fn bring(seat: &mut Right, table: &Words, plan: &Plan, home: usize, key: Key)
    requires table { IsTableOf plan.now table.now.shared.table_id table.now.shared.key }
    requires seat { IsSeatOf plan.now table.now.shared.table_id seat.old }
    requires valued { HasCell plan.now home }
    requires newest { IsNewestAt plan.now (lock_of plan.now home) home seat.old.me.0.who.outs }
    requires journal { seat.old.me.0.ledger.out ≡ None }
    requires key { IsKeyOf plan.now home key }
    ensures same { (seat.new.table_id ≡ seat.old.table_id) × (seat.new.id ≡ seat.old.id) }
    ensures view { seat.new.me.0 ≡ bringing (lock_of plan.now home) seat.old.me.0 }
    ensures carried { seat.new.me.1 ≡ carried_of seat.new.me.0 }
{
    let word = quiet_word(table, plan, home);
    match table
        .shared
        .exchange(seat, 1 + home, Some(Stowed::CellKey(key)))
    {
        None => {}
        Some(_) => unreachable!(),
    }
    table.shared.load::<BringValue>(seat, word);
}

// Works on the key that lies in a slot.
#[inline]
fn work_in<U, W: FnOnce(&mut Key) -> U>(place: &mut Slot, work: W) -> U
    requires full { (key : Key) × (place.old ≡ Some (CellKey key)) }
    requires callable { (key : Key) → place.old ≡ Some (CellKey key)
        → FnOnceTakesAtMut W.FnOnce work key }
    ensures { (key : Key) × (left : Key) × (place.old ≡ Some (CellKey key))
        × (place.new ≡ Some (CellKey left)) × FnOnceReturnsAtMut W.FnOnce work key result left }
{
    match place {
        Some(Stowed::CellKey(key)) => work(key),
        Some(Stowed::Entries(_)) => unreachable!(),
        None => unreachable!(),
    }
}

/// Works once on the value of a home, which the seat's processor reaches: the key of its cell, which
/// stays where it lies. It goes out with the seat for that, and comes home. No value of its lock may be
/// out.
#[inline]
pub fn work_at<U, W: FnOnce(&mut Key) -> U>(
    seat: &mut Right,
    table: &Words,
    plan: &Plan,
    home: usize,
    work: W,
) -> U
    requires table { IsTableOf plan.now table.now.shared.table_id table.now.shared.key }
    requires seat { IsSeatOf plan.now table.now.shared.table_id seat.old }
    requires valued { HasCell plan.now home }
    requires held { IsHomeAt plan.now home seat.old.me.0.who.number seat.old.me.0.calls.holds }
    requires journal { seat.old.me.0.ledger.out ≡ None }
    requires work { KeepsFit W.FnOnce (IsKeyOf plan.now home) work }
    ensures same { (seat.new.table_id ≡ seat.old.table_id) × (seat.new.id ≡ seat.old.id) }
    ensures view { seat.new.me.0 ≡ seat.old.me.0 }
    ensures carried { seat.new.me.1 ≡ carried_of seat.new.me.0 }
    ensures done { HasWorked W.FnOnce (IsKeyOf plan.now home) work result }
{
    let word = quiet_word(table, plan, home);
    table.shared.load::<TakeValue>(seat, word);
    let done = work_in(seat.slot_mut(&table.shared, 1 + home), work);
    table.shared.load::<BringValue>(seat, word);
    done
}

/// Works once on the value of a lock: the key of its cell, which stays where it lies. The processor must
/// hold the lock alone, as a spinlock or as the writer, and no value of the lock may be out. It knows
/// afterwards what it knew before.
#[inline]
pub fn with_key<U, W: FnOnce(&mut Key) -> U>(
    cpu: &mut Cpu,
    domain: &Domain,
    lock: LockId,
    work: W,
) -> U
    requires domain { IsIn cpu.old domain.now }
    requires lock { lock.index < locks_of domain.now.plan }
    requires valued { HasCell domain.now.plan lock.index }
    requires held { IsHomeWith lock.index (calls_of cpu.old).holds }
    requires home { (ledger_of cpu.old).out ≡ None }
    requires work { KeepsFit W.FnOnce (IsKeyOf domain.now.plan lock.index) work }
    ensures still { IsStill cpu.old cpu.new }
    ensures done { HasWorked W.FnOnce (IsKeyOf domain.now.plan lock.index) work result }
{
    let home = lock.index as usize;
    work_at(&mut cpu.seat, &domain.table, &domain.plan, home, work)
}

/// The same with the copy of the lock's value for the processor of this number. The processor must hold
/// the lock alone, or hold it as a reader and have the number.
#[inline]
pub fn with_copy<U, W: FnOnce(&mut Key) -> U>(
    cpu: &mut Cpu,
    domain: &Domain,
    lock: LockId,
    number: u32,
    work: W,
) -> U
    requires domain { IsIn cpu.old domain.now }
    requires lock { lock.index < locks_of domain.now.plan }
    requires number { number < cpus_of domain.now.plan }
    requires valued { HasCell domain.now.plan (copy_at domain.now.plan lock.index number) }
    requires held { MayCopy lock.index number (view_of cpu.old) }
    requires home { (ledger_of cpu.old).out ≡ None }
    requires work { KeepsFit W.FnOnce
        (IsKeyOf domain.now.plan (copy_at domain.now.plan lock.index number)) work }
    ensures still { IsStill cpu.old cpu.new }
    ensures done { HasWorked W.FnOnce
        (IsKeyOf domain.now.plan (copy_at domain.now.plan lock.index number)) work result }
{
    let copy = copy_home(&domain.plan, lock.index, number);
    work_at(&mut cpu.seat, &domain.table, &domain.plan, copy, work)
}

/// Takes the value of a lock out: the key of its cell. The processor must hold the lock alone, as a
/// spinlock or as the writer, and frees it again only after the value is home.
pub fn take_out(cpu: &mut Cpu, domain: &Domain, lock: LockId) -> Key
    requires domain { IsIn cpu.old domain.now }
    requires lock { lock.index < locks_of domain.now.plan }
    requires valued { HasCell domain.now.plan lock.index }
    requires held { IsHomeWith lock.index (calls_of cpu.old).holds }
    requires home { (ledger_of cpu.old).out ≡ None }
    ensures taken { TakesValueOf lock.index cpu.old cpu.new }
    ensures key { IsKeyOf domain.now.plan lock.index result }
{
    let home = lock.index as usize;
    take(&mut cpu.seat, &domain.table, &domain.plan, home)
}

/// Brings it home: the value that the processor took out last.
pub fn bring_home(cpu: &mut Cpu, domain: &Domain, lock: LockId, key: Key)
    requires domain { IsIn cpu.old domain.now }
    requires lock { lock.index < locks_of domain.now.plan }
    requires valued { HasCell domain.now.plan lock.index }
    requires newest { IsNewestAt domain.now.plan lock.index lock.index (outs_of (view_of cpu.old)) }
    requires home { (ledger_of cpu.old).out ≡ None }
    requires key { IsKeyOf domain.now.plan lock.index key }
    ensures brought { BringsValueOf lock.index cpu.old cpu.new }
{
    let home = lock.index as usize;
    bring(&mut cpu.seat, &domain.table, &domain.plan, home, key);
}
