// Work on the value of a lock that is held. The value stays where it lies.
ghost use Rattle.std.specs.Prelude.{◌≡◌, ◌+◌, ◌<◌, Some};
ghost use Rattle.std.specs.Fn.{FnOnceReturnsAtMut};
ghost use Rattle.lk_names.specs.declared.holder.Manner.TheVariants.{Writes};
ghost use Rattle.lk_cell.specs.Latched.{IsKey};
ghost use Rattle.lk_domain.specs.Plans.{cpus_of, locks_of};
ghost use Rattle.lk_domain.specs.Seats.{IsStill, view_of};
ghost use Rattle.lk_domain.specs.Values.{IsHomeWith, MayCopy, cell_of, copy_at};
ghost use Rattle.lk_domain.specs.declared.cpu.Cpu.{Cpu};
ghost use Rattle.lk_lock.specs.Cells.{names_of};
ghost use Rattle.lk_lock.specs.Standing.{IsHolding, IsReady, IsSharedUnder, holds_of};

use crate::shared::Shared;
use lk_cell::{Any, Key, KeyCell};
use lk_domain::{Cpu, Domain, LockId, MOST_CPUS, with_copy, with_key};

// Works once on the value of a lock, which is held alone.
#[inline(always)]
pub(crate) fn work_under<T, U, W: FnOnce(&mut T) -> U>(
    cpu: &mut Cpu,
    domain: &Domain,
    id: LockId,
    cell: &KeyCell<T, Any>,
    work: W,
) -> U
    requires ready { IsReady domain.now cpu.old }
    requires lock { id.index < locks_of domain.now.plan }
    requires cell { cell_of domain.now.plan id.index
        ≡ Some cell.now.table.shared.table_id }
    requires held { IsHomeWith id.index (holds_of cpu.old) }
    requires callable { W.IsAlwaysCallable work }
    ensures still { IsStill cpu.old cpu.new }
    ensures done { (x : T) × (y : T) × FnOnceReturnsAtMut W.FnOnce work x result y }
{
    with_key(
        cpu,
        domain,
        id,
        |key: &mut Key| -> U
            requires key { IsKey cell.now.table.shared.table_id key.old }
            requires callable { W.IsAlwaysCallable work }
            ensures key { IsKey cell.entry.now.table.shared.table_id key.new }
            ensures done { (x : T) × (y : T) × FnOnceReturnsAtMut W.FnOnce work x result y }
        { cell.with(key, work) },
    )
}

// Works once on the own value of a lock with copies, and tells what it is then.
pub(crate) fn work_on_own<T: Copy + Drop, U, W: FnOnce(&mut T) -> U>(
    cpu: &mut Cpu,
    domain: &Domain,
    shared: &Shared<T>,
    work: W,
) -> (U, T)
    requires ready { IsReady domain.now cpu.old }
    requires lock { IsSharedUnder domain.now.plan shared.now.id.index
        (names_of shared.now.cells.items) }
    requires held { IsHomeWith shared.now.id.index (holds_of cpu.old) }
    requires callable { W.IsAlwaysCallable work }
    ensures still { IsStill cpu.old cpu.new }
    ensures done { (x : T) × FnOnceReturnsAtMut W.FnOnce work x result.0 result.1 }
{
    let cell = shared.cells.get(0);
    work_under(
        cpu,
        domain,
        shared.id,
        cell,
        |value: &mut T| -> (U, T)
            requires callable { W.IsAlwaysCallable work }
            ensures done { FnOnceReturnsAtMut W.FnOnce work value.old result.0 result.1 }
        {
            let done = work(value);
            (done, *value)
        },
    )
}

// The cell of the copy for the processor of this number.
pub(crate) fn copy_of<'a, T>(
    domain: &Domain,
    shared: &'a Shared<T>,
    number: u32,
) -> &'a KeyCell<T, Any>
    requires lock { IsSharedUnder domain.now.plan shared.now.id.index
        (names_of shared.now.cells.items) }
    requires number { number < cpus_of domain.now.plan }
    ensures { cell_of domain.now.plan (copy_at domain.now.plan shared.now.id.index number)
        ≡ Some result.now.table.shared.table_id }
{
    shared.cells.get(1 + number as usize)
}

// Sets the copy of a value for the processor of this number to this. The lock is held alone, or by the
// reader with this number.
fn set_copy<T: Copy + Drop>(
    cpu: &mut Cpu,
    domain: &Domain,
    shared: &Shared<T>,
    number: u32,
    value: T,
)
    requires ready { IsReady domain.now cpu.old }
    requires lock { IsSharedUnder domain.now.plan shared.now.id.index
        (names_of shared.now.cells.items) }
    requires number { number < cpus_of domain.now.plan }
    requires held { MayCopy shared.now.id.index number (view_of cpu.old) }
    ensures { IsStill cpu.old cpu.new }
{
    let cell = copy_of(domain, shared, number);
    with_copy(
        cpu,
        domain,
        shared.id,
        number,
        |key: &mut Key|
            requires { IsKey cell.now.table.shared.table_id key.old }
            ensures { IsKey cell.entry.now.table.shared.table_id key.new }
        { cell.with(key, |copy: &mut T| *copy = value) },
    );
}

// Sets each copy of a value to this. The lock is held by its writer.
pub(crate) fn set_copies<T: Copy + Drop>(
    cpu: &mut Cpu,
    domain: &Domain,
    shared: &Shared<T>,
    value: T,
)
    requires ready { IsReady domain.now cpu.old }
    requires lock { IsSharedUnder domain.now.plan shared.now.id.index
        (names_of shared.now.cells.items) }
    requires held { (before : Cpu) × IsHolding shared.now.id.index Writes before cpu.old }
    ensures { IsStill cpu.old cpu.new }
{
    let sockets = &domain.plan.topology.sockets;
    prove!(sockets.len() <= MOST_CPUS);
    for number in 0..sockets.len() as u32 {
        set_copy(cpu, domain, shared, number, value);
    }
}
