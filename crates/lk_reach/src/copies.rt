// Copies of a setup. A list says how many items it has room for, and nobody can ask it. So a copy has
// room for its items and no more, and all copies of a setup are equal.

ghost use Rattle.std.specs.Prelude.{◌≡◌, IfOk, map};
ghost use Rattle.lk_rows.specs.Programs.{IsLawfulSetup};
ghost use Rattle.lk_reach.specs.Copies.{full, tight, tight_lists, tight_setup};

use lk_names::{List, Memory, Topology};
use lk_rows::{Op, Setup};
use std::alloc::Global;

// A copy of a list.
fn copied<T: Copy>(alloc: Global, list: &List<T>) -> Result<List<T>, Memory>
    ensures { IfOk result (λ copy. copy ≡ tight list.now) }
{
    List::from_slice(alloc, list.as_slice())
}

// A copy of programs.
fn programs(alloc: Global, list: &List<List<Op>>) -> Result<List<List<Op>>, Memory>
    ensures { IfOk result (λ copy. copy
        ≡ tight_lists list.now) }
{
    let mut copy = List::new(alloc, list.len())?;
    for at in 0..list.len() {
        let from = list.get(at);
        let item = copied(alloc, from)?;
        copy.push(item);
    }
    Ok(copy)
}

// A copy of the handlers of all processors.
fn handlers(alloc: Global, list: &List<List<List<Op>>>) -> Result<List<List<List<Op>>>, Memory>
    ensures { IfOk result (λ copy. copy
        ≡ full (map tight_lists list.now.items)) }
{
    let mut copy = List::new(alloc, list.len())?;
    for at in 0..list.len() {
        let from = list.get(at);
        let item = programs(alloc, from)?;
        copy.push(item);
    }
    Ok(copy)
}

/// A copy of a setup, with room for what it has and no more. All its copies are equal.
///
/// # Errors
///
/// There is not enough memory.
pub fn copy_of(alloc: Global, setup: &Setup) -> Result<Setup, Memory>
    requires lawful { IsLawfulSetup setup.now }
    ensures copy { IfOk result (λ copy. copy ≡ tight_setup setup.now) }
    ensures lawful { IfOk result IsLawfulSetup }
{
    let sockets = copied(alloc, &setup.topology.sockets)?;
    let locks = copied(alloc, &setup.locks)?;
    let progs = programs(alloc, &setup.progs)?;
    let irqs = handlers(alloc, &setup.irqs)?;
    Ok(Setup {
        format: setup.format,
        mode: setup.mode,
        topology: Topology { sockets },
        threshold: setup.threshold,
        spins: setup.spins,
        locks,
        progs,
        irqs,
    })
}
