// The tables of a setup: an item for each processor.
ghost use Rattle.std.specs.Prelude.{◌≡◌, IfOk, replicate};
ghost use Rattle.lk_forms.specs.Grammar.{list_of, no_programs, no_handlers};

use crate::limits::MAX_HANDLERS;
use lk_names::{List, Memory};
use lk_rows::Op;
use std::alloc::Global;

/// Socket 0 for each of `cpus` processors.
pub(crate) fn zero_sockets(alloc: Global, cpus: usize) -> Result<List<u32>, Memory>
    ensures { IfOk result (λ list. list ≡ list_of cpus (replicate cpus 0)) }
{
    let mut sockets = List::new(alloc, cpus)?;
    for _cpu in 0..cpus {
        sockets.push(0);
    }
    Ok(sockets)
}

/// A program without operations for each of `cpus` processors.
pub(crate) fn no_programs(alloc: Global, cpus: usize) -> Result<List<List<Op>>, Memory>
    ensures { IfOk result (λ list. list ≡ no_programs cpus) }
{
    let mut programs = List::new(alloc, cpus)?;
    for _cpu in 0..cpus {
        let program = List::new(alloc, 0)?;
        programs.push(program);
    }
    Ok(programs)
}

/// An empty list of handlers for each of `cpus` processors.
pub(crate) fn no_handlers(alloc: Global, cpus: usize) -> Result<List<List<List<Op>>>, Memory>
    ensures { IfOk result (λ list. list ≡ no_handlers cpus) }
{
    let mut handlers = List::new(alloc, cpus)?;
    for _cpu in 0..cpus {
        let none = List::new(alloc, MAX_HANDLERS)?;
        handlers.push(none);
    }
    Ok(handlers)
}
