// The acts by which a state was first met.

ghost use Rattle.std.specs.Prelude.{◌<◌, IfOk, length, reverse};
ghost use Rattle.lk_reach.specs.Path.{AreLow, IsBefore, IsPath};

use crate::book::Book;
use crate::plan::{Plan, add};
use lk_names::{Act, Memory};
use std::alloc::Global;

// The state from which a state was first met, and the act.
fn before(plan: &Plan, book: &Book, state: usize) -> (usize, Act)
    requires low { AreLow plan.now book.now }
    requires there { state < length book.now.origins }
    requires up { 0 < state }
    ensures { IsBefore plan.now book.now state result.0 result.1 }
{
    let origin = book.origin(state);
    (origin.state as usize, plan.act(origin.act as usize))
}

// The acts by which a state was first met, the last one first.
fn acts_back(alloc: Global, plan: &Plan, book: &Book, state: usize) -> Result<Vec<Act>, Memory>
    requires low { AreLow plan.now book.now }
    requires there { state < length book.now.origins }
    ensures { IfOk result (λ acts. IsPath plan.now book.now 0 state (reverse acts.items)) }
{
    let mut acts = Vec::with_capacity(alloc, book.level(state) as usize)?;
    let mut here = state;
    for _made in 0..state {
        if here == 0 {
            return Ok(acts);
        }
        let (before, doing) = before(plan, book, here);
        add(&mut acts, doing)?;
        here = before;
    }
    Ok(acts)
}

/// The acts by which a state was first met, from the first state on.
///
/// # Errors
///
/// There is not enough memory.
pub(crate) fn path_to(
    alloc: Global,
    plan: &Plan,
    book: &Book,
    state: usize,
) -> Result<Vec<Act>, Memory>
    requires low { AreLow plan.now book.now }
    requires there { state < length book.now.origins }
    ensures { IfOk result (λ acts. IsPath plan.now book.now 0 state acts.items) }
{
    let mut acts = acts_back(alloc, plan, book, state)?;
    acts.reverse();
    Ok(acts)
}
