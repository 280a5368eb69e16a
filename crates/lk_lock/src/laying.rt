// The keys of all cells in the order of a domain's homes: first one of each lock, the key of its own value,
// and then for one processor after the other those of its copies.
ghost use Rattle.std.specs.Prelude.{◌≡◌, ◌+◌, ◌≤◌, ◌++◌, IfOk, length, slice_get};
ghost use Rattle.lk_domain.specs.declared.plan.TheConstants.{MOST_CPUS, MOST_LOCKS};
ghost use Rattle.lk_lock.specs.Cells.{all_behind, behind, firsts, laid};

use lk_cell::Key;
use lk_names::{List, Memory};
use std::alloc::Global;

// Takes the first key of a lock, if one is left.
fn take_first(keys: &mut List<Key>) -> Option<Key>
    ensures key { result ≡ slice_get keys.old.items 0 }
    ensures left { keys.new ≡ behind keys.old }
{
    if keys.len() > 0 {
        Some(keys.pop_front())
    } else {
        None
    }
}

// Takes the first key of each lock.
fn take_firsts(all: &mut List<Option<Key>>, keys: &mut List<List<Key>>)
    requires room { length all.old.items + length keys.old.items ≤ all.old.room }
    ensures all { all.new ≡ record all.old { items = all.old.items ++ firsts keys.old.items } }
    ensures keys { keys.new ≡ record keys.old { items = all_behind keys.old.items } }
{
    for lock in 0..keys.len() {
        all.push(take_first(keys.get_mut(lock)));
    }
}

// So many keys of each lock.
pub(crate) fn laid_out(
    alloc: Global,
    mut keys: List<List<Key>>,
    values: u32,
) -> Result<List<Option<Key>>, Memory>
    requires few { (length keys.items ≤ MOST_LOCKS) × (values ≤ 1 + MOST_CPUS) }
    ensures { IfOk result (λ all. all.items ≡ laid values keys.items) }
{
    let mut all = List::new(alloc, values as usize * keys.len())?;
    for _ in 0..values {
        take_firsts(&mut all, &mut keys);
    }
    Ok(all)
}
