// The values of locks, once their domain is closed.
ghost use Rattle.std.specs.Prelude.{◌≡◌, Err, IfOk, Some, length, slice_get};
ghost use Rattle.atomic_table.specs.Seated.{TableId};
ghost use Rattle.lk_cell.specs.Latched.{IsKey};
ghost use Rattle.lk_domain.specs.Plans.{cpus_of};
ghost use Rattle.lk_lock.specs.Cells.{names_of};
ghost use Rattle.lk_lock.specs.Standing.{AllRest};

use crate::locks::{Rw, Spin};
use crate::opening::Open;
use crate::shared::Shared;
use lk_cell::Key;
use lk_domain::{CloseBack, LockId, close};
use lk_names::List;
use std::alloc::Global;

/// What opens the locks of a closed domain: each lock gives its value for it.
#[derive(Drop)]
pub struct Keys {
    // For each lock the key of the cell in which its value lies, until that has been given.
    by_lock: List<Option<Key>>,
}

impl Open {
    ghost use Rattle.lk_lock.specs.Ended.{HasAllKeys};

    /// Closes the domain. All its processors must be there, and none may hold a lock.
    ///
    /// # Errors
    ///
    /// There is not enough memory. The domain and its processors come back as they were.
    pub fn close(self, alloc: Global) -> Result<Keys, Open>
        requires all { length self.cpus.items ≡ cpus_of self.domain.plan }
        requires rest { AllRest self.domain self.cpus.items }
        ensures back { (b : Open) → result ≡ Err b → b ≡ self }
        ensures keys { IfOk result (λ keys. HasAllKeys self.domain.plan keys) }
    {
        let Open { domain, cpus } = self;
        match close(alloc, domain, cpus) {
            Ok(closed) => Ok(Keys {
                by_lock: closed.into_keys(),
            }),
            Err(CloseBack { domain, cpus }) => Err(Open { domain, cpus }),
        }
    }
}

impl Keys {
    ghost use Rattle.lk_lock.specs.Ended.{HasKeyOf, KeepsOthers};

    // Takes the key of a lock's value out.
    fn take(&mut self, id: LockId) -> Key
        requires here { (cell : TableId) × HasKeyOf self.old id.index cell }
        ensures key { (cell : TableId) → HasKeyOf self.old id.index cell → IsKey cell result }
        ensures others { KeepsOthers id.index self.old self.new }
    {
        match self.by_lock.get_mut(id.index as usize).take() {
            Some(key) => key,
            None => unreachable!(),
        }
    }
}

impl<T> Spin<T> {
    ghost use Rattle.lk_lock.specs.Ended.{HasKeyOf, KeepsOthers};

    /// The value under the lock, as its last holder left it.
    pub fn into_value(self, keys: &mut Keys) -> T
        requires key { HasKeyOf keys.old self.id.index self.cell.table.shared.table_id }
        ensures others { KeepsOthers self.id.index keys.old keys.new }
    {
        let Spin { id, cell } = self;
        cell.into_value(keys.take(id))
    }
}

impl<T> Rw<T> {
    ghost use Rattle.lk_lock.specs.Ended.{HasKeyOf, KeepsOthers};

    /// The value under the lock, as its last writer left it.
    pub fn into_value(self, keys: &mut Keys) -> T
        requires key { HasKeyOf keys.old self.id.index self.cell.table.shared.table_id }
        ensures others { KeepsOthers self.id.index keys.old keys.new }
    {
        let Rw { id, cell } = self;
        cell.into_value(keys.take(id))
    }
}

impl<T: Drop> Shared<T> {
    ghost use Rattle.lk_lock.specs.Ended.{HasKeyOf, KeepsOthers};

    /// The value under the lock, as its last writer left it. Its copies go.
    pub fn into_value(self, keys: &mut Keys) -> T
        requires key { (cell : TableId) × (slice_get (names_of self.cells.items) 0 ≡ Some cell)
            × HasKeyOf keys.old self.id.index cell }
        ensures others { KeepsOthers self.id.index keys.old keys.new }
    {
        let Shared { id, mut cells } = self;
        let cell = cells.pop_front();
        cell.into_value(keys.take(id))
    }
}
