// A list in memory that was taken at its start.
ghost use Rattle.std.specs.Prelude.{◌≡◌, ◌<◌, [], ◌∷◌, ◌++◌, IfOk, length, slice_get, Some, replicate};
ghost use Rattle.std.specs.Borrow.{sem};
ghost use Rattle.std.specs.List.{remove};

use crate::memory::Memory;
use std::alloc::Global;
use std::marker::Model;

/// A list whose memory is taken when it is made. Contracts see its items and its room, which is
/// the most items that it can hold. No call changes the room.
#[derive(Drop)]
pub struct List<T> {
    items: Vec<T>,
    room: usize,
}

impl<T> Model for List<T> {
    ghost use Rattle.std.specs.Prelude.{◌≤◌, vec_capacity};
    ghost use Rattle.lk_names.specs.ListOf.{ListOf};

    ghost Value = { ListOf T };

    ghost view = { λ list. record { items = list.items.items; room = list.room } };

    ghost invariant = { λ list. list.room ≤ vec_capacity list.items };
}

impl<T> List<T> {
    ghost use Rattle.lk_names.specs.ListLends.{LendsItem, LendsItems};

    /// An empty list with room for so many items.
    ///
    /// # Errors
    ///
    /// There is not enough memory.
    pub fn new(alloc: Global, room: usize) -> Result<List<T>, Memory>
        ensures { IfOk result (λ list. list ≡ record { items = []; room = room }) }
    {
        let items = Vec::with_capacity(alloc, room)?;
        Ok(List { items, room })
    }

    /// Appends an item. There must be room for it.
    pub fn push(&mut self, item: T)
        requires { length self.old.items < self.old.room }
        ensures { self.new ≡ record self.old { items = self.old.items ++ item ∷ [] } }
    {
        match self.items.push(item) {
            Ok(()) => {}
            Err(_) => unreachable!(),
        }
    }

    /// Removes the last item and returns it.
    pub fn pop(&mut self) -> T
        requires { 0 < length self.old.items }
        ensures items { self.old.items ≡ self.new.items ++ result ∷ [] }
        ensures room { self.new.room ≡ self.old.room }
    {
        match self.items.pop() {
            Some(item) => item,
            None => unreachable!(),
        }
    }

    /// Removes the first item and returns it. The other items move one place towards the front.
    pub fn pop_front(&mut self) -> T
        requires { 0 < length self.old.items }
        ensures items { self.old.items ≡ result ∷ self.new.items }
        ensures room { self.new.room ≡ self.old.room }
    {
        self.as_mut_slice().rotate_left(1);
        self.pop()
    }

    /// Removes the item at this place and returns it. The later items move one place towards the
    /// front.
    pub fn remove(&mut self, at: usize) -> T
        requires { at < length self.old.items }
        ensures item { slice_get self.old.items at ≡ Some result }
        ensures items { self.new ≡ record self.old { items = remove self.old.items at } }
    {
        self.items.remove(at)
    }

    /// Inserts an item at the front. The other items move one place towards the end. There must be
    /// room for it.
    pub fn push_front(&mut self, item: T)
        requires { length self.old.items < self.old.room }
        ensures { self.new ≡ record self.old { items = item ∷ self.old.items } }
    {
        self.push(item);
        self.as_mut_slice().rotate_right(1);
    }

    /// The number of items.
    pub fn len(&self) -> usize
        ensures { result ≡ length self.now.items }
    {
        self.items.len()
    }

    /// The item at this place, counted from 0.
    pub fn get(&self, at: usize) -> &T
        requires { at < length self.now.items }
        ensures { slice_get self.now.items at ≡ Some result.now }
    {
        &self.items[at]
    }

    /// The item at this place, counted from 0, for writing.
    pub fn get_mut(&mut self, at: usize) -> &mut T
        requires { at < length self.old.items }
        ensures* writes_back { sem 𝓛 (LendsItem T.row self.entry at result) }
        ensures value { slice_get self.old.items at ≡ Some result.now }
    {
        &mut self.items[at]
    }

    /// All items.
    pub fn as_slice(&self) -> &[T]
        ensures { result.now ≡ self.now.items }
    {
        self.items.as_slice()
    }

    /// All items, for writing.
    pub fn as_mut_slice(&mut self) -> &mut [T]
        ensures* writes_back { sem 𝓛 (LendsItems T.row self.entry result) }
        ensures value { result.now ≡ self.old.items }
    {
        self.items.as_mut_slice()
    }
}

impl<T: Drop> List<T> {
    /// Removes all items. The room stays.
    pub fn clear(&mut self)
        ensures { self.new ≡ record self.old { items = [] } }
    {
        self.items.clear();
    }
}

impl<T: Copy> List<T> {
    /// A list of these items, with room for no more.
    ///
    /// # Errors
    ///
    /// There is not enough memory.
    pub fn from_slice(alloc: Global, items: &[T]) -> Result<List<T>, Memory>
        ensures { IfOk result (λ list. list
            ≡ record { items = items.now; room = length items.now }) }
    {
        let room = items.len();
        let items = Vec::from_slice(alloc, items)?;
        Ok(List { items, room })
    }

    /// A list of so many copies of one item, with room for no more.
    ///
    /// # Errors
    ///
    /// There is not enough memory.
    pub fn filled(alloc: Global, item: T, count: usize) -> Result<List<T>, Memory>
        ensures { IfOk result (λ list. list
            ≡ record { items = replicate count item; room = count }) }
    {
        let mut list = List::new(alloc, count)?;
        for _ in 0..count {
            list.push(item);
        }
        Ok(list)
    }
}
