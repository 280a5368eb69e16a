// The entries of a ledger, in their order.
ghost use Rattle.std.specs.Prelude.{◌≡◌, ◌<◌, [], ◌∷◌, ◌++◌, IfOk, length};

use lk_names::{Entry, List, Memory};
use std::alloc::Global;

/// The entries of a ledger, in order. Its memory is taken when the journal is made.
#[derive(Drop)]
pub struct Journal {
    pub(crate) entries: List<Entry>,
}

impl Journal {
    /// An empty journal with room for so many entries.
    ///
    /// # Errors
    ///
    /// There is not enough memory.
    pub fn new(alloc: Global, room: usize) -> Result<Journal, Memory>
        ensures { IfOk result (λ journal. journal.entries ≡ record { items = []; room = room }) }
    {
        let entries = List::new(alloc, room)?;
        Ok(Journal { entries })
    }

    /// Appends an entry. There must be room for it.
    pub fn push(&mut self, entry: Entry)
        requires { length self.old.entries.items < self.old.entries.room }
        ensures { self.new.entries
            ≡ record self.old.entries { items = self.old.entries.items ++ entry ∷ [] } }
    {
        self.entries.push(entry);
    }

    /// The number of its entries.
    pub fn count(&self) -> usize
        ensures { result ≡ length self.now.entries.items }
    {
        self.entries.len()
    }

    /// Its entries, as a list with the same room.
    pub fn into_list(self) -> List<Entry>
        ensures { result ≡ self.entries }
    {
        self.entries
    }
}
