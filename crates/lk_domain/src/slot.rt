// What lies in a slot of a domain's table.

use crate::ledger::Journal;
use lk_cell::Key;

/// What a slot has when it is not empty.
#[derive(Drop)]
pub enum Stowed {
    /// The first slot has the journal.
    Entries(Journal),
    /// Each slot behind it has the key of the cell in which a value lies: a lock's, or a copy.
    CellKey(Key),
}

/// A slot of a domain's table: the first is that of the journal, each behind it that of a value.
pub type Slot = Option<Stowed>;
