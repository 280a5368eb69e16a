// What the rule of the table says, as clauses of functions that do nothing.
ghost use Rattle.lk_pvdomain.specs.Laws.{FrontIsKicked, EntryIsFound};

/// Between any two steps of any threads: if the queue head of a free lock has halted, or is about
/// to halt, then the kick word of its processor is set, or a release is about to kick that
/// processor.
pub fn fronts_are_kicked()
    ensures kicked { FrontIsKicked }
{}

/// Between any two steps of any threads: a release that seeks its entry in the hash has a place
/// left that it has not read. So it finds the entry, and reads each place at most once.
pub fn entries_are_found()
    ensures found { EntryIsFound }
{}
