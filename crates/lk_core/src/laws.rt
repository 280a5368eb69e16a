// The laws of machines. The functions do nothing: their contracts are the laws.

ghost use Rattle.std.specs.Prelude.{◌≡◌, ◌+◌, ℕ};
ghost use Rattle.lk_names.specs.declared.events.Act.{Act as ActValue};
ghost use Rattle.lk_rows.specs.Machine.{Machine as MachineValue};
ghost use Rattle.lk_rows.specs.Acts.{next};
ghost use Rattle.lk_machine.specs.Ready.{CountsWithin};
ghost use Rattle.lk_law.specs.MachineLaws.{ActKeeps, RestShows, RunKeeps};
ghost use Rattle.lk_core.specs.Ready.{RowsAreReady};

/// Every act of every processor keeps the history of every machine lawful. A machine that shows a
/// lawful history shows, after the act, that history with the act's event, and this history is
/// lawful.
pub fn acts_keep()
    ensures keep { ActKeeps }
{}

/// A machine at rest shows the empty history, which is lawful.
pub fn rest_shows()
    ensures rest { RestShows }
{}

/// Every schedule of a machine at rest has a lawful history, and the machine shows that history
/// after the schedule.
pub fn runs_keep()
    ensures run { RunKeeps }
{}

/// A sound machine is ready for each row that a step makes. If a step is not idle, and its
/// processor has not halted, then the newest frame stands at a row, and the machine has what the
/// function of the row's family asks for. So a caller may step a sound machine row by row, by
/// `spin_row`, `queue_row`, `cna_row`, `pv_row` and `rw_row`, while no count is above 2^64 - 2.
pub fn rows_are_ready()
    ensures ready { RowsAreReady }
{}

/// No act changes the setup of a machine. If no count is above n before an act, then none is above
/// n + 1 after it.
pub fn acts_change_little()
    ensures setup { (m : MachineValue) (a : ActValue) → (next m a).0.setup ≡ m.setup }
    ensures counts { (n : ℕ) (m : MachineValue) (a : ActValue) → CountsWithin n m.counts
        → CountsWithin (n + 1) (next m a).0.counts }
{}
