// The laws of progress. The functions do nothing: their contracts are the laws.

ghost use Rattle.lk_rows.specs.declared.parts.Pc.{Pc};
ghost use Rattle.lk_progress.specs.Measure.{RowDescends, BeginIsShort};
ghost use Rattle.lk_progress.specs.Potential.{ActsLower, PriceFalls, RunsAreShort};
ghost use Rattle.lk_progress.specs.HaltingMeasure.{HaltingRowDescends, HaltingBeginIsShort, RowKeepsSpins};
ghost use Rattle.lk_progress.specs.HaltingPrice.{HaltingActsLower, HaltingPriceFalls};
ghost use Rattle.lk_progress.specs.HaltingPrice.{HaltingRunsAreShort, HaltingRunsEnd};
ghost use Rattle.lk_progress.specs.Fair.{FairRunsFinish, HaltingFairRunsFinish};
ghost use Rattle.lk_progress.specs.Turns.{TakesInTurn, NobodyWatchesAnew};
ghost use Rattle.lk_progress.specs.InTurn.{FewTakesBefore, FewerUnwatched, FewTakesFromArrival};
ghost use Rattle.lk_progress.specs.InTurn.{FewTakesAside, FewTakesAsideFromArrival};
ghost use Rattle.lk_progress.specs.Runs.{OrderedRunsGoOn, OrderedRunsGoOnAside, SomebodyMovesOn, RunsEnd, NativeRunsEnd};
ghost use Rattle.lk_progress.specs.Runs.{OrderedRunsGoOnHalting, SomebodyLeadsOnAside, SomebodyLeadsOnHalting};

/// No schedule of an ordered setup of `virt` or `native` comes to a deadlock. In the machine after
/// any schedule, if no processor is preempted and no step of any processor changes anything, every
/// processor has finished. In `native` each processor must have at most three handlers. Or, said
/// outright: all have finished, or the next step of some processor changes the machine.
///
/// In `cna` the same is true where a queue head that turns on the spot counts as standing.
///
/// In `pv` the same is true where a queue head that goes around counts as standing, for any number of
/// handlers.
pub fn ordered_runs_go_on()
    ensures stuck { OrderedRunsGoOn }
    ensures moves { SomebodyMovesOn }
    ensures aside { OrderedRunsGoOnAside }
    ensures leads_aside { SomebodyLeadsOnAside }
    ensures halting { OrderedRunsGoOnHalting }
    ensures leads { SomebodyLeadsOnHalting }
{}

/// Where no processor halts every run is short, with readers and writers, tries, interrupts, and any
/// number of handlers. An operation has at most 22 rows, and 8 more in `cna`, but for turns: a waiter that
/// polls a word and swaps it polls anew where another came in between; and a head of `cna` looks for its
/// successor, and walks along the queue. An act changes nothing; or it lowers the budget, which counts the
/// rows that are left and the handlers that are still to come; or it is a row of a turn; or it leads nobody
/// on: a pause, or a step of a head of `cna` that turns on the spot. A turn has few rows until somebody
/// changes what it looks at, and then the budget is lower. So every act that changes something and leads
/// somebody on lowers the price: each row of the budget costs one, and as much as it may lengthen the turns
/// of the six frames that each processor can have. No run has more such acts than the price at its
/// beginning.
///
/// In `native`, with spinlocks alone and at most three handlers a processor, nobody is ever in a turn. There
/// every run from rest has at most as many changing acts as the budget says.
///
/// Where processors halt, in `pv`, the same is true of an operation of at most 27 rows, with three more
/// things that are counted. A turn is as long as the spin bound: a waiter spins before it halts. A kick that is
/// remembered will end a halt, and so renew a turn: who makes it pays for that. And a nudge ends a halt without a
/// kick, so each may cost as much as a row of the budget. Who leads nobody on is a head that goes around, since
/// another has stolen its lock: it leaves the price. So no run from rest has more acts that change something and
/// lead somebody on than the budget and the nudges, times what a row may cost.
pub fn operations_are_short()
    ensures rows { (c : Pc) → RowDescends c }
    ensures begin { BeginIsShort }
    ensures acts { ActsLower }
    ensures falls { PriceFalls }
    ensures runs { RunsAreShort }
    ensures ends { RunsEnd }
    ensures native { NativeRunsEnd }
    ensures halting_rows { (c : Pc) → HaltingRowDescends c }
    ensures halting_begin { HaltingBeginIsShort }
    ensures halting_spins { (c : Pc) → RowKeepsSpins c }
    ensures halting_acts { HaltingActsLower }
    ensures halting_falls { HaltingPriceFalls }
    ensures halting_runs { HaltingRunsAreShort }
    ensures halting_ends { HaltingRunsEnd }
{}

/// Everybody finishes under a fair schedule, in an ordered setup of `virt`, `native` or `cna`. In the last two
/// no processor may have more than three handlers. If again and again a round comes in which nobody is preempted and
/// each processor makes a step, there is a moment at which every processor has finished. What happens
/// between two rounds does not matter, and interrupts may come at any time.
///
/// In `pv` the same is true for any number of handlers, if from some moment on no nudge changes anything. A
/// halted processor makes no step until it is kicked, and its turn in a round counts none the less.
pub fn fair_runs_finish()
    ensures finish { FairRunsFinish }
    ensures halting { HaltingFairRunsFinish }
{}

/// Where no processor halts, while a waiter stands in the queue of a lock, only two may acquire it: the
/// queue head, and the one waiter that has set the pending bit before there was a queue. For nobody
/// comes to wait by the pending bit while there is a queue.
pub fn takes_are_in_turn()
    ensures turn { (c : Pc) → TakesInTurn c }
    ensures anew { (c : Pc) → NobodyWatchesAnew c }
{}

/// A queued waiter sees few takes before its own. In `virt` and `native`, over every history: from its
/// arrival in the queue it sees at most as many takes of the lock before its own as there were waiters
/// in the queue, and one. The one is that of a waiter which had set the pending bit: where nobody waits
/// by it, the takes are no more than the waiters before it. The same is true from any later moment on.
///
/// In `cna` each waiter before it may let as many others pass as the threshold says. So the takes are at
/// most the waiters of both queues, times the threshold and one; and one.
pub fn takes_before_are_few()
    ensures waiting { FewTakesBefore }
    ensures unwatched { FewerUnwatched }
    ensures arrival { FewTakesFromArrival }
    ensures aside { FewTakesAside }
    ensures aside_arrival { FewTakesAsideFromArrival }
{}
