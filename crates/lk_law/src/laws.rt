// The laws of the rows. The functions do nothing: their contracts are the laws.

ghost use Rattle.lk_rows.specs.declared.parts.Pc.{Pc};
ghost use Rattle.lk_rows.specs.declared.parts.Pc.TheVariants.{F1, T1, T2, U1, V1, V2, P0, P1};
ghost use Rattle.lk_rows.specs.declared.parts.Pc.TheVariants.{P2, P3, P4, G1, G2, G3, G4, G5};
ghost use Rattle.lk_rows.specs.declared.parts.Pc.TheVariants.{G6, G7, G8, G9, G10, G11, N1, N2};
ghost use Rattle.lk_rows.specs.declared.parts.Pc.TheVariants.{C1, C2, C3, C4, C5, C6, C7, C8};
ghost use Rattle.lk_rows.specs.declared.parts.Pc.TheVariants.{C9, C10, R1, R5, Wr1, Wr6, Z1, Z2};
ghost use Rattle.lk_law.specs.Known.{RowKnows, TailIsUsed, NextIsUsed, NodeIsOnes, ChoiceIsUsed};
ghost use Rattle.lk_law.specs.Known.{PassesAreBounded, RunsAreBounded, RunIsShort};
ghost use Rattle.lk_law.specs.Known.{SkippedIsQueued, AsideAreTasks};
ghost use Rattle.lk_law.specs.Known.{QueueIsDistinct, HaltingNextIsUsed, NamedFrontIsUsed};
ghost use Rattle.lk_law.specs.Known.{EntryIsUsed, NobodyHalts};
ghost use Rattle.lk_law.specs.Walk.{MainIsTheWalk, MainIsTheShownWalk, SecondIsTheWalk};
ghost use Rattle.lk_law.specs.SpinLaws.{SpinRowKeeps, SpinWakeKeeps, SpinNudgeKeeps, SpinIntKeeps};
ghost use Rattle.lk_law.specs.SpinLaws.{SpinBeginKeeps, SpinEndKeeps, RousedIsAwake, TopIsAwake};
ghost use Rattle.lk_law.specs.SpinLaws.{SpinInterruptKeeps};
ghost use Rattle.lk_law.specs.RwKnown.{RwRowKnows, ReadersAreFew};
ghost use Rattle.lk_law.specs.WorldLaws.{RowKeeps, BeginKeeps, EndKeeps, WakeKeeps, NudgeKeeps};
ghost use Rattle.lk_law.specs.WorldLaws.{IntKeeps, InterruptKeeps, FrontsAreOwed};
ghost use Rattle.lk_law.specs.Kicked.{RowShows, BeginShows, EndShows, WakeShows, NudgeShows};
ghost use Rattle.lk_law.specs.Kicked.{IntShows, IntAwakeShows, InterruptShows, SpinFrontsAreOwed};

/// Outside mode `cna` the main queue of a lock is the chain of nodes from the queue head's on.
/// Each node names the one behind it, or the waiter that met it as the tail will link its own. If
/// there is no queue head, the main queue is empty. This holds of every snapshot that agrees with
/// its histories.
#[tactic(auto, using(crate::proofs::queue::Walks::main_is_the_walk))]
pub fn main_is_the_walk()
    ensures walk { MainIsTheWalk }
{}

/// In mode `cna` the same holds of the main queue as it is shown. The waiters of the secondary
/// queue are left out. One link is put in if the head is about to hand off without it: to its
/// successor, from the last waiter that it moves aside or from its own node.
#[tactic(auto, using(crate::proofs::queue::Walks::main_is_the_shown_walk))]
pub fn main_is_the_shown_walk()
    ensures walk { MainIsTheShownWalk }
{}

/// In mode `cna` the secondary queue is the chain of nodes from its first node on. The queue head
/// knows the first node, by a register or by its flag.
pub fn second_is_the_walk()
    ensures walk { SecondIsTheWalk }
{}

/// Each row of the fast path, the try, the release, the test-and-set loop and the pending path
/// keeps every sound world, whatever word it meets. The world after the row is sound, with the
/// row's event added to the histories, and the event may follow on them.
pub fn spin_rows_keep()
    ensures fast { SpinRowKeeps F1 }
    ensures try_look { SpinRowKeeps T1 }
    ensures try_swap { SpinRowKeeps T2 }
    ensures release { SpinRowKeeps U1 }
    ensures loop_look { SpinRowKeeps V1 }
    ensures loop_swap { SpinRowKeeps V2 }
    ensures look_again { SpinRowKeeps P0 }
    ensures set_pending { SpinRowKeeps P1 }
    ensures clear_pending { SpinRowKeeps P2 }
    ensures watch { SpinRowKeeps P3 }
    ensures take_pending { SpinRowKeeps P4 }
{}

/// Each row of the queue keeps every sound world in the same way: the entry into the slow path,
/// the last try before the queue, the arrival and the link, the polls of the own flag, the rows of
/// the queue head up to its handoff, and the loop of a waiter without a node.
pub fn queue_rows_keep()
    ensures enter { SpinRowKeeps G1 }
    ensures look_again { SpinRowKeeps G2 }
    ensures swap_again { SpinRowKeeps G3 }
    ensures exchange_tail { SpinRowKeeps G4 }
    ensures link { SpinRowKeeps G5 }
    ensures wait { SpinRowKeeps G6 }
    ensures wait_as_front { SpinRowKeeps G7 }
    ensures take_sole { SpinRowKeeps G8 }
    ensures take_head { SpinRowKeeps G9 }
    ensures wait_for_next { SpinRowKeeps G10 }
    ensures hand_on { SpinRowKeeps G11 }
    ensures look_bare { SpinRowKeeps N1 }
    ensures swap_bare { SpinRowKeeps N2 }
{}

/// Each row in which a queue head of Dice and Kogan's lock chooses its successor keeps every sound
/// world in the same way. In these rows the head looks for a waiter that is local to it, moves
/// those that it passed over to the secondary queue, stores the count of handoffs, hands off, or
/// lets the secondary queue return. A handoff moves only waiters that are not local, and goes to
/// the waiter behind them.
pub fn choice_rows_keep()
    ensures look { SpinRowKeeps C1 }
    ensures pass_over { SpinRowKeeps C2 }
    ensures find_tail { SpinRowKeeps C3 }
    ensures append { SpinRowKeeps C4 }
    ensures cut { SpinRowKeeps C5 }
    ensures set_tail { SpinRowKeeps C6 }
    ensures count { SpinRowKeeps C7 }
    ensures hand_on { SpinRowKeeps C8 }
    ensures flush { SpinRowKeeps C9 }
    ensures promote { SpinRowKeeps C10 }
{}

/// In every sound world no waiter of a secondary queue was passed by more handoffs than the
/// threshold, and no node's count of handoffs is above it. A queue head that is about to store the
/// count of handoffs, with a secondary queue, has counted fewer than the threshold.
pub fn passes_are_bounded()
    ensures bounded { PassesAreBounded }
    ensures runs { RunsAreBounded }
    ensures short { RunIsShort }
{}

/// In every sound world of format 2 no waiter in an interrupt stands in a secondary queue.
pub fn aside_are_tasks()
    ensures { AsideAreTasks }
{}

/// Six rows of readers and writers keep every sound world, whatever word they meet: the first row
/// of a reader and of a writer, a reader's poll with the wait lock held, a writer's claim, and the
/// two releases. `every_row_keeps` has the others.
pub fn rw_rows_keep()
    ensures reader_first { RowKeeps R1 }
    ensures reader_wait { RowKeeps R5 }
    ensures writer_first { RowKeeps Wr1 }
    ensures writer_claim { RowKeeps Wr6 }
    ensures reader_release { RowKeeps Z1 }
    ensures writer_release { RowKeeps Z2 }
{}

/// Every row keeps every sound world, in each mode, with spinlocks, reader-writer locks and their
/// wait locks. The event of the row may follow on the histories.
pub fn every_row_keeps()
    ensures rows { (c : Pc) → RowKeeps c }
{}

/// What happens to a frame between its operations keeps every sound world, and the histories stay.
/// A frame begins an operation, if its waiter holds the lock as the verb asks. Or a frame at no
/// row comes, goes or changes. It comes only if no frame of its processor has halted the
/// processor, or is about to. `spin_begin` and `spin_end` say so of spinlocks and wait locks
/// alone, and `begin` and `end` of all locks.
pub fn frames_keep()
    ensures spin_begin { SpinBeginKeeps }
    ensures spin_end { SpinEndKeeps }
    ensures begin { BeginKeeps }
    ensures end { EndKeeps }
{}

/// The end of a halt keeps every sound world, and its event may follow on the histories. A halt
/// ends by a kick, which is remembered no more, by a nudge, or by an interrupt.
///
/// A processor has halted only with its newest frame at a row at which it halts (W6, E12), and
/// only in mode `pv`. After the end of a halt, or if the newest frame stands at another row, no
/// frame of the processor has halted it or is about to, so that the frame of an interrupt may
/// come.
pub fn halts_end()
    ensures spin_wake { SpinWakeKeeps }
    ensures spin_nudge { SpinNudgeKeeps }
    ensures spin_interrupt { SpinIntKeeps }
    ensures roused { RousedIsAwake }
    ensures top { TopIsAwake }
    ensures nobody { NobodyHalts }
    ensures spin_interrupted { SpinInterruptKeeps }
    ensures wake { WakeKeeps }
    ensures nudge { NudgeKeeps }
    ensures interrupt { IntKeeps }
    ensures interrupted { InterruptKeeps }
{}

/// The events say of halts and kicks what the world shows: which waiters have halted, which kicks
/// are remembered, and how many kicks a release has still to make. Each row keeps this, and so
/// does what happens between operations and at the end of a halt. While it holds, a queue head
/// that has halted on a free lock has a kick pending in the history.
pub fn kicks_are_shown()
    ensures rows { (c : Pc) → RowShows c }
    ensures begin { BeginShows }
    ensures end { EndShows }
    ensures wake { WakeShows }
    ensures nudge { NudgeShows }
    ensures interrupt { IntShows }
    ensures interrupt_awake { IntAwakeShows }
    ensures interrupted { InterruptShows }
    ensures spin_owed { SpinFrontsAreOwed }
    ensures owed { FrontsAreOwed }
{}

/// What a row meets in every sound world: what its lock's word and the nodes are, and in mode `pv`
/// the lock's entry in the hash. For example the word at U1 is held, and the flag at G11 is unset.
pub fn rows_know()
    ensures rows { (c : Pc) → RowKnows c }
{}

/// What a row of a reader or a writer meets in every sound world. For example a reader that
/// releases meets a word that counts at least one reader. If waiters without a frame hold nothing,
/// a word counts no more readers than there are waiters.
pub fn rw_rows_know()
    ensures rows { (c : Pc) → RwRowKnows c }
    ensures few { ReadersAreFew }
{}

/// Who uses which node, in every sound world.
///
/// At most one waiter uses a node, and it is one of the four of that waiter's processor. A tail is
/// the node of a waiter that uses it. The node to which a queue head is about to hand off is used
/// by the second of the queue. Each waiter of a main queue has a frame, and stands in the queue
/// once. The node on which a row of the CNA choice operates is used, and the last waiter that a
/// CNA queue head has passed over stands in the main queue, as far behind the head as it has
/// counted.
///
/// In mode `pv`, the queue head uses the node of a lock's entry in the hash, the node that a
/// holder looks after (K1 to K3), and the node whose processor a release will kick (U4).
pub fn nodes_are_used()
    ensures tail { TailIsUsed }
    ensures next { NextIsUsed }
    ensures once { NodeIsOnes }
    ensures choice { ChoiceIsUsed }
    ensures skipped { SkippedIsQueued }
    ensures distinct { QueueIsDistinct }
    ensures halting_next { HaltingNextIsUsed }
    ensures named_front { NamedFrontIsUsed }
    ensures entry { EntryIsUsed }
{}
