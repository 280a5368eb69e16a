// The laws of waits. The functions do nothing: their contracts are the laws.

ghost use Rattle.lk_rows.specs.declared.parts.Pc.{Pc};
ghost use Rattle.lk_waits.specs.Attended.{RowKeepsAttended};
ghost use Rattle.lk_waits.specs.Aside.{AtBayWaitForOutside, RowKeepsAside};
ghost use Rattle.lk_waits.specs.Halting.{AtRestWaitForOutside, RowKeepsServed, EndsKeepServed};
ghost use Rattle.lk_waits.specs.Order.{NoDeadlock, StuckWaitForOutside};
ghost use Rattle.lk_waits.specs.Followed.{RowKeepsFollowed};

/// In `virt` and `native`, in a sound world in which every processor polls for locks of a higher
/// level than all that its contexts hold or are at work on, and in which each queue head that waits
/// for its successor has one or one is coming: if no step leads any newest frame on, no newest frame
/// stands at a row. The holders of reader-writer locks, their wait locks and nested readers in
/// interrupts are among them. If a newest frame does, some context holds a lock while its processor is
/// at no row.
///
/// In `cna` the same is true where a queue head that turns on the spot counts as standing: nobody is
/// linked behind it, and its secondary queue, if there is one, cannot return.
///
/// In `pv` the same is true where a queue head that goes around without halting counts as standing:
/// another has stolen its lock, and does not know that the head is in the hash. Here no step leads on
/// a processor that has halted, until a kick of it is remembered.
pub fn no_deadlock()
    ensures none { NoDeadlock }
    ensures outside { StuckWaitForOutside }
    ensures aside { AtBayWaitForOutside }
    ensures halting { AtRestWaitForOutside }
{}

/// In `virt` and `native` every row keeps it that each queue head which waits for its successor has
/// one, or one is coming, if its processor has a node left where it enters the slow path. So the
/// lost successor needs a fifth context. In `cna` every row keeps it that such a head has one, or a
/// secondary queue that may return, or one is coming.
///
/// In `pv` every row, and every end of a halt, keeps it that a head which looks for its successor has
/// one, and that a head which halts is awaited: the byte of its lock is slow, or the holder that
/// handed off is about to look after it, or a kick of its processor is remembered, or the waiter that
/// freed this very lock is about to make it. No context needs a node for that.
///
/// In each of them every row of a newest context keeps it, whether it finds a node left or not, that
/// such a head has a successor, or one is coming, or a waiter polls for the lock without a node
/// (`IsAttended`). That one is in the fifth context of its processor, or above.
pub fn successors_come()
    ensures rows { (c : Pc) → RowKeepsFollowed c }
    ensures aside { (c : Pc) → RowKeepsAside c }
    ensures halting { (c : Pc) → RowKeepsServed c }
    ensures halt_ends { EndsKeepServed }
    ensures attended { (c : Pc) → RowKeepsAttended c }
{}
