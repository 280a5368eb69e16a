// Whether a processor may wait for a lock of a rank: a program that cannot prove its order asks.
ghost use Rattle.std.specs.Prelude.{◌≡◌, ◌↔◌, IsTrue, false};
ghost use Rattle.lk_domain.specs.Seats.{calls_of};
ghost use Rattle.lk_law.specs.Agree.{halts};
ghost use Rattle.lk_ranks.specs.Above.{IsAbove};

use lk_domain::{Cpu, LockId};

/// Whether the rank is above that of each lock which the processor holds, and of each for which a
/// call of it waits. Then it may wait for a lock of this rank. A processor whose family halts keeps no
/// note of what it holds: there only a proof tells.
pub fn is_above(cpu: &Cpu, rank: u32) -> bool
    requires awake { halts cpu.now.seat.me.0.who.plan.mode ≡ false }
    ensures asks { IsTrue result ↔ IsAbove rank (calls_of cpu.now) }
{
    for number in rank..cpu.locks() {
        let lock = LockId { index: number };
        if cpu.holds(lock) || cpu.waits(lock) {
            return false;
        }
    }
    true
}
