// What may interrupt a call that waits.
ghost use Rattle.std.specs.Prelude.{◌≡◌, ℕ, Bool, false, Option, None};
ghost use Rattle.lk_domain.specs.Paths.{AreKept, Passes, is_busy};
ghost use Rattle.lk_domain.specs.Seats.{IsOf, KeepsRest, calls_of, ledger_of};
ghost use Rattle.lk_run.specs.Polls.{Rises, GivesWay};

use lk_domain::{Cpu, Domain};
use std::sync::Wait;

/// An interrupt source: what may run on a processor while a call waits there. Its handler may
/// acquire other locks on that processor, and must release each of them before it returns.
pub trait Irq {
    // Whether its handler may make calls on locks. `lock` then says that it took one lock, unless a
    // handler ran; where this is false, it says so without condition.
    ghost nests: { Bool };
    // How often it was polled, up to the last value of a `u64`, where it tells it. It tells it
    // always, or never.
    ghost polls: { Self → Option ℕ };

    /// Runs between two polls of the lock, after each failed one. The handler must leave the
    /// processor's calls, its critical sections and its place in the ledger unchanged. There is
    /// no error.
    fn poll<R: Wait>(&mut self, cpu: &mut Cpu, rt: &R, domain: &Domain)
        requires { IsOf cpu.old domain.now }
        ensures rest { KeepsRest cpu.old cpu.new }
        ensures calls { AreKept (calls_of cpu.old) (calls_of cpu.new) }
        ensures ledger { Passes (is_busy (calls_of cpu.old)) (ledger_of cpu.old)
            (ledger_of cpu.new) }
        ensures polls { Rises (polls self.old) (polls self.new) }
        ensures quiet { nests ≡ false → calls_of cpu.new ≡ calls_of cpu.old };
}

/// An interrupt source that never interrupts.
#[derive(Clone, Copy, Drop)]
pub struct NoIrq;

impl Irq for NoIrq {
    ghost nests = { false };

    ghost polls = { λ _. None };

    fn poll<R: Wait>(&mut self, _cpu: &mut Cpu, _rt: &R, _domain: &Domain) {}
}

// Between two turns a call gives way to what interrupts it, by a poll.
pub(crate) fn give_way<I: Irq, R: Wait>(cpu: &mut Cpu, rt: &R, domain: &Domain, irq: &mut I)
    requires { IsOf cpu.old domain.now }
    ensures { GivesWay I.nests cpu.old (I.polls irq.old) cpu.new (I.polls irq.new) }
{
    irq.poll(cpu, rt, domain);
}
