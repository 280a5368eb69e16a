// A domain whose waiters halt, and its processors.
ghost use Rattle.std.specs.Prelude.{◌≡◌, ◌<◌, true};
ghost use Rattle.lk_domain.specs.Plans.{accounts_of, cpus_of, locks_of};
ghost use Rattle.lk_law.specs.Agree.{halts};

use crate::kicks;
use crate::layout::state_of;
use crate::states::RUNNING;
use lk_domain::{Cpu, Domain, HasDomain, LockId};
use lk_word::NodeName;
use std::sync::Wait;

/// Paravirtual locks that threads acquire, and a ledger that lock 0 guards.
#[derive(Drop)]
pub struct PvDomain {
    /// The domain. The `threshold` of its plan is the spin bound of the waiters, in turns.
    pub domain: Domain,
    ghost halting: { halts domain.plan.mode ≡ true },
}

/// A processor of a [`PvDomain`]. The thread that has it may call the locks of that domain.
pub type PvCpu = Cpu;

impl HasDomain for PvDomain {
    ghost inside = { λ domain. domain.domain };

    fn domain(&self) -> &Domain {
        &self.domain
    }
}

impl PvDomain {
    /// The number of accounts of its ledger, at most 64.
    pub fn accounts(&self) -> u32
        ensures { result ≡ accounts_of self.now.domain.plan }
    {
        self.domain.accounts()
    }

    /// The number of its locks, at most 4,096. All are spinlocks.
    pub fn locks(&self) -> u32
        ensures { result ≡ locks_of self.now.domain.plan }
    {
        self.domain.locks()
    }

    /// Whether somebody holds a lock: one look at its word.
    ///
    /// It may have changed when this returns. No clause says what this tells: a test does.
    pub fn is_locked(&self, lock: LockId) -> bool
        requires { lock.index < locks_of self.now.domain.plan }
    {
        self.domain.is_locked(lock)
    }

    /// Whether somebody waits for a lock in its queue: one look at its word. One that is about to
    /// steal the lock leaves no mark there.
    ///
    /// It may have changed when this returns. No clause says what this tells: a test does.
    pub fn is_contended(&self, lock: LockId) -> bool
        requires { lock.index < locks_of self.now.domain.plan }
    {
        self.domain.is_contended(lock)
    }

    /// Whether the waiter of a processor says that it halts, or is about to: one look at the state
    /// of its node (`vcpu_halted`, or `vcpu_hashed` of a queue head).
    ///
    /// It may have changed when this returns. No clause says what this tells: a test does.
    pub fn is_halted(&self, cpu: u32) -> bool
        requires { cpu < cpus_of self.now.domain.plan }
    {
        let node = NodeName { cpu, index: 0 };
        self.domain.table.shared.peek(state_of(&self.domain, node)) != RUNNING
    }

    /// Whether a kick of a processor is remembered: one look at its kick word. Where it is, the next
    /// turn of a call that has halted there ends the halt.
    ///
    /// No clause says what this tells: a test does.
    pub fn is_kicked(&self, cpu: u32) -> bool
        requires { cpu < cpus_of self.now.domain.plan }
    {
        kicks::is_kicked(&self.domain, cpu)
    }

    /// Parks the thread of a processor on its kick word, unless a kick is remembered. `wake` wakes it.
    /// It may also return without one.
    ///
    /// No clause says that it parks, or on which word: a test does.
    pub fn sleep<R: Wait>(&self, rt: &R, cpu: u32)
        requires { cpu < cpus_of self.now.domain.plan }
    {
        kicks::sleep(&self.domain, rt, cpu);
    }

    /// Wakes the thread of a processor, if it is parked on the kick word. `pv_unlock` does this for
    /// the one that it kicks.
    ///
    /// No clause says that it wakes one: a test does.
    pub fn wake(&self, cpu: u32)
        requires { cpu < cpus_of self.now.domain.plan }
    {
        kicks::wake_thread(&self.domain, cpu);
    }
}
