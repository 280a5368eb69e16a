// What a call of `pv_lock` that has found its lock held has from the row G1 to its last row. Its
// rows and its path are methods in the files beside this one. The seat is handed to each of them.
ghost use Rattle.std.specs.Prelude.{◌≡◌, ◌<◌, true};
ghost use Rattle.lk_domain.specs.Plans.{locks_of, turns_of};
ghost use Rattle.lk_domain.specs.Words.{IsNode};
ghost use Rattle.lk_law.specs.Agree.{halts};

use lk_domain::Domain;
use lk_word::NodeName;

// A call with its node, which is the first of its processor. It steals the lock or queues for it.
#[derive(Clone, Copy)]
pub(crate) struct Queued<'a> {
    pub(crate) domain: &'a Domain,
    pub(crate) lock: u32,
    pub(crate) own: NodeName,
    ghost halting: { halts domain.now.plan.mode ≡ true },
    ghost declared: { lock < locks_of domain.now.plan },
    ghost node: { IsNode domain.now.plan own },
}

impl<'a> Queued<'a> {
    // The spin bound: how many turns a waiter spins before it halts.
    pub(crate) fn turns(&self) -> u32
        ensures { result ≡ turns_of self.now.domain.now.plan }
    {
        self.domain.plan.threshold
    }
}
