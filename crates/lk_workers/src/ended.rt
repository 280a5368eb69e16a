// The end of a domain, of whichever family.
ghost use Rattle.std.specs.Prelude.{◌≡◌};
ghost use Rattle.lk_workers.specs.Ended.{balances_in, journal_in};

use lk_domain::Closed;
use lk_names::{Entry, List};
use lk_pvdomain::PvClosed;

/// What the domain of a job file left, by the family of its locks.
#[derive(Drop)]
pub enum Ended {
    /// That of a family whose waiters spin.
    Queued(Closed),
    /// That of the paravirtual family, whose waiters halt.
    Pv(PvClosed),
}

impl Ended {
    /// The balances at the end, one for each account.
    pub fn balances(&self) -> &List<u64>
        ensures { result.now.items ≡ balances_in self.now }
    {
        match self {
            Ended::Queued(closed) => closed.balances(),
            Ended::Pv(closed) => closed.balances(),
        }
    }

    /// The journal: the jobs that changed balances, in order.
    pub fn journal(&self) -> &List<Entry>
        ensures { result.now.items ≡ journal_in self.now }
    {
        match self {
            Ended::Queued(closed) => closed.journal(),
            Ended::Pv(closed) => closed.journal(),
        }
    }
}
