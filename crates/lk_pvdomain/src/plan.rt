// The plan of a domain with the paravirtual lock.
ghost use Rattle.std.specs.Prelude.{◌≡◌, IfOk, None};
ghost use Rattle.lk_pvdomain.specs.PvPlans.{IsLawful, IsPlanOf};

use lk_domain::Plan;
use lk_names::{Format, Kind, List, Memory, Mode, Topology};
use std::alloc::Global;

/// The plan of a [`PvDomain`](crate::PvDomain): what it is made of.
#[derive(Drop)]
pub struct PvPlan {
    /// The format. It says how lock words are laid out.
    pub format: Format,
    /// The spin bound: how many turns a waiter spins before it halts, 1 to 65,535.
    pub spins: u32,
    /// The number of locks, 1 to 4,096. All are spinlocks, and lock 0 guards the ledger.
    pub locks: u32,
    /// The opening balance of each account, at most 64. Their sum is below 2^63.
    pub balances: List<u64>,
    /// For each of 1 to 1,024 processors, the most journal entries that it may write.
    pub shares: List<u32>,
}

impl PvPlan {
    // The plan of its table. The threshold holds the spin bound, since no row of this family reads
    // a threshold. All processors are on one socket.
    pub(crate) fn whole(&self, alloc: Global) -> Result<Plan, Memory>
        requires { IsLawful self.now }
        ensures plan { IfOk result (IsPlanOf self.now) }
        ensures none { IfOk result (λ plan. plan.cells ≡ None) }
    {
        Ok(Plan {
            format: self.format,
            mode: Mode::Pv,
            topology: Topology {
                sockets: List::filled(alloc, 0, self.shares.len())?,
            },
            threshold: self.spins,
            locks: List::filled(alloc, Kind::Spin, self.locks as usize)?,
            balances: List::from_slice(alloc, self.balances.as_slice())?,
            shares: List::from_slice(alloc, self.shares.as_slice())?,
            cells: None,
        })
    }
}
