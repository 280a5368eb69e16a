// The domain of the locks, and its processors.
ghost use Rattle.std.specs.Prelude.{◌≡◌, ◌<◌, IfOk, length, true, replicate};
ghost use Rattle.lk_domain.specs.Plans.{cpus_of};
ghost use Rattle.lk_law.specs.Agree.{halts};
ghost use Rattle.lk_lock.specs.Made.{bound_in};
ghost use Rattle.lk_lock.specs.Standing.{AllRest};

use crate::laying::laid_out;
use crate::locks::Locks;
use lk_domain::{Cpu, Domain, Plan};
use lk_names::{Format, List, Memory, Mode, Topology};
use std::alloc::Global;
use std::snapshot::Snapshot;

// The most handoffs that may pass a moved waiter, in mode `cna`.
const THRESHOLD: u32 = 16;

// How many turns a waiter spins before it halts, in mode `pv`, where nothing else is said.
const TURNS: u16 = 32_768;

/// Locks, in the domain where threads take them, and a processor for each thread.
#[derive(Drop)]
pub struct Open {
    pub domain: Domain,
    pub cpus: List<Cpu>,
}

// The bound of a plan.
fn bound(mode: Mode, turns: u16) -> u32
    ensures { result ≡ bound_in mode turns }
{
    match mode {
        Mode::Pv => u32::from(turns),
        Mode::Virt | Mode::Native | Mode::Cna => THRESHOLD,
    }
}

impl Locks {
    ghost use Rattle.lk_lock.specs.Made.{AreMade, AreSharedMade, AreSpins, IsPlanFor};

    /// The locks, all of this family, and a processor for each thread, all on socket 0. There is at
    /// least one lock. In mode `cna` a moved waiter is passed by 16 handoffs at most, and in mode `pv` a
    /// waiter spins for 32,768 turns before it halts. There are no reader-writer locks in mode `pv`:
    /// [`Locks::are_spins`] tells whether there are any here.
    ///
    /// # Errors
    ///
    /// There is not enough memory. No value comes back.
    pub fn open(self, mode: Mode) -> Result<Open, Memory>
        requires some { 0 < length self.kinds.items }
        requires kinds { halts mode ≡ true → AreSpins self }
        ensures plan { IfOk result (λ all. IsPlanFor self mode (replicate self.threads 0) 32768
            all.domain.plan) }
        ensures made { IfOk result (λ all. AreMade self all.domain.plan) }
        ensures shared { IfOk result (λ all. AreSharedMade self all.domain.plan) }
        ensures many { IfOk result (λ all. length all.cpus.items ≡ self.threads) }
        ensures each { IfOk result (λ all. length all.cpus.items
            ≡ cpus_of all.domain.plan) }
        ensures rest { IfOk result (λ all. AllRest all.domain all.cpus.items) }
    {
        let sockets = List::filled(self.alloc, 0, self.threads as usize)?;
        self.open_on(mode, Topology { sockets }, TURNS)
    }

    /// The same, with each processor on the socket that the topology lists for it: in mode `cna` a lock
    /// is handed to a waiter on the holder's socket first. In mode `pv` a waiter spins for so many turns,
    /// at least 1, before it halts. The other modes read no turns, and only `cna` reads sockets.
    ///
    /// # Errors
    ///
    /// There is not enough memory. No value comes back.
    pub fn open_on(self, mode: Mode, topology: Topology, turns: u16) -> Result<Open, Memory>
        requires some { 0 < length self.kinds.items }
        requires kinds { halts mode ≡ true → AreSpins self }
        requires threads { length topology.sockets.items ≡ self.threads }
        requires turns { 0 < turns }
        ensures plan { IfOk result (λ all. IsPlanFor self mode topology.sockets.items turns
            all.domain.plan) }
        ensures made { IfOk result (λ all. AreMade self all.domain.plan) }
        ensures shared { IfOk result (λ all. AreSharedMade self all.domain.plan) }
        ensures many { IfOk result (λ all. length all.cpus.items ≡ self.threads) }
        ensures each { IfOk result (λ all. length all.cpus.items
            ≡ cpus_of all.domain.plan) }
        ensures rest { IfOk result (λ all. AllRest all.domain all.cpus.items) }
    {
        let values = self.values();
        let Locks {
            alloc,
            threads,
            kinds,
            keys,
            copied: _,
        } = self;
        let keys = laid_out(alloc, keys, values)?;
        let plan = Plan {
            format: Format::One,
            mode,
            topology,
            threshold: bound(mode, turns),
            locks: kinds,
            balances: List::new(alloc, 0)?,
            shares: List::filled(alloc, 0, threads as usize)?,
            cells: Some(Snapshot::of(&keys)),
        };
        let (domain, cpus) = Domain::open(alloc, plan, keys)?;
        Ok(Open { domain, cpus })
    }
}
