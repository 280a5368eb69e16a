// New ports.
ghost use Rattle.std.specs.Prelude.{◌≡◌, ◌<◌, ◌≤◌, true, false, ℕ, length, replicate, IfOk};
ghost use Rattle.lk_domain.specs.Plans.{locks_of};
ghost use Rattle.lk_domain.specs.Seats.{AreDealt, IsDealt};
ghost use Rattle.lk_domain.specs.declared.plan.TheConstants.{MOST_CPUS, MOST_LOCKS};
ghost use Rattle.lk_port.specs.Asking.{domain_in};
ghost use Rattle.lk_port.specs.Opened.{mode_of, AreOpened, AreSpins, ArePortsOf, IsPlanFor, Suits};
ghost use Rattle.lk_port.specs.Shares.{IsFit, domain_of};

use crate::last::NONE;
use crate::pending::Pending;
use crate::port::Port;
use crate::share::Share;
use lk_domain::{Cpu, Domain, MOST_CPUS, MOST_LOCKS, Plan};
use lk_names::{Format, Kind, List, Memory, Mode, Topology};
use std::alloc::Global;

/// The highest spin bound.
const MOST_SPINS: u32 = 65_535;

/// The families.
#[derive(Clone, Copy, Debug, PartialEq, Eq)]
pub enum Family {
    /// Test and set.
    Virt,
    /// Queued.
    Native,
    /// Queued, and handed to a waiter on the same socket first.
    Cna,
    /// Queued, with waiters that halt. All its locks are spinlocks.
    Pv,
}

/// Why no ports were opened.
#[derive(Clone, Copy, Debug, PartialEq, Eq)]
pub enum Fault {
    /// There are to be 1 to 1,024 processors and 1 to 4,096 locks; and where waiters halt, spinlocks alone,
    /// and a spin bound of 1 to 65,535.
    Range,
    /// There is not enough memory.
    Memory,
}

impl Family {
    // The mode of its domains.
    fn mode(self) -> Mode
        ensures { result ≡ mode_of self }
    {
        match self {
            Family::Virt => Mode::Virt,
            Family::Native => Mode::Native,
            Family::Cna => Mode::Cna,
            Family::Pv => Mode::Pv,
        }
    }

    // Whether it may have these locks, and this threshold.
    fn may_have(self, locks: &List<Kind>, threshold: u32) -> bool
        ensures { result ≡ true → Suits (mode_of self) locks.now.items threshold }
    {
        match self {
            Family::Virt | Family::Native | Family::Cna => true,
            Family::Pv => 0 < threshold && threshold <= MOST_SPINS && are_spins(locks),
        }
    }
}

// Whether all are spinlocks.
fn are_spins(locks: &List<Kind>) -> bool
    ensures { result ≡ true → AreSpins locks.now.items }
{
    locks.as_slice().iter().all(|kind| *kind == Kind::Spin)
}

// For each lock of the domain, that it is not held, or not as a writer.
fn unheld(alloc: Global, domain: &Domain) -> Result<List<bool>, Memory>
    ensures { IfOk result (λ notes. notes.items ≡ replicate (locks_of domain.now.plan) false) }
{
    List::filled(alloc, false, domain.locks() as usize)
}

// The port of a new processor.
fn port(alloc: Global, share: &Share, cpu: Cpu) -> Result<Port, Fault>
    requires dealt { (i : ℕ) × IsDealt (domain_of share.now) i cpu }
    requires fit { IsFit share.now }
    ensures domain { IfOk result (λ port. domain_in port ≡ domain_of share.now) }
    ensures cpu { IfOk result (λ port. port.cpu.number ≡ cpu.number) }
{
    let Ok(notes) = unheld(alloc, share.domain()) else {
        return Err(Fault::Memory);
    };
    let share = share.another()?;
    Ok(Port {
        share,
        pending: Pending::Free,
        last: NONE,
        holds_last: false,
        cpu,
        notes,
    })
}

// The ports of a domain, whose processors are these.
fn ports_of(alloc: Global, share: &Share, mut cpus: List<Cpu>) -> Result<Vec<Port>, Fault>
    requires dealt { AreDealt (domain_of share.now) cpus.items }
    requires fit { IsFit share.now }
    ensures many { IfOk result (λ ports. length ports.items ≡ length cpus.items) }
    ensures each { IfOk result (λ ports. ArePortsOf (domain_of share.now) (length cpus.items)
        ports.items) }
{
    let mut ports = Vec::new(alloc);
    while cpus.len() > 0 {
        let port = port(alloc, share, cpus.pop())?;
        let Ok(()) = ports.push(port) else {
            return Err(Fault::Memory);
        };
    }
    Ok(ports)
}

// A new domain without a ledger, and its processors.
fn made(
    alloc: Global,
    mode: Mode,
    locks: List<Kind>,
    sockets: List<u32>,
    threshold: u32,
) -> Result<(Domain, List<Cpu>), Memory>
    requires cpus { (0 < length sockets.items) × (length sockets.items ≤ MOST_CPUS) }
    requires locks { (0 < length locks.items) × (length locks.items ≤ MOST_LOCKS) }
    requires suits { Suits mode locks.items threshold }
    ensures plan { IfOk result (λ made. IsPlanFor mode locks.items sockets.items threshold made.0.plan) }
    ensures many { IfOk result (λ made. length made.1.items ≡ length sockets.items) }
    ensures cpus { IfOk result (λ made. AreDealt made.0 made.1.items) }
{
    let shares = List::filled(alloc, 0, sockets.len())?;
    let plan = Plan {
        format: Format::One,
        mode,
        topology: Topology { sockets },
        threshold,
        locks,
        balances: List::new(alloc, 0)?,
        shares,
        cells: None,
    };
    Domain::open(alloc, plan, List::new(alloc, 0)?)
}

/// The ports of a new domain, the last one first: one for each socket of the list. Where the family's
/// waiters halt, the threshold is the spin bound: how many turns a waiter spins before it halts.
///
/// # Errors
///
/// What [`Fault::Range`] says, or not enough memory.
pub fn open(
    alloc: Global,
    family: Family,
    locks: List<Kind>,
    sockets: List<u32>,
    threshold: u32,
) -> Result<Vec<Port>, Fault>
    ensures { IfOk result (λ ports. AreOpened (mode_of family) locks.items sockets.items threshold
        ports.items) }
{
    let cpus = sockets.len();
    let count = locks.len();
    if cpus < 1 || MOST_CPUS < cpus || count < 1 || MOST_LOCKS < count {
        return Err(Fault::Range);
    }
    if !family.may_have(&locks, threshold) {
        return Err(Fault::Range);
    }
    let Ok((domain, cpus)) = made(alloc, family.mode(), locks, sockets, threshold) else {
        return Err(Fault::Memory);
    };
    let share = Share::new(alloc, domain)?;
    ports_of(alloc, &share, cpus)
}
