// A domain for tests of running locks, and signs by which its threads meet.
ghost use Rattle.std.specs.Prelude.{◌≡◌, ◌+◌, ◌<◌, ◌≤◌, true, false, IfOk, length};
ghost use Rattle.lk_names.specs.declared.names.Kind.TheVariants.{Spin};
ghost use Rattle.lk_law.specs.Agree.{halts};
ghost use Rattle.lk_domain.specs.Ends.{AllRest};
ghost use Rattle.lk_domain.specs.Plans.{IsLawfulPlan, cpus_of, locks_of};
ghost use Rattle.lk_domain.specs.Seats.{IsOf};
ghost use Rattle.lk_guard.specs.Idle.{IsIdle};
ghost use Rattle.lk_thread_tests.specs.Stages.{AreAll, MayVisit, PlaysIn, RestsAgain};

use lk_domain::{Cpu, Domain, LockId, Plan};
use lk_names::{Format, Kind, List, Memory, Mode, Topology};
use lk_run::{NoIrq, lock, unlock};
use std::alloc::Global;
use std::sync::Wait;
use std::sync::atomic::{AtomicU64, Ordering};
use std::thread;
use std::thread::Threads;

/// How many locks a domain of a test has.
pub const LOCKS: u32 = 6;

/// How often a thread looks for a sign of another before it gives up.
const TURNS: u32 = 10_000_000;

/// A sign that threads raise.
#[derive(Drop)]
pub struct Sign {
    times: AtomicU64,
}

impl Sign {
    /// It was not raised.
    pub fn new() -> Sign {
        Sign {
            times: AtomicU64::new(0),
        }
    }

    /// Raises it once more.
    pub fn raise(&self) {
        self.times.fetch_add(1, Ordering::SeqCst);
    }

    /// Raises it if something is not as it has to be.
    pub fn raise_unless(&self, right: bool) {
        if !right {
            self.raise();
        }
    }

    /// How often it was raised.
    pub fn times(&self) -> u64 {
        self.times.load(Ordering::SeqCst)
    }

    /// Waits until it was raised so often. It is false where this thread has given up.
    pub fn comes(&self, times: u64) -> bool {
        for _ in 0..TURNS {
            if self.times() >= times {
                return true;
            }
            thread::yield_now();
        }
        false
    }
}

/// For how long a lock is held: the sign that it is, the one by which that ends, how often this one
/// has to come, and what is raised if it does not.
#[derive(Drop)]
pub struct Stay<'a> {
    pub held: &'a Sign,
    pub until: &'a Sign,
    pub times: u64,
    pub wrong: &'a Sign,
}

/// Holds a lock for so long.
pub fn hold<R: Wait>(cpu: &mut Cpu, rt: &R, domain: &Domain, id: LockId, stay: &Stay)
    requires plays { PlaysIn domain.now cpu.old }
    requires lock { id.index < LOCKS }
    ensures { RestsAgain domain.now cpu.old cpu.new }
{
    lock(cpu, rt, domain, id, &mut NoIrq);
    stay.held.raise();
    stay.wrong.raise_unless(stay.until.comes(stay.times));
    unlock(cpu, domain, id);
}

/// What the processors of a test do.
pub trait Scene {
    /// What one of them does.
    fn play<R: Wait>(&self, cpu: &mut Cpu, rt: &R, domain: &Domain)
        requires { PlaysIn domain.now cpu.old }
        ensures { RestsAgain domain.now cpu.old cpu.new };
}

/// All of them at once, each on a thread of its own: there are at most nine.
pub fn play_all<R: Threads + Wait + Sync, S: Scene + Sync>(
    rt: &R,
    domain: &Domain,
    scene: &S,
    cpus: &mut List<Cpu>,
)
    requires awake { halts domain.now.plan.mode ≡ false }
    requires spins { AreAll Spin domain.now.plan }
    requires locks { locks_of domain.now.plan ≡ LOCKS }
    requires rest { AllRest domain.now cpus.old.items }
{
    thread::for_each_mut(
        rt,
        cpus.as_mut_slice(),
        9,
        &|_, cpu| { scene.play(cpu, rt, domain) },
    );
}

// The plan of such a domain.
fn plan_of(alloc: Global, mode: Mode, kind: Kind, cpus: usize) -> Result<Plan, Memory>
    requires awake { halts mode ≡ false }
    requires some { 1 ≤ cpus }
    requires few { cpus ≤ 64 }
    ensures lawful { IfOk result (λ plan. IsLawfulPlan plan) }
    ensures mode { IfOk result (λ plan. plan.mode ≡ mode) }
    ensures cpus { IfOk result (λ plan. cpus_of plan ≡ cpus) }
    ensures locks { IfOk result (λ plan. locks_of plan ≡ LOCKS) }
    ensures kinds { IfOk result (λ plan. AreAll kind plan) }
{
    Ok(Plan {
        format: Format::One,
        mode,
        topology: Topology {
            sockets: List::filled(alloc, 0, cpus)?,
        },
        threshold: 0,
        locks: List::filled(alloc, kind, LOCKS as usize)?,
        balances: List::new(alloc, 0)?,
        shares: List::filled(alloc, 0, cpus)?,
        cells: None,
    })
}

/// A domain of six locks of this kind and no accounts, with so many processors.
pub fn open(
    alloc: Global,
    mode: Mode,
    kind: Kind,
    cpus: usize,
) -> Result<(Domain, List<Cpu>), Memory>
    requires awake { halts mode ≡ false }
    requires some { 1 ≤ cpus }
    requires few { cpus ≤ 64 }
    ensures awake { IfOk result (λ made. halts made.0.plan.mode ≡ false) }
    ensures mode { IfOk result (λ made. made.0.plan.mode ≡ mode) }
    ensures locks { IfOk result (λ made. locks_of made.0.plan ≡ LOCKS) }
    ensures kinds { IfOk result (λ made. AreAll kind made.0.plan) }
    ensures many { IfOk result (λ made. length made.1.items ≡ cpus) }
    ensures cpus { IfOk result (λ made. cpus_of made.0.plan ≡ cpus) }
    ensures rest { IfOk result (λ made. AllRest made.0 made.1.items) }
{
    let plan = plan_of(alloc, mode, kind, cpus)?;
    let made = Domain::new(alloc, &plan)?;
    Ok(made)
}

// The plan of a domain of `cna` with six processors, of which the fourth is on a socket of its own.
fn plan_of_two(alloc: Global, format: Format) -> Result<Plan, Memory>
    ensures lawful { IfOk result (λ plan. IsLawfulPlan plan) }
    ensures cpus { IfOk result (λ plan. cpus_of plan ≡ 6) }
    ensures locks { IfOk result (λ plan. locks_of plan ≡ LOCKS) }
    ensures kinds { IfOk result (λ plan. AreAll Spin plan) }
{
    Ok(Plan {
        format,
        mode: Mode::Cna,
        topology: Topology {
            sockets: List::from_slice(alloc, &[0, 0, 0, 1, 0, 0])?,
        },
        threshold: 8,
        locks: List::filled(alloc, Kind::Spin, LOCKS as usize)?,
        balances: List::new(alloc, 0)?,
        shares: List::filled(alloc, 0, 6)?,
        cells: None,
    })
}

/// Such a domain.
pub fn open_two(alloc: Global, format: Format) -> Result<(Domain, List<Cpu>), Memory>
    ensures awake { IfOk result (λ made. halts made.0.plan.mode ≡ false) }
    ensures locks { IfOk result (λ made. locks_of made.0.plan ≡ LOCKS) }
    ensures kinds { IfOk result (λ made. AreAll Spin made.0.plan) }
    ensures many { IfOk result (λ made. length made.1.items ≡ 6) }
    ensures rest { IfOk result (λ made. AllRest made.0 made.1.items) }
{
    let plan = plan_of_two(alloc, format)?;
    let made = Domain::new(alloc, &plan)?;
    Ok(made)
}

/// Whether a handler may take the lock on the processor that it is lent.
pub fn may_visit(cpu: &Cpu, domain: &Domain, id: LockId) -> bool
    requires { IsOf cpu.now domain.now }
    ensures { result ≡ true → MayVisit domain.now id.index cpu.now }
{
    id.index != 0
        && id.index < domain.locks()
        && domain.kind(id) == Kind::Spin
        && cpu.depth() < 6
        && !cpu.holds(id)
        && !cpu.waits(id)
}

/// Takes the last processor of this domain off.
pub fn take_last(cpus: &mut List<Cpu>, domain: &Domain) -> Cpu
    requires awake { halts domain.now.plan.mode ≡ false }
    requires some { 0 < length cpus.old.items }
    requires rest { AllRest domain.now cpus.old.items }
    ensures domain { IsOf result domain.now }
    ensures idle { IsIdle result }
    ensures long { length cpus.new.items + 1 ≡ length cpus.old.items }
    ensures rest { AllRest domain.now cpus.new.items }
{
    cpus.pop()
}
