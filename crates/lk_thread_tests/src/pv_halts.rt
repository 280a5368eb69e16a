// A processor that waits for a paravirtual lock halts: the state of its node says so while another
// holds the lock, and its thread parks, so it uses hardly any CPU time however long that lasts.
ghost use Rattle.std.specs.Prelude.{◌≡◌};
ghost use Rattle.lk_domain.specs.Plans.{cpus_of, locks_of};
ghost use Rattle.lk_pvdomain.specs.PvSeats.{AreDealt};
ghost use Rattle.lk_thread_tests.specs.Halting.{IsReady};

use crate::pv_calls::{give_back, open, take};
use crate::stage::Sign;
use lk_names::List;
use lk_pvdomain::{PvCpu, PvDomain};
use std::process::Abort;
use std::sync::Wait;
use std::test::Fail;
use std::thread::Threads;
use std::time::{CpuClock, Duration};
use std::{io, thread};

/// How often a thread looks before it gives up.
const LOOKS: u32 = 10_000_000;

/// The CPU time for which the lock is held while the other halts, in milliseconds. It is no time by
/// the clock on the wall, so that a busy machine gives a waiter that does not park about as much.
const HOLD: u64 = 50;

/// The CPU time that a waiter may use to halt, to be woken and to take the lock, in milliseconds.
const CALM: u64 = 10;

/// What the two threads tell: the lock is held, the waiter was seen halted, it used little time.
#[derive(Drop)]
struct Signs {
    held: Sign,
    halted: Sign,
    calm: Sign,
}

// Whether the waiter of processor 1 is seen to halt, before this thread gives up.
fn sees_halt(domain: &PvDomain) -> bool
    requires { cpus_of domain.now.domain.plan ≡ 4 }
{
    for _ in 0..LOOKS {
        if domain.is_halted(1) {
            return true;
        }
        thread::yield_now();
    }
    false
}

// The CPU time that this thread has used since then.
fn used_since(rt: &impl CpuClock, start: Duration) -> io::Result<Duration> {
    let now = rt.thread_cpu_time()?;
    Ok(now.saturating_sub(start))
}

// Uses so much CPU time.
fn work_for(rt: &impl CpuClock, time: Duration) -> io::Result<()> {
    let start = rt.thread_cpu_time()?;
    for _ in 0..LOOKS {
        if used_since(rt, start)? >= time {
            return Ok(());
        }
    }
    Ok(())
}

// Processor 0 holds the lock until the other has halted, and then for a while.
fn hold<R: Wait + CpuClock>(cpu: &mut PvCpu, rt: &R, domain: &PvDomain, signs: &Signs)
    requires locks { locks_of domain.now.domain.plan ≡ 2 }
    requires cpus { cpus_of domain.now.domain.plan ≡ 4 }
    requires ready { IsReady domain.now cpu.old }
    ensures ready { IsReady domain.now cpu.new }
{
    take(cpu, rt, domain, 1);
    signs.held.raise();
    if sees_halt(domain) && work_for(rt, Duration::from_millis(HOLD)).is_ok() {
        signs.halted.raise();
    }
    give_back(cpu, rt, domain);
}

// Processor 1 waits for it.
fn wait<R: Wait + CpuClock>(cpu: &mut PvCpu, rt: &R, domain: &PvDomain, signs: &Signs)
    requires locks { locks_of domain.now.domain.plan ≡ 2 }
    requires ready { IsReady domain.now cpu.old }
    ensures ready { IsReady domain.now cpu.new }
{
    if !signs.held.comes(1) {
        return;
    }
    let start = rt.thread_cpu_time();
    take(cpu, rt, domain, 1);
    if let Ok(start) = start
        && let Ok(used) = used_since(rt, start)
        && used < Duration::from_millis(CALM)
    {
        signs.calm.raise();
    }
    give_back(cpu, rt, domain);
}

// What each processor does.
fn play<R: Wait + CpuClock>(cpu: &mut PvCpu, rt: &R, domain: &PvDomain, signs: &Signs)
    requires locks { locks_of domain.now.domain.plan ≡ 2 }
    requires cpus { cpus_of domain.now.domain.plan ≡ 4 }
    requires ready { IsReady domain.now cpu.old }
    ensures ready { IsReady domain.now cpu.new }
{
    match cpu.number() {
        0 => hold(cpu, rt, domain, signs),
        1 => wait(cpu, rt, domain, signs),
        _ => {}
    }
}

// All of them at once, each on a thread of its own.
fn play_all<R: Threads + Wait + Sync + CpuClock>(
    rt: &R,
    domain: &PvDomain,
    signs: &Signs,
    cpus: &mut List<PvCpu>,
)
    requires locks { locks_of domain.now.domain.plan ≡ 2 }
    requires cpus { cpus_of domain.now.domain.plan ≡ 4 }
    requires dealt { AreDealt domain.now cpus.old.items }
{
    thread::for_each_mut(
        rt,
        cpus.as_mut_slice(),
        4,
        &|_, cpu| { play(cpu, rt, domain, signs) },
    );
}

#[test]
fn a_waiter_halts_and_parks(rt: HostRuntime) -> Result<(), Fail> {
    let Ok((domain, mut cpus)) = open(rt.alloc(), 1) else {
        return Err("no memory".into());
    };
    let signs = Signs {
        held: Sign::new(),
        halted: Sign::new(),
        calm: Sign::new(),
    };
    play_all(&rt, &domain, &signs, &mut cpus);
    assert_eq!(rt; signs.halted.times(), 1);
    assert_eq!(rt; signs.calm.times(), 1);
    Ok(())
}
