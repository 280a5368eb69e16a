// The calls on locks, by two processors of one thread.
ghost use Rattle.std.specs.Prelude.{◌≡◌, None, false};
ghost use Rattle.lk_law.specs.Agree.{halts};
ghost use Rattle.lk_domain.specs.Seats.{IsOf, ledger_of};
ghost use Rattle.lk_thread_tests.specs.Stages.{NoneOut};

use crate::stage::{LOCKS, open, take_last};
use lk_domain::{Cpu, Domain, LockId};
use lk_names::{Kind, Mode};
use lk_run::{NoIrq, lock, try_lock, unlock};
use std::alloc::{AllocError, Global};
use std::process::Abort;
use std::sync::Wait;
use std::test::Fail;

// Calls of processor 0 or 1 on a lock, the answer, and the locks that each of both holds then. None
// of them waits.
const CALLS: &str = "\
0 lock 0 = true: 0 and none
1 try 0 = false: 0 and none
1 try 1 = true: 0 and 1
0 try 1 = false: 0 and 1
0 try 5 = true: 05 and 1
0 unlock 0 = true: 5 and 1
1 lock 0 = true: 5 and 01
1 unlock 1 = true: 5 and 0
0 lock 1 = true: 15 and 0
0 unlock 5 = true: 1 and 0
1 try 5 = true: 1 and 05
0 unlock 1 = true: none and 05
1 unlock 0 = true: none and 5
1 unlock 5 = true: none and none
0 try 5 = true: 5 and none
0 unlock 5 = true: none and none";

// Makes a call and gives its answer, where the processor may make it.
fn make_call<R: Wait>(
    cpu: &mut Cpu,
    rt: &R,
    domain: &Domain,
    verb: &str,
    id: LockId,
) -> Option<bool>
    requires domain { IsOf cpu.old domain.now }
    requires home { (ledger_of cpu.old).out ≡ None }
    requires values { NoneOut cpu.old }
    ensures domain { IsOf cpu.new domain.now }
    ensures home { (ledger_of cpu.new).out ≡ None }
    ensures values { NoneOut cpu.new }
{
    if id.index >= domain.locks() || domain.kind(id) != Kind::Spin {
        return None;
    }
    if cpu.waits(id) || cpu.depth() > 0 {
        return None;
    }
    match (verb, cpu.holds(id)) {
        ("lock", false) => {
            lock(cpu, rt, domain, id, &mut NoIrq);
            Some(true)
        }
        ("try", false) => Some(try_lock(cpu, domain, id)),
        ("unlock", true) => {
            unlock(cpu, domain, id);
            Some(true)
        }
        _ => None,
    }
}

// The numbers of the locks that the processor holds, or `none`.
fn held(alloc: Global, cpu: &Cpu) -> Result<String, AllocError>
    requires { halts cpu.now.seat.me.0.who.plan.mode ≡ false }
{
    let mut text = String::new(alloc);
    for index in 0..LOCKS {
        if cpu.holds(LockId { index }) {
            text.push_str(format!(in alloc; "{index}")?.as_str())?;
        }
    }
    if text.is_empty() {
        text.push_str("none")?;
    }
    Ok(text)
}

// Makes the call of a row, and compares the answer and what both hold then.
fn play<R: Abort + AllocGlobal + Wait>(
    rt: &R,
    domain: &Domain,
    first: &mut Cpu,
    second: &mut Cpu,
    row: &str,
) -> Result<(), Fail>
    requires domain { IsOf first.old domain.now × IsOf second.old domain.now }
    requires home { ((ledger_of first.old).out ≡ None) × ((ledger_of second.old).out ≡ None) }
    requires values { NoneOut first.old × NoneOut second.old }
    ensures domain { IsOf first.new domain.now × IsOf second.new domain.now }
    ensures home { ((ledger_of first.new).out ≡ None) × ((ledger_of second.new).out ≡ None) }
    ensures values { NoneOut first.new × NoneOut second.new }
{
    let alloc = rt.alloc();
    let (call, wanted) = row.split_once(" = ").ok_or("no answer")?;
    let mut words = call.split(' ');
    let place = words.next().ok_or("no processor")?;
    let verb = words.next().ok_or("no verb")?;
    let index = words.next().ok_or("no lock")?.parse::<u32>()?;
    let lock = LockId { index };
    let answer = if place == "0" {
        make_call(first, rt, domain, verb, lock)
    } else {
        make_call(second, rt, domain, verb, lock)
    };
    let answer = answer.ok_or("no such call")?;
    let first_holds = held(alloc, first)?;
    let second_holds = held(alloc, second)?;
    let given = format!(in alloc; "{answer}: {first_holds} and {second_holds}")?;
    assert_eq!(rt; given.as_str(), wanted, "{row}");
    Ok(())
}

// Plays all rows in this mode.
fn play_all(rt: &(impl Abort + AllocGlobal + Wait), mode: Mode) -> Result<(), Fail>
    requires awake { halts mode ≡ false }
{
    let Ok((domain, mut cpus)) = open(rt.alloc(), mode, Kind::Spin, 2) else {
        return Err("no memory".into());
    };
    let mut second = take_last(&mut cpus, &domain);
    let mut first = take_last(&mut cpus, &domain);
    for row in CALLS.lines() {
        play(rt, &domain, &mut first, &mut second, row)?;
    }
    Ok(())
}

#[test]
fn calls_answer_as_the_table_says(rt: HostRuntime) -> Result<(), Fail> {
    play_all(&rt, Mode::Virt)?;
    play_all(&rt, Mode::Native)?;
    play_all(&rt, Mode::Cna)
}
