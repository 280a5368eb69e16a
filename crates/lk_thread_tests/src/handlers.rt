// Handlers that come while a call waits.
ghost use Rattle.std.specs.Prelude.{◌≡◌, ◌<◌, Some, true, false};
ghost use Rattle.lk_law.specs.Agree.{halts};
ghost use Rattle.lk_domain.specs.Paths.{AreKept, Passes, is_busy};
ghost use Rattle.lk_domain.specs.Seats.{IsOf, KeepsRest, calls_of, ledger_of};
ghost use Rattle.lk_thread_tests.specs.Stages.{MayVisit, PlaysIn, RestsAgain};

use crate::stage::{LOCKS, Scene, Sign, Stay, hold, may_visit, open, play_all};
use lk_domain::{Cpu, Domain, LockId};
use lk_names::{Kind, Mode};
use lk_run::{Irq, NoIrq, lock, try_lock, unlock};
use std::process::Abort;
use std::sync::Wait;
use std::test::Fail;
use std::thread::Threads;

/// The lock for which the task of a processor waits.
const FIRST: LockId = LockId { index: 0 };

/// The signs of a test.
#[derive(Drop)]
struct Board {
    // a lock is held by a processor that waits for handlers
    held: Sign,
    // a handler has come that lets it go on
    came: Sign,
    // a handler has freed the lock that it took
    freed: Sign,
    // a task has taken lock 0, and has freed it
    taken: Sign,
    ended: Sign,
    // the words were looked at; a task that has lock 0 frees it after so many looks
    looked: Sign,
    looks: u64,
    // handlers come in handlers
    nested: bool,
    // something was not as it has to be
    wrong: Sign,
}

impl Board {
    fn new(looks: u64, nested: bool) -> Board {
        Board {
            held: Sign::new(),
            came: Sign::new(),
            freed: Sign::new(),
            taken: Sign::new(),
            ended: Sign::new(),
            looked: Sign::new(),
            looks,
            nested,
            wrong: Sign::new(),
        }
    }

    // A lock is held until so many handlers have come.
    fn stay(&self, handlers: u64) -> Stay {
        Stay {
            held: &self.held,
            until: &self.came,
            times: handlers,
            wrong: &self.wrong,
        }
    }
}

/// A handler that takes and frees a lock at its first poll. While it waits, another may come.
#[derive(Drop)]
struct Visitor<'a, I: Irq> {
    lock: LockId,
    polls: u64,
    inner: I,
    freed: &'a Sign,
}

impl<'a, I: Irq> Visitor<'a, I> {
    fn new(index: u32, inner: I, freed: &'a Sign) -> Visitor<'a, I> {
        Visitor {
            lock: LockId { index },
            polls: 0,
            inner,
            freed,
        }
    }
}

impl<'a, I: Irq> Irq for Visitor<'a, I> {
    ghost nests = { true };

    ghost polls = { λ visitor. Some visitor.polls };

    fn poll<R: Wait>(&mut self, cpu: &mut Cpu, rt: &R, domain: &Domain) {
        let is_first = self.polls == 0;
        self.polls = self.polls.saturating_add(1);
        if is_first && may_visit(cpu, domain, self.lock) {
            visit(cpu, rt, domain, self.lock, &mut self.inner);
            self.freed.raise();
        }
    }
}

/// A handler that takes no lock: at its first poll it lets the holders of the locks go on.
#[derive(Drop)]
struct Herald<'a> {
    polls: u64,
    // how many calls of the processor have to be in the slow path then
    queued: u32,
    board: &'a Board,
}

impl<'a> Irq for Herald<'a> {
    ghost nests = { true };

    ghost polls = { λ herald. Some herald.polls };

    fn poll<R: Wait>(&mut self, cpu: &mut Cpu, _rt: &R, _domain: &Domain) {
        if self.polls == 0 {
            self.board.wrong.raise_unless(waits_for_all(cpu));
            self.board.wrong.raise_unless(cpu.queued() == self.queued);
            self.board.came.raise();
        }
        self.polls = self.polls.saturating_add(1);
    }
}

// Whether the processor waits for each of the locks, with a call of its own.
fn waits_for_all(cpu: &Cpu) -> bool
    requires { halts cpu.now.seat.me.0.who.plan.mode ≡ false }
{
    for index in 0..LOCKS {
        if !cpu.waits(LockId { index }) {
            return false;
        }
    }
    cpu.depth() == LOCKS
}

// Whether the processor holds lock 0 and no other, and waits for none.
fn holds_first_alone(cpu: &Cpu) -> bool
    requires { halts cpu.now.seat.me.0.who.plan.mode ≡ false }
{
    for index in 1..LOCKS {
        if cpu.holds(LockId { index }) {
            return false;
        }
    }
    cpu.depth() == 0 && cpu.holds(FIRST)
}

// Takes a lock and frees it, in a handler.
fn visit<I: Irq, R: Wait>(cpu: &mut Cpu, rt: &R, domain: &Domain, id: LockId, irq: &mut I)
    requires domain { IsOf cpu.old domain.now }
    requires may { MayVisit domain.now id.index cpu.old }
    ensures rest { KeepsRest cpu.old cpu.new }
    ensures calls { AreKept (calls_of cpu.old) (calls_of cpu.new) }
    ensures ledger { Passes (is_busy (calls_of cpu.old)) (ledger_of cpu.old) (ledger_of cpu.new) }
{
    lock(cpu, rt, domain, id, irq);
    unlock(cpu, domain, id);
}

// Takes lock 0 and frees it once the words were looked at; handlers come while it waits.
fn wait<I: Irq, R: Wait>(cpu: &mut Cpu, rt: &R, domain: &Domain, board: &Board, irq: &mut I)
    requires { PlaysIn domain.now cpu.old }
    ensures { RestsAgain domain.now cpu.old cpu.new }
{
    lock(cpu, rt, domain, FIRST, irq);
    board.wrong.raise_unless(holds_first_alone(cpu));
    board.taken.raise();
    board.wrong.raise_unless(board.looked.comes(board.looks));
    unlock(cpu, domain, FIRST);
    board.ended.raise();
}

// Whether the lock is free.
fn is_free(cpu: &mut Cpu, domain: &Domain, id: LockId) -> bool
    requires plays { PlaysIn domain.now cpu.old }
    requires lock { id.index < LOCKS }
    ensures { RestsAgain domain.now cpu.old cpu.new }
{
    if try_lock(cpu, domain, id) {
        unlock(cpu, domain, id);
        true
    } else {
        false
    }
}

// The locks from this one on are free.
fn look_from(cpu: &mut Cpu, domain: &Domain, board: &Board, first: u32)
    requires { PlaysIn domain.now cpu.old }
    ensures { RestsAgain domain.now cpu.old cpu.new }
{
    for index in first..LOCKS {
        board
            .wrong
            .raise_unless(is_free(cpu, domain, LockId { index }));
    }
}

// One handler: it takes lock 1 and frees it, and then the holder of lock 0 goes on.

// The task waits for lock 0.
fn wait_with_one<R: Wait>(cpu: &mut Cpu, rt: &R, domain: &Domain, board: &Board)
    requires { PlaysIn domain.now cpu.old }
    ensures { RestsAgain domain.now cpu.old cpu.new }
{
    let mut visitor = Visitor::new(1, NoIrq, &board.came);
    board.wrong.raise_unless(board.held.comes(1));
    wait(cpu, rt, domain, board, &mut visitor);
}

// Lock 0 is held by the task, and all others are free.
fn look_once(cpu: &mut Cpu, domain: &Domain, board: &Board)
    requires { PlaysIn domain.now cpu.old }
    ensures { RestsAgain domain.now cpu.old cpu.new }
{
    board.wrong.raise_unless(board.taken.comes(1));
    board.wrong.raise_unless(!is_free(cpu, domain, FIRST));
    look_from(cpu, domain, board, 1);
    board.looked.raise();
}

// What each of three processors does.
fn play_one<R: Wait>(cpu: &mut Cpu, rt: &R, domain: &Domain, board: &Board)
    requires { PlaysIn domain.now cpu.old }
    ensures { RestsAgain domain.now cpu.old cpu.new }
{
    match cpu.number() {
        0 => hold(cpu, rt, domain, FIRST, &board.stay(1)),
        1 => wait_with_one(cpu, rt, domain, board),
        _ => look_once(cpu, domain, board),
    }
}

// Five handlers, one within the other: each waits for a lock of its own, and the last of them is
// interrupted too. Six processors hold the locks until both tasks have come so far.

// The task waits for lock 0; as many calls of its processor are in the slow path when the last
// handler comes.
fn wait_with_five<R: Wait>(cpu: &mut Cpu, rt: &R, domain: &Domain, board: &Board, queued: u32)
    requires { PlaysIn domain.now cpu.old }
    ensures { RestsAgain domain.now cpu.old cpu.new }
{
    let herald = Herald {
        polls: 0,
        queued,
        board,
    };
    let fifth = Visitor::new(5, herald, &board.freed);
    let fourth = Visitor::new(4, fifth, &board.freed);
    let third = Visitor::new(3, fourth, &board.freed);
    let second = Visitor::new(2, third, &board.freed);
    let mut first = Visitor::new(1, second, &board.freed);
    wait(cpu, rt, domain, board, &mut first);
}

// In `native` and `cna` the first task pends at each lock.
fn pend_with_five<R: Wait>(cpu: &mut Cpu, rt: &R, domain: &Domain, board: &Board)
    requires { PlaysIn domain.now cpu.old }
    ensures { RestsAgain domain.now cpu.old cpu.new }
{
    board.wrong.raise_unless(board.held.comes(u64::from(LOCKS)));
    wait_with_five(cpu, rt, domain, board, 0);
}

// So the second one queues there: with a node of its own at four locks, and without one at two.
fn queue_with_five<R: Wait>(cpu: &mut Cpu, rt: &R, domain: &Domain, board: &Board)
    requires { PlaysIn domain.now cpu.old }
    ensures { RestsAgain domain.now cpu.old cpu.new }
{
    board.wrong.raise_unless(board.came.comes(1));
    let queued = if domain.mode() == Mode::Virt {
        0
    } else {
        LOCKS
    };
    wait_with_five(cpu, rt, domain, board, queued);
}

// All locks are free once both tasks have ended.
fn look_at_end(cpu: &mut Cpu, domain: &Domain, board: &Board)
    requires { PlaysIn domain.now cpu.old }
    ensures { RestsAgain domain.now cpu.old cpu.new }
{
    board.wrong.raise_unless(board.ended.comes(2));
    look_from(cpu, domain, board, 0);
    board.looked.raise();
}

// What each of nine processors does.
fn play_five<R: Wait>(cpu: &mut Cpu, rt: &R, domain: &Domain, board: &Board)
    requires { PlaysIn domain.now cpu.old }
    ensures { RestsAgain domain.now cpu.old cpu.new }
{
    match cpu.number() {
        0 => pend_with_five(cpu, rt, domain, board),
        1 => queue_with_five(cpu, rt, domain, board),
        2 => look_at_end(cpu, domain, board),
        number => {
            let index = (number - 3) % LOCKS;
            hold(cpu, rt, domain, LockId { index }, &board.stay(2));
        }
    }
}

impl Scene for Board {
    fn play<R: Wait>(&self, cpu: &mut Cpu, rt: &R, domain: &Domain) {
        if self.nested {
            play_five(cpu, rt, domain, self);
        } else {
            play_one(cpu, rt, domain, self);
        }
    }
}

// The test in this mode, with one handler, or with two tasks and five nested handlers in each.
fn test(
    rt: &(impl Abort + AllocGlobal + Threads + Wait + Sync),
    mode: Mode,
    nested: bool,
) -> Result<(), Fail>
    requires awake { halts mode ≡ false }
{
    let cpus = if nested { 9 } else { 3 };
    let Ok((domain, mut cpus)) = open(rt.alloc(), mode, Kind::Spin, cpus) else {
        return Err("no memory".into());
    };
    let (looks, tasks, freed) = if nested { (0, 2, 10) } else { (1, 1, 0) };
    let board = Board::new(looks, nested);
    play_all(rt, &domain, &board, &mut cpus);
    assert_eq!(rt; board.wrong.times(), 0);
    assert_eq!(rt; board.came.times(), tasks);
    assert_eq!(rt; board.freed.times(), freed);
    assert_eq!(rt; board.ended.times(), tasks);
    assert_eq!(rt; board.looked.times(), 1);
    Ok(())
}

#[test]
fn a_handler_takes_another_lock(rt: HostRuntime) -> Result<(), Fail> {
    test(&rt, Mode::Virt, false)?;
    test(&rt, Mode::Native, false)?;
    test(&rt, Mode::Cna, false)
}

#[test]
fn five_handlers_wait_in_all_contexts(rt: HostRuntime) -> Result<(), Fail> {
    test(&rt, Mode::Virt, true)?;
    test(&rt, Mode::Native, true)?;
    test(&rt, Mode::Cna, true)
}
