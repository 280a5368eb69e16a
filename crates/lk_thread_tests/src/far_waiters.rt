// A waiter of another socket, in `cna`: it is moved aside, unless it is of an interrupt in the second
// format.
ghost use Rattle.std.specs.Prelude.{Some, true};
ghost use Rattle.lk_domain.specs.Paths.{AreKept, Passes, is_busy};
ghost use Rattle.lk_domain.specs.Seats.{IsOf, KeepsRest, calls_of, ledger_of};
ghost use Rattle.lk_thread_tests.specs.Stages.{MayVisit, PlaysIn, RestsAgain};

use crate::stage::{Scene, Sign, Stay, hold, may_visit, open_two, play_all};
use lk_domain::{Cpu, Domain, LockId};
use lk_names::Format;
use lk_run::{Irq, lock, unlock};
use std::process::Abort;
use std::sync::Wait;
use std::test::Fail;
use std::thread::Threads;

/// The lock for which five processors come.
const SHARED: LockId = LockId { index: 1 };

/// The lock for which the task waits that is interrupted.
const OTHER: LockId = LockId { index: 2 };

/// The signs of a test, in the order in which they come.
#[derive(Drop)]
struct Board {
    // the two locks are held
    held: Sign,
    other_held: Sign,
    // one waits with the pending bit, and it or the next has had the lock
    pends: Sign,
    had: Sign,
    // one leads the queue, another of the far socket stands behind it, and one of the near behind that
    leads: Sign,
    far: Sign,
    near: Sign,
    // the near one has the lock
    near_has: Sign,
    // the far one had it, and had it after the near one
    far_had: Sign,
    moved: Sign,
    // the far one is a handler
    interrupts: bool,
    // something was not as it has to be
    wrong: Sign,
}

impl Board {
    fn new(interrupts: bool) -> Board {
        Board {
            held: Sign::new(),
            other_held: Sign::new(),
            pends: Sign::new(),
            had: Sign::new(),
            leads: Sign::new(),
            far: Sign::new(),
            near: Sign::new(),
            near_has: Sign::new(),
            far_had: Sign::new(),
            moved: Sign::new(),
            interrupts,
            wrong: Sign::new(),
        }
    }

    // A lock is held from one sign to another.
    fn stay<'a>(&'a self, held: &'a Sign, until: &'a Sign) -> Stay<'a> {
        Stay {
            held,
            until,
            times: 1,
            wrong: &self.wrong,
        }
    }
}

/// A turn with the lock: it comes after a sign, waits with so many calls in the slow path, and says
/// that it waits and that it has the lock.
#[derive(Drop)]
struct Turn<'a> {
    after: &'a Sign,
    queued: u32,
    waits: &'a Sign,
    has: &'a Sign,
}

impl<'a> Turn<'a> {
    fn new(after: &'a Sign, queued: u32, waits: &'a Sign, has: &'a Sign) -> Turn<'a> {
        Turn {
            after,
            queued,
            waits,
            has,
        }
    }
}

/// A handler that takes no lock: it says once that its processor waits for the lock, with so many
/// calls in the slow path.
#[derive(Drop)]
struct Herald<'a> {
    polls: u64,
    queued: u32,
    came: bool,
    sign: &'a Sign,
}

impl<'a> Herald<'a> {
    fn new(queued: u32, sign: &'a Sign) -> Herald<'a> {
        Herald {
            polls: 0,
            queued,
            came: false,
            sign,
        }
    }
}

impl<'a> Irq for Herald<'a> {
    ghost nests = { true };

    ghost polls = { λ herald. Some herald.polls };

    fn poll<R: Wait>(&mut self, cpu: &mut Cpu, _rt: &R, _domain: &Domain) {
        if !self.came && cpu.waits(SHARED) && cpu.queued() == self.queued {
            self.came = true;
            self.sign.raise();
        }
        self.polls = self.polls.saturating_add(1);
    }
}

/// A handler that comes once the queue is led, and then takes and frees the lock.
#[derive(Drop)]
struct Visitor<'a> {
    polls: u64,
    came: bool,
    board: &'a Board,
}

impl<'a> Irq for Visitor<'a> {
    ghost nests = { true };

    ghost polls = { λ visitor. Some visitor.polls };

    fn poll<R: Wait>(&mut self, cpu: &mut Cpu, rt: &R, domain: &Domain) {
        self.polls = self.polls.saturating_add(1);
        if !self.came && self.board.leads.times() == 1 && may_visit(cpu, domain, SHARED) {
            self.came = true;
            visit(cpu, rt, domain, self.board, SHARED);
        }
    }
}

// Takes the lock and frees it, in a handler, and notes whether the near one was before it.
fn visit<R: Wait>(cpu: &mut Cpu, rt: &R, domain: &Domain, board: &Board, id: LockId)
    requires domain { IsOf cpu.old domain.now }
    requires may { MayVisit domain.now id.index cpu.old }
    ensures rest { KeepsRest cpu.old cpu.new }
    ensures calls { AreKept (calls_of cpu.old) (calls_of cpu.new) }
    ensures ledger { Passes (is_busy (calls_of cpu.old)) (ledger_of cpu.old) (ledger_of cpu.new) }
{
    lock(cpu, rt, domain, id, &mut Herald::new(1, &board.far));
    note_far(board);
    unlock(cpu, domain, id);
}

// The far one has the lock.
fn note_far(board: &Board) {
    if board.near_has.times() == 1 {
        board.moved.raise();
    }
    board.far_had.raise();
}

// Takes the lock after a sign, says that it waits, and frees it.
fn wait<R: Wait>(cpu: &mut Cpu, rt: &R, domain: &Domain, board: &Board, turn: &Turn)
    requires { PlaysIn domain.now cpu.old }
    ensures { RestsAgain domain.now cpu.old cpu.new }
{
    board.wrong.raise_unless(turn.after.comes(1));
    lock(
        cpu,
        rt,
        domain,
        SHARED,
        &mut Herald::new(turn.queued, turn.waits),
    );
    turn.has.raise();
    unlock(cpu, domain, SHARED);
}

// The far processor waits with its task.
fn wait_far<R: Wait>(cpu: &mut Cpu, rt: &R, domain: &Domain, board: &Board)
    requires { PlaysIn domain.now cpu.old }
    ensures { RestsAgain domain.now cpu.old cpu.new }
{
    board.wrong.raise_unless(board.leads.comes(1));
    lock(cpu, rt, domain, SHARED, &mut Herald::new(1, &board.far));
    note_far(board);
    unlock(cpu, domain, SHARED);
}

// It waits with a handler, while its task waits for another lock.
fn wait_interrupted<R: Wait>(cpu: &mut Cpu, rt: &R, domain: &Domain, board: &Board)
    requires { PlaysIn domain.now cpu.old }
    ensures { RestsAgain domain.now cpu.old cpu.new }
{
    board.wrong.raise_unless(board.other_held.comes(1));
    let mut visitor = Visitor {
        polls: 0,
        came: false,
        board,
    };
    lock(cpu, rt, domain, OTHER, &mut visitor);
    unlock(cpu, domain, OTHER);
}

impl Scene for Board {
    fn play<R: Wait>(&self, cpu: &mut Cpu, rt: &R, domain: &Domain) {
        let first = Turn::new(&self.held, 0, &self.pends, &self.had);
        let second = Turn::new(&self.pends, 1, &self.leads, &self.had);
        let near = Turn::new(&self.far, 1, &self.near, &self.near_has);
        let shared = self.stay(&self.held, &self.near);
        let other = self.stay(&self.other_held, &self.far_had);
        match cpu.number() {
            0 => hold(cpu, rt, domain, SHARED, &shared),
            1 => wait(cpu, rt, domain, self, &first),
            2 => wait(cpu, rt, domain, self, &second),
            3 if self.interrupts => wait_interrupted(cpu, rt, domain, self),
            3 => wait_far(cpu, rt, domain, self),
            4 => wait(cpu, rt, domain, self, &near),
            _ => hold(cpu, rt, domain, OTHER, &other),
        }
    }
}

// One domain, in which the far waiter is moved aside so often.
fn test_far(
    rt: &(impl Abort + AllocGlobal + Threads + Wait + Sync),
    format: Format,
    interrupts: bool,
    moved: u64,
) -> Result<(), Fail> {
    let Ok((domain, mut cpus)) = open_two(rt.alloc(), format) else {
        return Err("no memory".into());
    };
    let board = Board::new(interrupts);
    play_all(rt, &domain, &board, &mut cpus);
    assert_eq!(rt; board.wrong.times(), 0);
    assert_eq!(rt; board.far_had.times(), 1);
    assert_eq!(rt; board.near_has.times(), 1);
    assert_eq!(rt; board.moved.times(), moved);
    Ok(())
}

#[test]
fn a_far_task_is_moved_aside(rt: HostRuntime) -> Result<(), Fail> {
    test_far(&rt, Format::One, false, 1)?;
    test_far(&rt, Format::Two, false, 1)
}

#[test]
fn a_far_interrupt_is_moved_aside_in_the_first_format(rt: HostRuntime) -> Result<(), Fail> {
    test_far(&rt, Format::One, true, 1)
}

#[test]
fn a_far_interrupt_stays_in_the_second_format(rt: HostRuntime) -> Result<(), Fail> {
    test_far(&rt, Format::Two, true, 0)
}
