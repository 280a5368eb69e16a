// How the newest frame of a processor moves.

ghost use Rattle.std.specs.Prelude.{◌≡◌, Some, ◌≤◌, ◌<◌, ◌+◌, length, drop, slice_get};
ghost use Rattle.lk_rows.specs.Machine.{HasTop, HasNode, depth_at, handlers_at, node_at, push, pop};
ghost use Rattle.lk_rows.specs.Machine.{set_node, set_top, top_frame};
ghost use Rattle.lk_rows.specs.Programs.{HasPrograms, handlers_of, program_at, is_release, to_release};
ghost use Rattle.lk_rows.specs.Moves.{CanMove, first_place, program_of, started, settled, skipped, done, granted, freed, missed, leave, take_wait, node_of};
ghost use Rattle.lk_rows.specs.Row.{moved, next_lead, event_of, Passes};
ghost use Rattle.lk_rows.specs.Acts.{handler_frame};

use crate::machine::Machine;
use crate::machine::rest::rest_frame;
use lk_names::{Event, List, LockName, Mode, What};
use lk_rows::{Flag, Frame, Op, Pc, Verb, named};
use lk_word::NodeName;

// The row at which an operation begins.
fn first_place(mode: Mode, verb: Verb) -> Pc
    ensures { result ≡ first_place mode verb }
{
    match verb {
        Verb::Lock => Pc::F1,
        Verb::Try => Pc::T1,
        Verb::Unlock => match mode {
            Mode::Pv => Pc::U2,
            _ => Pc::U1,
        },
        Verb::Read => Pc::R1,
        Verb::Write => Pc::Wr1,
        Verb::TryRead => Pc::Y1,
        Verb::TryWrite => Pc::Y4,
        Verb::RUnlock => Pc::Z1,
        Verb::WUnlock => Pc::Z2,
    }
}

// The frame at the first row of an operation.
pub(super) fn started(mode: Mode, frame: Frame, op: Op) -> Frame
    ensures { result ≡ started mode frame op }
{
    Frame {
        place: Some(first_place(mode, op.verb)),
        lock: LockName {
            index: op.lock,
            wait: false,
        },
        ..frame
    }
}

// Whether a verb releases.
fn is_release(verb: Verb) -> bool
    ensures { result ≡ is_release verb }
{
    matches!(verb, Verb::Unlock | Verb::RUnlock | Verb::WUnlock)
}

// How many operations there are from a position up to the release of a lock, with the release.
// Without such a release, these are all operations from there on.
fn to_release(program: &List<Op>, from: usize, lock: u32) -> usize
    requires { from ≤ length program.now.items }
    ensures value { result ≡ to_release (drop from program.now.items) lock }
    ensures bound { from + result ≤ length program.now.items }
{
    for at in from..program.len() {
        let op = program.get(at);
        if is_release(op.verb) && op.lock == lock {
            return at - from + 1;
        }
    }
    program.len() - from
}

impl Machine {
    // The operation at a position of a program of a processor, or `None` behind the last one.
    fn operation(&self, cpu: u32, number: u32, at: u32) -> Option<Op>
        requires programs { HasPrograms self.now.setup cpu }
        requires known { number ≤ handlers_of self.now.setup cpu }
        ensures { result ≡ slice_get (program_at self.now.setup cpu number) at }
    {
        let program = self.setup.program(cpu, number);
        let at = at as usize;
        if at < program.len() {
            Some(*program.get(at))
        } else {
            None
        }
    }

    // The newest frame begins an operation, at this position of its program.
    #[inline]
    fn begin(&mut self, cpu: u32, at: u32, op: Op)
        requires { HasTop self.old cpu }
        ensures { self.new
            ≡ set_top self.old cpu
            (started self.old.setup.mode (record (top_frame self.old cpu) { «at» = at }) op) }
    {
        let frame = self.frame(cpu);
        let started = started(self.setup.mode, Frame { at, ..frame }, op);
        self.set_frame(cpu, started);
    }

    // The newest frame has ended an operation, and goes on at this position of its program.
    fn settle(&mut self, cpu: u32, at: u32)
        requires top { HasTop self.old cpu }
        requires programs { HasPrograms self.old.setup cpu }
        requires known { (top_frame self.old cpu).program ≤ handlers_of self.old.setup cpu }
        ensures { self.new ≡ settled self.old cpu (record (top_frame self.old cpu) { «at» = at }) }
    {
        let frame = self.frame(cpu);
        match self.operation(cpu, frame.program, at) {
            Some(op) => self.begin(cpu, at, op),
            None if frame.ctx == 0 => self.set_frame(
                cpu,
                Frame {
                    at,
                    place: None,
                    ..frame
                },
            ),
            None => self.pop(cpu),
        }
    }

    /// Ends the operation of the newest frame, which begins the next operation of its program. If
    /// there is none, the frame of a task is finished, and the frame of a handler is removed.
    #[inline(never)]
    pub fn done(&mut self, cpu: u32)
        requires { CanMove self.old cpu }
        ensures { self.new ≡ done self.old cpu }
    {
        let at = self.frame(cpu).at;
        self.settle(cpu, at + 1);
    }

    /// Sends the newest frame to acquire the wait lock of its reader-writer lock. Once it has the
    /// wait lock, it goes on at the row `then`.
    pub fn take_wait(&mut self, cpu: u32, then: Pc)
        requires { HasTop self.old cpu }
        ensures { self.new ≡ take_wait self.old cpu then }
    {
        let frame = self.frame(cpu);
        self.set_frame(
            cpu,
            Frame {
                place: Some(Pc::F1),
                lock: LockName {
                    index: frame.lock.index,
                    wait: true,
                },
                then: Some(then),
                ..frame
            },
        );
    }

    /// Sends the newest frame to release its wait lock, by the rows that release a spinlock.
    pub fn free_wait(&mut self, cpu: u32)
        requires { HasTop self.old cpu }
        ensures { self.new
            ≡ set_top self.old cpu
            (record (top_frame self.old cpu) {
              place = Some
                  (first_place self.old.setup.mode Verb.Unlock);
            }) }
    {
        let place = first_place(self.setup.mode, Verb::Unlock);
        self.set_place(cpu, place);
    }

    /// The newest frame has acquired its lock, and its operation is done. If the lock is a wait
    /// lock, the frame goes on at the row that `take_wait` noted.
    #[inline(never)]
    pub fn granted(&mut self, cpu: u32)
        requires { CanMove self.old cpu }
        ensures { self.new ≡ granted self.old cpu }
    {
        let frame = self.frame(cpu);
        if frame.lock.wait {
            self.set_frame(
                cpu,
                Frame {
                    place: frame.then,
                    ..frame
                },
            );
        } else {
            self.done(cpu);
        }
    }

    /// The newest frame has released its lock, and its operation is done. If the lock is a wait
    /// lock, this is the operation for which it was acquired.
    pub fn freed(&mut self, cpu: u32)
        requires { CanMove self.old cpu }
        ensures { self.new ≡ freed self.old cpu }
    {
        self.done(cpu);
    }

    /// The try of the newest frame has failed. The frame goes on behind the operation that would
    /// have released the lock.
    #[inline(never)]
    pub fn missed(&mut self, cpu: u32)
        requires { CanMove self.old cpu }
        ensures { self.new ≡ missed self.old cpu }
    {
        let frame = self.frame(cpu);
        let skipped = self.skipped(cpu, frame);
        self.settle(cpu, frame.at + skipped);
    }

    // How many operations a failed try skips: itself, and all up to the one that would have
    // released the lock.
    fn skipped(&self, cpu: u32, frame: Frame) -> u32
        requires programs { HasPrograms self.now.setup cpu }
        requires known { frame.program ≤ handlers_of self.now.setup cpu }
        requires short { length (program_of self.now cpu frame) ≤ 64 }
        requires inside { frame.at ≤ length (program_of self.now cpu frame) }
        ensures value { result ≡ skipped self.now cpu frame }
        ensures bound { result ≤ 64 }
    {
        let program = self.setup.program(cpu, frame.program);
        let after = program.len().min(frame.at as usize + 1);
        (to_release(program, after, frame.lock.index) + 1) as u32
    }

    /// The newest frame leaves the slow path, and gives its node back.
    #[tactic(auto, using(crate::proofs::Kept::kept))]
    pub fn leave(&mut self, cpu: u32)
        requires { HasTop self.old cpu }
        ensures { self.new ≡ leave self.old cpu }
    {
        let frame = self.frame(cpu);
        let queued = self.queued(cpu);
        self.set_frame(cpu, Frame { me: None, ..frame });
        self.set_queued(cpu, queued.saturating_sub(1));
    }

    /// The newest frame leaves the slow path with the lock: `leave`, and then `granted`.
    #[inline(never)]
    #[tactic(auto, using(crate::proofs::Kept::kept))]
    pub fn leave_granted(&mut self, cpu: u32)
        requires { CanMove self.old cpu }
        ensures { self.new ≡ granted (leave self.old cpu) cpu }
    {
        self.leave(cpu);
        self.granted(cpu);
    }

    /// The newest frame reads the link of its own node. It goes to `back` while that names nobody, and
    /// then to `on`, with the successor as its `y` (G10, E14).
    #[inline]
    pub fn find_next(&mut self, cpu: u32, back: Pc, on: Pc)
        requires top { HasTop self.old cpu }
        requires own { HasNode self.old (node_of (top_frame self.old cpu).me) }
        ensures { self.new ≡ moved self.old cpu (top_frame self.old cpu) (next_lead back on
            (node_at self.old (node_of (top_frame self.old cpu).me)).next) }
    {
        let frame = self.frame(cpu);
        match self.node(named(frame.me)).next {
            None => self.set_place(cpu, back),
            Some(next) => self.set_frame(
                cpu,
                Frame {
                    y: Some(next),
                    place: Some(on),
                    ..frame
                },
            ),
        }
    }

    /// The newest frame hands off to the waiter of this node, by this flag, after so many waiters were
    /// moved aside. Returns the event (G11, E15, C8).
    #[inline]
    pub fn hand(&mut self, cpu: u32, next: NodeName, flag: Flag, moved: u32) -> Event
        requires top { HasTop self.old cpu }
        requires next { HasNode self.old next }
        ensures told { self.new
            ≡ set_node self.old next (record (node_at self.old next) { flag = flag }) }
        ensures event { Some result
            ≡ event_of self.old cpu (top_frame self.old cpu) (Passes next moved) }
    {
        let what = What::Pass {
            lock: self.lock(cpu),
            to: self.waiter_of(next),
            moved,
        };
        let event = self.event(cpu, what);
        self.set_flag(next, flag);
        event
    }

    /// Begins the next interrupt handler of a processor, in a new frame one context above the
    /// newest. A handler must be left, and the processor must have fewer than `MAX_FRAMES` frames.
    /// This call ends no halt.
    #[inline(never)]
    #[tactic(auto, using(crate::proofs::Kept::pushed))]
    pub fn interrupt(&mut self, cpu: u32)
        requires top { HasTop self.old cpu }
        requires programs { HasPrograms self.old.setup cpu }
        requires room { depth_at self.old cpu < 6 }
        requires left { handlers_at self.old cpu < handlers_of self.old.setup cpu }
        ensures { self.new
            ≡ settled (push self.old cpu (handler_frame self.old cpu)) cpu
            (handler_frame self.old cpu) }
    {
        let frame = self.handler_frame(cpu);
        self.push(cpu, frame);
        self.settle(cpu, 0);
    }

    // The frame of the next handler.
    #[tactic(auto, unfolding(lk_rows::specs::Machine::handlers_at, lk_rows::specs::Machine::cpu_at))]
    fn handler_frame(&self, cpu: u32) -> Frame
        requires in_range { cpu < length self.now.cpus }
        requires programs { HasPrograms self.now.setup cpu }
        requires left { handlers_at self.now cpu < handlers_of self.now.setup cpu }
        ensures { result ≡ handler_frame self.now cpu }
    {
        let state = &self.cpus[cpu as usize];
        Frame {
            ctx: self.depth(cpu),
            program: state.handlers + 1,
            ..rest_frame()
        }
    }

    // Adds a frame, the newest now, and uses up a handler.
    #[tactic(auto, unfolding(lk_rows::specs::Machine::push, lk_rows::specs::Machine::set_cpu, lk_rows::specs::Machine::depth_at, lk_rows::specs::Machine::handlers_at, lk_rows::specs::Machine::cpu_at))]
    fn push(&mut self, cpu: u32, frame: Frame)
        requires in_range { cpu < length self.old.cpus }
        requires room { depth_at self.old cpu < 6 }
        requires few { handlers_at self.old cpu < 16 }
        ensures { self.new ≡ push self.old cpu frame }
    {
        let state = &mut self.cpus[cpu as usize];
        match state.frames.push(frame) {
            Ok(()) => {}
            Err(_) => unreachable!(),
        }
        state.handlers += 1;
    }

    // Removes the newest frame.
    #[tactic(auto, unfolding(lk_rows::specs::Machine::pop, lk_rows::specs::Machine::set_cpu, lk_rows::specs::Machine::depth_at, lk_rows::specs::Machine::cpu_at))]
    fn pop(&mut self, cpu: u32)
        requires { HasTop self.old cpu }
        ensures { self.new ≡ pop self.old cpu }
    {
        let state = &mut self.cpus[cpu as usize];
        let top = state.frames.len() - 1;
        state.frames.truncate(top);
    }
}
