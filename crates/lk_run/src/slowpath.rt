// The slow path of a call that has met a word that was not free, read from the top: `contend` goes
// on from the place to which the first row led. The comments show a word as (queue tail, pending,
// locked), and name the row from which a function goes on.
//
//   virt    V1 looks until free ------------------------------- V2 takes it
//
//   pending P0 looks again, P1 sets the bit
//             met (0, 0, 1)   P3 watches the holder go -------- P4 takes it
//             met (0, 0, 0) ----------------------------------- P4 takes it
//             met a tail      P2 takes the bit back, and queues
//             met the bit     queues
//
//   queue   G1 takes a node, G2 looks, met (0, 0, 0) ---------- G3 takes it
//             G4 becomes the tail
//               behind another G5 links, G6 waits for its flag
//             G7, the head, waits until neither held nor pending
//               the last of the queue ------------------------- G8 takes it
//               others are behind ----------------------------- G9 takes it
//                 G10 waits for its successor, G11 hands off
//                 in `cna` C1 to C10 choose the successor
//
//   no node N1 looks until free ------------------------------- N2 takes it
//
// A turn makes rows up to the next look after which the call stands where it stood. There it rests.
ghost use Rattle.std.specs.Prelude.{IfSome, None};
ghost use Rattle.lk_rows.specs.declared.parts.Pc.TheVariants.{V1, P0, P1, P3, G1, N1};
ghost use Rattle.lk_rows.specs.declared.parts.Pc.TheVariants.{G4, G6, G7, G9, G10};
ghost use Rattle.lk_domain.specs.Paths.{Any};
ghost use Rattle.lk_run.specs.Heads as head;
ghost use Rattle.lk_run.specs.Nodes as node;
ghost use Rattle.lk_run.specs.Resting.{Came, RestsAt, Turns, Turned, row_at, frame_at};
ghost use Rattle.lk_run.specs.Words.{At, IsNext};

use crate::call::{Call, Front, Queued};
use crate::rest::{Head, Joining, Rest};
use crate::tail::Tail;
use crate::words::moves_waiters;
use lk_domain::Cpu;
use lk_rows::{Flag, Pc, after_fast};
use lk_word::NodeName;

// How often a turn exchanges the tail at most.
const EXCHANGES: u32 = 8;

impl<'a> Call<'a> {
    // From the place to which the first row led that met this word, which was not free.
    #[inline(never)]
    pub(crate) fn contend(&self, cpu: &mut Cpu, met: u64) -> Option<Rest>
        requires { Came self.now met cpu.old }
        ensures { Turned self.now met result cpu.old cpu.new }
    {
        match after_fast(self.domain.mode(), self.domain.plan.word_met(met)) {
            Pc::V1 => self.spin(cpu),
            Pc::P0 => self.look_on(cpu),
            Pc::P1 => self.pend(cpu),
            _ => self.slow(cpu),
        }
    }

    // From where it rests.
    pub(crate) fn turn(&self, cpu: &mut Cpu, rest: Rest) -> Option<Rest>
        requires { RestsAt self.now rest cpu.old }
        ensures { Turns self.now (row_at rest) (frame_at rest) result cpu.old cpu.new }
    {
        match rest {
            Rest::Spins => self.spin(cpu),
            Rest::Pends => self.wait_as_next(cpu),
            Rest::Bare => self.wait_bare(cpu),
            Rest::Joins(joining) => {
                let queued = Queued {
                    call: *self,
                    own: joining.own,
                };
                queued.queue(cpu, joining.met)
            }
            Rest::Queues(own) => {
                let queued = Queued { call: *self, own };
                queued.wait_turn(cpu)
            }
            Rest::Leads(head) => {
                let front = Front {
                    call: *self,
                    own: head.own,
                    second: head.second,
                };
                front.wait_open(cpu)
            }
            Rest::Hands(head) => {
                let front = Front {
                    call: *self,
                    own: head.own,
                    second: head.second,
                };
                front.pass_on(cpu)
            }
            Rest::Chooses(head) => {
                let front = Front {
                    call: *self,
                    own: head.own,
                    second: head.second,
                };
                front.choose(cpu)
            }
            Rest::Passes(passing) => {
                let front = Front {
                    call: *self,
                    own: passing.head.own,
                    second: passing.head.second,
                };
                front.pass_over(cpu, passing.skipped)
            }
        }
    }

    // From V1.
    fn spin(&self, cpu: &mut Cpu) -> Option<Rest>
        requires { At self.now V1 Any cpu.old }
        ensures { Turns self.now V1 Any result cpu.old cpu.new }
    {
        if self.loop_look(cpu) {
            if self.loop_swap(cpu) {
                return None;
            }
            return Some(Rest::Spins);
        }
        Some(Rest::Spins)
    }

    // From P0: another pends, alone.
    fn look_on(&self, cpu: &mut Cpu) -> Option<Rest>
        requires { At self.now P0 Any cpu.old }
        ensures { Turns self.now P0 Any result cpu.old cpu.new }
    {
        match self.look_again(cpu) {
            Pc::P1 => self.pend(cpu),
            _ => self.slow(cpu),
        }
    }

    // From P1: nobody pends, and there is no queue.
    fn pend(&self, cpu: &mut Cpu) -> Option<Rest>
        requires { At self.now P1 Any cpu.old }
        ensures { Turns self.now P1 Any result cpu.old cpu.new }
    {
        match self.set_pending(cpu) {
            Pc::P2 => {
                self.clear_pending(cpu);
                self.slow(cpu)
            }
            Pc::P3 => self.wait_as_next(cpu),
            Pc::P4 => {
                self.take_pending(cpu);
                None
            }
            _ => self.slow(cpu),
        }
    }

    // From P3: it pends, and watches the holder go.
    fn wait_as_next(&self, cpu: &mut Cpu) -> Option<Rest>
        requires { At self.now P3 Any cpu.old }
        ensures { Turns self.now P3 Any result cpu.old cpu.new }
    {
        if self.watch(cpu) {
            self.take_pending(cpu);
            return None;
        }
        Some(Rest::Pends)
    }

    // From G1. A processor has four nodes, one for each of its calls in the queue; a fifth waits
    // without one.
    fn slow(&self, cpu: &mut Cpu) -> Option<Rest>
        requires { At self.now G1 Any cpu.old }
        ensures { Turns self.now G1 Any result cpu.old cpu.new }
    {
        let own = NodeName {
            cpu: cpu.number(),
            index: cpu.queued(),
        };
        let has_node = own.index < 4;
        if has_node {
            let queued = Queued { call: *self, own };
            return queued.arrive(cpu);
        }
        self.enter_bare(cpu);
        self.wait_bare(cpu)
    }

    // From N1.
    fn wait_bare(&self, cpu: &mut Cpu) -> Option<Rest>
        requires { At self.now N1 Any cpu.old }
        ensures { Turns self.now N1 Any result cpu.old cpu.new }
    {
        if self.look_bare(cpu) {
            if self.swap_bare(cpu) {
                return None;
            }
            return Some(Rest::Bare);
        }
        Some(Rest::Bare)
    }
}

impl<'a> Queued<'a> {
    // From G1 with a node.
    fn arrive(&self, cpu: &mut Cpu) -> Option<Rest>
        requires node { IsNext self.now.own cpu.old }
        requires waits { At self.now.call G1 Any cpu.old }
        ensures { Turns self.now.call G1 Any result cpu.old cpu.new }
    {
        self.enter(cpu);
        let met = self.look_again(cpu);
        if met == 0 {
            let met = self.swap_again(cpu);
            if met == 0 {
                return None;
            }
            return self.queue(cpu, met);
        }
        self.queue(cpu, met)
    }

    // From G4: it joins the queue. Where the word is not the one that it met last and there is a queue, it
    // tries again in the same turn, so that the word has little time to change once more: each exchange
    // that fails takes the word's line of the cache from who hands off.
    fn queue(&self, cpu: &mut Cpu, met: u64) -> Option<Rest>
        requires { node.At self.now G4 node.Owns cpu.old }
        ensures { node.Turns self.now G4 node.Owns result cpu.old cpu.new }
    {
        let own = self.own;
        let mut met = met;
        for _ in 0..EXCHANGES {
            match self.exchange_tail(cpu, met) {
                Tail::First => return self.lead(cpu, None),
                Tail::Behind(prev) => {
                    self.link(cpu, prev);
                    return self.wait_turn(cpu);
                }
                Tail::Other(other) => {
                    met = other;
                    if met < self.call.domain.plan.tail_unit() {
                        return Some(Rest::Joins(Joining { own, met }));
                    }
                }
            }
        }
        Some(Rest::Joins(Joining { own, met }))
    }

    // From G6, until its predecessor has handed off.
    fn wait_turn(&self, cpu: &mut Cpu) -> Option<Rest>
        requires { node.At self.now G6 node.Owns cpu.old }
        ensures { node.Turns self.now G6 node.Owns result cpu.old cpu.new }
    {
        match self.wait(cpu) {
            Flag::Go => self.lead(cpu, None),
            Flag::Second(first) => self.lead(cpu, Some(first)),
            Flag::Unset => Some(Rest::Queues(self.own)),
        }
    }

    // From G7: it is the queue head, and this is the first of the secondary queue, if there is one.
    fn lead(&self, cpu: &mut Cpu, second: Option<NodeName>) -> Option<Rest>
        requires second { IfSome second (node.IsNodeOf self.now) }
        requires waits { node.At self.now G7 (node.Fronts second) cpu.old }
        ensures { node.Turns self.now G7 (node.Fronts second) result cpu.old cpu.new }
    {
        let front = Front {
            call: self.call,
            own: self.own,
            second,
        };
        front.wait_open(cpu)
    }
}

impl<'a> Front<'a> {
    // From G7: it waits until the lock is free and nobody pends. Alone in the queue it swaps the word
    // (G8); if it has others behind it by then, it goes on to G9.
    fn wait_open(&self, cpu: &mut Cpu) -> Option<Rest>
        requires { head.At self.now G7 head.Fronts cpu.old }
        ensures { head.Turns self.now G7 head.Fronts result cpu.old cpu.new }
    {
        match self.wait_as_front(cpu) {
            Pc::G8 => {
                if self.take_sole(cpu) {
                    return None;
                }
                self.stake(cpu)
            }
            Pc::G9 => self.stake(cpu),
            _ => Some(Rest::Leads(Head {
                own: self.own,
                second: self.second,
            })),
        }
    }

    // From G9: it has others behind it, takes the lock, and hands off.
    fn stake(&self, cpu: &mut Cpu) -> Option<Rest>
        requires { head.At self.now G9 head.Fronts cpu.old }
        ensures { head.Turns self.now G9 head.Fronts result cpu.old cpu.new }
    {
        self.take_head(cpu);
        if moves_waiters(self.call.domain.mode()) {
            self.choose(cpu)
        } else {
            self.pass_on(cpu)
        }
    }

    // From G10, until its successor has linked itself, to which it hands off.
    fn pass_on(&self, cpu: &mut Cpu) -> Option<Rest>
        requires { head.At self.now G10 head.Fronts cpu.old }
        ensures { head.Turns self.now G10 head.Fronts result cpu.old cpu.new }
    {
        if let Some(next) = self.wait_for_next(cpu) {
            self.hand_on(cpu, next);
            return None;
        }
        Some(Rest::Hands(Head {
            own: self.own,
            second: self.second,
        }))
    }
}
