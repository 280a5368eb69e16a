// A queue head that has the lock, from each place of its choice until it has handed off, or up to
// the next look that leaves it at the same row.
ghost use Rattle.std.specs.Prelude.{IfSome, None, Some};
ghost use Rattle.lk_rows.specs.declared.parts.Pc.TheVariants.{C1, C2, C3, C5, C7};
ghost use Rattle.lk_run.specs.Heads.{At, Takes, IsNodeOf, Fronts, Turns};
ghost use Rattle.lk_run.specs.Heads.{Precedes, Skips, Appends, Parts, Flushes};
ghost use Rattle.lk_run.specs.Phases.{Knows};

use crate::call::Front;
use crate::rest::{Head, Passing, Rest, Skipped};
use lk_domain::Cpu;
use lk_rows::{First, More};
use lk_word::NodeName;

impl<'a> Front<'a> {
    // From C1: it looks behind itself.
    pub(crate) fn choose(&self, cpu: &mut Cpu) -> Option<Rest>
        requires { At self.now C1 Fronts cpu.old }
        ensures { Turns self.now C1 Fronts result cpu.old cpu.new }
    {
        let behind = self.look_first(cpu);
        match behind.seen {
            First::Waits => Some(Rest::Chooses(Head {
                own: self.own,
                second: self.second,
            })),
            First::Promotes(first) => {
                let t = self.find_tail(cpu, first);
                if self.promote(cpu, t) {
                    self.give(cpu, None, first);
                    return None;
                }
                Some(Rest::Chooses(Head {
                    own: self.own,
                    second: self.second,
                }))
            }
            First::Chooses(y) => {
                self.give(cpu, self.second, y);
                None
            }
            First::Skips(a) => {
                let skipped = Skipped {
                    first: a,
                    mark: behind.mark,
                    last: a,
                };
                self.pass_over(cpu, skipped)
            }
            First::Flushes(first, a) => {
                self.flush(cpu, first, a, behind.mark);
                None
            }
        }
    }

    // From C2: it has passed over some waiters, and looks for a local waiter behind them.
    pub(crate) fn pass_over(&self, cpu: &mut Cpu, skipped: Skipped) -> Option<Rest>
        requires first { IsNodeOf self.now skipped.first }
        requires last { IsNodeOf self.now skipped.last }
        requires waits { At self.now C2 (Skips skipped.first skipped.last) cpu.old }
        requires knows { Knows skipped.first skipped.mark cpu.old }
        ensures { Turns self.now C2 (Skips skipped.first skipped.last) result cpu.old cpu.new }
    {
        match self.look_more(cpu, skipped.last) {
            More::Skips(next) => {
                let head = Head {
                    own: self.own,
                    second: self.second,
                };
                let skipped = Skipped {
                    last: next,
                    ..skipped
                };
                Some(Rest::Passes(Passing { head, skipped }))
            }
            More::Appends(first, y) => {
                self.append(cpu, first, skipped, y);
                None
            }
            More::Begins(y) => {
                self.part(cpu, skipped.first, skipped.last, y);
                None
            }
            More::Flushes(first) => {
                self.flush(cpu, first, skipped.first, skipped.mark);
                None
            }
            More::Chooses => {
                self.give(cpu, self.second, skipped.first);
                None
            }
        }
    }

    // From C3: it moves the waiters that it has passed over behind the secondary queue, and hands
    // off to y.
    fn append(&self, cpu: &mut Cpu, first: NodeName, skipped: Skipped, y: NodeName)
        requires first { IsNodeOf self.now first }
        requires a { IsNodeOf self.now skipped.first }
        requires b { IsNodeOf self.now skipped.last }
        requires y { IsNodeOf self.now y }
        requires waits { At self.now C3 (Appends first skipped.first skipped.last y) cpu.old }
        requires knows { Knows skipped.first skipped.mark cpu.old }
        ensures { Takes self.now C3 (Appends first skipped.first skipped.last y) cpu.old cpu.new }
    {
        let t = self.find_tail(cpu, first);
        self.append_moved(cpu, skipped.first, skipped.mark, t);
        self.part(cpu, first, skipped.last, y);
    }

    // From C5: it cuts off the waiters that it has passed over, the last of which is b, makes b the
    // last of the secondary queue, and hands off to y.
    fn part(&self, cpu: &mut Cpu, first: NodeName, b: NodeName, y: NodeName)
        requires first { IsNodeOf self.now first }
        requires b { IsNodeOf self.now b }
        requires y { IsNodeOf self.now y }
        requires waits { At self.now C5 (Parts first b y) cpu.old }
        ensures { Takes self.now C5 (Parts first b y) cpu.old cpu.new }
    {
        self.cut(cpu, b);
        self.set_tail(cpu, first, b);
        self.give(cpu, Some(first), y);
    }

    // From C3: the secondary queue returns before a, and the head hands off to the first of it.
    fn flush(&self, cpu: &mut Cpu, first: NodeName, a: NodeName, mark: bool)
        requires first { IsNodeOf self.now first }
        requires a { IsNodeOf self.now a }
        requires waits { At self.now C3 (Flushes first a) cpu.old }
        requires knows { Knows a mark cpu.old }
        ensures { Takes self.now C3 (Flushes first a) cpu.old cpu.new }
    {
        let t = self.find_tail(cpu, first);
        self.append_rest(cpu, a, mark, t);
        self.give(cpu, None, first);
    }

    // From C7: it hands off to y, with the first of the secondary queue, if there is one.
    fn give(&self, cpu: &mut Cpu, second: Option<NodeName>, y: NodeName)
        requires second { IfSome second (IsNodeOf self.now) }
        requires y { IsNodeOf self.now y }
        requires waits { At self.now C7 (Precedes second y) cpu.old }
        ensures { Takes self.now C7 (Precedes second y) cpu.old cpu.new }
    {
        self.count(cpu, second, y);
        self.hand_chosen(cpu, second, y);
    }
}
