// The rows in which a queue head that has the lock chooses its successor and hands off, one step
// each. The comments show the main queue as (own, a .. b, y, ..), the secondary queue as
// [first .. t], and a word as (queue tail, pending, locked).
ghost use Rattle.std.specs.Prelude.{IfSome, Some};
ghost use Rattle.lk_rows.specs.declared.parts.Pc.TheVariants.{C1, C3, C7, C8};
ghost use Rattle.lk_run.specs.Choosing.{HasAppendedMoved, HasAppendedRest, HasCut, HasSetTail};
ghost use Rattle.lk_run.specs.Choosing.{HasLookedBehind, HasLookedBeyond, HasTail};
ghost use Rattle.lk_run.specs.Choosing.{HasTriedToPromote, MayAppendMoved, MayAppendRest, MayCut};
ghost use Rattle.lk_run.specs.Choosing.{MayLookBeyond, MayPromote, MaySetTail};
ghost use Rattle.lk_run.specs.Heads.{At, Steps, Takes, IsNodeOf, Fronts, FrontsWith, Precedes};
ghost use Rattle.lk_run.specs.Phases.{Knows};

use crate::call::Front;
use crate::seen::{Behind, Site};
use crate::words::{mark_met, tail_met};
use lk_domain::met::{is_last, node_met};
use lk_domain::{Cpu, Link, Part, steps};
use lk_rows::{More, flag_for};
use lk_word::NodeName;

impl<'a> Front<'a> {
    // The row C1: reads the link of the own node. Before that it looks at the own count of
    // handoffs, as the row asks. While the count is below the threshold, the head chooses a waiter
    // that is local, and passes over one that is not. From the threshold on, the secondary queue
    // returns before that waiter, or the head chooses that waiter if there is no secondary queue.
    // If nobody is linked, the secondary queue is all of the rest, or this was a failed poll if
    // there is none. The result has the mark of the link too: C4 and C9 store it again with the
    // node that it came with.
    pub(crate) fn look_first(&self, cpu: &mut Cpu) -> Behind
        requires { At self.now C1 Fronts cpu.old }
        ensures { HasLookedBehind self.now result cpu.old cpu.new }
    {
        let domain = self.call.domain;
        let runs = steps::own_runs(cpu, domain, self.call.verb, self.own);
        let met = steps::look_own(cpu, domain, self.call.verb, self.own, Part::Next);
        let mark = mark_met(met);
        let site = Site {
            domain,
            cpu: cpu.number(),
        };
        let seen = site.first_seen(runs, self.second, node_met(met), mark);
        Behind { seen, mark }
    }

    // The row C2: reads the link of b, the last waiter that the head has passed over. It chooses
    // a local waiter, and passes over another too. If nobody is linked, it moves nobody.
    pub(crate) fn look_more(&self, cpu: &mut Cpu, b: NodeName) -> More
        requires b { IsNodeOf self.now b }
        requires waits { MayLookBeyond self.now b cpu.old }
        ensures { HasLookedBeyond self.now b result cpu.old cpu.new }
    {
        let domain = self.call.domain;
        let met = steps::look_next(cpu, domain, self.call.verb, b);
        let mark = mark_met(met);
        let site = Site {
            domain,
            cpu: cpu.number(),
        };
        site.more_seen(self.second, node_met(met), mark)
    }

    // The row C3: reads t, the last of [first .. t], in the node of the first. The waiters that the
    // head has passed over are to move behind t, or those from the first to t are to return.
    pub(crate) fn find_tail(&self, cpu: &mut Cpu, first: NodeName) -> NodeName
        requires first { IsNodeOf self.now first }
        requires waits { At self.now C3 (FrontsWith (Some first)) cpu.old }
        ensures { HasTail self.now first result cpu.old cpu.new }
    {
        let met = steps::second_tail(cpu, self.call.domain, self.call.verb, first, None);
        tail_met(met)
    }

    // The row C4: the link of t, none -> a, so that the waiters that the head has passed over stand
    // behind [first .. t]. The main queue has them still, (own, a .. b, y, ..).
    pub(crate) fn append_moved(&self, cpu: &mut Cpu, a: NodeName, mark: bool, t: NodeName)
        requires a { IsNodeOf self.now a }
        requires t { IsNodeOf self.now t }
        requires waits { MayAppendMoved self.now a t cpu.old }
        requires knows { Knows a mark cpu.old }
        ensures { HasAppendedMoved self.now a t cpu.old cpu.new }
    {
        let moved = Link { node: a, mark };
        steps::append(cpu, self.call.domain, self.call.verb, t, moved);
    }

    // The row C5: the link of b, y -> none. The secondary queue ends with b, and the head alone
    // knows its successor in the main queue.
    pub(crate) fn cut(&self, cpu: &mut Cpu, b: NodeName)
        requires b { IsNodeOf self.now b }
        requires waits { MayCut self.now b cpu.old }
        ensures { HasCut self.now b cpu.old cpu.new }
    {
        steps::cut(cpu, self.call.domain, self.call.verb, b);
    }

    // The row C6: what the first of the secondary queue has for its last, t -> b, so that the queue
    // is [first .. t, a .. b].
    pub(crate) fn set_tail(&self, cpu: &mut Cpu, first: NodeName, b: NodeName)
        requires first { IsNodeOf self.now first }
        requires b { IsNodeOf self.now b }
        requires waits { MaySetTail self.now first b cpu.old }
        ensures { HasSetTail self.now first b cpu.old cpu.new }
    {
        steps::second_tail(cpu, self.call.domain, self.call.verb, first, Some(b));
    }

    // The row C7: the count of the successor. Without a secondary queue it is 0. With one it is one
    // more than the own count, at which the head looks before that, as the row asks; the threshold
    // allows one more.
    pub(crate) fn count(&self, cpu: &mut Cpu, second: Option<NodeName>, y: NodeName)
        requires y { IsNodeOf self.now y }
        requires waits { At self.now C7 (Precedes second y) cpu.old }
        ensures { Steps self.now C7 (Precedes second y) C8 (Precedes second y) cpu.old cpu.new }
    {
        let call = self.call;
        if second.is_none() {
            steps::store_runs(cpu, call.domain, call.verb, y, 0);
            return;
        }
        let runs = steps::own_runs(cpu, call.domain, call.verb, self.own);
        let threshold = call.domain.threshold();
        prove!(runs < threshold as u64);
        steps::store_runs(cpu, call.domain, call.verb, y, runs as u32 + 1);
    }

    // The row C8, which hands off: the flag of y, unset -> go, or -> first with a secondary queue.
    // The successor is the head from here on, and the own node is free again.
    pub(crate) fn hand_chosen(&self, cpu: &mut Cpu, second: Option<NodeName>, y: NodeName)
        requires second { IfSome second (IsNodeOf self.now) }
        requires y { IsNodeOf self.now y }
        requires waits { At self.now C8 (Precedes second y) cpu.old }
        ensures { Takes self.now C8 (Precedes second y) cpu.old cpu.new }
    {
        steps::hand(cpu, self.call.domain, self.call.verb, y, flag_for(second));
    }

    // The row C9: the link of t, none -> a, so that the main queue is (own, first .. t, a, ..), and
    // the secondary queue is empty.
    pub(crate) fn append_rest(&self, cpu: &mut Cpu, a: NodeName, mark: bool, t: NodeName)
        requires a { IsNodeOf self.now a }
        requires t { IsNodeOf self.now t }
        requires waits { MayAppendRest self.now a t cpu.old }
        requires knows { Knows a mark cpu.old }
        ensures { HasAppendedRest self.now a t cpu.old cpu.new }
    {
        let rest = Link { node: a, mark };
        steps::append(cpu, self.call.domain, self.call.verb, t, rest);
    }

    // The row C10. Returns true if the secondary queue is the rest of the main queue now.
    //   (own, 0, 1) -> (t, 0, 1): the head was the last of the main queue, which is
    //   (own, first .. t) now, and the secondary queue is empty.
    //   any other word stays: another waiter came, or a pending bit is about to be cleared.
    pub(crate) fn promote(&self, cpu: &mut Cpu, t: NodeName) -> bool
        requires t { IsNodeOf self.now t }
        requires waits { MayPromote self.now t cpu.old }
        ensures { HasTriedToPromote self.now t result cpu.old cpu.new }
    {
        let call = self.call;
        let met = steps::tail_to_second(cpu, call.domain, call.lock, self.own, t);
        is_last(call.domain.plan.word_met(met), self.own)
    }
}
