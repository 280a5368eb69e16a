// The rows of a call on its way into the queue, one step each, and those of one without a node. The
// comments show a word as (queue tail, pending, locked).
ghost use Rattle.std.specs.Prelude.{◌≡◌, ◌≢◌, ◌≤◌, ℕ, true, false, None};
ghost use Rattle.lk_rows.specs.declared.parts.Pc.TheVariants.{G1, G2, G3, G4, G5, G6, G7, N1};
ghost use Rattle.lk_rows.specs.declared.parts.Pc.TheVariants.{N2};
ghost use Rattle.lk_rows.specs.declared.parts.Flag.TheVariants.{Unset};
ghost use Rattle.lk_law.specs.Cna.{node_in};
ghost use Rattle.lk_domain.specs.Calls.{slows};
ghost use Rattle.lk_domain.specs.NodePlays.{IsFlagNode};
ghost use Rattle.lk_domain.specs.Paths.{Any};
ghost use Rattle.lk_domain.specs.Seats.{KeepsRest, calls_of, view_of};
ghost use Rattle.lk_run.specs.Nodes.{At, Steps, Looks, Takes, IsNodeOf, Owns, Follows, Fronts};
ghost use Rattle.lk_run.specs.Words as call;
ghost use Rattle.lk_run.specs.Words.{IsNext};
ghost use Rattle.lk_run.specs.declared.tail.Tail.TheVariants.{First, Behind, Other};
ghost use Rattle.lk_word.specs.declared.spin_word.NodeName.{NodeName};

use crate::call::{Call, Queued};
use crate::tail::Tail;
use crate::words::{flag_met, moves_waiters};
use lk_domain::{Cpu, Link, Part, steps};
use lk_rows::Flag;
use lk_word::NodeName;

impl<'a> Queued<'a> {
    // The row G1 with a node: its flag is unset and its link is none. Where waiters are moved aside,
    // it names no last of a secondary queue either, and counts no handoff. The stores are private: no
    // other call can reach the node before this one has exchanged the tail.
    pub(crate) fn enter(&self, cpu: &mut Cpu)
        requires node { IsNext self.now.own cpu.old }
        requires waits { call.At self.now.call G1 Any cpu.old }
        ensures { call.Steps self.now.call G1 Any G2 (Owns self.now) cpu.old cpu.new }
    {
        let call = self.call;
        steps::reset(cpu, call.domain, call.verb, self.own, Part::Flag);
        steps::reset(cpu, call.domain, call.verb, self.own, Part::Next);
        if moves_waiters(call.domain.mode()) {
            steps::reset(cpu, call.domain, call.verb, self.own, Part::SecondTail);
            steps::reset(cpu, call.domain, call.verb, self.own, Part::Runs);
        }
    }

    // The row G2: gives the word. The reset of the node took a while, and the lock may be free by
    // now. A look changes no word.
    pub(crate) fn look_again(&self, cpu: &mut Cpu) -> u64
        requires { At self.now G2 Owns cpu.old }
        ensures free { result ≡ 0 → Steps self.now G2 Owns G3 Owns cpu.old cpu.new }
        ensures held { result ≢ 0 → Steps self.now G2 Owns G4 Owns cpu.old cpu.new }
    {
        steps::look(cpu, self.call.domain, self.call.verb, self.call.lock)
    }

    // The row G3: gives the word that it met, 0 where it took the lock.
    //   (0, 0, 0) -> (0, 0, 1): nobody holds the lock, pends or queues, so it is this call's, and
    //   its node is free again; nobody has seen it.
    //   any other word stays.
    pub(crate) fn swap_again(&self, cpu: &mut Cpu) -> u64
        requires { At self.now G3 Owns cpu.old }
        ensures taken { result ≡ 0 → Takes self.now G3 Owns cpu.old cpu.new }
        ensures held { result ≢ 0 → Steps self.now G3 Owns G4 Owns cpu.old cpu.new }
    {
        steps::take_free(cpu, self.call.domain, self.call.verb, self.call.lock)
    }

    // The row G4, where the word is the expected one.
    //   (0, *, *) -> (own, *, *): there was no queue, and the call is its head.
    //   (prev, *, *) -> (own, *, *): prev is its predecessor, and that of nobody else, since the
    //   next call to come finds this one's node.
    // The whole word is exchanged; where it met another word, nothing has changed.
    pub(crate) fn exchange_tail(&self, cpu: &mut Cpu, expected: u64) -> Tail
        requires { At self.now G4 Owns cpu.old }
        ensures rest { KeepsRest cpu.old cpu.new }
        ensures first { result ≡ First → Steps self.now G4 Owns G7 (Fronts None) cpu.old cpu.new }
        ensures node { (prev : NodeName) → result ≡ Behind prev → IsNodeOf self.now prev }
        ensures behind { (prev : NodeName) → result ≡ Behind prev
            → Steps self.now G4 Owns G5 (Follows prev) cpu.old cpu.new }
        ensures stays { (met : ℕ) → result ≡ Other met → view_of cpu.new ≡ view_of cpu.old }
    {
        let call = self.call;
        let met = steps::exchange_tail(cpu, call.domain, call.lock, expected, self.own);
        if met != expected {
            return Tail::Other(met);
        }
        match call.domain.plan.word_met(met).tail {
            Some(prev) => Tail::Behind(prev),
            None => Tail::First,
        }
    }

    // The row G5: the link of prev, none -> own, with a mark where the call is in a context above
    // 0. Only the call whose exchange met prev as the tail stores into it, and prev waits for it
    // before it goes.
    pub(crate) fn link(&self, cpu: &mut Cpu, prev: NodeName)
        requires prev { IsNodeOf self.now prev }
        requires waits { At self.now G5 (Follows prev) cpu.old }
        ensures { Steps self.now G5 (Follows prev) G6 Owns cpu.old cpu.new }
    {
        let inner = cpu.depth() > 1;
        let own = Link {
            node: self.own,
            mark: inner,
        };
        steps::link(cpu, self.call.domain, self.call.verb, prev, own);
    }

    // The row G6: polls the own flag. Once that is set, the predecessor has the lock, and this call
    // is the queue head. The flag may name the first of a secondary queue. The call polls its own
    // node, so a waiter does not disturb the others.
    pub(crate) fn wait(&self, cpu: &mut Cpu) -> Flag
        requires { At self.now G6 Owns cpu.old }
        ensures node { IsFlagNode self.now.call.domain.now.plan result }
        ensures leads { result ≢ Unset
            → Steps self.now G6 Owns G7 (Fronts (node_in result))
            cpu.old cpu.new }
        ensures waits { result ≡ Unset → Looks self.now G6 Owns cpu.old cpu.new }
    {
        let met = steps::look_own(cpu, self.call.domain, self.call.verb, self.own, Part::Flag);
        flag_met(met)
    }
}

impl<'a> Call<'a> {
    // The row G1 of a call whose processor has all its nodes in use: it waits without one.
    pub(crate) fn enter_bare(&self, cpu: &mut Cpu)
        requires full { 4 ≤ slows (calls_of cpu.old).frames }
        requires waits { call.At self.now G1 Any cpu.old }
        ensures { call.Steps self.now G1 Any N1 Any cpu.old cpu.new }
    {
        steps::enter_bare(cpu, self.domain, self.verb, self.lock);
    }

    // The row N1, without a node: true where the word was free. A look changes no word.
    pub(crate) fn look_bare(&self, cpu: &mut Cpu) -> bool
        requires { call.At self.now N1 Any cpu.old }
        ensures free { result ≡ true → call.Steps self.now N1 Any N2 Any cpu.old cpu.new }
        ensures held { result ≡ false → call.Looks self.now N1 Any cpu.old cpu.new }
    {
        steps::look(cpu, self.domain, self.verb, self.lock) == 0
    }

    // The row N2, without a node: true where it took the lock.
    //   (0, 0, 0) -> (0, 0, 1): nobody holds the lock, pends or queues, so it is this call's.
    //   any other word stays.
    pub(crate) fn swap_bare(&self, cpu: &mut Cpu) -> bool
        requires { call.At self.now N2 Any cpu.old }
        ensures taken { result ≡ true → call.Takes self.now N2 Any cpu.old cpu.new }
        ensures held { result ≡ false → call.Steps self.now N2 Any N1 Any cpu.old cpu.new }
    {
        steps::take_free(cpu, self.domain, self.verb, self.lock) == 0
    }
}
