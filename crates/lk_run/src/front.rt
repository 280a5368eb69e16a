// The rows of a queue head, one step each, up to the handoff. The comments show a word as
// (queue tail, pending, locked).
ghost use Rattle.std.specs.Prelude.{◌≡◌, ◌≢◌, ◌⊎◌, true, false, IfSome, None};
ghost use Rattle.lk_rows.specs.declared.parts.Pc.TheVariants.{G7, G8, G9, G10, G11, C1};
ghost use Rattle.lk_law.specs.Cna.{moves_aside};
ghost use Rattle.lk_run.specs.Heads.{At, Steps, Looks, Takes, IsNodeOf, Fronts, Precedes};

use crate::call::Front;
use lk_domain::met::node_met;
use lk_domain::{Cpu, Part, steps};
use lk_rows::{Flag, Pc, after_look, is_sole};
use lk_word::NodeName;

impl<'a> Front<'a> {
    // The row G7 polls the word. Returns where it leads: back to G7 by (*, 1, *) or (*, *, 1), to
    // G8 by (own, 0, 0) without a secondary queue, and else to G9 by (n, 0, 0). From (n, 0, 0) on
    // nobody but the head may acquire the lock: a first row meets the tail, and a pending bit that
    // is set on a word with a tail is cleared again.
    pub(crate) fn wait_as_front(&self, cpu: &mut Cpu) -> Pc
        requires { At self.now G7 Fronts cpu.old }
        ensures place { (result ≡ G7) ⊎ (result ≡ G8) ⊎ (result ≡ G9) }
        ensures goes { result ≢ G7 → Steps self.now G7 Fronts result Fronts cpu.old cpu.new }
        ensures stays { result ≡ G7 → Looks self.now G7 Fronts cpu.old cpu.new }
    {
        let met = steps::look(cpu, self.call.domain, self.call.verb, self.call.lock);
        let word = self.call.domain.plan.word_met(met);
        after_look(word, self.own, self.second.is_some())
    }

    // The row G8. Returns true if it acquired the lock.
    //   (own, 0, 0) -> (0, 0, 1): the head is the last of its queue too, so the queue ends, and its
    //   node is free again.
    //   any other word stays: another waiter came, or a pending bit is about to be cleared.
    pub(crate) fn take_sole(&self, cpu: &mut Cpu) -> bool
        requires { At self.now G8 Fronts cpu.old }
        ensures taken { result ≡ true → Takes self.now G8 Fronts cpu.old cpu.new }
        ensures others { result ≡ false → Steps self.now G8 Fronts G9 Fronts cpu.old cpu.new }
    {
        let call = self.call;
        let met = steps::sole_claim(cpu, call.domain, call.verb, call.lock, self.own);
        is_sole(call.domain.plan.word_met(met), self.own)
    }

    // The row G9: (n, *, 0) -> (n, *, 1). Nobody else stores into the locked byte of a free lock
    // with a queue, so a plain store acquires it. Pending and the tail stay as the others set them.
    pub(crate) fn take_head(&self, cpu: &mut Cpu)
        requires { At self.now G9 Fronts cpu.old }
        ensures goes { moves_aside self.now.call.domain.now.plan.mode ≡ false
            → Steps self.now G9 Fronts G10 Fronts cpu.old cpu.new }
        ensures chooses { moves_aside self.now.call.domain.now.plan.mode ≡ true
            → Steps self.now G9 Fronts C1 Fronts cpu.old cpu.new }
    {
        steps::set_locked(cpu, self.call.domain, self.call.verb, self.call.lock);
    }

    // The row G10: polls the link of the own node. Returns the successor once that has linked
    // itself. No clause says that one will: after a row G8 that failed for a pending bit alone
    // there may be none, and then the head polls for ever.
    pub(crate) fn wait_for_next(&self, cpu: &mut Cpu) -> Option<NodeName>
        requires { At self.now G10 Fronts cpu.old }
        ensures node { IfSome result (IsNodeOf self.now) }
        ensures next { IfSome result (λ next. Steps self.now G10 Fronts G11 (Precedes
            self.now.second next) cpu.old cpu.new) }
        ensures stays { result ≡ None → Looks self.now G10 Fronts cpu.old cpu.new }
    {
        let met = steps::look_own(cpu, self.call.domain, self.call.verb, self.own, Part::Next);
        node_met(met)
    }

    // The row G11, which hands off: the flag of the successor, unset -> go. The successor is the
    // head from here on, and the own node, which nobody reads any more, is free again.
    pub(crate) fn hand_on(&self, cpu: &mut Cpu, next: NodeName)
        requires next { IsNodeOf self.now next }
        requires waits { At self.now G11 (Precedes self.now.second next) cpu.old }
        ensures { Takes self.now G11 (Precedes self.now.second next) cpu.old cpu.new }
    {
        steps::hand(cpu, self.call.domain, self.call.verb, next, Flag::Go);
    }
}
