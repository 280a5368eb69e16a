// The rows of the pending path, one step each. The comments show a word as (queue tail, pending,
// locked).
ghost use Rattle.std.specs.Prelude.{◌≡◌, ◌⊎◌, true, false};
ghost use Rattle.lk_rows.specs.declared.parts.Pc.TheVariants.{P0, P1, P2, P3, P4, G1};
ghost use Rattle.lk_domain.specs.Paths.{Any};
ghost use Rattle.lk_run.specs.Words.{At, Steps, Looks, Takes};

use crate::call::Call;
use lk_domain::{Cpu, steps};
use lk_rows::{Pc, after_pending, is_unlocked, to_queue};

impl<'a> Call<'a> {
    // The row P0, of a call that met (0, 1, 0): the one that pends is about to take the lock, so the
    // word is looked at once more. A look changes no word.
    pub(crate) fn look_again(&self, cpu: &mut Cpu) -> Pc
        requires { At self.now P0 Any cpu.old }
        ensures place { (result ≡ P1) ⊎ (result ≡ G1) }
        ensures goes { Steps self.now P0 Any result Any cpu.old cpu.new }
    {
        let met = steps::look(cpu, self.domain, self.verb, self.lock);
        to_queue(self.domain.plan.word_met(met))
    }

    // The row P1, and where it leads.
    //   (0, 0, 1) -> (0, 1, 1), to P3: who waits here is the next one, without a node.
    //   (0, 0, 0) -> (0, 1, 0), to P4: the holder has gone meanwhile.
    //   (n, 0, *) -> (n, 1, *), to P2: a queue came first, and the bit goes back.
    //   (n, 1, *) stays, to G1: some other call pends, and the bit is not this call's.
    // Who met no pending bit owns the one that it set, so nobody else clears it.
    pub(crate) fn set_pending(&self, cpu: &mut Cpu) -> Pc
        requires { At self.now P1 Any cpu.old }
        ensures place { (result ≡ P2) ⊎ (result ≡ P3) ⊎ (result ≡ P4) ⊎ (result ≡ G1) }
        ensures goes { Steps self.now P1 Any result Any cpu.old cpu.new }
    {
        let met = steps::set_pending(cpu, self.domain, self.verb, self.lock);
        after_pending(self.domain.plan.word_met(met))
    }

    // The row P2: (n, 1, *) -> (n, 0, *). The bit is this call's own, since it met none when it set
    // it; the queue head waits until it is clear.
    pub(crate) fn clear_pending(&self, cpu: &mut Cpu)
        requires { At self.now P2 Any cpu.old }
        ensures { Steps self.now P2 Any G1 Any cpu.old cpu.new }
    {
        steps::clear_pending(cpu, self.domain, self.verb, self.lock);
    }

    // The row P3: true where the word was (*, 1, 0). From then on nobody else may take the lock,
    // since a queue head waits for the pending bit. A look changes no word.
    pub(crate) fn watch(&self, cpu: &mut Cpu) -> bool
        requires { At self.now P3 Any cpu.old }
        ensures free { result ≡ true → Steps self.now P3 Any P4 Any cpu.old cpu.new }
        ensures held { result ≡ false → Looks self.now P3 Any cpu.old cpu.new }
    {
        let met = steps::look(cpu, self.domain, self.verb, self.lock);
        is_unlocked(self.domain.plan.word_met(met))
    }

    // The row P4: (*, 1, 0) -> (*, 0, 1). It takes the lock and clears its own pending bit in one
    // step, so that no word between the two can be seen; the tail stays, and with it those who came
    // meanwhile.
    pub(crate) fn take_pending(&self, cpu: &mut Cpu)
        requires { At self.now P4 Any cpu.old }
        ensures { Takes self.now P4 Any cpu.old cpu.new }
    {
        steps::pending_to_locked(cpu, self.domain, self.verb, self.lock);
    }
}
