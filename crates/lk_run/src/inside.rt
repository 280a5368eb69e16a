// A reader or a writer that queues for the wait lock of its lock, and frees it again. The comments
// show the word of the wait lock as (queue tail, pending, locked).
ghost use Rattle.std.specs.Prelude.{◌≡◌, ◌≢◌, Option, ℕ, true};
ghost use Rattle.lk_names.specs.declared.holder.Manner.{Manner};
ghost use Rattle.lk_rows.specs.declared.parts.Pc.TheVariants.{F1};
ghost use Rattle.lk_law.specs.Sound.{takes_wait};
ghost use Rattle.lk_domain.specs.Paths.{Any};
ghost use Rattle.lk_domain.specs.Seats.{IsOf, KeepsRest};
ghost use Rattle.lk_run.specs.Phases.{Start, Passed, CameIn};
ghost use Rattle.lk_run.specs.Resting.{Turns};
ghost use Rattle.lk_run.specs.Words.{At, Takes, Meets};

use crate::call::Call;
use crate::rest::Rest;
use lk_domain::{Cpu, steps};

impl<'a> Call<'a> {
    // The row F1: gives the word that it met, 0 where it took the wait lock.
    //   (0, 0, 0) -> (0, 0, 1): nobody holds it, pends or queues, so it is this call's.
    //   any other word stays.
    fn fast(&self, cpu: &mut Cpu) -> u64
        requires { At self.now F1 Any cpu.old }
        ensures taken { result ≡ 0 → Takes self.now F1 Any cpu.old cpu.new }
        ensures waits { result ≢ 0 → Meets self.now result cpu.old cpu.new }
    {
        steps::take_free(cpu, self.domain, self.verb, self.lock)
    }

    // From F1: `None` says that it has the wait lock.
    pub(crate) fn begin(&self, cpu: &mut Cpu) -> Option<Rest>
        requires { At self.now F1 Any cpu.old }
        ensures { Turns self.now F1 Any result cpu.old cpu.new }
    {
        let met = self.fast(cpu);
        if met == 0 {
            return None;
        }
        self.contend(cpu, met)
    }

    // The row U1: (n, p, 1) -> (n, p, 0), on the wait lock. The call has its lock, and the next one
    // of the queue may go for it now.
    pub(crate) fn release(&self, cpu: &mut Cpu)
        requires domain { IsOf cpu.old self.now.domain.now }
        requires wait { self.now.lock.wait ≡ true }
        requires verb { takes_wait self.now.verb ≡ true }
        requires passed { (m : Manner) × (s : Start) × (told : Option ℕ)
            × Passed self.now.domain.now self.now.verb self.now.lock.index m s cpu.old told }
        ensures rest { KeepsRest cpu.old cpu.new }
        ensures came { (m : Manner) (s : Start) (told : Option ℕ)
            → Passed self.now.domain.now self.now.verb self.now.lock.index m s cpu.old told
            → CameIn self.now.domain.now self.now.verb self.now.lock.index m s cpu.new told }
    {
        steps::release(cpu, self.domain, self.verb, self.lock);
    }
}
