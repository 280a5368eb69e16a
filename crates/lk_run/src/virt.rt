// The rows of a call that waits in `virt`, one step each: a lock is taken by an exchange of its free
// word, after a look that found it free. The comments show a word as (queue tail, pending, locked).
ghost use Rattle.std.specs.Prelude.{◌≡◌, true, false};
ghost use Rattle.lk_rows.specs.declared.parts.Pc.TheVariants.{V1, V2};
ghost use Rattle.lk_domain.specs.Paths.{Any};
ghost use Rattle.lk_run.specs.Words.{At, Steps, Looks, Takes};

use crate::call::Call;
use lk_domain::{Cpu, steps};

impl<'a> Call<'a> {
    // The row V1: true where the word was free. A look changes no word.
    pub(crate) fn loop_look(&self, cpu: &mut Cpu) -> bool
        requires { At self.now V1 Any cpu.old }
        ensures free { result ≡ true → Steps self.now V1 Any V2 Any cpu.old cpu.new }
        ensures held { result ≡ false → Looks self.now V1 Any cpu.old cpu.new }
    {
        steps::look(cpu, self.domain, self.verb, self.lock) == 0
    }

    // The row V2: true where it took the lock.
    //   (0, 0, 0) -> (0, 0, 1): nobody holds the lock, so it is this call's.
    //   any other word stays: some other call was faster, and the next look waits for it.
    pub(crate) fn loop_swap(&self, cpu: &mut Cpu) -> bool
        requires { At self.now V2 Any cpu.old }
        ensures taken { result ≡ true → Takes self.now V2 Any cpu.old cpu.new }
        ensures held { result ≡ false → Steps self.now V2 Any V1 Any cpu.old cpu.new }
    {
        steps::take_free(cpu, self.domain, self.verb, self.lock) == 0
    }
}
