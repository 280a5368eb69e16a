// The processors of a domain, taken from it one by one.
ghost use Rattle.std.specs.Prelude.{◌≡◌, ◌+◌, ◌<◌, length};
ghost use Rattle.lk_lock.specs.Standing.{AllRest, Rests};

use lk_lock::{Cpu, Domain};
use lk_names::List;

/// The last processor of a domain.
pub fn last(domain: &Domain, cpus: &mut List<Cpu>) -> Cpu
    requires some { 0 < length cpus.old.items }
    requires rest { AllRest domain.now cpus.old.items }
    ensures rests { Rests domain.now (length cpus.new.items) result }
    ensures rest { AllRest domain.now cpus.new.items }
    ensures less { length cpus.old.items ≡ length cpus.new.items + 1 }
{
    cpus.pop()
}
