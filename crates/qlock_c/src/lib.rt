//! The locks of `lk_run` and `lk_pvdomain` for C. `include/qlock.h` of the library declares these
//! functions, and says what a caller owes.
#![tactic(auto)]

ghost use Rattle.std.specs.Prelude.{◌≡◌, ◌≢◌, ◌⊎◌};
ghost use Rattle.qlock_c.specs.Opened.{AreEmpty, AreOpen};

mod codes;
mod handle;
mod looks;
mod opening;
mod processor;
mod read;
mod spin;
mod write;

use codes::CLOSED;
use opening::open_all;
use processor::{Processor, put, take};
use std::alloc::Global;

/// Makes a domain with a lock for each kind and a processor for each socket, and puts the processors
/// into the handles, which must be empty. The family is 0 for `virt`, 1 for `native`, 2 for `cna`, and
/// 3 for `pv`. A kind is 0 for a spinlock and 1 for a reader-writer lock, of which `pv` has none; there
/// the threshold is the spin bound.
#[unsafe(no_mangle)]
pub extern "C" fn qlock_open(
    alloc: Global,
    family: u32,
    kinds: &[u8],
    sockets: &[u32],
    threshold: u32,
    cpus: &mut [Processor],
) -> u32
    ensures opened { result ≡ 0 → AreOpen family kinds.now sockets.now threshold cpus.new }
    ensures refused { result ≢ 0 → (cpus.new ≡ cpus.old)
        ⊎ (AreEmpty cpus.old × AreEmpty cpus.new) }
{
    open_all(alloc, family, kinds, sockets, threshold, cpus)
}

/// Gives a processor up. The domain ends with its last processor.
#[unsafe(no_mangle)]
pub extern "C" fn qlock_close(alloc: Global, cpu: &mut Processor) -> u32 {
    match take(alloc, cpu) {
        None => CLOSED,
        Some(port) => {
            if port.is_idle() {
                drop(port);
                return 0;
            }
            put(cpu, port);
            codes::IN_USE
        }
    }
}
