// A processor, as C has it: a handle, and whether it is full. All zeros is an empty one.
ghost use Rattle.std.specs.Prelude.{◌≡◌, IfSome, None, Some};
ghost use Rattle.qlock_c.specs.Own.{is_full};

use crate::handle::Handle;
use lk_parcel::Parcel;
use lk_port::Port;
use std::alloc::Global;
use std::mem::replace;

/// A processor of a domain.
#[repr(C)]
#[derive(Drop)]
pub struct Processor {
    pub(crate) used: bool,
    pub(crate) handle: Handle,
    ghost full: { is_full handle.inner ≡ used },
}

// Takes the port out.
pub(crate) fn take(alloc: Global, cpu: &mut Processor) -> Option<Box<Port, Global>>
    ensures had { IfSome result (λ port. cpu.old.handle.inner ≡ Some port.value) }
    ensures empty { cpu.new.handle.inner ≡ None }
{
    if !cpu.used {
        return None;
    }
    let whole = replace(
        cpu,
        Processor {
            used: false,
            handle: Handle::empty(alloc),
        },
    );
    let Processor { used: _, handle } = whole;
    Some(handle.into_parcel().unpack())
}

// Puts it back.
pub(crate) fn put(cpu: &mut Processor, port: Box<Port, Global>)
    ensures { cpu.new.handle.inner ≡ Some port.value }
{
    let full = Processor {
        used: true,
        handle: Handle::of_parcel(Parcel::pack(port)),
    };
    let _old = replace(cpu, full);
}
