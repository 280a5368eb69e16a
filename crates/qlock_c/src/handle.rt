// A box with a port, as C has it: its pointer. What a handle owns is dropped by taking the box out.
ghost use Rattle.std.specs.Prelude.{◌≡◌, Option, Some, None};
ghost use Rattle.lk_port.specs.declared.port.Port.{Port};
ghost use Rattle.qlock_c.specs.Own.{sealed_owns, sealed_coded};

use lk_parcel::Parcel;
use lk_port::Port;
use std::alloc::Global;
use std::marker::Model;

#[repr(C)]
#[derive(Drop)]
pub struct Handle {
    pub(crate) at: *mut u8,
    pub(crate) alloc: Global,
    pub ghost inner: { Option Port } by { sealed_coded },
}

impl Model for Handle {
    ghost also_owns = { λ s. sealed_owns s.alloc s.at s.inner };
}

impl Handle {
    // A handle that has nothing.
    pub(crate) fn empty(alloc: Global) -> Handle
        ensures { result.inner ≡ None }
    {
        Handle {
            at: std::ptr::null_mut(),
            alloc,
        }
    }

    pub(crate) fn of_parcel(parcel: Parcel<Port, Global>) -> Handle
        ensures { result.inner ≡ Some parcel.value }
    {
        let Parcel { at, alloc } = parcel;
        Handle {
            at: at.cast::<u8>(),
            alloc,
        }
    }

    pub(crate) fn into_parcel(self) -> Parcel<Port, Global>
        requires { (x : Port) × (self.inner ≡ Some x) }
        ensures { self.inner ≡ Some result.value }
    {
        let Handle { at, alloc } = self;
        Parcel {
            at: at.cast::<Port>(),
            alloc,
        }
    }
}

impl Handle {
    ghost use Rattle.std.specs.Prelude.{true};
    ghost use Rattle.std.specs.Borrow.{sem};
    ghost use Rattle.qlock_c.specs.Lending.{LendsPort};
    ghost use Rattle.qlock_c.specs.Own.{is_full};

    // The port that it has. It stays where it is, so that a call writes nothing into the handle.
    #[inline]
    pub(crate) fn port_mut(&mut self) -> &mut Port
        requires { is_full self.old.inner ≡ true }
        ensures* writes_back { sem 𝓛 (LendsPort self.entry result) }
        ensures value { self.old.inner ≡ Some result.now }
    {
        unsafe { &mut *self.at.cast::<Port>() }
    }
}

unsafe impl Send for Handle {}
