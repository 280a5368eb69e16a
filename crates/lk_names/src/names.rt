// Names of modes, locks and waiters.
ghost use Rattle.std.specs.Prelude.{◌≡◌, ◌^◌, ◌<◌};
ghost use Rattle.lk_names.specs.Names.{place_of, lock_at};

use crate::list::List;

/// The lock family: which lock all spinlocks of a machine are.
#[derive(Clone, Copy, Debug, PartialEq, Eq)]
pub enum Mode {
    /// A test-and-set spinlock, as Linux uses it under a hypervisor without paravirtual locks
    /// (`virt_spin_lock`).
    Virt,
    /// The queued spinlock of Linux (`kernel/locking/qspinlock.c`).
    Native,
    /// The compact NUMA-aware lock of Dice and Kogan.
    Cna,
    /// The paravirtual queued spinlock of Linux (`kernel/locking/qspinlock_paravirt.h`).
    Pv,
}

/// The format of an input, and of the locks that are made from it. It says how lock words are laid
/// out, how many processors a trace may have, and which waiters a queue head of mode `cna` may
/// move aside.
#[derive(Clone, Copy, Debug, PartialEq, Eq)]
pub enum Format {
    /// Narrow words, at most 64 processors in a trace, and any waiter of another socket may be
    /// moved aside.
    One,
    /// Wide words, and at most 1,024 processors in a trace. A waiter in an interrupt is never
    /// moved aside.
    Two,
}

/// The kind of a declared lock.
#[derive(Clone, Copy, Debug, PartialEq, Eq)]
pub enum Kind {
    /// A spinlock.
    Spin,
    /// A queued reader-writer lock (`kernel/locking/qrwlock.c`). It has a wait lock, which is a
    /// spinlock.
    Rw,
}

/// Who acquires locks: a processor in an interrupt context. Context 0 is the task, and context c
/// is the c-th nested interrupt.
#[derive(Clone, Copy, Debug, PartialEq, Eq)]
pub struct Waiter {
    /// The processor, from 0.
    pub cpu: u32,
    /// The context, from 0 to 5.
    pub ctx: u32,
}

/// A declared lock, or the wait lock of a declared reader-writer lock.
#[derive(Clone, Copy, Debug, PartialEq, Eq)]
pub struct LockName {
    /// The number of the declared lock, from 0.
    pub index: u32,
    /// Whether the wait lock is meant.
    pub wait: bool,
}

impl LockName {
    /// The lock's number among all, of which each declared lock has two, its own and its wait
    /// lock's.
    pub fn place(self) -> usize
        ensures { result ≡ place_of self }
    {
        self.index as usize * 2 + usize::from(self.wait)
    }

    /// The lock of that number.
    pub fn at(place: usize) -> LockName
        requires { place < 2 ^ 32 }
        ensures { result ≡ lock_at place }
    {
        LockName {
            index: (place / 2) as u32,
            wait: place % 2 == 1,
        }
    }
}

/// The sockets of all processors.
#[derive(Drop)]
pub struct Topology {
    /// For each processor, the number of its socket.
    pub sockets: List<u32>,
}
