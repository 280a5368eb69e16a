// The key of a state: the numbers of its parts.

ghost use Rattle.std.specs.Prelude.{◌≡◌, ◌<◌, Some, slice_get};

/// The most processors of a setup that is explored.
pub const MAX_CPUS: usize = 8;

/// The numbers of the parts of a state.
#[derive(Clone, Copy, PartialEq, Eq)]
pub(crate) struct Key {
    /// The number of what is no single processor's.
    pub shared: u32,
    /// The numbers of the processors' parts, and 0 for processors that are not there.
    pub cpus: [u32; MAX_CPUS],
}

impl Key {
    /// The key of no state.
    pub(crate) fn none() -> Key {
        Key {
            shared: 0,
            cpus: [0; MAX_CPUS],
        }
    }

    /// The number of what is no single processor's.
    pub(crate) fn shared(&self) -> usize
        ensures { result ≡ self.now.shared }
    {
        self.shared as usize
    }

    /// The number of the part of a processor.
    pub(crate) fn part(&self, cpu: u32) -> usize
        requires { cpu < 8 }
        ensures { slice_get self.now.cpus cpu ≡ Some result }
    {
        self.cpus[cpu as usize] as usize
    }
}
