// What the last call of a port tells of its spinlock, by which the next call goes.

/// No spinlock: no domain has one of this number.
pub(crate) const NONE: u32 = u32::MAX;

/// A processor has the marks of so many locks in itself.
pub(crate) const NEAR: u32 = 32;
