// What lies under a lock.

use lk_names::Memory;
use std::alloc::Global;
use std::slice;

/// A value with numbers that are changed together, and nothing else of which is changed.
pub trait Value {
    /// Raises its numbers by one.
    fn change(&mut self);

    /// Its numbers.
    fn numbers(&self) -> &[u64];
}

/// What is read of a value at the end of a race.
#[derive(Drop)]
pub struct Numbers {
    /// Its numbers.
    pub each: Vec<u64>,
    /// Whether its readers always found them to be one.
    pub were_one: bool,
}

impl Numbers {
    /// The numbers of a value that has no readers.
    ///
    /// # Errors
    ///
    /// There is not enough memory.
    pub fn of<V: Value>(value: &V, alloc: Global) -> Result<Numbers, Memory> {
        Ok(Numbers {
            each: value.numbers().to_vec(alloc)?,
            were_one: true,
        })
    }
}

/// One number.
impl Value for u64 {
    fn change(&mut self) {
        *self = self.wrapping_add(1);
    }

    fn numbers(&self) -> &[u64] {
        slice::from_ref(self)
    }
}

/// Two numbers.
impl Value for [u64; 2] {
    fn change(&mut self) {
        self[0].change();
        self[1].change();
    }

    fn numbers(&self) -> &[u64] {
        self
    }
}

/// One number at the head of 1 KiB.
impl Value for [u64; 128] {
    fn change(&mut self) {
        self[0].change();
    }

    fn numbers(&self) -> &[u64] {
        &self[..1]
    }
}
