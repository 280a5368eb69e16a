// Where an act of a plan led.

ghost use Rattle.std.specs.Prelude.{◌≡◌, ◌++◌, ◌∷◌, [], IfNone, IfSome, List, None, OnOk, Some, ℕ, slice_get};
ghost use Rattle.lk_reach.specs.Numbers.{listed, place_at};

use crate::numbers::places::Places;
use crate::table::MOST;
use lk_names::Memory;
use std::alloc::Global;
use std::marker::Model;

/// For an act of a plan, and for each state that was left, the number of the state to which the act
/// led. It stands at the number of the state that was left.
#[derive(Drop)]
pub(crate) struct Column {
    count: usize,
    numbers: Places,
}

impl Model for Column {
    ghost Value = { List ℕ };

    ghost view = { λ c. listed c.count (λ at. place_at c.numbers at) };
}

impl Column {
    /// A column of an act that was not made.
    pub(crate) fn new(alloc: Global) -> Column
        ensures { result ≡ [] }
    {
        Column {
            count: 0,
            numbers: Places::new(alloc),
        }
    }

    /// Writes down where the act led, on the next state.
    ///
    /// # Errors
    ///
    /// There is not enough memory, or no room for one more number.
    #[inline]
    pub(crate) fn push(&mut self, then: u32) -> Result<(), Memory>
        ensures { OnOk result (self.new ≡ self.old ++ then ∷ []) }
    {
        let at = self.count;
        if at >= MOST {
            return Err(Memory);
        }
        self.numbers.put(at, then)?;
        self.count = at + 1;
        Ok(())
    }

    /// Where the act led on a state, if it was left.
    #[inline]
    pub(crate) fn get(&self, state: usize) -> Option<u32>
        ensures some { IfSome result (λ j. slice_get self.now state ≡ Some j) }
        ensures none { IfNone result (slice_get self.now state ≡ None) }
    {
        if state < self.count {
            Some(self.numbers.get(state))
        } else {
            None
        }
    }

    /// How much memory it takes, in bytes.
    pub(crate) fn bytes(&self) -> usize {
        self.numbers.bytes()
    }
}
