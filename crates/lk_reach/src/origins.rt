// How the states were first met, one after another, in as many bytes as the numbers need.

ghost use Rattle.std.specs.Prelude.{◌≡◌, ◌<◌, ◌++◌, ◌∷◌, [], IfNone, IfSome, List, None, OnOk, Some, length, slice_get};
ghost use Rattle.lk_reach.specs.declared.origin.Origin.{Origin as OriginValue};
ghost use Rattle.lk_reach.specs.Numbers.{listed, origin_at};

use crate::numbers::Numbers;
use crate::numbers::places::Places;
use crate::origin::Origin;
use crate::table::MOST;
use lk_names::Memory;
use std::alloc::Global;
use std::marker::Model;

/// How the states were first met, by the numbers of the states.
#[derive(Drop)]
pub(crate) struct Origins {
    count: usize,
    states: Places,
    acts: Numbers,
    levels: Numbers,
}

impl Model for Origins {
    ghost Value = { List OriginValue };

    ghost view = { λ o. listed o.count (λ at. origin_at o.states o.acts o.levels at) };
}

impl Origins {
    /// No origins.
    pub(crate) fn new(alloc: Global) -> Origins
        ensures { result ≡ [] }
    {
        Origins {
            count: 0,
            states: Places::new(alloc),
            acts: Numbers::new(alloc),
            levels: Numbers::new(alloc),
        }
    }

    /// How many origins there are.
    #[inline]
    pub(crate) fn len(&self) -> usize
        ensures { result ≡ length self.now }
    {
        self.count
    }

    /// How the state of this number was met.
    #[inline]
    pub(crate) fn at(&self, state: usize) -> Origin
        requires { state < length self.now }
        ensures { slice_get self.now state ≡ Some result }
    {
        Origin {
            state: self.states.get(state),
            act: self.acts.get(state),
            level: self.levels.get(state),
        }
    }

    /// How many acts lead to the state of this number.
    #[inline]
    pub(crate) fn level_at(&self, state: usize) -> u32
        requires { state < length self.now }
        ensures { (o : OriginValue) × (slice_get self.now state ≡ Some o) × (result ≡ o.level) }
    {
        self.levels.get(state)
    }

    /// How the state of this number was met, if it was.
    pub(crate) fn get(&self, state: usize) -> Option<Origin>
        ensures some { IfSome result (λ o. slice_get self.now state ≡ Some o) }
        ensures none { IfNone result (slice_get self.now state ≡ None) }
    {
        if state < self.count {
            Some(self.at(state))
        } else {
            None
        }
    }

    /// Adds how the next state was met.
    ///
    /// # Errors
    ///
    /// There is not enough memory, or no room for one more number.
    #[inline(never)]
    pub(crate) fn push(&mut self, origin: Origin) -> Result<(), Memory>
        ensures { OnOk result (self.new ≡ self.old ++ origin ∷ []) }
    {
        let at = self.count;
        if at >= MOST {
            return Err(Memory);
        }
        self.states.put(at, origin.state)?;
        self.acts.put(at, origin.act)?;
        self.levels.put(at, origin.level)?;
        self.count = at + 1;
        Ok(())
    }

    /// How much memory they take, in bytes.
    pub(crate) fn bytes(&self) -> usize {
        let acts = self.acts.bytes().saturating_add(self.levels.bytes());
        acts.saturating_add(self.states.bytes())
    }
}
