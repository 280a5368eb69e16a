// What an act on a state leads to, as a helper found it. A helper reads what is known of the states
// and writes nothing of it, so it gives no numbers.

use crate::key::Key;
use lk_names::Event;

/// Where an act led.
#[derive(Clone, Copy)]
pub(crate) enum Then {
    /// To the state of this number, or to one that it stands for.
    Known(u32),
    /// To a state with this key, for which none stood that had been met.
    New(Key),
    /// Where states are folded: to a state with the first key, whose fold has the second, for which none
    /// stood that had been met.
    Fold(Key, Key),
}

/// What an act on a state led to.
#[derive(Clone, Copy)]
pub(crate) struct Finding {
    /// The number of the state.
    pub state: u32,
    /// The number of the act.
    pub act: u32,
    /// What the act told.
    pub event: Option<Event>,
    pub then: Then,
}
