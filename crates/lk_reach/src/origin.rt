// How a state or a kind of event was first met.

/// How a state was first met, or an event: by which act, after which state.
#[derive(Clone, Copy)]
pub(crate) struct Origin {
    pub state: u32,
    pub act: u32,
    /// How many acts lead there, with this one.
    pub level: u32,
}
