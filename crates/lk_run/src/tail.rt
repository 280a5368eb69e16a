// What an exchange of the tail met.

use lk_word::NodeName;

// Whether there was a queue, if the word was the expected one.
#[derive(Clone, Copy)]
pub(crate) enum Tail {
    // There was none.
    First,
    // This is the node of the last of it.
    Behind(NodeName),
    // The word was this one, and nothing has changed.
    Other(u64),
}
