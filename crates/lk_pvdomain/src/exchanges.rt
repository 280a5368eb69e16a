// What an exchange of a part of a word comes to, which is made by one exchange of the whole word.

use lk_word::NodeName;

// A swap of the byte, or of the byte and the pending bit.
#[derive(Clone, Copy)]
pub(crate) enum Swap {
    // It was made, and it is the row.
    Takes,
    // The byte or the bit was not what the row asks for, in this word: it is the row, which failed.
    Fails(u64),
    // Another part of the word had changed, which is now this: it is no row, and nothing has changed.
    Misses(u64),
}

// An exchange of the tail: whether there was a queue, if the word was the expected one.
#[derive(Clone, Copy)]
pub(crate) enum Tail {
    // There was none.
    First,
    // This is the node of the last of it.
    Behind(NodeName),
    // The word was this one: it is no row, and nothing has changed.
    Other(u64),
}
