//! Whom a step touches. It reads and writes what is no single processor's, the processor that makes it,
//! and at most one other: the one whose node or mark its row acts on. Whatever the others are, the step
//! does the same, and leaves them as they are.
#![tactic(auto)]

mod laws;
mod others;

pub use laws::steps_stay_among_others;
pub use others::other_at;
