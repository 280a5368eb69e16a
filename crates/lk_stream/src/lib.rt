//! Reads a text line by line through a buffer of fixed size, and obeys each line before it reads
//! the next one. A *script* says what the lines mean. Each grammar has one.
#![tactic(auto)]

mod answers;
pub mod exit;
mod faults;
mod header;
mod script;
mod stream;

pub use answers::{ReplayFault, Stop};
pub use faults::{cut, refused};
pub use header::next_header_step;
pub use script::Script;
pub use stream::{follow, put_before_read};
