//! Replays a trace through a buffer of fixed size. It reads a line, makes its acts and writes their
//! events, and then reads the next line. All memory is taken before the first act.
#![tactic(auto)]

mod answers;
mod closing;
mod faults;
mod header;
mod replayer;
mod replaying;
mod run;
mod schedule;
mod stream;

pub use answers::{RunFault, Summary};
pub use closing::write_closing;
pub use header::read_header;
pub use lk_stream::ReplayFault;
pub use replayer::Replayer;
pub use stream::replay;
