//! The texts of the command `osq`: the grammar of its input, and the lines of its history. The
//! `specs/` say what each line means after the lines before it, or why it is refused, and what
//! each line of a history looks like.
#![tactic(auto)]

mod answers;
mod header;
mod keyword;
mod schedule;
mod table;
mod texts;

pub use answers::Sched;
pub use header::OsqHeader;
pub use schedule::schedule_line;
pub use texts::write_event;
