//! The texts of the command `audit`: the header of a trace, and after it a transcript from any
//! program. The `specs/` say what each line tells after the lines before it, or why it is refused.
//! The accepted lines are exactly those that the printer of transcripts writes.
#![tactic(auto)]

mod answers;
mod closing;
mod event;
mod laws;
mod parts;
mod ranges;
mod texts;

pub use answers::{BreachName, Told};
pub use closing::{CLOSING_LINES, line_told};
pub use laws::{closing_lines_are_read_as_printed, events_are_read_as_printed};
pub use ranges::read_event;
pub use texts::{breach_line, lawful_line};
