//! The formats of text: the grammar of traces, and the lines of a transcript. Its `specs/` say what
//! each line of a trace means after the lines before it, or why it is refused, and how each line
//! of a transcript is written.
#![tactic(auto)]

mod answers;
mod arguments;
mod front;
mod header;
mod keyword;
mod laws;
mod limits;
mod operations;
mod order;
mod page;
mod plain;
mod programs;
mod schedule;
mod settings;
mod tables;
mod texts;
mod words;

pub use answers::{Fault, HeaderStep, LineRefusal, Sched, Which};
pub use arguments::{cpu_word, no_words, number_in, one_word, two_words};
pub use front::front_step;
pub use header::{HeaderReader, format_numbered};
pub use laws::{lines_say_lawful_setups, texts_tell_all};
pub use limits::{MAX_ACTS, MAX_CPUS, MAX_HANDLERS, MAX_LOCKS, MAX_OPS, MAX_WIDE_CPUS};
pub use order::Order;
pub use schedule::schedule_line;
pub use settings::{count_words, kind_word, mode_word, read_sockets};
pub use texts::{count_line, end_line, event_line, write_event};
pub use words::{is_comment, is_text, next_word};
