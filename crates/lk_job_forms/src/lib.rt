//! The texts of the ledger: the grammar of job files, and the lines of an outcome. The `specs/`
//! say what each line of a job file means after the lines before it, or why it is refused, and
//! what each line of an outcome looks like.
#![tactic(auto)]

mod accounts;
mod answers;
mod draft;
mod jobs;
mod keyword;
mod laws;
mod reader;
mod settings;
mod texts;

pub use answers::JobStep;
pub use laws::{job_files_are_lawful, outcomes_tell_all};
pub use reader::JobReader;
pub use texts::{balance_line, entry_line, seen_line, total_line};
