// Worked traces and their transcripts, in one text for each topic. A text has a trace, a line
// `---`, its transcript without the counts that are 0, again such a line, the next trace, and so on.

mod cna;
mod pv;
mod queue;
mod rw;
mod virt;

pub use cna::CNA;
pub use pv::PV;
pub use queue::QUEUE;
pub use rw::RW;
use std::alloc::Global;
use std::test::Fail;
pub use virt::VIRT;

/// The texts of all topics.
pub const TEXTS: [&str; 5] = [QUEUE, CNA, RW, PV, VIRT];

// The counts behind a transcript, in their order.
const COUNTS: [&str; 10] = [
    "lock_pending",
    "lock_slowpath",
    "lock_use_node2",
    "lock_use_node3",
    "lock_use_node4",
    "lock_no_node",
    "pv_lock_stealing",
    "pv_wait_node",
    "pv_wait_head",
    "pv_kick_unlock",
];

// The count that a line has, if it is the line of this name.
fn count_in<'a>(line: Option<&'a str>, name: &str) -> Option<&'a str> {
    match line?.split_once(' ') {
        Some((word, count)) if word == name => Some(count),
        _ => None,
    }
}

/// The transcript that a text gives without the counts that are 0.
pub fn whole(alloc: Global, given: &str) -> Result<String, Fail> {
    let (events, end) = given.split_once("end ").ok_or("no end")?;
    let (acts, counts) = end.split_once('\n').ok_or("no line")?;
    let mut text = format!(in alloc; "{events}end {acts}\n")?;
    let mut lines = counts.lines();
    let mut line = lines.next();
    for name in COUNTS {
        let count = count_in(line, name);
        if count.is_some() {
            line = lines.next();
        }
        text.push_str(format!(in alloc; "{name} {}\n", count.unwrap_or("0"))?.as_str())?;
    }
    match line {
        None => Ok(text),
        Some(_) => Err("no such count".into()),
    }
}
