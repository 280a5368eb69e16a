// What the program's arguments ask for.

use std::env;

/// What the program writes for a trace.
pub(crate) enum Asked {
    /// A line for each act, or for a run of acts that did the same.
    Steps,
    /// The transcript that `qlock replay` writes.
    Replay,
}

/// What the program's arguments ask for: the acts if there are none, and the transcript for
/// `replay`. Returns `None` for other arguments, and if they cannot be read.
pub(crate) fn asked_by(rt: &HostRuntime) -> Option<Asked> {
    let mut words = env::args(rt).ok()?;
    let _name = words.next();
    match words.next() {
        None => Some(Asked::Steps),
        Some(word) if word.as_str() == "replay" && words.next().is_none() => Some(Asked::Replay),
        Some(_) => None,
    }
}
