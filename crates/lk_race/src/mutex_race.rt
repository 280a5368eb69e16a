// A race for a mutex of the standard library, to compare the others with.

use crate::course::Course;
use crate::spin_race::Size;
use crate::value::Value;
use lk_names::Memory;
use std::alloc::Global;
use std::sync::{Mutex, Wait};
use std::thread;
use std::thread::Threads;

/// A race for a mutex.
#[derive(Clone, Copy)]
pub struct MutexRace {
    /// The size of its value.
    pub size: Size,
    /// What its threads do.
    pub course: Course,
}

// All turns of a thread.
fn take_turns<V: Value, R: Wait>(rt: &R, value: &Mutex<V>, course: &Course) {
    for _ in 0..course.turns {
        value.lock(rt).change();
    }
}

/// Lets all threads take their turns at the same time. Returns when all have ended.
///
/// # Errors
///
/// There is not enough memory. Some threads may have taken no turn.
pub fn take_all_mutex_turns<V: Value + Send, R: Threads + Wait + Sync>(
    rt: &R,
    alloc: Global,
    value: &Mutex<V>,
    course: &Course,
) -> Result<(), Memory> {
    thread::map_indices(
        rt,
        alloc,
        course.threads as usize,
        &|_| { take_turns(rt, value, course) },
    )?;
    Ok(())
}
