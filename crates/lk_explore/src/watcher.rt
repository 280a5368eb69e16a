// Watches an exploration: says how far it is, and ends it at a limit.

use crate::asked::Asked;
use lk_reach::{Seen, Watch};
use std::time::{Duration, Instant};

// How many states are left between two looks at the clock.
const LOOK: usize = 4_096;

/// Who watches.
#[derive(Drop)]
pub(crate) struct Watcher<'a> {
    rt: &'a HostRuntime,
    states: usize,
    memory: usize,
    quiet: bool,
    // When it was last said how far it is.
    told: Option<Instant>,
}

impl<'a> Watcher<'a> {
    /// A watcher that ends an exploration at the limits that are asked for.
    pub(crate) fn new(rt: &'a HostRuntime, asked: &Asked) -> Watcher<'a> {
        Watcher {
            rt,
            states: asked.states,
            memory: asked.memory,
            quiet: asked.quiet,
            told: Instant::now(rt).ok(),
        }
    }

    // Whether a second has passed since it was last said how far it is.
    fn is_time(&self) -> bool {
        match self.told {
            Some(told) => match told.elapsed(self.rt) {
                Ok(passed) => passed >= Duration::from_secs(1),
                Err(_) => false,
            },
            None => false,
        }
    }

    // Says how far it is.
    fn tell(&mut self, seen: Seen) {
        let states = seen.states;
        let left = seen.left;
        let level = seen.level;
        let memory = seen.bytes / 1_000_000;
        let _ = eprintln!(self.rt;
            "explore: {states} states, {left} of them left by every act, level {level}, {memory} MB"
        );
        self.told = Instant::now(self.rt).ok();
    }
}

impl<'a> Watch for Watcher<'a> {
    fn goes_on(&mut self, seen: Seen) -> bool {
        if !self.quiet && seen.left % LOOK == 0 && self.is_time() {
            self.tell(seen);
        }
        seen.states <= self.states && seen.bytes / 1_000_000 <= self.memory
    }
}
