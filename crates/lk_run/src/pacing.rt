// How a call that waits pauses between two turns.
use crossbeam_utils::Backoff;
use lk_rows::Pc;
use std::{hint, thread};

// So many polls at a row have a short pause behind them. After each later one the call yields its CPU
// to a thread that waits for one.
const POLLS: u32 = 64;

// The pauses of a call that waits.
#[derive(Drop)]
pub(crate) struct Pace {
    // how many short pauses it has made at its row
    polls: u32,
    // where others poll the same word
    backoff: Backoff,
}

impl Pace {
    // Of a call that has not paused.
    pub(crate) fn new() -> Pace {
        Pace {
            polls: 0,
            backoff: Backoff::new(),
        }
    }

    // Before the next turn, which begins with this row. Where every call that waits polls the word of
    // the lock (V1, N1), its pauses grow, so that they leave the word to who takes it. Who queues is
    // the only one at its word, and polls that often, since each handoff waits for a poll. Where the
    // exchange of the tail met another word (G4) there was no queue, and a short pause leaves the word
    // to who takes the lock again and again.
    pub(crate) fn pause(&mut self, row: Pc) {
        match row {
            Pc::V1 | Pc::N1 => self.backoff.snooze(),
            _ => self.pause_shortly(),
        }
    }

    fn pause_shortly(&mut self) {
        if self.polls < POLLS {
            self.polls += 1;
            hint::spin_loop();
        } else {
            thread::yield_now();
        }
    }

    // A call that has gone on to another row waits for something else, so its pauses begin short again.
    pub(crate) fn renew(&mut self, old: Pc, new: Pc) {
        if old != new {
            self.polls = 0;
            self.backoff.reset();
        }
    }
}
