// The lines in which acts are told.

use crate::step::Step;
use crate::text::Text;
use lk_forms::event_line;
use lk_names::{Event, Memory};
use lk_stream::ReplayFault;
use lk_text::{Sink, put};
use std::alloc::Global;
use std::mem;

// The bytes of room for lines that wait for the sink, and how many of them are written at once.
const ROOM: usize = 66_560;

const FULL: usize = 65_536;

// The bytes of room for the text of an act.
const LINE_ROOM: usize = 128;

/// Lines that wait for a sink, and the acts behind them that have no line yet.
#[derive(Drop)]
pub(crate) struct Lines {
    waiting: Vec<u8>,
    // Whether there was no memory for a part of a line.
    is_cut: bool,
    // Consecutive acts that did the same: what they did, and the numbers of the first and the last.
    // The first is 0 if there are none.
    run: Text,
    first: u64,
    last: u64,
    // Their line, while it is put together.
    line: Text,
}

// What the line of an event says, without its act and waiter.
fn what_of(line: &[u8]) -> &[u8] {
    match line
        .iter()
        .enumerate()
        .filter(|(_, byte)| **byte == b' ')
        .nth(1)
    {
        Some((space, _)) => &line[space..],
        None => line,
    }
}

impl Lines {
    /// No lines.
    ///
    /// # Errors
    ///
    /// There is not enough memory.
    pub(crate) fn new(alloc: Global) -> Result<Lines, Memory> {
        Ok(Lines {
            waiting: Vec::with_capacity(alloc, ROOM)?,
            is_cut: false,
            run: Text::new(alloc, LINE_ROOM)?,
            first: 0,
            last: 0,
            line: Text::new(alloc, LINE_ROOM)?,
        })
    }

    // Appends bytes to the lines.
    fn write(&mut self, bytes: &[u8]) {
        self.is_cut |= self.waiting.extend_from_slice(bytes).is_err();
    }

    // Appends the line of the acts that have none yet, without its end.
    fn write_run(&mut self) {
        self.line.text.clear();
        self.line.number(self.first);
        if self.first < self.last {
            self.line.word("-");
            self.line.number(self.last);
        }
        self.line.word(" ");
        self.line.append(&self.run);
        if self.first < self.last {
            self.line.word(", ");
            self.line.number((self.last - self.first).saturating_add(1));
            self.line.word(" times");
        }
        self.is_cut |= self
            .waiting
            .extend_from_slice(self.line.text.as_bytes())
            .is_err();
    }

    /// Appends the line of the acts that have none yet, if there are such acts.
    pub(crate) fn end_run(&mut self) {
        if self.first > 0 {
            self.write_run();
            self.write(b"\n");
            self.first = 0;
        }
    }

    /// Tells the act of this number, and its event. An act that decided nothing waits for more acts
    /// that do the same, and they get one line.
    pub(crate) fn tell(&mut self, act: u64, step: &mut Step, event: Option<Event>) {
        if step.is_vain && self.first > 0 && self.run.text.as_str() == step.text.text.as_str() {
            self.last = act;
            return;
        }
        self.end_run();
        mem::swap(&mut self.run, &mut step.text);
        self.first = act;
        self.last = act;
        if let Some(event) = event {
            self.write_run();
            self.write(b":");
            self.write(what_of(event_line(act, &event).bytes()));
            self.first = 0;
        } else if !step.is_vain {
            self.end_run();
        }
    }

    /// Writes all lines that wait to the sink.
    ///
    /// # Errors
    ///
    /// `Memory` if there was not enough for a part of a line, and `WriteFault` if a write failed.
    pub(crate) fn put<K: Sink>(&mut self, sink: &mut K) -> Result<(), ReplayFault> {
        if self.is_cut || self.line.is_cut {
            return Err(ReplayFault::Memory);
        }
        put(sink, self.waiting.as_slice())?;
        self.waiting.clear();
        Ok(())
    }

    /// Writes the lines that wait to the sink, if they have 65,536 bytes or more.
    ///
    /// # Errors
    ///
    /// Those of `put`.
    pub(crate) fn put_much<K: Sink>(&mut self, sink: &mut K) -> Result<(), ReplayFault> {
        if self.waiting.len() < FULL {
            return Ok(());
        }
        self.put(sink)
    }
}
