// Lines that are put together before they are written.

use lk_names::Memory;
use lk_rows::Pc;
use lk_stream::ReplayFault;
use lk_text::{Sink, put};
use std::alloc::Global;
use std::fmt::Write;

// The bytes of room at first.
const ROOM: usize = 4_096;

/// Lines that wait to be written.
#[derive(Drop)]
pub(crate) struct Lines {
    text: String,
    // Whether the text lacks a part, for which there was not enough memory.
    is_cut: bool,
}

impl Lines {
    /// No lines.
    ///
    /// # Errors
    ///
    /// There is not enough memory.
    pub(crate) fn new(alloc: Global) -> Result<Lines, Memory> {
        Ok(Lines {
            text: String::with_capacity(alloc, ROOM)?,
            is_cut: false,
        })
    }

    /// Appends a word.
    pub(crate) fn word(&mut self, word: &str) {
        self.is_cut |= self.text.push_str(word).is_err();
    }

    /// Appends a number in decimal.
    pub(crate) fn number(&mut self, number: u64) {
        self.is_cut |= write!(self.text, "{number}").is_err();
    }

    /// Appends the name of a row.
    pub(crate) fn row(&mut self, row: Pc) {
        self.is_cut |= write!(self.text, "{row:?}").is_err();
    }

    /// The text so far.
    pub(crate) fn text(&self) -> &str {
        self.text.as_str()
    }

    /// Appends a line of a word and a number.
    pub(crate) fn line(&mut self, word: &str, number: u64) {
        self.word(word);
        self.word(" ");
        self.number(number);
        self.word("\n");
    }

    /// Appends a line of a word and a number, and says so if states were folded, so that the number
    /// is that of the folded ones.
    pub(crate) fn count(&mut self, word: &str, number: u64, folds: bool) {
        self.word(word);
        self.word(" ");
        self.number(number);
        self.word(if folds { " folded\n" } else { "\n" });
    }

    /// Writes the lines.
    ///
    /// # Errors
    ///
    /// `Memory` if there was not enough for a part of a line, and `WriteFault` if a write failed.
    pub(crate) fn put<K: Sink>(&self, sink: &mut K) -> Result<(), ReplayFault> {
        if self.is_cut {
            return Err(ReplayFault::Memory);
        }
        put(sink, self.text.as_bytes())?;
        Ok(())
    }
}
