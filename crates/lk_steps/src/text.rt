// Texts that are put together, and the values of a machine as text.

use lk_names::{LockName, Memory};
use lk_rows::{Flag, Node, Pc};
use lk_word::{Fields, Locked, NodeName, RwFields};
use std::alloc::Global;
use std::fmt::Write;

/// A text that is put together.
#[derive(Drop)]
pub(crate) struct Text {
    /// The text so far.
    pub(crate) text: String,
    /// Whether the text lacks a part, for which there was not enough memory.
    pub(crate) is_cut: bool,
}

impl Text {
    /// An empty text, with room for `room` bytes.
    ///
    /// # Errors
    ///
    /// There is not enough memory.
    pub(crate) fn new(alloc: Global, room: usize) -> Result<Text, Memory> {
        Ok(Text {
            text: String::with_capacity(alloc, room)?,
            is_cut: false,
        })
    }

    /// Appends another text.
    pub(crate) fn append(&mut self, other: &Text) {
        self.word(other.text.as_str());
        self.is_cut |= other.is_cut;
    }

    /// Appends a word.
    pub(crate) fn word(&mut self, word: &str) {
        self.is_cut |= self.text.push_str(word).is_err();
    }

    /// Appends a number in decimal.
    pub(crate) fn number(&mut self, number: u64) {
        self.is_cut |= write!(self.text, "{number}").is_err();
    }

    /// Appends the name of a row.
    pub(crate) fn row(&mut self, place: Pc) {
        self.is_cut |= write!(self.text, "{place:?}").is_err();
    }

    /// Appends two numbers with a word between them.
    pub(crate) fn pair(&mut self, first: u32, between: &str, second: u32) {
        self.number(u64::from(first));
        self.word(between);
        self.number(u64::from(second));
    }

    /// Appends a lock: its number, and `w` behind it for a wait lock.
    pub(crate) fn lock(&mut self, lock: LockName) {
        self.number(u64::from(lock.index));
        if lock.wait {
            self.word("w");
        }
    }

    /// Appends a node as processor and index, or 0 for none.
    pub(crate) fn node(&mut self, name: Option<NodeName>) {
        match name {
            Some(name) => self.pair(name.cpu, ".", name.index),
            None => self.word("0"),
        }
    }

    /// Appends the word of a spinlock as the comments of Linux's `qspinlock.c` do: tail, pending,
    /// locked.
    pub(crate) fn fields(&mut self, fields: Fields) {
        self.word("(");
        self.node(fields.tail);
        self.word(if fields.pending { ",1," } else { ",0," });
        self.word(match fields.locked {
            Locked::Free => "0)",
            Locked::Held => "1)",
            Locked::Slow => "3)",
        });
    }

    /// Appends the word of a reader-writer lock: readers, waiting, writer.
    pub(crate) fn rw_fields(&mut self, fields: RwFields) {
        self.word("(");
        self.number(u64::from(fields.readers));
        self.word(if fields.waiting { ",1," } else { ",0," });
        self.word(if fields.writer { "1)" } else { "0)" });
    }

    /// Appends the flag of a node, which is 0, 1, or the first node of a secondary queue, and its
    /// link.
    pub(crate) fn link(&mut self, node: Node) {
        self.word("(");
        match node.flag {
            Flag::Unset => self.word("0"),
            Flag::Go => self.word("1"),
            Flag::Second(second) => self.node(Some(second)),
        }
        self.word(",");
        self.node(node.next);
        self.word(")");
    }
}
