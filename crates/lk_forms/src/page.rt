// Where a line of a transcript is written: a short line, or a block of output.
ghost use Rattle.std.specs.Prelude.{◌≡◌, ◌≤◌, ◌+◌, ◌++◌, ℕ, List, length, decimal};
ghost use Rattle.lk_text.specs.Line.{line_text};
ghost use Rattle.lk_text.specs.Block.{waiting};

use lk_text::{Block, LineBuf};

/// A place to which words and numbers are appended. It has room for `room` bytes.
pub(crate) trait Page {
    ghost text: { Self → List ℕ };

    ghost room: { ℕ };

    /// Appends a text, for which there is room.
    fn word(&mut self, piece: &[u8])
        requires { length (text self.old) + length piece.now ≤ room }
        ensures text { text self.new ≡ text self.old ++ piece.now }
        ensures size { length (text self.new) ≡ length (text self.old) + length piece.now };

    /// Appends a number in decimal, for which there is room.
    fn number(&mut self, n: u64)
        requires { length (text self.old) + length (decimal n) ≤ room }
        ensures text { text self.new ≡ text self.old ++ decimal n }
        ensures size { length (text self.new) ≡ length (text self.old) + length (decimal n) };
}

impl Page for LineBuf {
    ghost text = { line_text };

    ghost room = { 128 };

    #[inline(always)]
    fn word(&mut self, piece: &[u8]) {
        LineBuf::word(self, piece);
    }

    #[inline(always)]
    fn number(&mut self, n: u64) {
        LineBuf::number(self, n);
    }
}

impl Page for Block {
    ghost text = { waiting };

    ghost room = { 65536 };

    #[inline(always)]
    fn word(&mut self, piece: &[u8]) {
        Block::word(self, piece);
    }

    #[inline(always)]
    fn number(&mut self, n: u64) {
        Block::number(self, n);
    }
}
