//! A short line that is put together in fixed memory.
ghost use Rattle.std.specs.Prelude.{◌≡◌, ◌≤◌, ◌+◌, ◌++◌, [], length, decimal};

use crate::digits::{copy_at, print_at};

/// A line of at most 128 bytes, put together from words and numbers. It takes no memory.
#[derive(Clone, Copy)]
pub struct LineBuf {
    bytes: [u8; 128],
    len: usize,
    ghost within: { len ≤ 128 },
}

impl LineBuf {
    ghost use Rattle.lk_text.specs.Line.{line_text};

    /// An empty line.
    #[inline(always)]
    pub fn new() -> LineBuf
        ensures text { line_text result ≡ [] }
        ensures size { length (line_text result) ≡ 0 }
    {
        LineBuf {
            bytes: [0; 128],
            len: 0,
        }
    }

    /// Appends a text. The line must stay within 128 bytes.
    #[inline(always)]
    pub fn word(&mut self, text: &[u8])
        requires { length (line_text self.old) + length text.now ≤ 128 }
        ensures text { line_text self.new ≡ line_text self.old ++ text.now }
        ensures size { length (line_text self.new) ≡ length (line_text self.old) + length text.now }
    {
        copy_at(&mut self.bytes, self.len, text);
        self.len += text.len();
    }

    /// Appends a number in decimal, without leading zeros: 1 to 20 digits. The line must stay
    /// within 128 bytes.
    #[inline(always)]
    pub fn number(&mut self, n: u64)
        requires { length (line_text self.old) + length (decimal n) ≤ 128 }
        ensures text { line_text self.new ≡ line_text self.old ++ decimal n }
        ensures size { length (line_text self.new)
            ≡ length (line_text self.old) + length (decimal n) }
        ensures short { length (decimal n) ≤ 20 }
    {
        self.len = print_at(&mut self.bytes, self.len, n);
    }

    /// The bytes of the line so far.
    #[inline(always)]
    pub fn bytes(&self) -> &[u8]
        ensures text { result.now ≡ line_text self.now }
        ensures size { length result.now ≤ 128 }
    {
        let end = self.len;
        let all = &self.bytes[..];
        &all[..end]
    }
}
