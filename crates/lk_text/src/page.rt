//! A page of text that is put together in fixed memory.
ghost use Rattle.std.specs.Prelude.{◌≡◌, ◌≤◌, ◌+◌, ◌++◌, [], length, decimal};

use crate::digits::{copy_at, print_at};

/// A text of at most 1,024 bytes, put together from words and numbers. Several short lines go out
/// in one write that way. It takes no memory.
#[derive(Clone, Copy)]
pub struct Page {
    bytes: [u8; 1_024],
    len: usize,
    ghost within: { len ≤ 1024 },
}

impl Page {
    ghost use Rattle.lk_text.specs.Page.{page_text};

    /// An empty page.
    pub fn new() -> Page
        ensures text { page_text result ≡ [] }
        ensures size { length (page_text result) ≡ 0 }
    {
        Page {
            bytes: [0; 1_024],
            len: 0,
        }
    }

    /// Appends a text. The page must stay within 1,024 bytes.
    #[inline(always)]
    pub fn word(&mut self, text: &[u8])
        requires { length (page_text self.old) + length text.now ≤ 1024 }
        ensures text { page_text self.new ≡ page_text self.old ++ text.now }
        ensures size { length (page_text self.new) ≡ length (page_text self.old) + length text.now }
    {
        copy_at(&mut self.bytes, self.len, text);
        self.len += text.len();
    }

    /// Appends a number in decimal, without leading zeros: 1 to 20 digits. The page must stay
    /// within 1,024 bytes.
    #[inline(always)]
    pub fn number(&mut self, n: u64)
        requires { length (page_text self.old) + length (decimal n) ≤ 1024 }
        ensures text { page_text self.new ≡ page_text self.old ++ decimal n }
        ensures size { length (page_text self.new)
            ≡ length (page_text self.old) + length (decimal n) }
        ensures short { length (decimal n) ≤ 20 }
    {
        self.len = print_at(&mut self.bytes, self.len, n);
    }

    /// The bytes of the page so far.
    pub fn bytes(&self) -> &[u8]
        ensures text { result.now ≡ page_text self.now }
        ensures size { length result.now ≤ 1024 }
    {
        let end = self.len;
        let all = &self.bytes[..];
        &all[..end]
    }
}
