// Where line feeds stand in a block of bytes.
ghost use Rattle.std.specs.Prelude.{◌≡◌, ◌≤◌, ◌<◌, ◌+◌, ◌-◌, None, IfSome, length, take, slice_range, slice_index};
ghost use Rattle.lk_text.specs.Feeds.{HasNoFeed, FeedAt};

use memchr::{memchr, memrchr};

// The bytes that are searched for the end of a line before all others.
const NEAR: usize = 32;

/// The distance from `at` to the first line feed of the bytes from `at` to `end`. The first `clear`
/// bytes are known to be no line feeds. Most lines are short, so the next few bytes are searched
/// first.
#[inline(always)]
pub(crate) fn find_feed(block: &[u8], at: usize, clear: usize, end: usize) -> Option<usize>
    requires ordered { at + clear ≤ end }
    requires within { end ≤ length block.now }
    requires plain { HasNoFeed (take clear (slice_range block.now at end)) }
    ensures found { IfSome result (FeedAt (slice_range block.now at end)) }
    ensures none { result ≡ None → HasNoFeed (slice_range block.now at end) }
{
    let from = at + clear;
    if end - from >= NEAR {
        if let Some(k) = memchr(b'\n', &block[from..from + NEAR]) {
            return Some(clear + k);
        }
    }
    find_far_feed(block, at, clear, end)
}

// The same, by a search of all the bytes.
#[inline(never)]
fn find_far_feed(block: &[u8], at: usize, clear: usize, end: usize) -> Option<usize>
    requires ordered { at + clear ≤ end }
    requires within { end ≤ length block.now }
    requires plain { HasNoFeed (take clear (slice_range block.now at end)) }
    ensures found { IfSome result (FeedAt (slice_range block.now at end)) }
    ensures none { result ≡ None → HasNoFeed (slice_range block.now at end) }
{
    match memchr(b'\n', &block[at + clear..end]) {
        Some(k) => Some(clear + k),
        None => None,
    }
}

/// The place behind the last line feed from `front` to `end`, or 0 if there is none.
pub(crate) fn behind_last_feed(block: &[u8], front: usize, end: usize) -> usize
    requires ordered { front ≤ end }
    requires within { end ≤ length block.now }
    ensures within { result ≤ end }
    ensures feed { 0 < result → slice_index block.now (result - 1) ≡ 10 }
{
    match memrchr(b'\n', &block[front..end]) {
        Some(k) => front + k + 1,
        None => 0,
    }
}
