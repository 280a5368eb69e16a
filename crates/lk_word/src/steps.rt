//! What an atomic step on threads adds to the word of a lock, takes off it, or reads of it. A step has
//! the word as a number of 64 bits, of which a word uses the lower 32.

ghost use Rattle.std.specs.Prelude.{◌≡◌, ◌*◌, ◌/◌, ◌%◌, ◌==◌};
ghost use Rattle.lk_word.specs.SpinWord.{index_unit, tail_number as number_of};

use crate::spin_word::{Layout, NodeName};

/// A held spinlock with nobody else at it (`_Q_LOCKED_VAL`).
pub const HELD: u64 = 1;

/// The locked byte of a held spinlock whose release takes the slow path (`_Q_SLOW_VAL`).
pub const SLOW: u64 = 3;

/// The pending bit of a spinlock (`_Q_PENDING_VAL`).
pub const PENDING: u64 = 0x100;

/// A reader-writer lock that a writer holds (`_QW_LOCKED`).
pub const WRITER: u64 = 0xff;

/// The waiting bit of a reader-writer lock (`_QW_WAITING`).
pub const WAITING: u64 = 0x100;

/// One reader of a reader-writer lock (`_QR_BIAS`).
pub const READER: u64 = 0x200;

/// The lowest byte of a word: the locked byte of a spinlock, the writer byte of a reader-writer lock.
#[inline]
pub fn low_byte(word: u64) -> u64
    ensures { result ≡ word % 256 }
{
    word % 0x100
}

/// The word with 0 as its lowest byte.
#[inline]
pub fn without_low_byte(word: u64) -> u64
    ensures { result ≡ word / 256 * 256 }
{
    word / 0x100 * 0x100
}

/// Whether the locked byte of a spinlock is free and pending is set.
#[inline]
pub fn is_free_for_pending(word: u64) -> bool
    ensures { result ≡ (word % 512 == 256) }
{
    word % (2 * PENDING) == PENDING
}

/// Whether no writer holds the reader-writer lock.
#[inline]
pub fn has_no_writer(word: u64) -> bool
    ensures { result ≡ (word % 256 == 0) }
{
    low_byte(word) == 0
}

/// Whether no writer holds the reader-writer lock, and none waits: a reader may come in.
#[inline]
pub fn lets_readers_in(word: u64) -> bool
    ensures { result ≡ (word % 512 == 0) }
{
    word % READER == 0
}

/// Whether a writer waits for the reader-writer lock and nobody has it.
#[inline]
pub fn has_only_waiting(word: u64) -> bool
    ensures { result ≡ (word == 256) }
{
    word == WAITING
}

/// What the index of a tail counts for in a spinlock's word. What is below it is no part of the tail.
#[inline]
pub fn tail_unit(layout: Layout) -> u64
    ensures { result ≡ index_unit layout }
{
    match layout {
        Layout::Narrow => 0x1_0000,
        Layout::Wide => 0x200,
    }
}

/// The word of a free spinlock with this node as the tail.
#[inline]
pub fn tail_number(layout: Layout, node: NodeName) -> u64
    ensures { result ≡ number_of layout (Some node) }
{
    let (index, cpu) = (node.index as u64, node.cpu as u64);
    match layout {
        Layout::Narrow => 0x1_0000 * index + 0x4_0000 * (cpu + 1),
        Layout::Wide => 0x200 * index + 0x800 * (cpu + 1),
    }
}
