//! The word of a queued spinlock.
//!
//! The layouts are the two of Linux's `include/asm-generic/qspinlock_types.h`: the narrow one for
//! fewer than 16,384 processors, and the wide one for 16,384 or more.
//!
//! | Bits, narrow | Bits, wide | Content |
//! |---|---|---|
//! | 0 to 7 | 0 to 7 | the locked byte: 0 free, 1 held, 3 held and slow |
//! | 8 | 8 | the pending bit |
//! | 9 to 15 | | unused, 0 |
//! | 16 to 17 | 9 to 10 | the tail's index, 0 to 3 |
//! | 18 to 31 | 11 to 31 | the tail's processor plus one, or 0 if there is no queue |

ghost use Rattle.std.specs.Prelude.{◌≡◌, ◌≢◌, ◌↔◌, ◌/◌, ◌%◌, ◌^◌, ◌≤◌, ◌==◌, ℕ, bit_and, not, IsNone, IfSome, IfNone};
ghost use Rattle.lk_word.specs.declared.spin_word.Fields.{Fields};
ghost use Rattle.lk_word.specs.SpinWord.{IsPackable, IsTailInRange, packed, unpacked, locked_number, locked_of, tail_number, tail_in, IsRefused, cpu_unit, index_unit, unused_values};

const LOCKED_MASK: u32 = 0xff;

const PENDING: u32 = 0x100;

const UNUSED_MASK: u32 = 0xfe00;

// The lowest bit above the pending bit.
const ABOVE_PENDING: u32 = 0x200;

const TAIL_INDEX_MASK: u32 = 3;

/// The layout of a spinlock's word: which bits the tail has.
#[derive(Clone, Copy, Debug, PartialEq, Eq)]
pub enum Layout {
    /// Bits 16 to 31. The pending bit has a byte of its own, and the tail has 16 bits.
    Narrow,
    /// Bits 9 to 31, directly above the pending bit.
    Wide,
}

/// The name of a queue node (Linux's `struct qnode`). Each processor has four nodes.
#[derive(Clone, Copy, Debug, PartialEq, Eq)]
pub struct NodeName {
    /// The processor that has the node, from 0.
    pub cpu: u32,
    /// Which of its four nodes, from 0 to 3.
    pub index: u32,
}

/// The locked byte.
#[derive(Clone, Copy, Debug, PartialEq, Eq)]
pub enum Locked {
    /// 0: nobody holds the lock.
    Free,
    /// 1: a waiter holds the lock (`_Q_LOCKED_VAL`).
    Held,
    /// 3: a waiter holds the lock, and the release must take the slow path, which finds whom to
    /// kick (`_Q_SLOW_VAL`). Only the paravirtual spinlock has this byte.
    Slow,
}

/// The fields of a spinlock's word.
#[derive(Clone, Copy, Debug, PartialEq, Eq)]
pub struct Fields {
    /// The locked byte.
    pub locked: Locked,
    /// Whether the pending bit is set.
    pub pending: bool,
    /// The last node of the queue, or `None` if there is no queue.
    pub tail: Option<NodeName>,
}

/// Packs these fields into a word.
///
/// A tail's processor must be at most 16,382 in the narrow layout, and at most 2,097,150 in the
/// wide one. A tail's index must be at most 3.
#[inline]
pub fn pack(layout: Layout, fields: Fields) -> u32
    requires { IsPackable layout fields }
    ensures { result ≡ packed layout fields }
{
    let locked = pack_locked(fields.locked);
    let pending = if fields.pending { PENDING } else { 0 };
    let tail = pack_tail(layout, fields.tail);
    tail | pending | locked
}

/// Unpacks a word. Returns `None` exactly if no fields pack to it: then it has an unused bit set,
/// or a locked byte other than 0, 1 and 3, or a tail index without a tail processor.
#[inline]
pub fn unpack(layout: Layout, word: u32) -> Option<Fields>
    ensures read { result ≡ unpacked layout word }
    ensures fields { IfSome result (λ f. IsPackable layout f × (packed layout f ≡ word)) }
    ensures unpackable { IfNone result
        ((f : Fields) → IsPackable layout f → packed layout f ≢ word) }
    ensures refused { IsNone result ↔ IsRefused layout word }
{
    let locked = unpack_locked(word & LOCKED_MASK)?;
    let pending = word & PENDING != 0;
    let tail = unpack_tail(layout, word)?;
    Some(Fields {
        locked,
        pending,
        tail,
    })
}

#[inline]
fn pack_locked(locked: Locked) -> u32
    ensures { result ≡ locked_number locked }
{
    match locked {
        Locked::Free => 0,
        Locked::Held => 1,
        Locked::Slow => 3,
    }
}

#[inline]
fn unpack_locked(byte: u32) -> Option<Locked>
    ensures { result ≡ locked_of byte }
{
    match byte {
        0 => Some(Locked::Free),
        1 => Some(Locked::Held),
        3 => Some(Locked::Slow),
        _ => None,
    }
}

// The lowest bit of the tail.
#[inline]
fn tail_shift(layout: Layout) -> u32
    ensures unit { 2 ^ result ≡ index_unit layout }
    ensures low { result ≤ 16 }
{
    match layout {
        Layout::Narrow => 16,
        Layout::Wide => 9,
    }
}

// The bits that are 0 in each packed word.
#[inline]
fn unused_mask(layout: Layout) -> u32
    ensures { (word : ℕ) → (bit_and word result == 0) ≡ (word / 512 % unused_values layout == 0) }
{
    match layout {
        Layout::Narrow => UNUSED_MASK,
        Layout::Wide => 0,
    }
}

#[inline]
fn pack_tail(layout: Layout, tail: Option<NodeName>) -> u32
    requires { IsTailInRange layout tail }
    ensures { result ≡ tail_number layout tail }
{
    match tail {
        Some(node) => (((node.cpu + 1) << 2) | node.index) << tail_shift(layout),
        None => 0,
    }
}

// Whether a bit is set that is 0 in each packed word.
#[inline]
fn has_unused_bit(layout: Layout, word: u32) -> bool
    ensures { result ≡ not (word / 512 % unused_values layout == 0) }
{
    word & unused_mask(layout) != 0
}

// The tail's processor plus one, and its index.
#[inline]
fn tail_parts(layout: Layout, word: u32) -> (u32, u32)
    ensures cpu { result.0 ≡ word / cpu_unit layout }
    ensures index { result.1 ≡ word / index_unit layout % 4 }
{
    let tail = word >> tail_shift(layout);
    (tail >> 2, tail & TAIL_INDEX_MASK)
}

// What stands above the pending bit: no tail, a tail, or what no fields pack to. A word without a
// tail has no bit set there in either layout, so the layout is asked for only if there is one.
#[inline]
fn unpack_tail(layout: Layout, word: u32) -> Option<Option<NodeName>>
    ensures { result ≡ tail_in layout word }
{
    if word < ABOVE_PENDING {
        return Some(None);
    }
    if has_unused_bit(layout, word) {
        return None;
    }
    let (cpu_plus_one, index) = tail_parts(layout, word);
    if cpu_plus_one == 0 {
        return None;
    }
    Some(Some(NodeName {
        cpu: cpu_plus_one - 1,
        index,
    }))
}
