//! The word of a queued reader-writer lock.
//!
//! The layout is that of Linux's `include/asm-generic/qrwlock.h`:
//!
//! | Bits | Content | In Linux |
//! |---|---|---|
//! | 0 to 7 | the writer byte: 0, or 0xff for a writer | `_QW_LOCKED` |
//! | 8 | the waiting bit | `_QW_WAITING` |
//! | 9 to 31 | the number of readers | `_QR_BIAS` is one reader |

ghost use Rattle.std.specs.Prelude.{◌≡◌, ◌≢◌, ◌↔◌, IsNone, IfSome, IfNone};
ghost use Rattle.lk_word.specs.declared.rw_word.RwFields.{RwFields};
ghost use Rattle.lk_word.specs.RwWord.{IsPackableRw, packed_rw, unpacked_rw, writer_of, HasUnknownWriterByte};

const WRITER_MASK: u32 = 0xff;

const WRITER_HELD: u32 = 0xff;

const WAITING: u32 = 0x100;

const READERS_SHIFT: u32 = 9;

/// The fields of a reader-writer lock's word.
#[derive(Clone, Copy, Debug, PartialEq, Eq)]
pub struct RwFields {
    /// How many readers the word counts. A reader that waits may be counted too.
    pub readers: u32,
    /// Whether the waiting bit is set: a writer waits until no reader is counted and no other
    /// writer holds the lock.
    pub waiting: bool,
    /// Whether a writer holds the lock.
    pub writer: bool,
}

/// Packs these fields into a word. There must be fewer than 2^23 readers.
#[inline]
pub fn pack_rw(fields: RwFields) -> u32
    requires { IsPackableRw fields }
    ensures { result ≡ packed_rw fields }
{
    let writer = if fields.writer { WRITER_HELD } else { 0 };
    let waiting = if fields.waiting { WAITING } else { 0 };
    (fields.readers << READERS_SHIFT) | waiting | writer
}

/// Unpacks a word. Returns `None` exactly if no fields pack to it: then its writer byte is neither
/// 0 nor 0xff.
#[inline]
pub fn unpack_rw(word: u32) -> Option<RwFields>
    ensures read { result ≡ unpacked_rw word }
    ensures fields { IfSome result (λ f. IsPackableRw f × (packed_rw f ≡ word)) }
    ensures unpackable { IfNone result ((f : RwFields) → packed_rw f ≢ word) }
    ensures refused { IsNone result ↔ HasUnknownWriterByte word }
{
    let writer = unpack_writer(word & WRITER_MASK)?;
    let waiting = word & WAITING != 0;
    let readers = word >> READERS_SHIFT;
    Some(RwFields {
        readers,
        waiting,
        writer,
    })
}

#[inline]
fn unpack_writer(byte: u32) -> Option<bool>
    ensures { result ≡ writer_of byte }
{
    match byte {
        0 => Some(false),
        WRITER_HELD => Some(true),
        _ => None,
    }
}
