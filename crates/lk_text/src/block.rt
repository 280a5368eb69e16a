//! A buffer of output in front of a sink, so that few writes are made.
ghost use Rattle.std.specs.Prelude.{◌≡◌, ◌≤◌, ◌+◌, ◌++◌, decimal, [], IfOk, OnOk, OnErr, length, vec_len};
ghost use Rattle.std.specs.Io.KnownBytes.{Appends};
ghost use Rattle.lk_text.specs.Causes.{HasCause};
ghost use Rattle.lk_text.specs.Bytes.{AppendsFront, Conveys};

use crate::digits::{copy_at, print_at};
use crate::sink::{Sink, WriteFault, put};
use lk_names::Memory;
use std::alloc::Global;

// The bytes that a block holds at most.
const ROOM: usize = 65_536;

/// A buffer of 65,536 bytes in front of a sink. It collects what is written, so that the sink gets
/// few large pieces. The bytes that wait in it have not reached the sink yet.
#[derive(Drop)]
pub struct Block {
    bytes: Vec<u8>,
    len: usize,
    ghost room: { vec_len bytes ≡ 65536 },
    ghost within: { len ≤ 65536 },
}

impl Block {
    ghost use Rattle.lk_text.specs.Block.{waiting};

    /// An empty block. It takes all its memory here.
    ///
    /// # Errors
    ///
    /// There is not enough memory.
    pub fn new(alloc: Global) -> Result<Block, Memory>
        ensures { IfOk result (λ block. waiting block ≡ []) }
    {
        let bytes = vec![in alloc; 0; ROOM]?;
        Ok(Block { bytes, len: 0 })
    }

    /// Writes all bytes that wait to the sink. If none wait, the sink is not asked. The block is
    /// empty afterwards.
    ///
    /// # Errors
    ///
    /// The sink answered a fault. It took a prefix of the bytes that waited, and the others are
    /// dropped.
    pub fn flush<K: Sink>(&mut self, sink: &mut K) -> Result<(), WriteFault>
        ensures ok { OnOk result (Appends (K.held sink.old) (K.held sink.new) (waiting self.old)) }
        ensures err { OnErr result
            (AppendsFront (K.held sink.old) (K.held sink.new) (waiting self.old)) }
        ensures empty { waiting self.new ≡ [] }
        ensures untouched { waiting self.old ≡ [] → sink.new ≡ sink.old }
        ensures cause { HasCause (K.faults sink.old) (K.faults sink.new) result }
    {
        let len = self.len;
        self.len = 0;
        put(sink, &self.bytes[..len])
    }

    /// Appends a text of at most 65,536 bytes. If there is no room for it, the block first writes
    /// the bytes that wait to the sink.
    ///
    /// # Errors
    ///
    /// The sink answered a fault. It took a prefix of the bytes that waited. The block is empty,
    /// and the text is not in it.
    pub fn push<K: Sink>(&mut self, sink: &mut K, text: &[u8]) -> Result<(), WriteFault>
        requires { length text.now ≤ 65536 }
        ensures ok { OnOk result
            (Conveys (K.held sink.old) (K.held sink.new) (waiting self.old) text.now
            (waiting self.new)) }
        ensures err { OnErr result
            (AppendsFront (K.held sink.old) (K.held sink.new) (waiting self.old)) }
        ensures dropped { OnErr result (waiting self.new ≡ []) }
        ensures cause { HasCause (K.faults sink.old) (K.faults sink.new) result }
    {
        self.make_room(sink, text.len())?;
        self.word(text);
        Ok(())
    }

    /// Makes room for `room` more bytes, at most 65,536. If there is less room, the block first
    /// writes the bytes that wait to the sink.
    ///
    /// # Errors
    ///
    /// The sink answered a fault. It took a prefix of the bytes that waited, and the block is
    /// empty.
    #[inline]
    pub fn make_room<K: Sink>(&mut self, sink: &mut K, room: usize) -> Result<(), WriteFault>
        requires { room ≤ 65536 }
        ensures ok { OnOk result
            (Conveys (K.held sink.old) (K.held sink.new) (waiting self.old) [] (waiting self.new)) }
        ensures room { OnOk result (length (waiting self.new) + room ≤ 65536) }
        ensures err { OnErr result
            (AppendsFront (K.held sink.old) (K.held sink.new) (waiting self.old)) }
        ensures dropped { OnErr result (waiting self.new ≡ []) }
        ensures cause { HasCause (K.faults sink.old) (K.faults sink.new) result }
    {
        if room > ROOM - self.len {
            self.flush(sink)?;
        }
        Ok(())
    }

    /// Appends a text. There must be room for it, which `make_room` makes.
    #[inline(always)]
    pub fn word(&mut self, text: &[u8])
        requires { length (waiting self.old) + length text.now ≤ 65536 }
        ensures text { waiting self.new ≡ waiting self.old ++ text.now }
        ensures size { length (waiting self.new) ≡ length (waiting self.old) + length text.now }
    {
        copy_at(&mut self.bytes, self.len, text);
        self.len += text.len();
    }

    /// Appends a number in decimal, without leading zeros: 1 to 20 digits. There must be room for
    /// it.
    #[inline(always)]
    pub fn number(&mut self, n: u64)
        requires { length (waiting self.old) + length (decimal n) ≤ 65536 }
        ensures text { waiting self.new ≡ waiting self.old ++ decimal n }
        ensures size { length (waiting self.new) ≡ length (waiting self.old) + length (decimal n) }
        ensures short { length (decimal n) ≤ 20 }
    {
        self.len = print_at(&mut self.bytes, self.len, n);
    }
}
