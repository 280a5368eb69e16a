//! Where bytes go.
ghost use Rattle.std.specs.Prelude.{◌≡◌, ◌≤◌, ◌<◌, ◌+◌, ◌^◌, ◌-◌, Ok, List, ℕ, Option, Some, None, [], IfOk, OnOk, OnErr, IsErr, ◌↔◌, ◌⊎◌, length, vec_len, vec_capacity, min, Contains};
ghost use Rattle.std.specs.Io.{WritesAtMost};
ghost use Rattle.std.specs.Io.KnownBytes.{WriteAppends, Appends};
ghost use Rattle.lk_text.specs.Causes.{Rose, HasCause, TakesSurely, PutsSurely};
ghost use Rattle.lk_text.specs.Bytes.{AppendsFront};

use crate::source::Failed;
use lk_names::Memory;
use std::alloc::Global;
use std::io::Write;

/// A sink did not take all bytes that were written to it.
#[derive(Clone, Copy, Debug, PartialEq, Eq)]
pub struct WriteFault;

/// Where bytes go. A sink takes them piece by piece, and counts its faults. The count never falls.
/// Once it is 2^64 - 1 it stays there, and contracts read it as risen in every call.
pub trait Sink {
    /// The bytes that the sink holds, for contracts; none if it does not tell them.
    ghost held: { Self → Option (List ℕ) };

    /// The number of its faults so far.
    ghost faults: { Self → ℕ };

    /// How many more bytes the sink is certain to take.
    ghost sure: { Self → ℕ };

    /// Takes a prefix of the piece, and returns the number of its bytes. A sink that is certain to
    /// take the whole piece takes at least one byte of it. A return of 0 for a piece that is not
    /// empty comes only if the count of faults rose in this call.
    ///
    /// # Errors
    ///
    /// The write failed and the sink took no byte. The count of faults rose in this call.
    fn write(&mut self, piece: &[u8]) -> Result<usize, Failed>
        ensures bound { WritesAtMost result piece.now }
        ensures bytes { WriteAppends (held self.old) (held self.new) result piece.now }
        ensures cause { HasCause (faults self.old) (faults self.new) result }
        ensures nothing { IfOk result (λ count. count ≡ 0 → 0 < length piece.now
            → Rose (faults self.old) (faults self.new)) }
        ensures sure { 0 < length piece.now → length piece.now ≤ sure self.old
            → TakesSurely (sure self.old) (sure self.new) result };
}

/// Writes all bytes to the sink, in as many pieces as the sink wants. If there are no bytes, the
/// sink is not asked.
///
/// # Errors
///
/// The sink took a prefix of the bytes, and its count of faults rose in this call. This does not
/// happen if the sink is certain to take so many bytes.
pub fn put<K: Sink>(sink: &mut K, bytes: &[u8]) -> Result<(), WriteFault>
    ensures ok { OnOk result (Appends (K.held sink.old) (K.held sink.new) bytes.now) }
    ensures err { OnErr result (AppendsFront (K.held sink.old) (K.held sink.new) bytes.now) }
    ensures untouched { bytes.now ≡ [] → sink.new ≡ sink.old }
    ensures cause { HasCause (K.faults sink.old) (K.faults sink.new) result }
    ensures sure { PutsSurely (K.sure sink.old) (K.sure sink.new) (length bytes.now) result }
{
    let mut done = 0;
    while done < bytes.len() {
        match sink.write(&bytes[done..]) {
            Ok(0) => return Err(WriteFault),
            Ok(count) => done += count,
            Err(_) => return Err(WriteFault),
        }
    }
    Ok(())
}

/// A sink in memory, which tells the bytes that it holds. Its room is taken at the start. It takes
/// each piece whole. A write fails exactly if there is no room for its piece, or if its number,
/// counted from 1, is in the list of those that are to fail.
#[derive(Drop)]
pub struct MemSink {
    bytes: Vec<u8>,
    room: usize,
    fails: Vec<u64>,
    calls: u64,
    faults: u64,
    ghost fits: { vec_len bytes ≤ room },
    ghost taken: { room ≤ vec_capacity bytes },
}

impl MemSink {
    ghost use Rattle.lk_text.specs.MemSink.{bytes_held, faults_met, room_of, failing_writes, writes_made};

    /// An empty sink with room for `room` bytes. `fails` lists the numbers of the writes that are
    /// to fail, counted from 1. The sink keeps a copy of it.
    ///
    /// # Errors
    ///
    /// There is not enough memory.
    pub fn new(alloc: Global, room: usize, fails: &[u64]) -> Result<MemSink, Memory>
        ensures held { IfOk result (λ sink. bytes_held sink ≡ []) }
        ensures faults { IfOk result (λ sink. faults_met sink ≡ 0) }
        ensures room { IfOk result (λ sink. room_of sink ≡ room) }
        ensures fails { IfOk result (λ sink. failing_writes sink ≡ fails.now) }
        ensures calls { IfOk result (λ sink. writes_made sink ≡ 0) }
    {
        let bytes = Vec::with_capacity(alloc, room)?;
        let fails = Vec::from_slice(alloc, fails)?;
        Ok(MemSink {
            bytes,
            room,
            fails,
            calls: 0,
            faults: 0,
        })
    }

    /// The bytes that the sink holds.
    pub fn bytes(&self) -> &[u8]
        ensures held { result.now ≡ bytes_held self.now }
        ensures within { length result.now ≤ room_of self.now }
    {
        &self.bytes
    }
}

impl Sink for MemSink {
    ghost use Rattle.lk_text.specs.MemSink.{bytes_held, faults_met, room_of, failing_writes, writes_made, sure_room};

    ghost held = { λ sink. Some (bytes_held sink) };

    ghost faults = { faults_met };

    ghost sure = { sure_room };

    fn write(&mut self, piece: &[u8]) -> Result<usize, Failed>
        ensures bound { WritesAtMost result piece.now }
        ensures bytes { WriteAppends (Some (bytes_held self.old))
            (Some (bytes_held self.new)) result piece.now }
        ensures cause { HasCause (faults_met self.old) (faults_met self.new) result }
        ensures nothing { IfOk result (λ count. count ≡ 0 → 0 < length piece.now
            → Rose (faults_met self.old) (faults_met self.new)) }
        ensures sure { 0 < length piece.now → length piece.now ≤ sure_room self.old
            → TakesSurely (sure_room self.old) (sure_room self.new) result }

        ensures whole { IfOk result (λ count. count ≡ length piece.now) }
        ensures quiet { OnOk result (faults_met self.new ≡ faults_met self.old) }
        ensures listed { IsErr result
            ↔ ((room_of self.old < length (bytes_held self.old) + length piece.now)
            ⊎ Contains (failing_writes self.old) (writes_made self.new)) }
        ensures counted { writes_made self.new ≡ min (writes_made self.old + 1) (2 ^ 64 - 1) }
        ensures same_room { room_of self.new ≡ room_of self.old }
        ensures same_list { failing_writes self.new ≡ failing_writes self.old }
    {
        self.calls = self.calls.saturating_add(1);
        let room = self.room - self.bytes.len();
        if piece.len() > room {
            self.faults = self.faults.saturating_add(1);
            return Err(Failed);
        }
        if self.fails.contains(&self.calls) {
            self.faults = self.faults.saturating_add(1);
            return Err(Failed);
        }
        self.bytes.extend_from_slice(piece).unwrap();
        Ok(piece.len())
    }
}

/// A sink that takes each piece whole and keeps nothing. It never fails, and does not tell what it
/// took.
#[derive(Drop)]
pub struct NullSink;

impl NullSink {
    /// A sink that keeps nothing. It takes no memory.
    pub fn new() -> NullSink {
        NullSink
    }
}

impl Sink for NullSink {
    ghost held = { λ _. None };

    ghost faults = { λ _. 0 };

    ghost sure = { λ _. 2 ^ 64 };

    fn write(&mut self, piece: &[u8]) -> Result<usize, Failed>
        ensures bound { WritesAtMost result piece.now }
        ensures bytes { WriteAppends None None result piece.now }
        ensures cause { HasCause 0 0 result }
        ensures nothing { IfOk result (λ count. count ≡ 0 → 0 < length piece.now → Rose 0 0) }
        ensures sure { 0 < length piece.now → length piece.now ≤ 2 ^ 64
            → TakesSurely (2 ^ 64) (2 ^ 64) result }
        ensures whole { result ≡ Ok (length piece.now) }
    {
        Ok(piece.len())
    }
}

/// A writer of std as a sink. It does not tell which bytes it took. Its count of faults rises when
/// the writer answers an error, and when the writer takes no byte of a piece that is not empty.
#[derive(Drop)]
pub struct StdSink<W> {
    writer: W,
    faults: u64,
}

impl<W: Write> StdSink<W> {
    ghost use Rattle.lk_text.specs.StdSink.{writer_of, faults_met};

    /// The writer as a sink that has counted no fault. It takes no memory.
    pub fn new(writer: W) -> StdSink<W>
        ensures writer { writer_of result ≡ writer }
        ensures faults { faults_met result ≡ 0 }
    {
        StdSink { writer, faults: 0 }
    }

    /// The number of its faults so far.
    pub fn faults(&self) -> u64
        ensures { result ≡ faults_met self.now }
    {
        self.faults
    }
}

impl<W: Write> Sink for StdSink<W> {
    ghost use Rattle.lk_text.specs.StdSink.{writer_of, faults_met};

    ghost held = { λ _. None };

    ghost faults = { faults_met };

    ghost sure = { λ _. 0 };

    fn write(&mut self, piece: &[u8]) -> Result<usize, Failed>
        ensures bound { WritesAtMost result piece.now }
        ensures bytes { WriteAppends None None result piece.now }
        ensures cause { HasCause (faults_met self.old) (faults_met self.new) result }
        ensures nothing { IfOk result (λ count. count ≡ 0 → 0 < length piece.now
            → Rose (faults_met self.old) (faults_met self.new)) }
        ensures sure { 0 < length piece.now → length piece.now ≤ 0 → TakesSurely 0 0 result }
        ensures quiet { IfOk result
            (λ count. 0 < count → faults_met self.new ≡ faults_met self.old) }
        ensures passed_on { WriteAppends (W.contents (writer_of self.old))
            (W.contents (writer_of self.new))
            result piece.now }
    {
        match self.writer.write(piece) {
            Ok(count) => {
                if count == 0 && !piece.is_empty() {
                    self.faults = self.faults.saturating_add(1);
                }
                Ok(count)
            }
            Err(_) => {
                self.faults = self.faults.saturating_add(1);
                Err(Failed)
            }
        }
    }
}
