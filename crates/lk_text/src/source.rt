//! Where bytes come from.
ghost use Rattle.std.specs.Prelude.{◌≡◌, ◌≤◌, ◌<◌, ◌+◌, List, ℕ, Option, None, Some, IfOk, OnOk, ◌-◌, length, take, [], vec_len, IsErr, Contains, ◌↔◌, ◌^◌, min};
ghost use Rattle.std.specs.Io.{ReadsAtMost};
ghost use Rattle.std.specs.Io.KnownBytes.{ReadConsumes};
ghost use Rattle.lk_text.specs.Causes.{HasCause};

use lk_names::Memory;
use std::alloc::Global;
use std::io::Read;

/// A read or a write failed.
#[derive(Clone, Copy, Debug, PartialEq, Eq)]
pub struct Failed;

/// Where bytes come from. A source gives them piece by piece, and counts its faults. The count
/// never falls. Once it is 2^64 - 1 it stays there, and contracts read it as risen in every call.
pub trait Source {
    /// The bytes that are left to read, for contracts; none if the source does not tell them.
    ghost left: { Self → Option (List ℕ) };

    /// The number of its faults so far.
    ghost faults: { Self → ℕ };

    /// Reads the next bytes into the front of `buf`, and returns their number. A return of 0 for a
    /// `buf` that is not empty means the end of the input.
    ///
    /// # Errors
    ///
    /// The read failed and no byte is lost. The count of faults rose in this call.
    fn read(&mut self, buf: &mut [u8]) -> Result<usize, Failed>
        ensures bound { ReadsAtMost result buf.new }
        ensures bytes { ReadConsumes (left self.old) (left self.new) result buf.new }
        ensures cause { HasCause (faults self.old) (faults self.new) result };
}

/// A source of bytes in memory, which tells the bytes that are left. A read returns at most `chunk`
/// bytes, and never fails.
#[derive(Drop)]
pub struct SureSource {
    bytes: Vec<u8>,
    at: usize,
    chunk: usize,
    ghost within: { at ≤ vec_len bytes },
    ghost some: { 1 ≤ chunk },
}

// Copies the next bytes, as many as both have and at most `chunk`, and says how many.
fn copy_next(bytes: &[u8], chunk: usize, buf: &mut [u8]) -> usize
    requires { 1 ≤ chunk }
    ensures within { result ≤ length bytes.now }
    ensures fits { result ≤ length buf.new }
    ensures piece { result ≤ chunk }
    ensures given { take result buf.new ≡ take result bytes.now }
    ensures all { result ≡ 0 → 0 < length buf.new → bytes.now ≡ [] }
{
    let count = bytes.len().min(chunk).min(buf.len());
    let piece = &bytes[..count];
    let place = &mut buf[..count];
    place.copy_from_slice(piece);
    count
}

impl SureSource {
    ghost use Rattle.lk_text.specs.SureSource.{bytes_left, chunk_of};

    /// A source of a copy of these bytes. `chunk` is the most bytes of one read, at least 1.
    ///
    /// # Errors
    ///
    /// There is not enough memory.
    pub fn new(alloc: Global, bytes: &[u8], chunk: usize) -> Result<SureSource, Memory>
        requires { 1 ≤ chunk }
        ensures left { IfOk result (λ source. bytes_left source ≡ bytes.now) }
        ensures chunk { IfOk result (λ source. chunk_of source ≡ chunk) }
    {
        let bytes = Vec::from_slice(alloc, bytes)?;
        Ok(SureSource {
            bytes,
            at: 0,
            chunk,
        })
    }
}

impl Source for SureSource {
    ghost use Rattle.lk_text.specs.SureSource.{bytes_left, chunk_of};

    ghost left = { λ source. Some (bytes_left source) };

    ghost faults = { λ _. 0 };

    fn read(&mut self, buf: &mut [u8]) -> Result<usize, Failed>
        ensures bound { ReadsAtMost result buf.new }
        ensures bytes { ReadConsumes (Some (bytes_left self.old))
            (Some (bytes_left self.new)) result buf.new }
        ensures cause { HasCause 0 0 result }
        ensures piece { IfOk result (λ count. count ≤ chunk_of self.old) }
        ensures same_chunk { chunk_of self.new ≡ chunk_of self.old }
    {
        let rest = &self.bytes[self.at..];
        let count = copy_next(rest, self.chunk, buf);
        self.at += count;
        Ok(count)
    }
}

/// A source of bytes in memory, which tells the bytes that are left. A read returns at most `chunk`
/// bytes. It fails exactly if its number, counted from 1, is in the list of those that are to fail.
#[derive(Drop)]
pub struct MemSource {
    sure: SureSource,
    fails: Vec<u64>,
    calls: u64,
    faults: u64,
}

impl MemSource {
    ghost use Rattle.lk_text.specs.MemSource.{bytes_left, faults_met, chunk_of, failing_reads, reads_made};

    /// A source of a copy of these bytes. `chunk` is the most bytes of one read, at least 1.
    /// `fails` lists the numbers of the reads that are to fail, counted from 1.
    ///
    /// # Errors
    ///
    /// There is not enough memory.
    pub fn new(
        alloc: Global,
        bytes: &[u8],
        chunk: usize,
        fails: &[u64],
    ) -> Result<MemSource, Memory>
        requires { 1 ≤ chunk }
        ensures left { IfOk result (λ source. bytes_left source ≡ bytes.now) }
        ensures faults { IfOk result (λ source. faults_met source ≡ 0) }
        ensures chunk { IfOk result (λ source. chunk_of source ≡ chunk) }
        ensures fails { IfOk result (λ source. failing_reads source ≡ fails.now) }
        ensures calls { IfOk result (λ source. reads_made source ≡ 0) }
    {
        let sure = SureSource::new(alloc, bytes, chunk)?;
        let fails = Vec::from_slice(alloc, fails)?;
        Ok(MemSource {
            sure,
            fails,
            calls: 0,
            faults: 0,
        })
    }
}

impl Source for MemSource {
    ghost use Rattle.lk_text.specs.MemSource.{bytes_left, faults_met, chunk_of, failing_reads, reads_made};

    ghost left = { λ source. Some (bytes_left source) };

    ghost faults = { faults_met };

    fn read(&mut self, buf: &mut [u8]) -> Result<usize, Failed>
        ensures bound { ReadsAtMost result buf.new }
        ensures bytes { ReadConsumes (Some (bytes_left self.old))
            (Some (bytes_left self.new)) result buf.new }
        ensures cause { HasCause (faults_met self.old) (faults_met self.new) result }

        ensures piece { IfOk result (λ count. count ≤ chunk_of self.old) }
        ensures quiet { OnOk result (faults_met self.new ≡ faults_met self.old) }
        ensures listed { IsErr result ↔ Contains (failing_reads self.old) (reads_made self.new) }
        ensures counted { reads_made self.new ≡ min (reads_made self.old + 1) (2 ^ 64 - 1) }
        ensures same_chunk { chunk_of self.new ≡ chunk_of self.old }
        ensures same_list { failing_reads self.new ≡ failing_reads self.old }
    {
        self.calls = self.calls.saturating_add(1);
        if self.fails.contains(&self.calls) {
            self.faults = self.faults.saturating_add(1);
            return Err(Failed);
        }
        self.sure.read(buf)
    }
}

/// A reader of std as a source. It does not tell which bytes are left. Its count of faults rises
/// when the reader answers an error.
#[derive(Drop)]
pub struct StdSource<R> {
    reader: R,
    faults: u64,
}

impl<R: Read> StdSource<R> {
    ghost use Rattle.lk_text.specs.StdSource.{reader_of, faults_met};

    /// The reader as a source that has counted no fault. It takes no memory.
    pub fn new(reader: R) -> StdSource<R>
        ensures reader { reader_of result ≡ reader }
        ensures faults { faults_met result ≡ 0 }
    {
        StdSource { reader, faults: 0 }
    }

    /// The number of its faults so far.
    pub fn faults(&self) -> u64
        ensures { result ≡ faults_met self.now }
    {
        self.faults
    }
}

impl<R: Read> Source for StdSource<R> {
    ghost use Rattle.lk_text.specs.StdSource.{reader_of, faults_met};

    ghost left = { λ _. None };

    ghost faults = { faults_met };

    fn read(&mut self, buf: &mut [u8]) -> Result<usize, Failed>
        ensures bound { ReadsAtMost result buf.new }
        ensures bytes { ReadConsumes None None result buf.new }
        ensures cause { HasCause (faults_met self.old) (faults_met self.new) result }
        ensures quiet { OnOk result (faults_met self.new ≡ faults_met self.old) }
        ensures passed_on { ReadConsumes (R.remaining (reader_of self.old))
            (R.remaining (reader_of self.new))
            result buf.new }
    {
        match self.reader.read(buf) {
            Ok(count) => Ok(count),
            Err(_) => {
                self.faults = self.faults.saturating_add(1);
                Err(Failed)
            }
        }
    }
}
