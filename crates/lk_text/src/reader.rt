//! The lines of a source, read through a buffer of fixed size.
ghost use Rattle.std.specs.Prelude.{◌≡◌, ◌≤◌, ◌<◌, ◌+◌, ◌-◌, List, ℕ, Option, Some, None, true, false, IfOk, IfErr, OnErr, IfSome, Ok, Err, length, take, drop, slice_range, slice_index, vec_len, Result};
ghost use Rattle.std.specs.Io.KnownBytes.{ReadConsumes, Keeps, IsAtEnd};
ghost use Rattle.lk_text.specs.Causes.{HasCause};
ghost use Rattle.lk_text.specs.Feeds.{HasNoFeed, FeedAt};
ghost use Rattle.lk_text.specs.Lines.{PassesLineLimit, PassesInputLimit};
ghost use Rattle.lk_text.specs.declared.reader.TheConstants.{MAX_INPUT, MAX_LINE};

use crate::feeds::{behind_last_feed, find_feed};
use crate::source::{Failed, Source};
use lk_names::Memory;
use std::alloc::Global;

/// The most bytes of a line, not counting its line feed.
pub const MAX_LINE: usize = 4_096;

/// The most bytes of an input: 2^30, which is 1 GiB.
pub const MAX_INPUT: u64 = 1 << 30;

// The bytes that a reader takes ahead at most.
const BLOCK: usize = 65_536;

/// Why a reader of lines returns no next line. It answers each later call with the same fault.
#[derive(Clone, Copy, Debug, PartialEq, Eq)]
pub enum LineFault {
    /// A read of the source failed. The source's count of faults rose in the call that answered
    /// this first.
    ReadFault,

    /// The line has more than 4,096 bytes, not counting its line feed. If the same byte passes both
    /// limits, this is the answer.
    TooLong,

    /// The line, with its line feed, reaches byte 2^30 + 1 of the input.
    TooMuch,
}

/// Reads the lines of one source through a buffer of 65,536 bytes, which is all its memory.
#[derive(Drop)]
pub struct LineReader {
    // Bytes of the source. Those from `at` to `end` were taken and not looked at, and as long as
    // `at` is below `whole`, a line feed is among them: the one right before `whole`.
    block: Vec<u8>,
    at: usize,
    whole: usize,
    end: usize,
    // How many lines were given, and how many bytes were looked at.
    lines: u64,
    looked: u64,
    // The fault that each later call answers.
    kept: Option<LineFault>,
    // Whether the end of input was met.
    ended: bool,
    ghost room: { vec_len block ≡ 65536 },
    ghost ordered: { at ≤ end },
    ghost in_block: { end ≤ 65536 },
    ghost whole_within: { whole ≤ end },
    ghost open: { at < whole → kept ≡ None },
    ghost going: { at < whole → ended ≡ false },
    ghost feed: { 0 < whole → slice_index block.items (whole - 1) ≡ 10 },
    ghost within: { looked ≤ MAX_INPUT },
    ghost counted: { lines ≤ looked },
}

// How far the line at the front goes: its bytes, and all of them with its line feed, where it has
// one. With no byte at all there is no line, and the input is at its end.
#[derive(Clone, Copy)]
struct Span {
    line: usize,
    all: usize,
}

// Moves the bytes from `at` to `end` to the front, and reads more behind them.
fn refill<S: Source>(
    source: &mut S,
    block: &mut [u8],
    at: usize,
    end: usize,
) -> Result<usize, Failed>
    requires ordered { at ≤ end }
    requires within { end ≤ length block.old }
    ensures bound { IfOk result (λ n. end - at + n ≤ length block.new) }
    ensures front { take (end - at) block.new ≡ slice_range block.old at end }
    ensures bytes { ReadConsumes (S.left source.old) (S.left source.new) result
        (drop (end - at) block.new) }
    ensures cause { HasCause (S.faults source.old) (S.faults source.new) result }
{
    block.copy_within(at..end, 0);
    let front = end - at;
    source.read(&mut block[front..])
}

// The limit that is passed, if one is, where the bytes of the span have to be looked at behind
// those that were.
#[inline(always)]
fn passed_limit(looked: u64, span: Span) -> Option<LineFault>
    requires looked { looked ≤ MAX_INPUT }
    requires line { span.line ≤ 65536 }
    requires all { span.all ≤ 65537 }
    requires ordered { span.line ≤ span.all }
    ensures none { result ≡ None → (span.line ≤ MAX_LINE) × (looked + span.all ≤ MAX_INPUT) }
    ensures long { result ≡ Some LineFault.TooLong
        → (MAX_LINE < span.line) × (looked + MAX_LINE ≤ MAX_INPUT) }
    ensures much { result ≡ Some LineFault.TooMuch
        → (MAX_INPUT < looked + span.all) × (MAX_LINE < span.line → MAX_INPUT < looked + MAX_LINE) }
    ensures only { result ≡ Some LineFault.ReadFault → ⊥ }
{
    if looked + span.all as u64 <= MAX_INPUT {
        return (span.line > MAX_LINE).then_some(LineFault::TooLong);
    }
    if span.line > MAX_LINE && looked + MAX_LINE as u64 <= MAX_INPUT {
        return Some(LineFault::TooLong);
    }
    Some(LineFault::TooMuch)
}

impl LineReader {
    ghost use Rattle.std.specs.Borrow.{sem};
    ghost use Rattle.std.specs.Io.BufRead.{Rests};
    ghost use Rattle.lk_text.specs.contracts.reader.LineReader.{the_row};
    ghost use Rattle.lk_text.specs.declared.reader.LineFault.{LineFault};
    ghost use Rattle.lk_text.specs.Reader.{IsFresh, pending, unread, kept, looked_at, lines_given, is_ended, is_at_hand, KeepsPlace, EndsAt, GaveLine, MetEnd, GaveFault, NextLine, Reason};

    /// A reader that has returned no line. It takes all its memory here.
    ///
    /// # Errors
    ///
    /// There is not enough memory.
    pub fn new(alloc: Global) -> Result<LineReader, Memory>
        ensures { IfOk result IsFresh }
    {
        let block = vec![in alloc; 0; BLOCK]?;
        Ok(LineReader {
            block,
            at: 0,
            whole: 0,
            end: 0,
            lines: 0,
            looked: 0,
            kept: None,
            ended: false,
        })
    }

    /// The number of lines that were returned so far.
    pub fn lines(&self) -> u64
        ensures { result ≡ lines_given self.now }
    {
        self.lines
    }

    /// Whether a whole line, with its line feed, is in the buffer. If so, the next call of
    /// `next_line` does not ask the source.
    #[inline]
    pub fn has_line(&self) -> bool
        ensures { result ≡ is_at_hand self.now }
    {
        self.at < self.whole
    }

    /// The bytes that were read from the source and belong to no returned line. If `has_line`
    /// answers `true`, the next line is in front.
    #[inline(always)]
    pub fn ahead(&self) -> &[u8]
        ensures { result.now ≡ pending self.now }
    {
        &self.block[self.at..self.end]
    }

    /// Takes the next line, whose end the caller has found in `ahead`: `line` bytes, at most 4,096,
    /// and then the line feed. `has_line` must answer `true`. Returns `false` and changes nothing
    /// if the line passes the limit of the input; `next_line` then answers `TooMuch`.
    #[inline(always)]
    pub fn take_front(&mut self, line: usize) -> bool
        requires at_hand { is_at_hand self.old ≡ true }
        requires feed { FeedAt (pending self.old) line }
        requires short { line ≤ MAX_LINE }
        ensures taken { result ≡ true → ((left : Option (List ℕ))
            → GaveLine self.old self.new left left (take line (pending self.old))) }
        ensures unchanged { result ≡ false → self.new ≡ self.old }
    {
        let all = line as u64 + 1;
        if all > MAX_INPUT - self.looked {
            return false;
        }
        self.at += line + 1;
        self.looked += all;
        self.lines += 1;
        true
    }

    // Reads more bytes behind those that are pending: none at the end of the input.
    fn fill<S: Source>(&mut self, source: &mut S) -> Result<usize, Failed>
        requires open { kept self.old ≡ None }
        requires going { is_ended self.old ≡ false }
        requires room { self.old.end - self.old.at < 65536 }
        ensures bytes { Keeps (unread self.old (S.left source.old))
            (unread self.new (S.left source.new)) }
        ensures front { take (self.old.end - self.old.at) (pending self.new) ≡ pending self.old }
        ensures more { IfOk result
            (λ n. self.new.end - self.new.at ≡ self.old.end - self.old.at + n) }
        ensures same { OnErr result (self.new.end - self.new.at ≡ self.old.end - self.old.at) }
        ensures end { result ≡ Ok 0 → IsAtEnd (S.left source.new) }
        ensures place { KeepsPlace self.old self.new }
        ensures cause { HasCause (S.faults source.old) (S.faults source.new) result }
    {
        let (at, end) = (self.at, self.end);
        self.at = 0;
        self.whole = 0;
        self.end = end - at;
        let count = refill(source, &mut self.block, at, end)?;
        let front = self.end;
        self.end += count;
        self.whole = behind_last_feed(&self.block, front, self.end);
        Ok(count)
    }

    // Looks for the end of a line in the bytes that are pending, of which the first `clear` are no
    // line feeds.
    #[inline(always)]
    fn look(&self, clear: usize) -> Result<Option<Span>, LineFault>
        requires clear { clear ≤ self.now.end - self.now.at }
        requires plain { HasNoFeed (take clear (pending self.now)) }
        ensures found { IfOk result (λ found. IfSome found (λ span. (span.all ≡ span.line + 1)
            × ((left : Option (List ℕ))
            → EndsAt (pending self.now) left (looked_at self.now) span.line span.all))) }
        ensures fits { IfOk result
            (λ found. IfSome found (λ span. (self.now.at + span.all ≤ self.now.end)
            × (span.line ≤ span.all) × (looked_at self.now + span.all ≤ MAX_INPUT))) }
        ensures none { result ≡ Ok None
            → HasNoFeed (pending self.now) × (is_at_hand self.now ≡ false)
            × (self.now.end - self.now.at ≤ MAX_LINE)
            × (looked_at self.now + (self.now.end - self.now.at) ≤ MAX_INPUT) }
        ensures long { result ≡ Err LineFault.TooLong
            → ((left : Option (List ℕ))
            → PassesLineLimit (unread self.now left) (looked_at self.now)) }
        ensures much { result ≡ Err LineFault.TooMuch
            → ((left : Option (List ℕ))
            → PassesInputLimit (unread self.now left) (looked_at self.now)) }
        ensures only { result ≡ Err LineFault.ReadFault → ⊥ }
    {
        let (at, end) = (self.at, self.end);
        match find_feed(&self.block, at, clear, end) {
            Some(line) => {
                let span = Span {
                    line,
                    all: line + 1,
                };
                match passed_limit(self.looked, span) {
                    Some(fault) => Err(fault),
                    None => Ok(Some(span)),
                }
            }
            None => {
                let span = Span {
                    line: end - at,
                    all: end - at,
                };
                match passed_limit(self.looked, span) {
                    Some(fault) => Err(fault),
                    None => Ok(None),
                }
            }
        }
    }

    // Looks for the end of the next line, which is at hand.
    #[inline(always)]
    fn line_at_hand(&self) -> Result<Span, LineFault>
        requires { is_at_hand self.now ≡ true }
        ensures span { IfOk result (λ span. (span.all ≡ span.line + 1)
            × ((left : Option (List ℕ))
            → EndsAt (pending self.now) left (looked_at self.now) span.line span.all)) }
        ensures fits { IfOk result (λ span. (self.now.at + span.all ≤ self.now.end)
            × (span.line ≤ span.all) × (looked_at self.now + span.all ≤ MAX_INPUT)) }
        ensures long { result ≡ Err LineFault.TooLong
            → ((left : Option (List ℕ))
            → PassesLineLimit (unread self.now left) (looked_at self.now)) }
        ensures much { result ≡ Err LineFault.TooMuch
            → ((left : Option (List ℕ))
            → PassesInputLimit (unread self.now left) (looked_at self.now)) }
        ensures only { result ≡ Err LineFault.ReadFault → ⊥ }
    {
        match self.look(0) {
            Ok(Some(span)) => Ok(span),
            Ok(None) => unreachable!(),
            Err(fault) => Err(fault),
        }
    }

    // Reads on until the end of the next line is there or the input ends.
    fn read_line<S: Source>(&mut self, source: &mut S) -> Result<Span, LineFault>
        requires open { kept self.old ≡ None }
        requires going { is_ended self.old ≡ false }
        requires not_at_hand { is_at_hand self.old ≡ false }
        ensures bytes { Keeps (unread self.old (S.left source.old))
            (unread self.new (S.left source.new)) }
        ensures place { KeepsPlace self.old self.new }
        ensures span { IfOk result (λ span.
            EndsAt (pending self.new) (S.left source.new) (looked_at self.new) span.line span.all) }
        ensures fits { IfOk result (λ span. (self.new.at + span.all ≤ self.new.end)
            × (span.line ≤ span.all) × (looked_at self.new + span.all ≤ MAX_INPUT)) }
        ensures reason { IfErr result
            (Reason self.old self.new (S.left source.old) (S.left source.new)
            (S.faults source.old) (S.faults source.new)) }
        ensures later { S.faults source.old ≤ S.faults source.new }
    {
        let mut clear = 0;
        'turn: loop {
            match self.look(clear) {
                Ok(Some(span)) => return Ok(span),
                Ok(None) => {}
                Err(fault) => return Err(fault),
            }
            clear = self.end - self.at;
            match self.fill(source) {
                Ok(0) => {
                    return Ok(Span {
                        line: clear,
                        all: clear,
                    });
                }
                Ok(_) => {}
                Err(_) => return Err(LineFault::ReadFault),
            }
        }
    }

    // Keeps a fault, which each later call answers: no line is at hand any more.
    fn keep(&mut self, fault: LineFault)
        ensures kept { kept self.new ≡ Some fault }
        ensures pending { pending self.new ≡ pending self.old }
        ensures lines { lines_given self.new ≡ lines_given self.old }
    {
        self.whole = 0;
        self.kept = Some(fault);
    }

    // Takes the line at hand: where it stands in the block.
    #[inline(always)]
    fn take_at_hand(&mut self) -> Result<(usize, usize), LineFault>
        requires { is_at_hand self.old ≡ true }
        ensures line { IfOk result (λ place. (place.0 ≤ place.1) × (place.1 ≤ 65536)
            × ((left : Option (List ℕ)) → GaveLine self.old self.new left left
            (slice_range self.new.block.items place.0 place.1))) }
        ensures fault { IfErr result (λ fault. (left : Option (List ℕ)) (faults : ℕ)
            → GaveFault self.old self.new left left faults faults fault) }
    {
        match self.line_at_hand() {
            Ok(span) => {
                let start = self.at;
                self.at = start + span.all;
                self.looked += span.all as u64;
                self.lines += 1;
                Ok((start, start + span.line))
            }
            Err(fault) => {
                self.keep(fault);
                Err(fault)
            }
        }
    }

    // Reads the next line, which is not at hand, and takes it: where it stands in the block.
    #[inline(never)]
    fn take_by_reading<S: Source>(
        &mut self,
        source: &mut S,
    ) -> Result<Option<(usize, usize)>, LineFault>
        requires { is_at_hand self.old ≡ false }
        ensures line { IfOk result
            (λ given. IfSome given (λ place. (place.0 ≤ place.1) × (place.1 ≤ 65536)
            × GaveLine self.old self.new (S.left source.old) (S.left source.new)
            (slice_range self.new.block.items place.0 place.1))) }
        ensures end { result ≡ Ok None
            → MetEnd self.old self.new (S.left source.old) (S.left source.new) }
        ensures fault { IfErr result
            (GaveFault self.old self.new (S.left source.old) (S.left source.new)
            (S.faults source.old) (S.faults source.new)) }
        ensures again { (fault : LineFault) → kept self.old ≡ Some fault
            → (result ≡ Err fault) × (source.new ≡ source.old) }
        ensures idle { is_ended self.old ≡ true → source.new ≡ source.old }
        ensures later { S.faults source.old ≤ S.faults source.new }
    {
        if let Some(fault) = self.kept {
            return Err(fault);
        }
        if self.ended {
            return Ok(None);
        }
        match self.read_line(source) {
            Ok(span) => {
                self.ended = span.all == span.line;
                if span.all == 0 {
                    return Ok(None);
                }
                let start = self.at;
                self.at = start + span.all;
                self.looked += span.all as u64;
                self.lines += 1;
                Ok(Some((start, start + span.line)))
            }
            Err(fault) => {
                self.keep(fault);
                Err(fault)
            }
        }
    }

    // Takes the next line: where it stands in the block.
    #[inline(always)]
    fn take_line<S: Source>(&mut self, source: &mut S) -> Result<Option<(usize, usize)>, LineFault>
        ensures line { IfOk result
            (λ given. IfSome given (λ place. (place.0 ≤ place.1) × (place.1 ≤ 65536)
            × GaveLine self.old self.new (S.left source.old) (S.left source.new)
            (slice_range self.new.block.items place.0 place.1))) }
        ensures end { result ≡ Ok None
            → MetEnd self.old self.new (S.left source.old) (S.left source.new) }
        ensures fault { IfErr result
            (GaveFault self.old self.new (S.left source.old) (S.left source.new)
            (S.faults source.old) (S.faults source.new)) }
        ensures again { (fault : LineFault) → kept self.old ≡ Some fault
            → (result ≡ Err fault) × (source.new ≡ source.old) }
        ensures idle { is_ended self.old ≡ true → source.new ≡ source.old }
        ensures at_hand { is_at_hand self.old ≡ true → source.new ≡ source.old }
        ensures later { S.faults source.old ≤ S.faults source.new }
    {
        if !self.has_line() {
            return self.take_by_reading(source);
        }
        match self.take_at_hand() {
            Ok(place) => Ok(Some(place)),
            Err(fault) => Err(fault),
        }
    }

    /// Returns the next line, of at most 4,096 bytes, without its line feed. The last line may have
    /// no line feed. Returns `None` once the input has ended and every line was returned. Each
    /// later call then returns `None` too, and does not ask the source.
    ///
    /// # Errors
    ///
    /// A failed read, or a limit that is passed. Each later call answers the same fault, and does
    /// not ask the source.
    #[inline(always)]
    pub fn next_line<'a, S: Source>(
        &'a mut self,
        source: &mut S,
    ) -> Result<Option<&'a [u8]>, LineFault>
        ensures* after_borrow { sem 𝓛 (Rests the_row self.entry (λ new.
            NextLine self.old new (S.left source.old) (S.left source.new)
            (S.faults source.old) (S.faults source.new) result)) }
        ensures again { (fault : LineFault) → kept self.old ≡ Some fault
            → (result ≡ Err fault) × (source.new ≡ source.old) }
        ensures idle { is_ended self.old ≡ true → source.new ≡ source.old }
        ensures at_hand { is_at_hand self.old ≡ true → source.new ≡ source.old }
        ensures later { S.faults source.old ≤ S.faults source.new }
    {
        match self.take_line(source) {
            Ok(Some((start, end))) => Ok(Some(&self.block[start..end])),
            Ok(None) => Ok(None),
            Err(fault) => Err(fault),
        }
    }
}
