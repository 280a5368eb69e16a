// A header is read line by line.
ghost use Rattle.std.specs.Prelude.{◌≡◌, ◌<◌, IfOk, Some, None, false, true};
ghost use Rattle.lk_forms.specs.Words.{words};
ghost use Rattle.lk_forms.specs.Grammar.{header_line, default_setup, format_numbered, format_said};
ghost use Rattle.lk_forms.specs.Agrees.{Agrees, IsRoomy};

use crate::answers::{Fault, HeaderStep, LineRefusal};
use crate::arguments::{no_words, one_word};
use crate::keyword::{GO_RANK, Keyword};
use crate::limits::{MAX_LOCKS, USUAL_SPINS};
use crate::settings::{
    cpus_line, irq_line, lock_line, mode_line, program_line, sockets_line, spins_line,
    threshold_line,
};
use crate::tables::{no_handlers, no_programs, zero_sockets};
use crate::words::{is_comment, is_text, next_word};
use lk_names::{Format, List, MAX_TURNS, Memory, Mode, Topology};
use lk_rows::Setup;
use std::alloc::Global;

// What no line has said.
fn default_setup(alloc: Global) -> Result<Setup, Memory>
    ensures { IfOk result (λ s. s ≡ default_setup) }
{
    let sockets = zero_sockets(alloc, 1)?;
    Ok(Setup {
        format: Format::One,
        mode: Mode::Virt,
        topology: Topology { sockets },
        threshold: MAX_TURNS as u32,
        spins: USUAL_SPINS,
        locks: List::new(alloc, MAX_LOCKS)?,
        progs: no_programs(alloc, 1)?,
        irqs: no_handlers(alloc, 1)?,
    })
}

// A line of the header, by the words behind its keyword.
fn header_line(
    alloc: Global,
    setup: &mut Setup,
    keyword: Keyword,
    args: &[u8],
) -> Result<(), LineRefusal>
    requires { IsRoomy setup.old }
    ensures { Agrees (header_line keyword setup.old (words args.now)) setup.old setup.new result }
{
    match keyword {
        Keyword::Mode => mode_line(setup, args),
        Keyword::Cpus => cpus_line(alloc, setup, args),
        Keyword::Sockets => sockets_line(alloc, setup, args),
        Keyword::Threshold => threshold_line(setup, args),
        Keyword::Spins => spins_line(setup, args),
        Keyword::Lock => lock_line(setup, args),
        Keyword::Prog => program_line(alloc, setup, args),
        Keyword::Irq => irq_line(alloc, setup, args),
        Keyword::Go => no_words(args),
        _ => Err(LineRefusal::Bad(Fault::Misplaced)),
    }
}

/// The format that the word `1` or `2` names; none for any other word.
pub fn format_numbered(version: &[u8]) -> Option<Format>
    ensures { result ≡ format_numbered version.now }
{
    match version {
        b"1" => Some(Format::One),
        b"2" => Some(Format::Two),
        _ => None,
    }
}

// The format that the two words `qtrace` and `1`, or `qtrace` and `2`, say.
fn format_said(first: &[u8], args: &[u8]) -> Option<Format>
    ensures { result ≡ format_said first.now (words args.now) }
{
    match one_word(args) {
        Ok(version) if first == b"qtrace".as_slice() => format_numbered(version),
        _ => None,
    }
}

/// Reads the header of a trace, line by line, and keeps what the lines say.
#[derive(Drop)]
pub struct HeaderReader {
    alloc: Global,
    rank: Option<u32>,
    setup: Setup,
    ghost roomy: { IsRoomy setup },
}

impl HeaderReader {
    ghost use Rattle.std.specs.Prelude.{◌≡◌, ◌<◌, IfOk, Some, None, false, true};
    ghost use Rattle.lk_forms.specs.Words.{words};
    ghost use Rattle.lk_forms.specs.Grammar.{Reading, nothing_read, read, read_known, read_ranked, has_go, ending};
    ghost use Rattle.lk_forms.specs.Reader.{reading, ReadsOn};

    /// A reader that has read no line.
    ///
    /// # Errors
    ///
    /// There is not enough memory.
    pub fn new(alloc: Global) -> Result<HeaderReader, Memory>
        ensures { IfOk result (λ reader. reading reader ≡ nothing_read) }
    {
        let setup = default_setup(alloc)?;
        Ok(HeaderReader {
            alloc,
            rank: None,
            setup,
        })
    }

    // A line with a keyword, behind one of rank `last`.
    fn read_known(
        &mut self,
        last: u32,
        keyword: Keyword,
        args: &[u8],
    ) -> Result<HeaderStep, LineRefusal>
        requires last { self.old.rank ≡ Some last }
        requires before { last < 9 }
        ensures { ReadsOn (read_known (reading self.old) last (Some keyword) (words args.now))
            (reading self.old) (reading self.new) result }
    {
        if let Some(fault) = keyword.fault_of_place(last) {
            return Err(LineRefusal::Bad(fault));
        }
        header_line(self.alloc, &mut self.setup, keyword, args)?;
        let rank = keyword.rank();
        self.rank = Some(rank);
        if rank == GO_RANK {
            Ok(HeaderStep::Go)
        } else {
            Ok(HeaderStep::More)
        }
    }

    /// Reads one more line of the header, given without its line feed. It must not be called after
    /// it returned `Go`. It takes memory for what the line says.
    ///
    /// # Errors
    ///
    /// The first check of the grammar that the line fails, or not enough memory. The reader is then
    /// as it was.
    pub fn line(&mut self, line: &[u8]) -> Result<HeaderStep, LineRefusal>
        requires { has_go (reading self.old) ≡ false }
        ensures { ReadsOn (read (reading self.old) line.now)
            (reading self.old) (reading self.new) result }
    {
        if !is_text(line) {
            return Err(LineRefusal::Bad(Fault::NotText));
        }
        let Some((first, args)) = next_word(line) else {
            return Ok(HeaderStep::More);
        };
        if is_comment(first) {
            return Ok(HeaderStep::More);
        }
        let Some(last) = self.rank else {
            return self.read_format(first, args);
        };
        match Keyword::of(first) {
            None => Err(LineRefusal::Bad(Fault::UnknownWord)),
            Some(keyword) => self.read_known(last, keyword, args),
        }
    }

    // The first line that is neither blank nor a comment.
    fn read_format(&mut self, first: &[u8], args: &[u8]) -> Result<HeaderStep, LineRefusal>
        requires { self.old.rank ≡ None }
        ensures { ReadsOn (read_ranked (reading self.old) None first.now (words args.now))
            (reading self.old) (reading self.new) result }
    {
        let Some(format) = format_said(first, args) else {
            return Err(LineRefusal::Bad(Fault::NoFormat));
        };
        self.rank = Some(0);
        self.setup.format = format;
        Ok(HeaderStep::More)
    }

    /// What is wrong if the input ends here: `NoFormat` before the line that says the format, and
    /// `NoEnd` behind it.
    pub fn ending(&self) -> Fault
        ensures { result ≡ ending (reading self.now) }
    {
        if self.rank.is_some() {
            Fault::NoEnd
        } else {
            Fault::NoFormat
        }
    }

    /// Returns the setup that the lines say. `line` must have returned `Go`.
    pub fn finish(self) -> Setup
        requires { has_go (reading self) ≡ true }
        ensures { result ≡ (reading self).setup }
    {
        let HeaderReader {
            alloc: _,
            rank: _,
            setup,
        } = self;
        setup
    }
}
