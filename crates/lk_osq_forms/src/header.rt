// A header is read line by line.
ghost use Rattle.std.specs.Prelude.{◌≡◌, ◌<◌, IfOk, Some, None, false};
ghost use Rattle.lk_forms.specs.Words.{words};
ghost use Rattle.lk_osq_forms.specs.Lines.{is_format};
ghost use Rattle.lk_osq_forms.specs.Table.{IsTable};

use crate::keyword::Keyword;
use crate::table::{header_args, one_cpu};
use lk_forms::{Fault, HeaderStep, LineRefusal, is_comment, is_text, next_word, one_word};
use lk_names::{List, Memory};
use std::alloc::Global;

// The two words `qosq` and `1`.
fn is_format(first: &[u8], args: &[u8]) -> bool
    ensures { result ≡ is_format first.now (words args.now) }
{
    match one_word(args) {
        Ok(version) => first == b"qosq".as_slice() && version == b"1".as_slice(),
        Err(_) => false,
    }
}

/// Reads the header of a run, line by line.
#[derive(Drop)]
pub struct OsqHeader {
    rank: Option<u32>,
    rounds: List<u32>,
    ghost table: { IsTable rounds },
}

impl OsqHeader {
    ghost use Rattle.lk_osq_forms.specs.Grammar.{ending, nothing_said, header_known, header_ranked, header_of};
    ghost use Rattle.lk_osq_forms.specs.Reader.{said_by, ReadsOn};

    /// A reader that has read no line. It takes all its memory here.
    ///
    /// # Errors
    ///
    /// There is not enough memory.
    pub fn new(alloc: Global) -> Result<OsqHeader, Memory>
        ensures { IfOk result (λ header. said_by header ≡ nothing_said) }
    {
        let rounds = one_cpu(alloc)?;
        Ok(OsqHeader { rank: None, rounds })
    }

    // A line with a keyword, behind one of rank `last`.
    fn read_known(
        &mut self,
        last: u32,
        keyword: Keyword,
        args: &[u8],
    ) -> Result<HeaderStep, LineRefusal>
        ensures { ReadsOn
            (header_known last self.old.rounds.items (Some keyword)
            (words args.now)) self.old self.new result }
    {
        if let Some(fault) = keyword.fault_of_place(last) {
            return Err(LineRefusal::Bad(fault));
        }
        header_args(&mut self.rounds, keyword, args)?;
        self.rank = Some(keyword.rank());
        match keyword {
            Keyword::Go => Ok(HeaderStep::Go),
            _ => Ok(HeaderStep::More),
        }
    }

    // The first line that is neither blank nor a comment.
    fn read_format(&mut self, first: &[u8], args: &[u8]) -> Result<HeaderStep, LineRefusal>
        ensures { ReadsOn
            (header_ranked None self.old.rounds.items first.now
            (words args.now)) self.old self.new result }
    {
        if !is_format(first, args) {
            return Err(LineRefusal::Bad(Fault::NoFormat));
        }
        self.rank = Some(0);
        Ok(HeaderStep::More)
    }

    /// Reads one more line of the header, without its line feed. It takes no memory.
    ///
    /// # Errors
    ///
    /// The first check of `docs/FORMATS.md` that the line fails. The reader is then as it was.
    pub fn line(&mut self, line: &[u8]) -> Result<HeaderStep, LineRefusal>
        ensures { ReadsOn
            (header_of self.old.rank self.old.rounds.items line.now) self.old self.new result }
    {
        if !is_text(line) {
            return Err(LineRefusal::Bad(Fault::NotText));
        }
        let Some((first, args)) = next_word(line) else {
            return Ok(HeaderStep::More);
        };
        if is_comment(first) {
            return Ok(HeaderStep::More);
        }
        let Some(last) = self.rank else {
            return self.read_format(first, args);
        };
        match Keyword::of(first) {
            None => Err(LineRefusal::Bad(Fault::UnknownWord)),
            Some(keyword) => self.read_known(last, keyword, args),
        }
    }

    /// The fault of an input that ends here: `NoFormat` before the format line, else `NoEnd`.
    pub fn ending(&self) -> Fault
        ensures { Some result ≡ ending (said_by self.now) }
    {
        if self.rank.is_some() {
            Fault::NoEnd
        } else {
            Fault::NoFormat
        }
    }

    /// For each of the 1 to 64 processors, how many rounds it makes.
    pub fn rounds(&self) -> &List<u32>
        ensures rounds { result.now ≡ self.now.rounds }
        ensures table { IsTable result.now }
    {
        &self.rounds
    }
}
