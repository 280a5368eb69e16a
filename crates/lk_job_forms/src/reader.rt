// A job file is read line by line.
ghost use Rattle.std.specs.Prelude.{◌≡◌, Some, map};
ghost use Rattle.std.proofs.Props.{props};
ghost use Rattle.lk_forms.specs.Words.{words};
ghost use Rattle.lk_job_forms.specs.Grammar.{IsSound, format_said};
ghost use Rattle.lk_job_forms.specs.Props.{IsFair-prop};
ghost use Rattle.lk_job_forms.specs.Draft.{work_of};

use crate::answers::JobStep;
use crate::draft::Draft;
use crate::keyword::{END_RANK, Keyword};
use crate::settings::line_args;
use lk_forms::{
    Fault, LineRefusal, format_numbered, is_comment, is_text, next_word, no_words, one_word,
};
use lk_names::{Format, Job, JobFile, List, Memory, Topology};
use std::alloc::Global;

// The format that the two words `qjobs` and `1`, or `qjobs` and `2`, say.
fn format_said(first: &[u8], args: &[u8]) -> Option<Format>
    ensures { result ≡ format_said first.now (words args.now) }
{
    match one_word(args) {
        Ok(version) if first == b"qjobs".as_slice() => format_numbered(version),
        _ => None,
    }
}

/// Reads a job file, line by line. It keeps the allocator, since the lines need memory.
#[derive(Drop)]
pub struct JobReader {
    alloc: Global,
    rank: Option<u32>,
    draft: Draft,
    // The jobs of each worker, once `end` is read.
    lists: List<List<Job>>,
    ghost sound: { IsSound (record { rank = rank; work = work_of draft }) } by { Prim.hlevel (IsFair-prop, props) },
    ghost listed: { rank ≡ Some 8
        → map (λ js. js.items) lists.items ≡ map (λ js. js.items) draft.jobs.items },
}

impl JobReader {
    ghost use Rattle.std.specs.Prelude.{◌≡◌, IfOk, Some, None, false, true};
    ghost use Rattle.lk_names.specs.Workload.{IsLawful, workload_of};
    ghost use Rattle.lk_forms.specs.Words.{words};
    ghost use Rattle.lk_job_forms.specs.declared.keyword.Keyword.TheVariants as keyword;
    ghost use Rattle.lk_job_forms.specs.Grammar.{nothing_read, read, read_placed, read_known, read_ranked, has_end, ending};
    ghost use Rattle.lk_job_forms.specs.Reader.{reading, step_of, ReadsOn};

    /// A reader that has read no line.
    ///
    /// # Errors
    ///
    /// There is not enough memory.
    pub fn new(alloc: Global) -> Result<JobReader, Memory>
        ensures { IfOk result (λ reader. reading reader ≡ nothing_read) }
    {
        Ok(JobReader {
            alloc,
            rank: None,
            draft: Draft::new(alloc)?,
            lists: List::new(alloc, 0)?,
        })
    }

    // `end`
    fn read_end(&mut self, args: &[u8]) -> Result<JobStep, LineRefusal>
        ensures { ReadsOn (read_placed (reading self.old) keyword.End (words args.now))
            (reading self.old) (reading self.new) result }
    {
        no_words(args)?;
        self.lists = self.draft.job_lists(self.alloc)?;
        self.rank = Some(END_RANK);
        Ok(JobStep::End)
    }

    // A line with a keyword, behind one of rank `last`.
    fn read_known(
        &mut self,
        last: u32,
        keyword: Keyword,
        args: &[u8],
    ) -> Result<JobStep, LineRefusal>
        requires { self.old.rank ≡ Some last }
        ensures { ReadsOn (read_known (reading self.old) last (Some keyword) (words args.now))
            (reading self.old) (reading self.new) result }
    {
        if let Some(fault) = keyword.fault_of_place(last) {
            return Err(LineRefusal::Bad(fault));
        }
        if let Keyword::End = keyword {
            return self.read_end(args);
        }
        line_args(self.alloc, &mut self.draft, keyword, args)?;
        self.rank = Some(keyword.rank());
        Ok(JobStep::More)
    }

    // The first line that is neither blank nor a comment.
    fn read_format(&mut self, first: &[u8], args: &[u8]) -> Result<JobStep, LineRefusal>
        requires { self.old.rank ≡ None }
        ensures { ReadsOn (read_ranked (reading self.old) None first.now (words args.now))
            (reading self.old) (reading self.new) result }
    {
        let Some(format) = format_said(first, args) else {
            return Err(LineRefusal::Bad(Fault::NoFormat));
        };
        self.rank = Some(0);
        self.draft.format = format;
        Ok(JobStep::More)
    }

    /// Whether the line `end` was read.
    pub fn is_ended(&self) -> bool
        ensures { result ≡ has_end (reading self.now) }
    {
        self.rank == Some(END_RANK)
    }

    // What comes after a blank line or a comment.
    fn step(&self) -> JobStep
        ensures { result ≡ step_of (reading self.now) }
    {
        if self.is_ended() {
            JobStep::End
        } else {
            JobStep::More
        }
    }

    /// Reads one more line, without its line feed. After the line `end` it accepts only blank
    /// lines and comments, and returns `End` for each. It takes memory for what the line says.
    ///
    /// # Errors
    ///
    /// The first check of `docs/FORMATS.md` that the line fails, or no memory. The reader is then
    /// as it was.
    pub fn line(&mut self, line: &[u8]) -> Result<JobStep, LineRefusal>
        ensures { ReadsOn (read (reading self.old) line.now)
            (reading self.old) (reading self.new) result }
    {
        if !is_text(line) {
            return Err(LineRefusal::Bad(Fault::NotText));
        }
        let Some((first, args)) = next_word(line) else {
            return Ok(self.step());
        };
        if is_comment(first) {
            return Ok(self.step());
        }
        let Some(last) = self.rank else {
            return self.read_format(first, args);
        };
        match Keyword::of(first) {
            None => Err(LineRefusal::Bad(Fault::UnknownWord)),
            Some(keyword) => self.read_known(last, keyword, args),
        }
    }

    /// The fault of an input that ends here, without the line `end`: `NoFormat` before the format
    /// line, else `NoEnd`.
    pub fn ending(&self) -> Fault
        requires { has_end (reading self.now) ≡ false }
        ensures { Some result ≡ ending (reading self.now) }
    {
        if self.rank.is_some() {
            Fault::NoEnd
        } else {
            Fault::NoFormat
        }
    }

    /// The job file that was read. The line `end` must have been read. It takes no memory.
    pub fn finish(self) -> JobFile
        requires { has_end (reading self) ≡ true }
        ensures says { workload_of result ≡ (reading self).work }
        ensures lawful { IsLawful (workload_of result) }
    {
        let JobReader { draft, lists, .. } = self;
        let Draft {
            format,
            mode,
            guard,
            sockets,
            threshold,
            balances,
            ..
        } = draft;
        JobFile {
            format,
            mode,
            guard,
            topology: Topology { sockets },
            threshold,
            balances,
            jobs: lists,
        }
    }
}
