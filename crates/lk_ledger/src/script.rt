// The script of a job file: its lines are told to a reader, and nothing is written.
ghost use Rattle.std.specs.Prelude.{◌≡◌, Ok, Err, Some, None, Option, IfOk};
ghost use Rattle.lk_names.specs.Workload.{IsLawful, workload_of};
ghost use Rattle.lk_job_forms.specs.Grammar.{nothing_read, has_end};
ghost use Rattle.lk_job_forms.specs.Reader.{reading};

use lk_forms::Fault;
use lk_job_forms::JobReader;
use lk_names::{JobFile, Memory};
use lk_stream::{Script, Stop};
use lk_text::{Block, Sink, WriteFault};
use std::alloc::Global;

/// The script of a job file.
#[derive(Drop)]
pub(crate) struct JobScript {
    pub(crate) reader: JobReader,
}

impl JobScript {
    ghost use Rattle.std.specs.Prelude.{true};

    /// A script that was told no line.
    pub(crate) fn new(alloc: Global) -> Result<JobScript, Memory>
        ensures { IfOk result (λ script. reading script.reader ≡ nothing_read) }
    {
        let reader = JobReader::new(alloc)?;
        Ok(JobScript { reader })
    }

    /// The job file that the lines say.
    pub(crate) fn finish(self) -> JobFile
        requires { has_end (reading self.reader) ≡ true }
        ensures says { workload_of result ≡ (reading self.reader).work }
        ensures lawful { IsLawful (workload_of result) }
    {
        let JobScript { reader } = self;
        reader.finish()
    }
}

impl Script for JobScript {
    ghost use Rattle.lk_job_forms.specs.Grammar.{Reading};
    ghost use Rattle.lk_job_forms.specs.Reader.{reading};
    ghost use Rattle.lk_job_forms.specs.JobFile.{job_grammar};
    ghost use Rattle.lk_ledger.specs.Reading.{nothing_grows};

    ghost Said = { Reading };

    ghost grammar = { job_grammar };

    ghost shows = { λ script said. reading script.reader ≡ said };

    // It writes nothing, and may ask for memory at each line.
    ghost takes = { λ script. Unit {0} };

    fn line<K: Sink>(&mut self, line: &[u8], block: &mut Block, sink: &mut K) -> Result<(), Stop> {
        match self.reader.line(line) {
            Ok(_) => Ok(()),
            Err(why) => Err(Stop::Refused(why)),
        }
    }

    fn ending(&self) -> Option<Fault> {
        if self.reader.is_ended() {
            None
        } else {
            Some(self.reader.ending())
        }
    }

    fn close<K: Sink>(&mut self, block: &mut Block, sink: &mut K) -> Result<(), WriteFault> {
        block.flush(sink)
    }

    ghost grows = { nothing_grows };
}
