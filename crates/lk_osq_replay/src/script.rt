// The script of the word `osq`: a header is read, and then acts are made.
ghost use Rattle.std.specs.Prelude.{◌≡◌, Ok, Err, Some, None, Option, IfOk};
ghost use Rattle.lk_osq_forms.specs.Grammar.{nothing_said};
ghost use Rattle.lk_osq_replay.specs.Script.{Begins, acts_of};

use crate::run::Run;
use lk_forms::{Fault, HeaderStep, LineRefusal};
use lk_names::Memory;
use lk_osq_forms::OsqHeader;
use lk_stream::{Script, Stop};
use lk_text::{Block, Sink, WriteFault};
use std::alloc::Global;

/// Where a script is.
#[derive(Drop)]
pub(crate) enum Stage {
    /// In the header.
    Reads(OsqHeader),
    /// In the schedule.
    Runs(Run),
}

/// The script of the word `osq`.
#[derive(Drop)]
pub(crate) struct OsqScript {
    alloc: Global,
    stage: Stage,
}

// Reads a line of the header: at `go` the run begins.
fn header_line(
    alloc: Global,
    header: &mut OsqHeader,
    line: &[u8],
) -> Result<Option<Run>, LineRefusal>
    ensures { Begins header.old header.new line.now result }
{
    match header.line(line)? {
        HeaderStep::More => Ok(None),
        HeaderStep::Go => {
            let run = Run::at_rest(alloc, header.rounds())?;
            Ok(Some(run))
        }
    }
}

impl OsqScript {
    ghost use Rattle.lk_osq_replay.specs.Script.{StageShows};

    /// A script that has obeyed no line. It takes memory for the header here.
    pub(crate) fn new(alloc: Global) -> Result<OsqScript, Memory>
        ensures { IfOk result (λ script. StageShows script.stage nothing_said) }
    {
        let header = OsqHeader::new(alloc)?;
        Ok(OsqScript {
            alloc,
            stage: Stage::Reads(header),
        })
    }

    /// How many acts were made.
    pub(crate) fn acts(&self) -> u64
        ensures { result ≡ acts_of self.now.stage }
    {
        match &self.stage {
            Stage::Reads(_) => 0,
            Stage::Runs(run) => run.acts,
        }
    }
}

impl Script for OsqScript {
    ghost use Rattle.lk_osq_forms.specs.Grammar.{Said};
    ghost use Rattle.lk_osq_forms.specs.Trace.{osq_grammar};
    ghost use Rattle.lk_osq_replay.specs.Script.{StageShows, IsInHeader};
    ghost use Rattle.lk_osq_replay.specs.Grows.{text_grows};

    ghost Said = { Said };

    ghost grammar = { osq_grammar };

    ghost shows = { λ script said. StageShows script.stage said };

    ghost takes = { λ script. IsInHeader script.stage };

    fn line<K: Sink>(&mut self, line: &[u8], block: &mut Block, sink: &mut K) -> Result<(), Stop> {
        match &mut self.stage {
            Stage::Runs(run) => run.line(line, block, sink),
            Stage::Reads(header) => match header_line(self.alloc, header, line) {
                Ok(None) => Ok(()),
                Ok(Some(run)) => {
                    self.stage = Stage::Runs(run);
                    Ok(())
                }
                Err(why) => Err(Stop::Refused(why)),
            },
        }
    }

    fn ending(&self) -> Option<Fault> {
        match &self.stage {
            Stage::Reads(header) => Some(header.ending()),
            Stage::Runs(run) => run.ending(),
        }
    }

    fn close<K: Sink>(&mut self, block: &mut Block, sink: &mut K) -> Result<(), WriteFault> {
        match &self.stage {
            Stage::Reads(_) => block.flush(sink),
            Stage::Runs(run) => run.close(block, sink),
        }
    }

    ghost grows = { text_grows };
}
