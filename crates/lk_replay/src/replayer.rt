// A replay whose header was read.
ghost use Rattle.std.specs.Prelude.{◌≡◌, ◌≤◌, ℕ, List, Option, Some, IfOk, IfErr, IsOk, IsErrAnd};
ghost use Rattle.lk_names.specs.declared.events.Act.{Act};
ghost use Rattle.lk_rows.specs.declared.setup.Setup.{Setup};
ghost use Rattle.lk_text.specs.Causes.{Rose};
ghost use Rattle.lk_forms.specs.Trace.{Good, Refused, trace};
ghost use Rattle.lk_forms.specs.declared.answers.LineRefusal.{LineRefusal};
ghost use Rattle.lk_stream.specs.Outside.{outside};
ghost use Rattle.lk_replay.specs.Header.{OpenRefused};
ghost use Rattle.lk_replay.specs.Outcome.{Outcome, as_replay, as_replay_fault};
ghost use Rattle.lk_stream.specs.Outcome.{refused_fault};
ghost use Rattle.lk_replay.specs.Stands.{Stands, OpensAtGo, HasCauses};

use crate::answers::{RunFault, Summary};
use crate::header::read_header;
use crate::replaying::Replaying;
use crate::run::Run;
use lk_forms::HeaderReader;
use lk_stream::ReplayFault;
use lk_text::{Block, LineReader, Sink, Source};
use std::alloc::Global;
use std::marker::Model;

/// A replay whose header was read. It has all the memory that the schedule needs.
#[derive(Drop)]
pub struct Replayer {
    state: Replaying,
}

impl Model for Replayer {
    ghost use Rattle.lk_replay.specs.Stands.{IsOpen};
    ghost use Rattle.lk_replay.specs.declared.replaying.Replaying.{Replaying};

    ghost Value = { Replaying };

    ghost view = { λ replayer. replayer.state };

    ghost invariant = { λ replayer. IsOpen replayer.state };
}

impl Replayer {
    /// Reads the header of a trace up to the line `go`, and takes all the memory of the replay.
    ///
    /// # Errors
    ///
    /// The first line that is refused, a failed read, or not enough memory. It writes nothing, so
    /// it never answers `WriteFault`.
    pub fn open<S: Source>(alloc: Global, source: &mut S) -> Result<Replayer, ReplayFault>
        ensures stands { IfOk result
            (λ replayer. (held : Option (List ℕ))
            → Stands (S.left source.old) held replayer (S.left source.new) held) }
        ensures at_go { IfOk result
            (λ replayer. OpensAtGo (S.left source.old) replayer (S.left source.new)) }
        ensures refused { IfErr result
            (OpenRefused (S.left source.old) (S.left source.new) (S.faults source.old)
            (S.faults source.new)) }
        ensures later { S.faults source.old ≤ S.faults source.new }
    {
        let mut reader = LineReader::new(alloc)?;
        let block = Block::new(alloc)?;
        let mut header = HeaderReader::new(alloc)?;
        read_header(&mut header, &mut reader, source)?;
        let run = Run::at_rest(alloc, header.finish())?;
        Ok(Replayer {
            state: Replaying {
                reader,
                block,
                run,
                ended: false,
            },
        })
    }

    /// Reads the schedule to the end of the input, and writes the transcript. It begins with the
    /// bytes that `open` read beyond the header, so the source has to be the same. It takes no
    /// memory.
    ///
    /// # Errors
    ///
    /// The first line that is refused, a failed read or a failed write. [`RunFault`] says what was
    /// written in each case.
    pub fn run<S: Source, K: Sink>(self, source: &mut S, sink: &mut K) -> Result<Summary, RunFault>
        ensures outcome { (input held : Option (List ℕ))
            → Stands input held self (S.left source.old) (K.held sink.old)
            → Outcome (outside input (S.faults source.old) held (K.faults sink.old))
            (outside (S.left source.new) (S.faults source.new) (K.held sink.new)
            (K.faults sink.new)) (as_replay result) }
        ensures causes { HasCauses (S.faults source.old) (S.faults source.new) (K.faults sink.old)
            (K.faults sink.new) result }

        // A trace is replayed whole, where neither count of faults rose.
        ensures complete { (input held : Option (List ℕ)) (bytes : List ℕ) (setup : Setup)
            (acts : List Act)
            → Stands input held self (S.left source.old) (K.held sink.old) → input ≡ Some bytes
            → trace bytes ≡ Good setup acts
            → ¬ Rose (S.faults source.old) (S.faults source.new)
            → ¬ Rose (K.faults sink.old) (K.faults sink.new) → IsOk result }

        // Another text is refused at its first line that is refused, for the first check that
        // fails, likewise.
        ensures exact { (input held : Option (List ℕ)) (bytes : List ℕ) (line : ℕ)
            (why : LineRefusal) (setup : Setup) (acts : List Act)
            → Stands input held self (S.left source.old) (K.held sink.old) → input ≡ Some bytes
            → trace bytes ≡ Refused line why setup acts
            → ¬ Rose (S.faults source.old) (S.faults source.new)
            → ¬ Rose (K.faults sink.old) (K.faults sink.new)
            → IsErrAnd result (λ fault. as_replay_fault fault ≡ refused_fault line why) }
    {
        self.state.finish(source, sink)
    }
}
