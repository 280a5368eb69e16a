// A text on its way through a script.
ghost use Rattle.std.specs.Prelude.{◌≡◌, ◌≤◌, ◌<◌, [], ℕ, List, Option, None, Ok, Err, true, IfOk, IfErr, IfSome, OnOk, false, OnErr};
ghost use Rattle.lk_text.specs.Causes.{HasCause};
ghost use Rattle.lk_text.specs.Bytes.{AppendsFront, Conveys};
ghost use Rattle.lk_text.specs.Block.{waiting};
ghost use Rattle.lk_text.specs.Reader.{kept, looked_at, is_at_hand, is_ended, MetEnd, GaveFault};
ghost use Rattle.lk_forms.specs.declared.answers.LineRefusal.{LineRefusal};
ghost use Rattle.lk_stream.specs.Line.{HasObeyed};
ghost use Rattle.lk_stream.specs.Outside.{outside};
ghost use Rattle.lk_stream.specs.Outcome.{Done, FaultMeans};
ghost use Rattle.lk_stream.specs.Stands.{Stands, StopsAtEnd, FaultStops, TurnsTo, StopsAt, FaultRose, HasCauses};
ghost use Rattle.lk_stream.specs.declared.answers.ReplayFault.{ReplayFault};
ghost use Rattle.lk_stream.specs.declared.answers.Stop.{Stop};

use crate::answers::{ReplayFault, Stop};
use crate::faults::{cut, ended, refused};
use crate::script::Script;
use lk_text::{Block, LineFault, LineReader, Sink, Source, WriteFault};
use std::alloc::Global;

/// Writes the bytes that wait in the block, if the reader has to ask the source for the next line.
/// So whoever sends a line, and waits for its output before it sends the next one, gets it.
///
/// # Errors
///
/// A write failed. A prefix of the bytes that waited was written.
pub fn put_before_read<K: Sink>(
    reader: &LineReader,
    block: &mut Block,
    sink: &mut K,
) -> Result<(), WriteFault>
    ensures ok { OnOk result (Conveys (K.held sink.old) (K.held sink.new) (waiting block.old) []
        (waiting block.new)) }
    ensures shown { OnOk result (is_at_hand reader.now ≡ false → waiting block.new ≡ []) }
    ensures untouched { waiting block.old ≡ []
        → (waiting block.new ≡ []) × (sink.new ≡ sink.old) }
    ensures err { OnErr result
        (AppendsFront (K.held sink.old) (K.held sink.new) (waiting block.old)) }
    ensures cause { HasCause (K.faults sink.old) (K.faults sink.new) result }
{
    if reader.has_line() {
        return Ok(());
    }
    block.flush(sink)
}

// What the script makes of the next line, if there is one.
fn next_line<G: Script, S: Source, K: Sink>(
    script: &mut G,
    reader: &mut LineReader,
    block: &mut Block,
    source: &mut S,
    sink: &mut K,
) -> Result<Option<Result<(), Stop>>, LineFault>
    ensures given { IfOk result (λ given. IfSome given (HasObeyed G.grammar (G.shows script.old)
        (G.shows script.new) reader.old reader.new (waiting block.old) (waiting block.new)
        (outside (S.left source.old) (S.faults source.old) (K.held sink.old) (K.faults sink.old))
        (outside (S.left source.new) (S.faults source.new) (K.held sink.new) (K.faults sink.new)))) }
    ensures end { result ≡ Ok None
        → MetEnd reader.old reader.new (S.left source.old) (S.left source.new)
        × (script.new ≡ script.old) × (block.new ≡ block.old) × (sink.new ≡ sink.old) }
    ensures fault { IfErr result
        (λ fault. GaveFault reader.old reader.new (S.left source.old) (S.left source.new)
        (S.faults source.old) (S.faults source.new) fault
        × (script.new ≡ script.old) × (block.new ≡ block.old) × (sink.new ≡ sink.old)) }
    ensures idle { is_ended reader.old ≡ true → source.new ≡ source.old }
    ensures untouched { G.takes script.new → G.takes script.old
        × (block.new ≡ block.old) × (sink.new ≡ sink.old) }
    ensures memory { result ≡ Ok (Some (Err (Stop.Refused LineRefusal.Memory)))
        → G.takes script.new }
    ensures later { S.faults source.old ≤ S.faults source.new }
    ensures writes_later { K.faults sink.old ≤ K.faults sink.new }
{
    match reader.next_line(source) {
        Ok(Some(line)) => Ok(Some(script.line(line, block, sink))),
        Ok(None) => Ok(None),
        Err(fault) => Err(fault),
    }
}

// A script, and the text that it obeys.
#[derive(Drop)]
struct Stream<G> {
    script: G,
    reader: LineReader,
    block: Block,
}

impl<G: Script + Drop> Stream<G> {
    // Reads one line and obeys it. Returns whether there may be more lines.
    fn turn<S: Source, K: Sink>(
        &mut self,
        source: &mut S,
        sink: &mut K,
    ) -> Result<bool, ReplayFault>
        requires { kept self.old.reader ≡ None }
        ensures turns { (input held : Option (List ℕ))
            → Stands G.grammar (G.shows self.old.script) input held self.old.reader
            (waiting self.old.block) (S.left source.old) (K.held sink.old)
            → TurnsTo G.grammar (G.shows self.new.script) input held self.new.reader
            (waiting self.new.block) (S.left source.new) (K.held sink.new) result }
        ensures kept { result ≡ Ok true → kept self.new.reader ≡ None }
        ensures looked { result ≡ Ok true → looked_at self.old.reader < looked_at self.new.reader }
        ensures untouched { G.takes self.new.script → G.takes self.old.script
            × (waiting self.old.block ≡ []
            → (waiting self.new.block ≡ []) × (sink.new ≡ sink.old)) }
        ensures memory { result ≡ Err ReplayFault.Memory → G.takes self.new.script }
        ensures causes { HasCauses (S.faults source.old) (S.faults source.new) (K.faults sink.old)
            (K.faults sink.new) result }
    {
        put_before_read(&self.reader, &mut self.block, sink)?;
        match next_line(
            &mut self.script,
            &mut self.reader,
            &mut self.block,
            source,
            sink,
        ) {
            Ok(Some(Ok(()))) => Ok(true),
            Ok(Some(Err(Stop::Refused(why)))) => Err(refused(self.reader.lines(), why)),
            Ok(Some(Err(Stop::WriteFault))) => Err(ReplayFault::WriteFault),
            Ok(None) => ended(self.reader.lines() + 1, self.script.ending()),
            Err(fault) => Err(cut(self.reader.lines() + 1, fault)),
        }
    }

    // Reads lines up to the last, and obeys them.
    fn read_on<S: Source, K: Sink>(
        &mut self,
        source: &mut S,
        sink: &mut K,
    ) -> Result<(), ReplayFault>
        requires { kept self.old.reader ≡ None }
        ensures stops { (input held : Option (List ℕ))
            → Stands G.grammar (G.shows self.old.script) input held self.old.reader
            (waiting self.old.block) (S.left source.old) (K.held sink.old)
            → StopsAt G.grammar (G.shows self.new.script) input held (waiting self.new.block)
            (S.left source.new) (K.held sink.new) result }
        ensures untouched { result ≡ Err ReplayFault.Memory → waiting self.old.block ≡ []
            → sink.new ≡ sink.old }
        ensures causes { HasCauses (S.faults source.old) (S.faults source.new) (K.faults sink.old)
            (K.faults sink.new) result }
    {
        'lines: loop {
            match self.turn(source, sink) {
                Ok(true) => {}
                Ok(false) => return Ok(()),
                Err(fault) => return Err(fault),
            }
        }
    }

    // At the end of a good text: writes what is left of it, and gives the script back.
    fn close<K: Sink>(mut self, sink: &mut K) -> Result<G, ReplayFault>
        ensures done { IfOk result
            (λ script. (input left held : Option (List ℕ)) (reads reads_now writes : ℕ)
            → StopsAtEnd G.grammar (G.shows self.script) input held (waiting self.block) left
            (K.held sink.old)
            → (said : G.Said) × G.shows script said
            × Done G.grammar (outside input reads held writes)
            (outside left reads_now (K.held sink.new) (K.faults sink.new)) said) }
        ensures cut { IfErr result
            (λ fault. (input left held : Option (List ℕ)) (reads reads_now writes : ℕ)
            → StopsAtEnd G.grammar (G.shows self.script) input held (waiting self.block) left
            (K.held sink.old) → writes ≤ K.faults sink.old
            → FaultMeans G.grammar (outside input reads held writes)
            (outside left reads_now (K.held sink.new) (K.faults sink.new)) fault) }
        ensures causes { (reads reads_now : ℕ) → reads ≤ reads_now
            → HasCauses reads reads_now (K.faults sink.old) (K.faults sink.new) result }
        ensures fault { IfErr result (λ fault. fault ≡ ReplayFault.WriteFault) }
    {
        match self.script.close(&mut self.block, sink) {
            Ok(()) => {
                let Stream {
                    script,
                    reader: _,
                    block: _,
                } = self;
                Ok(script)
            }
            Err(_) => Err(ReplayFault::WriteFault),
        }
    }

    // Before the end: writes what waits. A fault in this is answered in place of what came before.
    fn cut<K: Sink>(&mut self, sink: &mut K, why: ReplayFault) -> ReplayFault
        ensures means { (input left held : Option (List ℕ)) (reads reads_now writes : ℕ)
            → FaultStops G.grammar input held (waiting self.old.block) left (K.held sink.old) why
            → FaultRose reads reads_now writes (K.faults sink.old) why → writes ≤ K.faults sink.old
            → FaultMeans G.grammar (outside input reads held writes)
            (outside left reads_now (K.held sink.new) (K.faults sink.new)) result }
        ensures rose { (reads reads_now writes : ℕ)
            → FaultRose reads reads_now writes (K.faults sink.old) why → writes ≤ K.faults sink.old
            → FaultRose reads reads_now writes (K.faults sink.new) result }
        ensures later { K.faults sink.old ≤ K.faults sink.new }
        ensures untouched { result ≡ ReplayFault.Memory
            → (why ≡ ReplayFault.Memory) × (sink.new ≡ sink.old) }
    {
        match why {
            ReplayFault::WriteFault | ReplayFault::Memory => why,
            _ => match self.block.flush(sink) {
                Ok(()) => why,
                Err(_) => ReplayFault::WriteFault,
            },
        }
    }
}

/// Reads a text to the end of the source, lets the script obey it, and returns the script. All
/// memory but the script's own is taken before the first line is read.
///
/// # Errors
///
/// The first line that is refused, a failed read, a failed write, or not enough memory.
/// [`ReplayFault`] says what was written in each case.
pub fn follow<G: Script + Drop, S: Source, K: Sink>(
    alloc: Global,
    script: G,
    source: &mut S,
    sink: &mut K,
) -> Result<G, ReplayFault>
    requires shows { G.shows script (G.grammar).start }
    requires silent { (G.grammar).text (G.grammar).start ≡ [] }
    ensures done { IfOk result (λ script. (said : G.Said) × G.shows script said
        × Done G.grammar
        (outside (S.left source.old) (S.faults source.old) (K.held sink.old) (K.faults sink.old))
        (outside (S.left source.new) (S.faults source.new) (K.held sink.new)
        (K.faults sink.new)) said) }
    ensures fault { IfErr result
        (FaultMeans G.grammar
        (outside (S.left source.old) (S.faults source.old) (K.held sink.old) (K.faults sink.old))
        (outside (S.left source.new) (S.faults source.new) (K.held sink.new) (K.faults sink.new))) }
    ensures untouched { result ≡ Err ReplayFault.Memory → sink.new ≡ sink.old }
{
    let mut stream = Stream {
        script,
        reader: LineReader::new(alloc)?,
        block: Block::new(alloc)?,
    };
    match stream.read_on(source, sink) {
        Ok(()) => stream.close(sink),
        Err(why) => Err(stream.cut(sink, why)),
    }
}
