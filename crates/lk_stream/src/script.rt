// What the lines of a text mean.
ghost use Rattle.std.specs.Prelude.{◌≡◌, ◌≤◌, ◌++◌, ℕ, List, Ok, Err, OnOk, OnErr, IfErr, Option};
ghost use Rattle.std.specs.Io.KnownBytes.{Appends};
ghost use Rattle.lk_text.specs.Causes.{HasCause};
ghost use Rattle.lk_text.specs.Bytes.{AppendsFront};
ghost use Rattle.lk_text.specs.Block.{waiting};
ghost use Rattle.lk_stream.specs.Grammar.{Grammar};
ghost use Rattle.lk_forms.specs.declared.answers.LineRefusal.{LineRefusal};
ghost use Rattle.lk_stream.specs.Line.{LineMeans, StopRose};
ghost use Rattle.lk_stream.specs.declared.answers.Stop.{Stop};

use crate::answers::Stop;
use lk_forms::Fault;
use lk_text::{Block, Sink, WriteFault};

/// What the lines of a text mean: a script obeys them one by one, and writes what comes of them.
pub trait Script {
    /// What lines can say, for contracts.
    ghost Said: { Type 0 };

    /// The grammar: what lines say, and what is written for it.
    ghost grammar: { Grammar Said };

    /// Whether the script has obeyed lines that say this.
    ghost shows: { Self → Said → Type 0 };

    /// Whether the script may still take memory. As long as it may, it has written nothing.
    ghost takes: { Self → Type 0 };

    /// Obeys one more line, given without its line feed. What it writes goes to the block, and from
    /// there to the sink.
    ///
    /// # Errors
    ///
    /// The line is refused, and nothing is written for it; or a write failed. `Memory` comes only
    /// from a script that has written nothing.
    fn line<K: Sink>(&mut self, line: &[u8], block: &mut Block, sink: &mut K) -> Result<(), Stop>
        ensures means { (said : Said) → shows self.old said
            → LineMeans grammar (shows self.new) said line.now (K.held sink.old) (K.held sink.new)
            (waiting block.old) (waiting block.new) result }
        ensures later { K.faults sink.old ≤ K.faults sink.new }
        ensures rose { IfErr result (StopRose (K.faults sink.old) (K.faults sink.new)) }
        ensures untouched { takes self.new → takes self.old
            × (block.new ≡ block.old) × (sink.new ≡ sink.old) }
        ensures memory { result ≡ Err (Stop.Refused LineRefusal.Memory) → takes self.new };

    /// What is wrong if the text ends behind the lines so far; none if it may end there.
    fn ending(&self) -> Option<Fault>
        ensures { (said : Said) → shows self.now said → result ≡ grammar.ending said };

    /// Writes the bytes that wait in the block, and then the closing lines of the text.
    ///
    /// # Errors
    ///
    /// A write failed. A prefix of these bytes was written.
    fn close<K: Sink>(&mut self, block: &mut Block, sink: &mut K) -> Result<(), WriteFault>
        ensures ok { (said : Said) → shows self.old said → OnOk result
            (Appends (K.held sink.old) (K.held sink.new)
            (waiting block.old ++ grammar.closing said)) }
        ensures err { (said : Said) → shows self.old said → OnErr result
            (AppendsFront (K.held sink.old) (K.held sink.new)
            (waiting block.old ++ grammar.closing said)) }
        ensures shown { (said : Said) → shows self.old said → shows self.new said }
        ensures cause { HasCause (K.faults sink.old) (K.faults sink.new) result };

    /// A law: what is written for some lines is a prefix of what is written for one line more, if
    /// that is accepted.
    ghost grows: { (before said : Said) (line : List ℕ) → grammar.read before line ≡ Ok said
        → (more : List ℕ) × (grammar.text said ≡ grammar.text before ++ more) };
}
