// An audit, from bytes to its one line.
ghost use Rattle.std.specs.Prelude.{◌≡◌, ◌≤◌, ◌⊎◌, ℕ, List, Some, Option, Err, IsErrAnd, IsOkUnless};
ghost use Rattle.lk_names.specs.declared.events.Breach.{Breach};
ghost use Rattle.lk_text.specs.Causes.{Rose};
ghost use Rattle.lk_forms.specs.declared.answers.LineRefusal.{LineRefusal};
ghost use Rattle.lk_stream.specs.Grammar.{Good, Refused, saying};
ghost use Rattle.lk_stream.specs.Outside.{outside};
ghost use Rattle.lk_audit_forms.specs.Grammar.{Said, audit_grammar};
ghost use Rattle.lk_audit_forms.specs.Texts.{name_of};
ghost use Rattle.lk_audit.specs.Lawful.{IsLawfulSo, BreaksAt};
ghost use Rattle.lk_audit.specs.Stands.{JudgedTo};
ghost use Rattle.lk_audit.specs.Outcome.{Outcome, refused_fault};

use crate::answers::AuditFault;
use crate::auditor::Auditor;
use crate::header::read_header;
use crate::history::read_on;
use lk_audit_forms::{breach_line, lawful_line};
use lk_forms::HeaderReader;
use lk_text::{LineReader, Sink, Source, put};
use std::alloc::Global;

// Reads the text to its end, or to where it stops, and judges it: how many events it tells.
fn judge<S: Source>(alloc: Global, source: &mut S) -> Result<u64, AuditFault>
    ensures stops { JudgedTo (S.left source.old) (S.left source.new) (S.faults source.old)
        (S.faults source.new) result }
    ensures later { S.faults source.old ≤ S.faults source.new }
{
    let mut reader = LineReader::new(alloc)?;
    let mut header = HeaderReader::new(alloc)?;
    read_header(&mut header, &mut reader, source)?;
    let mut auditor = Auditor::new(alloc, header.finish())?;
    read_on(&mut auditor, &mut reader, source)?;
    Ok(auditor.events)
}

// Writes the one line of an answer, if it has one. A fault in this is answered in its place.
fn tell<K: Sink>(sink: &mut K, answer: Result<u64, AuditFault>) -> Result<u64, AuditFault>
    ensures means { (input left : Option (List ℕ)) (reads reads_now : ℕ)
        → JudgedTo input left reads reads_now answer
        → Outcome (outside input reads (K.held sink.old) (K.faults sink.old))
        (outside left reads_now (K.held sink.new) (K.faults sink.new)) result }
    ensures untouched { result ≡ Err AuditFault.Memory → sink.new ≡ sink.old }
{
    let text = match answer {
        Ok(events) => lawful_line(events),
        Err(AuditFault::Breach { line, name }) => breach_line(line, name),
        Err(_) => return answer,
    };
    match put(sink, text.bytes()) {
        Ok(()) => answer,
        Err(_) => Err(AuditFault::WriteFault),
    }
}

/// Reads the header of a trace and after it a transcript from any program, to the end of the
/// source, and judges whether the history is lawful under that header. Returns the number of
/// events. It writes the verdict to the sink as one line: `lawful e`, or `breach n Name` for the
/// first line that breaks the history. It reads nothing after that line. It reads the programs of
/// the header and does not use them, and it does not judge the counts.
///
/// # Errors
///
/// The first line that is refused, the first that breaks the history, a fault of the source or of
/// the sink, or no memory. A breach is written too. After the other errors nothing was written,
/// except that after a fault of the sink a prefix of the verdict was.
pub fn audit<S: Source, K: Sink>(
    alloc: Global,
    source: &mut S,
    sink: &mut K,
) -> Result<u64, AuditFault>
    // What each answer means, and its cause.
    ensures outcome { Outcome
        (outside (S.left source.old) (S.faults source.old) (K.held sink.old) (K.faults sink.old))
        (outside (S.left source.new) (S.faults source.new) (K.held sink.new)
        (K.faults sink.new)) result }

    // Where there is no memory, nothing is written.
    ensures untouched { result ≡ Err AuditFault.Memory → sink.new ≡ sink.old }

    // An accepted header with the text of a lawful history and its closing lines is accepted, where
    // neither count of faults rose and there is memory.
    ensures complete { (bytes : List ℕ) (said : Said) → S.left source.old ≡ Some bytes
        → saying audit_grammar bytes ≡ Good said → IsLawfulSo said
        → ¬ Rose (S.faults source.old) (S.faults source.new)
        → ¬ Rose (K.faults sink.old) (K.faults sink.new)
        → IsOkUnless result AuditFault.Memory }

    // A history that a line breaks gets that breach, by the judge's name, likewise.
    ensures breaks { (bytes : List ℕ) (line : ℕ) (breach : Breach)
        → S.left source.old ≡ Some bytes → BreaksAt bytes line breach
        → ¬ Rose (S.faults source.old) (S.faults source.new)
        → ¬ Rose (K.faults sink.old) (K.faults sink.new)
        → IsErrAnd result (λ fault. (fault ≡ AuditFault.Breach line (name_of breach))
        ⊎ (fault ≡ AuditFault.Memory)) }

    // Another text is refused at its first line that is refused, for the first check that fails,
    // likewise.
    ensures exact { (bytes : List ℕ) (line : ℕ) (why : LineRefusal) (said : Said)
        → S.left source.old ≡ Some bytes
        → saying audit_grammar bytes ≡ Refused line why said → IsLawfulSo said
        → ¬ Rose (S.faults source.old) (S.faults source.new)
        → ¬ Rose (K.faults sink.old) (K.faults sink.new)
        → IsErrAnd result
        (λ fault. (fault ≡ refused_fault line why) ⊎ (fault ≡ AuditFault.Memory)) }
{
    let answer = judge(alloc, source);
    tell(sink, answer)
}
