// The command `audit`.
ghost use Rattle.std.specs.Prelude.{◌≡◌};
ghost use Rattle.lk_command.specs.Audits.{Audits};
ghost use Rattle.lk_command.specs.Ends.{outside_of};
ghost use Rattle.lk_command.specs.declared.status.Status.{Status};

use crate::status::Status;
use lk_audit::audit;
use lk_text::{Sink, Source};
use std::alloc::Global;

/// Reads the header of a trace and a transcript from the source, judges the transcript, and writes
/// the verdict to the sink.
pub(crate) fn run_audit<S: Source, K: Sink>(alloc: Global, source: &mut S, sink: &mut K) -> Status
    ensures runs { Audits (outside_of S.Source K.Sink source.old sink.old)
        (outside_of S.Source K.Sink source.new sink.new) result }
    ensures memory { result ≡ Status.Memory → sink.new ≡ sink.old }
{
    Status::of_audit(audit(alloc, source, sink))
}
