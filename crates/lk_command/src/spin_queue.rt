// The command `osq`.
ghost use Rattle.std.specs.Prelude.{◌≡◌, ◌≢◌};
ghost use Rattle.lk_command.specs.Ends.{outside_of};
ghost use Rattle.lk_command.specs.OsqRuns.{OsqRuns};
ghost use Rattle.lk_command.specs.declared.status.Status.{Status};

use crate::status::Status;
use lk_osq_replay::osq;
use lk_text::{Sink, Source};
use std::alloc::Global;

/// Reads a run of the optimistic spin queue from the source, and writes its transcript to the
/// sink.
pub(crate) fn run_osq<S: Source, K: Sink>(alloc: Global, source: &mut S, sink: &mut K) -> Status
    ensures runs { OsqRuns (outside_of S.Source K.Sink source.old sink.old)
        (outside_of S.Source K.Sink source.new sink.new) result }
    ensures asked { result ≢ Status.Usage }
    ensures memory { result ≡ Status.Memory → sink.new ≡ sink.old }
{
    Status::of(osq(alloc, source, sink))
}
