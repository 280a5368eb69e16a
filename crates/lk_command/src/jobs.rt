// The command `ledger`.
ghost use Rattle.std.specs.Prelude.{◌≡◌};
ghost use Rattle.lk_command.specs.Ends.{outside_of};
ghost use Rattle.lk_command.specs.Ledgers.{Ledgers};
ghost use Rattle.lk_command.specs.declared.status.Status.{Status};

use crate::status::Status;
use lk_guard::Gate;
use lk_ledger::ledger;
use lk_text::{Sink, Source};
use std::alloc::Global;
use std::sync::Wait;
use std::thread::Threads;

/// Reads a job file from the source, runs its jobs on threads, and writes their outcome to the
/// sink.
pub(crate) fn run_ledger<S: Source, K: Sink, G: Gate, R: Threads + Wait + Sync>(
    rt: &R,
    alloc: Global,
    source: &mut S,
    sink: &mut K,
    gate: &G,
) -> Status
    ensures runs { Ledgers (outside_of S.Source K.Sink source.old sink.old)
        (outside_of S.Source K.Sink source.new sink.new) result }
    ensures memory { result ≡ Status.Memory → sink.new ≡ sink.old }
{
    Status::of(ledger(rt, alloc, source, sink, gate))
}
