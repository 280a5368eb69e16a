// The exit status.
ghost use Rattle.std.specs.Prelude.{◌≡◌, string_bytes};
ghost use Rattle.std.specs.Process.{exit_status};
ghost use Rattle.lk_command.specs.Args.{Asks, FoundNoMemory};
ghost use Rattle.lk_command.specs.Ends.{outside_of};
ghost use Rattle.lk_command.specs.Status.{number_of};
ghost use Rattle.lk_command.specs.Means.{RunsTo, IsSaid};
ghost use Rattle.lk_command.specs.declared.status.Status.{Status};

use crate::command::run;
use lk_guard::Gate;
use lk_text::{Sink, Source};
use std::alloc::Global;
use std::env::Args;
use std::io;
use std::process::ExitCode;
use std::sync::Wait;
use std::thread::Threads;

/// Does what `run` does, and returns the program's exit status. Each clause of `run` holds of the
/// status with that number.
pub fn answer<S: Source, K: Sink, N: Sink, G: Gate, R: Threads + Wait + Sync>(
    rt: &R,
    alloc: Global,
    args: io::Result<Args>,
    source: &mut S,
    sink: &mut K,
    notes: &mut N,
    gate: &G,
) -> ExitCode
    ensures { (status : Status) × (exit_status result ≡ number_of status)
        × RunsTo (λ reading. Asks reading string_bytes args) (FoundNoMemory args)
        (source.new ≡ source.old) (sink.new ≡ sink.old)
        (outside_of S.Source K.Sink source.old sink.old)
        (outside_of S.Source K.Sink source.new sink.new)
        (IsSaid (N.held notes.old) (N.held notes.new) (N.faults notes.old)
        (N.faults notes.new)) status }
{
    ExitCode::from(run(rt, alloc, args, source, sink, notes, gate).number())
}
