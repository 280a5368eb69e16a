//! The program `qlock`, over standard input, output and error.
//!
//! - `qlock replay` reads a trace and writes its transcript.
//! - `qlock osq` does so with a run of the optimistic spin queue.
//! - `qlock audit` reads a history and says whether it is lawful.
//! - `qlock ledger` reads a job file, runs its jobs on threads, and writes their outcome.
//! - `qlock gen` writes the generated trace of a start number.
//! - `qlock load` writes the closing lines of the replay of that trace.
#![tactic(auto)]

use lk_command::answer;
use lk_guard::OpenGate;
use lk_text::{StdSink, StdSource};
use std::env;
use std::process::ExitCode;

fn main(rt: HostRuntime) -> ExitCode {
    answer(
        &rt,
        rt.alloc(),
        env::args(&rt),
        &mut StdSource::new(rt.stdin()),
        &mut StdSink::new(rt.stdout()),
        &mut StdSink::new(rt.stderr()),
        &OpenGate,
    )
}
