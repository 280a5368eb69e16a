//! The program behind `./qlock steps`. It reads a trace from standard input, and writes each act as
//! a line to standard output. With the word `replay` it writes the transcript, so that this one
//! small program serves both commands of a quick run.
#![tactic(auto)]

mod asked;
mod idle;
mod lines;
mod spot;
mod step;
mod steps;
mod text;
mod told;

use asked::{Asked, asked_by};
use lk_replay::replay;
use lk_stream::{ReplayFault, exit};
use lk_text::{StdSink, StdSource};
use std::alloc::Global;
use std::process::ExitCode;
use steps::Steps;

// Reads the trace to its end, and tells what was asked of it.
fn tell(alloc: Global, rt: &HostRuntime, asked: Asked) -> Result<(), ReplayFault> {
    let mut source = StdSource::new(rt.stdin());
    let mut sink = StdSink::new(rt.stdout());
    match asked {
        Asked::Steps => Steps::open(alloc, &mut source)?.run(&mut source, &mut sink),
        Asked::Replay => {
            replay(alloc, &mut source, &mut sink)?;
            Ok(())
        }
    }
}

// Writes to standard error why a trace was not told to its end. Returns the exit status, which is
// that of `qlock replay`.
fn refuse(rt: &HostRuntime, fault: ReplayFault) -> ExitCode {
    let (told, status) = match fault {
        ReplayFault::BadInput { line, fault } => (
            eprintln!(rt; "bad input line {line}: {fault:?}"),
            exit::BAD_INPUT,
        ),
        ReplayFault::Limit { line, which } => (
            eprintln!(rt; "limit line {line}: {which:?}"),
            exit::LIMIT,
        ),
        ReplayFault::ReadFault => (eprintln!(rt; "read fault"), exit::READ_FAULT),
        ReplayFault::WriteFault => (eprintln!(rt; "write fault"), exit::WRITE_FAULT),
        ReplayFault::Memory => (eprintln!(rt; "out of memory"), exit::MEMORY),
    };
    let _ = told;
    ExitCode::from(status)
}

fn main(rt: HostRuntime) -> ExitCode {
    let Some(asked) = asked_by(&rt) else {
        let _ = eprintln!(rt; "usage: qlock-steps [replay] < TRACE");
        return ExitCode::from(exit::USAGE);
    };
    match tell(rt.alloc(), &rt, asked) {
        Ok(()) => ExitCode::SUCCESS,
        Err(fault) => refuse(&rt, fault),
    }
}
