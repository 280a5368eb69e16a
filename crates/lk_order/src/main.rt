//! The program behind `./qlock order`. It reads the header of a trace from standard input, and writes
//! to standard output whether the locks have ranks, and so whether a schedule can deadlock.
#![tactic(auto)]

mod check;
mod claim;
mod orders;
mod setup;
mod words;

use claim::{Claim, claim_of};
use lk_stream::{ReplayFault, exit};
use lk_text::StdSource;
use orders::Orders;
use setup::read_setup;
use std::process::ExitCode;
use words::put_answer;

// The exit status if nothing is claimed of the setup.
const UNORDERED: u8 = 9;

// Reads a header, and writes the answer. Returns the exit status.
fn answer(rt: &HostRuntime) -> Result<u8, ReplayFault> {
    let mut source = StdSource::new(rt.stdin());
    let setup = read_setup(rt.alloc(), &mut source)?;
    let orders = Orders::of(rt.alloc(), &setup)?;
    let ranks = orders.ranks(rt.alloc(), setup.locks.len())?;
    let claim = claim_of(&setup, ranks.as_slice());
    match put_answer(rt, claim, &orders, ranks.as_slice()) {
        Ok(()) => {}
        Err(_) => return Err(ReplayFault::WriteFault),
    }
    match claim {
        Claim::Finishes | Claim::FinishesCalm => Ok(0),
        _ => Ok(UNORDERED),
    }
}

// Writes to standard error why a header was refused. Returns the exit status, which is that of
// `qlock replay`.
fn refuse(rt: &HostRuntime, fault: ReplayFault) -> ExitCode {
    let (told, status) = match fault {
        ReplayFault::BadInput { line, fault } => (
            eprintln!(rt; "bad input line {line}: {fault:?}"),
            exit::BAD_INPUT,
        ),
        ReplayFault::Limit { line, which } => (
            eprintln!(rt; "limit line {line}: {which:?}"),
            exit::LIMIT,
        ),
        ReplayFault::ReadFault => (eprintln!(rt; "read fault"), exit::READ_FAULT),
        ReplayFault::WriteFault => (eprintln!(rt; "write fault"), exit::WRITE_FAULT),
        ReplayFault::Memory => (eprintln!(rt; "out of memory"), exit::MEMORY),
    };
    let _ = told;
    ExitCode::from(status)
}

fn main(rt: HostRuntime) -> ExitCode {
    match answer(&rt) {
        Ok(status) => ExitCode::from(status),
        Err(fault) => refuse(&rt, fault),
    }
}
