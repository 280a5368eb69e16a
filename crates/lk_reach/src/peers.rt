// Which processors are alike: they have the same programs and handlers, and stand on one socket.

ghost use Rattle.std.specs.Prelude.{◌≡◌, ◌<◌, ◌≤◌, true};
ghost use Rattle.lk_rows.specs.Programs.{IsLawfulSetup};
ghost use Rattle.lk_reach.specs.Peers.{AreFirsts, HasSameHandlers, IsPeer};

use crate::key::MAX_CPUS;
use lk_names::List;
use lk_rows::{Op, Setup};

/// Which processors of a setup are alike.
#[derive(Clone, Copy)]
pub struct Peers {
    /// For each processor the lowest number of one that is like it.
    pub(crate) firsts: [u32; MAX_CPUS],
}

// Whether two operations are the same.
fn same_op(a: Op, b: Op) -> bool
    ensures { result ≡ true → a ≡ b }
{
    a == b
}

// Whether two programs are the same.
fn same_program(a: &List<Op>, b: &List<Op>) -> bool
    ensures { result ≡ true → a.now.items ≡ b.now.items }
{
    if a.len() != b.len() {
        return false;
    }
    for at in 0..a.len() {
        if !same_op(*a.get(at), *b.get(at)) {
            return false;
        }
    }
    true
}

// Whether two processors have the same handlers.
fn same_handlers(a: &List<List<Op>>, b: &List<List<Op>>) -> bool
    ensures { result ≡ true → HasSameHandlers a.now.items b.now.items }
{
    if a.len() != b.len() {
        return false;
    }
    for at in 0..a.len() {
        if !same_program(a.get(at), b.get(at)) {
            return false;
        }
    }
    true
}

// Whether two processors are alike. One that is not there is like none.
fn is_peer(setup: &Setup, one: usize, other: usize) -> bool
    requires lawful { IsLawfulSetup setup.now }
    requires order { one ≤ other }
    ensures { result ≡ true → IsPeer setup.now one other }
{
    let sockets = &setup.topology.sockets;
    if other >= sockets.len() {
        return false;
    }
    if *sockets.get(one) != *sockets.get(other) {
        return false;
    }
    if !same_program(setup.progs.get(one), setup.progs.get(other)) {
        return false;
    }
    same_handlers(setup.irqs.get(one), setup.irqs.get(other))
}

// The lowest number of a processor that is like this one.
fn first_peer(setup: &Setup, cpu: usize) -> u32
    requires lawful { IsLawfulSetup setup.now }
    requires few { cpu < 8 }
    ensures { IsPeer setup.now result cpu }
{
    for other in 0..cpu {
        if is_peer(setup, other, cpu) {
            return other as u32;
        }
    }
    cpu as u32
}

impl Peers {
    /// Each processor is like itself alone.
    pub(crate) fn none() -> Peers {
        Peers {
            firsts: [0; MAX_CPUS],
        }
    }

    /// Which processors of a setup are alike.
    pub fn new(setup: &Setup) -> Peers
        requires { IsLawfulSetup setup.now }
        ensures { AreFirsts setup.now result.firsts }
    {
        let mut firsts = [0; MAX_CPUS];
        for cpu in 0..MAX_CPUS {
            firsts[cpu] = first_peer(setup, cpu);
        }
        Peers { firsts }
    }
}
