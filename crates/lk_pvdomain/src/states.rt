// The steps of a seat on the states of nodes, each one operation.
ghost use Rattle.std.specs.Prelude.{◌≡◌, ◌≢◌};
ghost use Rattle.lk_domain.specs.NodePlays.{AtEntry, Enters, InCall};
ghost use Rattle.lk_domain.specs.Words.{IsNode, state_number};
ghost use Rattle.lk_pvdomain.specs.PvPaths.{IsOn, IsSeat};
ghost use Rattle.lk_pvdomain.specs.PvPlays.{AtState, AtTold, SeesState};
ghost use Rattle.lk_pvdomain.specs.PvRows.{looks_state, stores_own, state_told, rouses, roused_to};

use crate::layout::state_of;
use crate::rule::{Entries, EntryLooks, StateSteps};
use lk_domain::{Domain, Right};
use lk_rows::State;
use lk_word::NodeName;

// The numbers of states.
pub(crate) const RUNNING: u64 = 0;

pub(crate) const HALTED: u64 = 1;

pub(crate) const HASHED: u64 = 2;

// The number of a state.
fn number_of(state: State) -> u64
    ensures { result ≡ state_number state }
{
    match state {
        State::Running => RUNNING,
        State::Halted => HALTED,
        State::Hashed => HASHED,
    }
}

// Reads a state: the row W2, of the predecessor's node, or W5 or E1, of the own.
pub(crate) fn look_state(seat: &mut Right, domain: &Domain, node: NodeName) -> u64
    requires on { IsOn domain.now seat.old }
    requires node { IsNode domain.now.plan node }
    requires row { AtState looks_state node seat.old.me.0 }
    ensures same { (seat.new.table_id ≡ seat.old.table_id) × (seat.new.id ≡ seat.old.id) }
    ensures step { SeesState seat.old.me result seat.new.me }
{
    let word = state_of(domain, node);
    domain.table.shared.load::<StateSteps>(seat, word)
}

// Stores the own state: the rows W3, E2 and E10.
pub(crate) fn store_state(seat: &mut Right, domain: &Domain, node: NodeName, state: State) -> u64
    requires on { IsOn domain.now seat.old }
    requires node { IsNode domain.now.plan node }
    requires row { AtTold stores_own state_told node state seat.old.me.0 }
    ensures same { (seat.new.table_id ≡ seat.old.table_id) × (seat.new.id ≡ seat.old.id) }
    ensures step { SeesState seat.old.me result seat.new.me }
{
    let word = state_of(domain, node);
    let number = number_of(state);
    domain.table.shared.swap::<StateSteps>(seat, word, number)
}

// Swaps a state that is halted: the rows W7, of the own node to running, and K1, of the successor's
// to hashed.
pub(crate) fn rouse(seat: &mut Right, domain: &Domain, node: NodeName, state: State) -> u64
    requires on { IsOn domain.now seat.old }
    requires node { IsNode domain.now.plan node }
    requires row { AtTold rouses roused_to node state seat.old.me.0 }
    ensures same { (seat.new.table_id ≡ seat.old.table_id) × (seat.new.id ≡ seat.old.id) }
    ensures step { SeesState seat.old.me result seat.new.me }
{
    let word = state_of(domain, node);
    let number = number_of(state);
    domain
        .table
        .shared
        .compare_exchange::<StateSteps>(seat, word, HALTED, number)
}

// Reads the state of the node that the call gets next. If it is 0 the call enters the slow path.
fn look_entry(seat: &mut Right, domain: &Domain, own: NodeName) -> u64
    requires of { IsSeat domain.now own seat.old.table_id seat.old.me }
    requires row { InCall (AtEntry own) seat.old.me.0 }
    requires ready { seat.old.me.0.calls.ready ≡ 2 }
    ensures same { (seat.new.table_id ≡ seat.old.table_id) × (seat.new.id ≡ seat.old.id) }
    ensures spares { result ≡ 0 → Enters seat.old.me result seat.new.me }
    ensures stays { result ≢ 0 → seat.new.me ≡ seat.old.me }
{
    let word = state_of(domain, own);
    domain.table.shared.load::<EntryLooks>(seat, word)
}

// Stores 0 into it, with which the call enters the slow path.
fn store_entry(seat: &mut Right, domain: &Domain, own: NodeName) -> u64
    requires of { IsSeat domain.now own seat.old.table_id seat.old.me }
    requires row { InCall (AtEntry own) seat.old.me.0 }
    requires ready { seat.old.me.0.calls.ready ≡ 2 }
    ensures same { (seat.new.table_id ≡ seat.old.table_id) × (seat.new.id ≡ seat.old.id) }
    ensures step { Enters seat.old.me result seat.new.me }
{
    let word = state_of(domain, own);
    domain.table.shared.swap::<Entries>(seat, word, 0)
}

// Resets the state of the node that the call gets next, with which the call enters the slow path:
// the row G1. It stores only if a read does not find it reset.
pub(crate) fn enter(seat: &mut Right, domain: &Domain, own: NodeName) -> u64
    requires of { IsSeat domain.now own seat.old.table_id seat.old.me }
    requires row { InCall (AtEntry own) seat.old.me.0 }
    requires ready { seat.old.me.0.calls.ready ≡ 2 }
    ensures same { (seat.new.table_id ≡ seat.old.table_id) × (seat.new.id ≡ seat.old.id) }
    ensures step { Enters seat.old.me result seat.new.me }
{
    let met = look_entry(seat, domain, own);
    if met == 0 {
        return met;
    }
    store_entry(seat, domain, own)
}
