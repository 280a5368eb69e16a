// The end of a domain.
ghost use Rattle.std.specs.Prelude.{◌≡◌, ◌<◌, [], None, Err, IfOk, length};
ghost use Rattle.lk_domain.specs.Ends.{AllRest, HasFrom, IsFinal};
ghost use Rattle.lk_names.specs.Journal.{balances_after};
ghost use Rattle.lk_domain.specs.Plans.{cpus_of, kind_at};
ghost use Rattle.lk_domain.specs.Seated.{IsSeatOf};
ghost use Rattle.lk_domain.specs.Values.{AreLaid};
ghost use Rattle.lk_domain.specs.Views.{all_past};

use crate::cpu::{Cpu, Right};
use crate::domain::{Domain, LockId};
use crate::ledger::steps;
use lk_cell::Key;
use lk_names::{Entry, Kind, List, Mode};
use std::alloc::Global;
use std::snapshot::Snapshot;

/// What a domain leaves when it is closed.
#[derive(Drop)]
pub struct Closed {
    pub(crate) balances: List<u64>,
    pub(crate) journal: List<Entry>,
    pub(crate) keys: List<Option<Key>>,
    pub(crate) mode: Mode,
    pub(crate) guard: Kind,
    // The processors as they were at the end. It has no bytes.
    pub(crate) cpus: Snapshot<List<Cpu>>,
}

/// There was not enough memory to close the domain. The domain and its processors are as they were
/// before the call.
#[derive(Drop)]
pub struct CloseBack {
    /// The domain that was to be closed.
    pub domain: Domain,
    /// Its processors, as they were given to `close`.
    pub cpus: List<Cpu>,
}

impl Closed {
    /// The balances at the end, one for each account.
    pub fn balances(&self) -> &List<u64>
        ensures { result.now ≡ self.now.balances }
    {
        &self.balances
    }

    /// The journal: the entries of all processors, in order.
    pub fn journal(&self) -> &List<Entry>
        ensures { result.now ≡ self.now.journal }
    {
        &self.journal
    }

    /// The keys of the values, as the domain was made with them: each of the cell in which a value
    /// lies, or none.
    pub fn into_keys(self) -> List<Option<Key>>
        ensures { result ≡ self.keys }
    {
        self.keys
    }

    /// The lock family of the domain.
    pub fn mode(&self) -> Mode
        ensures { result ≡ self.now.mode }
    {
        self.mode
    }

    /// The kind of lock 0, which guarded the ledger.
    pub fn guard(&self) -> Kind
        ensures { result ≡ self.now.guard }
    {
        self.guard
    }
}

// One processor takes over the numbers of all others: it has them all at the end.
fn join_all(domain: &Domain, mut cpus: List<Cpu>) -> Right
    requires some { 0 < length cpus.items }
    requires rest { AllRest domain.now cpus.items }
    ensures seat { IsSeatOf domain.now.plan domain.now.table.shared.table_id result }
    ensures home { result.me.0.ledger.out ≡ None }
    ensures holds { result.me.0.calls.holds ≡ [] }
    ensures all { HasFrom 0 cpus.items (all_past result.me.0) }
{
    let Cpu {
        number: _,
        notes: _,
        seat,
    } = cpus.pop();
    let mut last = seat;
    while cpus.len() > 0 {
        let Cpu {
            number: _,
            notes: _,
            seat,
        } = cpus.pop();
        steps::join(&mut last, &domain.table, &domain.plan, seat);
    }
    last
}

/// Closes a domain. It takes all its processors back, none of which may hold a lock or be in a
/// call.
///
/// # Errors
///
/// There is not enough memory for the balances or the keys. `CloseBack` gives the domain and the
/// processors back.
pub fn close(alloc: Global, domain: Domain, cpus: List<Cpu>) -> Result<Closed, CloseBack>
    requires all { length cpus.items ≡ cpus_of domain.plan }
    requires rest { AllRest domain cpus.items }
    ensures back { (b : CloseBack) → result ≡ Err b → (b.domain ≡ domain) × (b.cpus ≡ cpus) }
    ensures cpus { IfOk result (λ closed. closed.cpus.value ≡ cpus) }
    ensures mode { IfOk result (λ closed. closed.mode ≡ domain.plan.mode) }
    ensures guard { IfOk result (λ closed. closed.guard ≡ kind_at domain.plan 0) }
    ensures balances { IfOk result (λ closed. closed.balances.items
        ≡ balances_after domain.plan.balances.items closed.journal.items) }
    ensures keys { IfOk result (λ closed. AreLaid domain.plan closed.keys.items) }
    ensures ends { IfOk result (λ closed. IsFinal domain.plan cpus.items closed.journal.items) }
{
    let Ok(mut balances) = List::new(alloc, domain.accounts() as usize) else {
        return Err(CloseBack { domain, cpus });
    };
    let Ok(mut keys) = List::new(alloc, domain.homes()) else {
        return Err(CloseBack { domain, cpus });
    };
    let mode = domain.mode();
    let guard = domain.kind(LockId { index: 0 });
    let at_end = Snapshot::of(&cpus);
    let last = join_all(&domain, cpus);
    let Domain { table, plan } = domain;
    let journal = steps::end(table, &plan, last, &mut balances, &mut keys);
    Ok(Closed {
        balances,
        journal,
        keys,
        mode,
        guard,
        cpus: at_end,
    })
}
