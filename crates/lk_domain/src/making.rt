// A new domain, and its processors.
ghost use Rattle.std.specs.Prelude.{◌≡◌, ◌+◌, ◌<◌, ◌∷◌, Some, None, IfOk, false, length, map, slice_set};
ghost use Rattle.lk_domain.specs.Calls.{no_calls};
ghost use Rattle.lk_domain.specs.Ledgers.{no_ledger};
ghost use Rattle.lk_domain.specs.Plans.{IsLawfulPlan, IsRunningPlan, IsSamePlan, cpus_of};
ghost use Rattle.lk_domain.specs.Plans.{locks_of, room_of};
ghost use Rattle.lk_law.specs.Agree.{halts};
ghost use Rattle.lk_domain.specs.Marked.{IsNoted};
ghost use Rattle.lk_domain.specs.Seats.{IsDealt, AreDealt};
ghost use Rattle.lk_domain.specs.Values.{AreLaid, AreShut, homes_of, keys_of, lodged};
ghost use Rattle.lk_domain.specs.declared.slot.Stowed.TheVariants.{Entries};
ghost use Rattle.lk_domain.specs.Views.{view, dealer};
ghost use Rattle.lk_domain.specs.Words.{halting_words, IsOpening};

use crate::cpu::{Cpu, Right};
use crate::domain::Domain;
use crate::ledger::Journal;
use crate::notes::Notes;
use crate::place::HALTING_WORDS;
use crate::plan::{MOST_CPUS, Plan};
use crate::rule::{Deal, Draw};
use crate::slot::{Slot, Stowed};
use atomic_table::{Refused, Table};
use lk_cell::Key;
use lk_names::{List, Memory, Mode, Topology};
use std::alloc::{AllocError, Global};
use std::snapshot::Snapshot;

impl Plan {
    /// A copy of the plan, in memory of its own, but for the cells: it has none.
    ///
    /// # Errors
    ///
    /// There is not enough memory.
    pub fn copied(&self, alloc: Global) -> Result<Plan, Memory>
        ensures plan { IfOk result (λ plan. IsSamePlan plan self.now) }
        ensures cells { IfOk result (λ plan. plan.cells ≡ None) }
    {
        let topology = Topology {
            sockets: List::from_slice(alloc, self.topology.sockets.as_slice())?,
        };
        let locks = List::from_slice(alloc, self.locks.as_slice())?;
        let balances = List::from_slice(alloc, self.balances.as_slice())?;
        let shares = List::from_slice(alloc, self.shares.as_slice())?;
        Ok(Plan {
            format: self.format,
            mode: self.mode,
            topology,
            threshold: self.threshold,
            locks,
            balances,
            shares,
            cells: None,
        })
    }

    // How many words there are of which the family alone has need whose waiters halt.
    fn halting_words(&self) -> usize
        requires { IsRunningPlan self.now }
        ensures { result ≡ halting_words self.now }
    {
        prove!(self.topology.sockets.len() <= MOST_CPUS);
        match self.mode {
            Mode::Virt | Mode::Native | Mode::Cna => 0,
            Mode::Pv => HALTING_WORDS * self.topology.sockets.len(),
        }
    }

    // What a processor notes that has done nothing. Where waiters halt a processor keeps no notes, and
    // there they take no memory.
    //
    // # Errors
    //
    // There is not enough memory.
    fn no_notes(&self, alloc: Global) -> Result<Notes, Memory>
        requires { IsRunningPlan self.now }
        ensures { IfOk result (λ notes. halts self.now.mode ≡ false
            → IsNoted notes (locks_of self.now) no_calls) }
    {
        match self.mode {
            Mode::Virt | Mode::Native | Mode::Cna => Notes::new(alloc, self.locks.len()),
            Mode::Pv => Notes::new(alloc, 0),
        }
    }

    /// The number of entries that all processors together may write.
    pub fn room(&self) -> usize
        requires { IsRunningPlan self.now }
        ensures { result ≡ room_of self.now }
    {
        let mut room = 0;
        for cpu in 0..self.shares.len() {
            room += *self.shares.get(cpu) as usize;
        }
        room
    }
}

// Writes a word of a new table.
fn write(words: &mut List<u64>, at: usize, number: u64)
    requires { at < length words.old.items }
    ensures { words.new ≡ record words.old { items = slice_set words.old.items at number } }
{
    *words.get_mut(at) = number;
}

/// The words of a new table, with so many homes of values.
///
/// # Errors
///
/// There is not enough memory.
pub fn opening_words(alloc: Global, plan: &Plan, homes: usize) -> Result<List<u64>, Memory>
    requires lawful { IsRunningPlan plan.now }
    requires homes { homes ≡ homes_of plan.now }
    ensures { IfOk result (λ words. IsOpening plan.now words.items) }
{
    let first = plan.first_balance();
    let near = plan.first_state() + plan.halting_words();
    let Some(count) = homes.checked_add(near) else {
        return Err(Memory);
    };
    let mut words = List::filled(alloc, 0, count)?;
    for account in 0..plan.balances.len() {
        write(&mut words, first + account, *plan.balances.get(account));
    }
    Ok(words)
}

// A slot with the key of a value, if there is one.
fn slot_of(key: Option<Key>) -> Slot
    ensures { result ≡ lodged key }
{
    match key {
        Some(key) => Some(Stowed::CellKey(key)),
        None => None,
    }
}

/// The slots of a new table: that of the journal, and behind it one for each key.
pub fn opening_slots(
    alloc: Global,
    journal: Journal,
    mut keys: List<Option<Key>>,
) -> Result<Vec<Slot>, AllocError>
    ensures { IfOk result (λ slots. slots.items ≡ Some (Entries journal) ∷ map lodged keys.items) }
{
    let mut slots = Vec::new(alloc);
    slots.push(Some(Stowed::Entries(journal)))?;
    // The key that is behind all others comes to the front, and so on, so that none has to move again.
    keys.as_mut_slice().reverse();
    while keys.len() > 0 {
        slots.push(slot_of(keys.pop()))?;
    }
    Ok(slots)
}

impl Domain {
    /// A new domain, in which nobody holds a lock, and its processors in the order of their
    /// numbers.
    ///
    /// # Errors
    ///
    /// There is not enough memory.
    pub fn new(alloc: Global, plan: &Plan) -> Result<(Domain, List<Cpu>), Memory>
        requires { IsLawfulPlan plan.now }
        ensures plan { IfOk result (λ made. IsSamePlan made.0.plan plan.now) }
        ensures many { IfOk result (λ made. length made.1.items ≡ cpus_of plan.now) }
        ensures cpus { IfOk result (λ made. AreDealt made.0 made.1.items) }
    {
        let keys = List::new(alloc, 0)?;
        Domain::with_values(alloc, plan, keys)
    }

    /// The same, where locks have values. For each lock there is the key of the cell in which its
    /// value lies, or none. Where locks have copies of their values, behind these come the keys of
    /// the copies: for processor 0 one for each lock, or none, then for processor 1, and so on.
    ///
    /// # Errors
    ///
    /// There is not enough memory. The keys are gone, and each value goes with its cell.
    pub fn with_values(
        alloc: Global,
        plan: &Plan,
        keys: List<Option<Key>>,
    ) -> Result<(Domain, List<Cpu>), Memory>
        requires lawful { IsLawfulPlan plan.now }
        requires shut { AreShut keys.items }
        ensures plan { IfOk result (λ made. IsSamePlan made.0.plan plan.now) }
        ensures many { IfOk result (λ made. length made.1.items ≡ cpus_of plan.now) }
        ensures cpus { IfOk result (λ made. AreDealt made.0 made.1.items) }
        ensures cells { IfOk result (λ made. keys_of made.0.plan ≡ keys.items) }
    {
        let mut whole = plan.copied(alloc)?;
        whole.cells = Some(Snapshot::of(&keys));
        Domain::open(alloc, whole, keys)
    }

    /// A domain of this plan, of whichever lock family, in which nobody holds a lock, and its
    /// processors in the order of their numbers. The keys are those that the plan names.
    ///
    /// # Errors
    ///
    /// There is not enough memory. The keys are gone, and each value goes with its cell.
    pub fn open(
        alloc: Global,
        plan: Plan,
        keys: List<Option<Key>>,
    ) -> Result<(Domain, List<Cpu>), Memory>
        requires lawful { IsRunningPlan plan }
        requires laid { AreLaid plan keys.items }
        ensures plan { IfOk result (λ made. made.0.plan ≡ plan) }
        ensures many { IfOk result (λ made. length made.1.items ≡ cpus_of plan) }
        ensures cpus { IfOk result (λ made. AreDealt made.0 made.1.items) }
    {
        let (domain, mut seat) = Domain::rest(alloc, plan, keys)?;
        let count = domain.plan.topology.sockets.len();
        let mut cpus = List::new(alloc, count)?;
        for number in 0..count as u32 {
            let notes = domain.plan.no_notes(alloc)?;
            cpus.push(domain.deal(&mut seat, number, notes));
        }
        Ok((domain, cpus))
    }

    // A domain with the seat that deals the numbers.
    fn rest(alloc: Global, plan: Plan, keys: List<Option<Key>>) -> Result<(Domain, Right), Memory>
        requires lawful { IsRunningPlan plan }
        requires laid { AreLaid plan keys.items }
        ensures plan { IfOk result (λ made. made.0.plan ≡ plan) }
        ensures table { IfOk result (λ made. made.1.table_id ≡ made.0.table.shared.table_id) }
        ensures dealer { IfOk result (λ made. made.1.me.0
            ≡ view (dealer plan 0) no_calls no_ledger) }
    {
        let words = opening_words(alloc, &plan, keys.len())?;
        let journal = Journal::new(alloc, plan.room())?;
        let slots = opening_slots(alloc, journal, keys)?;
        match Table::new(alloc, words.as_slice(), slots, &plan) {
            Ok((table, dealer)) => Ok((Domain { table, plan }, dealer)),
            Err(Refused { slots: _ }) => Err(Memory),
        }
    }

    // The processor of the next number, with what it notes.
    fn deal(&self, seat: &mut Right, number: u32, notes: Notes) -> Cpu
        requires table { seat.old.table_id ≡ self.now.table.shared.table_id }
        requires low { number < cpus_of self.now.plan }
        requires dealer { seat.old.me.0 ≡ view (dealer self.now.plan number) no_calls no_ledger }
        requires notes { halts self.now.plan.mode ≡ false
            → IsNoted notes (locks_of self.now.plan) no_calls }
        ensures table { seat.new.table_id ≡ seat.old.table_id }
        ensures dealer { seat.new.me.0
            ≡ view (dealer self.now.plan (number + 1)) no_calls no_ledger }
        ensures cpu { IsDealt self.now number result }
    {
        let shared = &self.table.shared;
        let number = shared.fetch_add::<Draw>(seat, 0, 1);
        let seat = shared.split_seat::<Deal>(seat);
        Cpu {
            number: number as u32,
            notes,
            seat,
        }
    }
}
