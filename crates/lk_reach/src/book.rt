// What is written down of an exploration beside its states: where the acts led, how each state was
// first met, and the events.

ghost use Rattle.std.specs.Prelude.{◌≡◌, ◌<◌, ◌+◌, ◌++◌, ◌∷◌, [], ℕ, IfNone, IfOk, IfSome, None, OnOk, Some, false, length, slice_get, true};
ghost use Rattle.lk_reach.specs.declared.origin.Origin.{Origin as OriginValue};
ghost use Rattle.lk_reach.specs.Explored.{AddsFirst, AddsOrigin, AddsThen, AreEmpty, IsNew, IsNext, LeadsTo, Writes};
ghost use Rattle.lk_reach.specs.Edges.{one_away};

use crate::column::Column;
use crate::kinds::{KINDS, kind_of};
use crate::origin::Origin;
use crate::origins::Origins;
use lk_names::{Event, Memory};
use std::alloc::Global;

// An origin has room for the numbers of so many states, acts of a plan and levels.
const MOST_STATES: usize = 4_000_000_000;

const MOST_ACTS: usize = 60_000;

const MOST_LEVELS: u32 = 60_000;

/// How far an exploration is.
#[derive(Clone, Copy)]
pub struct Seen {
    /// How many states were met.
    pub states: usize,
    /// How many of them were left by every act.
    pub left: usize,
    /// How many acts lead to the next of them.
    pub level: u32,
    /// How many acts that led to another state were made.
    pub edges: usize,
    /// How much memory the states, the acts and their parts take, in bytes, about.
    pub bytes: usize,
}

/// What is written down.
#[derive(Drop)]
pub(crate) struct Book {
    /// A column for each act of the plan.
    pub thens: Vec<Column>,
    /// How many acts led to another state.
    pub edges: usize,
    /// For each state. Of that of the first the level alone is used.
    pub origins: Origins,
    /// On how many acts each kind of event was met.
    pub events: [u64; KINDS],
    /// How each kind of event was first met.
    pub firsts: [Option<Origin>; KINDS],
}

// Adds a column.
fn add_column(thens: &mut Vec<Column>, column: Column) -> Result<(), Memory>
    ensures { OnOk result (thens.new.items ≡ thens.old.items ++ column ∷ []) }
{
    thens.push(column).map_err(|_| Memory)
}

// So many columns of acts that were not made.
fn no_thens(alloc: Global, acts: usize) -> Result<Vec<Column>, Memory>
    ensures { IfOk result (λ thens. AreEmpty thens.items acts) }
{
    let mut thens = Vec::with_capacity(alloc, acts)?;
    for _made in 0..acts {
        add_column(&mut thens, Column::new(alloc))?;
    }
    Ok(thens)
}

// Writes down where an act led.
fn add_then(thens: &mut Vec<Column>, act: usize, then: u32) -> Result<(), Memory>
    requires { act < length thens.old.items }
    ensures { OnOk result (AddsThen thens.old.items thens.new.items act then) }
{
    thens[act].push(then)?;
    Ok(())
}

// One more edge, if an act led from a state to another one.
fn with_edge(edges: usize, state: u32, then: u32) -> Result<usize, Memory>
    ensures { IfOk result (λ more. more ≡ edges + one_away then state) }
{
    if then == state {
        return Ok(edges);
    }
    match edges.checked_add(1) {
        Some(more) => Ok(more),
        None => Err(Memory),
    }
}

// Writes down how a state was met, if it is the next one.
#[inline]
fn add_origin(origins: &mut Origins, then: u32, origin: Origin) -> Result<(), Memory>
    ensures { OnOk result (AddsOrigin origins.old origins.new then origin) }
{
    if then as usize != origins.len() {
        return Ok(());
    }
    origins.push(origin)
}

// Whether no event of this kind was met so far.
fn is_first(firsts: &[Option<Origin>], kind: usize) -> bool
    ensures yes { result ≡ true → slice_get firsts.now kind ≡ Some None }
    ensures no { result ≡ false → kind < length firsts.now
        → (o : OriginValue) × (slice_get firsts.now kind ≡ Some (Some o)) }
{
    match firsts.get(kind) {
        Some(Some(_)) => false,
        Some(None) => true,
        None => false,
    }
}

// Writes down how a kind of event was met, if it is the first one of that kind.
fn tell(firsts: &mut [Option<Origin>; KINDS], origin: Origin, event: Option<Event>)
    ensures { AddsFirst firsts.old firsts.new origin event }
{
    if let Some(event) = event {
        let kind = kind_of(event.what);
        if is_first(firsts, kind) {
            firsts[kind] = Some(origin);
        }
    }
}

// Counts the acts on which a kind of event was met.
fn count(events: &mut [u64; KINDS], event: Option<Event>) {
    if let Some(event) = event {
        let kind = kind_of(event.what);
        events[kind] = events[kind].saturating_add(1);
    }
}

// How what an act on a state leads to was met.
fn origin_of(origins: &Origins, state: usize, act: usize) -> Result<Origin, Memory>
    ensures { IfOk result (λ origin. IsNext origins.now state act origin) }
{
    if state >= origins.len() || state >= MOST_STATES || act >= MOST_ACTS {
        return Err(Memory);
    }
    let level = origins.level_at(state);
    if level >= MOST_LEVELS {
        return Err(Memory);
    }
    Ok(Origin {
        state: state as u32,
        act: act as u32,
        level: level + 1,
    })
}

impl Book {
    /// A book for a plan of so many acts, that knows the first state alone.
    pub(crate) fn new(alloc: Global, acts: usize) -> Result<Book, Memory>
        ensures { IfOk result (λ book. IsNew book acts) }
    {
        let thens = no_thens(alloc, acts)?;
        let mut origins = Origins::new(alloc);
        let first = Origin {
            state: 0,
            act: 0,
            level: 0,
        };
        add_origin(&mut origins, 0, first)?;
        Ok(Book {
            thens,
            edges: 0,
            origins,
            events: [0; KINDS],
            firsts: [None; KINDS],
        })
    }

    /// Writes down that an act on a state led to a state, and told an event.
    ///
    /// # Errors
    ///
    /// There is not enough memory, or no room for such a number.
    pub(crate) fn write(
        &mut self,
        state: usize,
        act: usize,
        then: u32,
        event: Option<Event>,
    ) -> Result<(), Memory>
        requires { act < length self.old.thens.items }
        ensures { OnOk result (Writes self.old self.new state act then event) }
    {
        let origin = origin_of(&self.origins, state, act)?;
        self.edges = with_edge(self.edges, origin.state, then)?;
        add_then(&mut self.thens, act, then)?;
        add_origin(&mut self.origins, then, origin)?;
        tell(&mut self.firsts, origin, event);
        count(&mut self.events, event);
        Ok(())
    }

    // How much memory the columns take, which are as long as the first, in bytes.
    fn column_bytes(&self) -> usize {
        match self.thens.get(0) {
            Some(column) => column.bytes().saturating_mul(self.thens.len()),
            None => 0,
        }
    }

    // How much memory it takes, in bytes.
    fn bytes(&self) -> usize {
        self.origins.bytes().saturating_add(self.column_bytes())
    }

    /// How a state was met.
    pub(crate) fn origin(&self, state: usize) -> Origin
        requires { state < length self.now.origins }
        ensures { slice_get self.now.origins state ≡ Some result }
    {
        self.origins.at(state)
    }

    /// How many acts there are.
    pub(crate) fn acts(&self) -> usize
        ensures { result ≡ length self.now.thens.items }
    {
        self.thens.len()
    }

    /// To which state an act led on a state, if that was left.
    pub(crate) fn then(&self, state: usize, act: usize) -> Option<u32>
        ensures some { IfSome result (λ j. LeadsTo self.now state act j) }
        ensures none { IfNone result ((j : ℕ) → ¬ LeadsTo self.now state act j) }
    {
        match self.thens.get(act) {
            Some(column) => column.get(state),
            None => None,
        }
    }

    /// How many acts lead to a state.
    pub(crate) fn level(&self, state: usize) -> u32
        ensures { (o : OriginValue) → slice_get self.now.origins state ≡ Some o
            → result ≡ o.level }
    {
        if state < self.origins.len() {
            self.origins.level_at(state)
        } else {
            0
        }
    }

    /// How far the exploration is, if a state is left next, while there are so many.
    pub(crate) fn seen(&self, state: usize, states: usize, bytes: usize) -> Seen {
        Seen {
            states,
            left: state,
            level: self.level(state),
            edges: self.edges,
            bytes: bytes.saturating_add(self.bytes()),
        }
    }
}
