// Steps that were made, by the parts that they touch. A step touches what is no single processor's, the
// processor that makes it, and at most one other, and does the same whatever the others are (`lk_touch`).
// So where these parts come together again, it need not be made again.

ghost use Rattle.std.specs.Prelude.{◌≡◌, ◌<◌, [], IfSome, Some, slice_get, true};
ghost use Rattle.lk_reach.specs.Steps.{Begins, IsFoundStep, MayForget, MayRemember, then_key};

use crate::key::Key;
use lk_names::Event;
use std::alloc::Global;

// How many steps are remembered at most, and how many at first. Each has two places, and takes that of the
// older one there.
const MOST_STEPS: usize = 32_768;

const FIRST_STEPS: usize = 8_192;

// So many states come on a step that may be remembered.
const STATES: usize = 40;

// An odd number. The upper bits of a product with it differ for numbers that differ little.
const WEIGHT: u64 = 0x9e37_79b9_7f4a_7c15;

// A step at a part touches no other processor; it is not known whom it touches.
const NONE: u8 = 254;

const UNKNOWN: u8 = 255;

/// A step that was made.
#[derive(Clone, Copy)]
pub(crate) struct Made {
    /// Who made it, and the other processor that it touches, or the same one.
    pub cpu: u32,
    pub other: u32,
    /// The numbers of what is no single processor's and of the parts of the two, before it.
    pub shared: u32,
    pub part: u32,
    pub beside: u32,
    /// The same, behind it.
    pub then_shared: u32,
    pub then_part: u32,
    pub then_beside: u32,
    /// What it told.
    pub event: Option<Event>,
    /// By how much the hash of a state's key is more behind it.
    pub turn: u64,
}

/// Steps that were made.
#[derive(Drop)]
pub(crate) struct Steps {
    pub made: Vec<Option<Made>>,
    /// For each part, whom a step touches there.
    others: Vec<u8>,
    /// How many acts were made, whether they are remembered or not.
    pub count: usize,
}

// A hash of what a step begins with.
#[inline]
fn hash_of(shared: u32, cpu: u32, part: u32, beside: u32) -> u64 {
    let mut hash = u64::from(shared).wrapping_mul(WEIGHT);
    hash = (hash ^ u64::from(part)).wrapping_mul(WEIGHT);
    (hash ^ u64::from(beside) ^ u64::from(cpu) << 32).wrapping_mul(WEIGHT)
}

// Whether a step of a processor begins so.
#[inline]
fn begins(made: &Made, key: &Key, cpu: u32, other: u32) -> bool
    requires low { cpu < 8 }
    requires near { other < 8 }
    ensures { result ≡ true → (made.now.cpu ≡ cpu) × Begins key.now made.now }
{
    if made.cpu != cpu || made.other != other || made.shared != key.shared {
        return false;
    }
    made.part == key.cpus[cpu as usize] && made.beside == key.cpus[other as usize]
}

// Adds a place for a step.
fn add_place(made: &mut Vec<Option<Made>>)
    ensures { MayForget made.old.items made.new.items }
{
    match made.push(None) {
        Ok(()) | Err(_) => {}
    }
}

// Adds so many places for steps.
fn add_places(made: &mut Vec<Option<Made>>, count: usize)
    ensures { MayForget made.old.items made.new.items }
{
    for _ in 0..count {
        add_place(made);
    }
}

// Puts a step into its place.
fn put(made: &mut Vec<Option<Made>>, at: usize, step: Made)
    ensures { MayRemember made.old.items made.new.items step }
{
    if at < made.len() {
        made[at] = Some(step);
    }
}

// The step at a place stands at the next one, too.
fn pass_on(made: &mut Vec<Option<Made>>, at: usize)
    ensures { MayForget made.old.items made.new.items }
{
    if let Some(step) = step_at(made, at) {
        let step = *step;
        put(made, at + 1, step);
    }
}

// The step at a place.
#[inline]
fn step_at(made: &Vec<Option<Made>>, at: usize) -> Option<&Made>
    ensures { IfSome result (λ e. slice_get made.now.items at ≡ Some (Some e.now)) }
{
    match made.get(at) {
        Some(Some(step)) => Some(step),
        Some(None) => None,
        None => None,
    }
}

impl Made {
    /// The key of the state that the step leaves becomes the one behind it.
    #[inline]
    pub(crate) fn change(&self, key: &mut Key)
        requires low { self.now.cpu < 8 }
        requires near { self.now.other < 8 }
        ensures { key.new ≡ then_key self.now key.old }
    {
        key.shared = self.then_shared;
        key.cpus[self.cpu as usize] = self.then_part;
        key.cpus[self.other as usize] = self.then_beside;
    }
}

impl Steps {
    /// No steps.
    pub(crate) fn none(alloc: Global) -> Steps
        ensures { result.made.items ≡ [] }
    {
        Steps {
            made: Vec::new(alloc),
            others: Vec::new(alloc),
            count: 0,
        }
    }

    // The first of the two places where a step may stand that begins with this hash.
    #[inline]
    fn place(&self, hash: u64) -> usize {
        let pairs = self.made.len() as u64 / 2;
        ((hash >> 32).wrapping_mul(pairs) >> 32) as usize * 2
    }

    // Whom a step touches at a part, beside the processor that makes it, as it is remembered.
    #[inline]
    fn other(&self, part: u32, cpu: u32) -> u32 {
        match self.others.get(part as usize) {
            Some(other) => {
                if *other == NONE {
                    cpu
                } else {
                    u32::from(*other)
                }
            }
            None => u32::from(UNKNOWN),
        }
    }

    // The step at a place, if it is that of a processor on a state with this key.
    #[inline]
    fn found(&self, at: usize, key: &Key, cpu: u32, other: u32) -> Option<&Made>
        requires low { cpu < 8 }
        requires near { other < 8 }
        ensures { IfSome result (λ e. IsFoundStep self.now.made.items key.now cpu e.now) }
    {
        let step = step_at(&self.made, at)?;
        if begins(step, key, cpu, other) {
            Some(step)
        } else {
            None
        }
    }

    /// The step of a processor on a state with this key, if it was made.
    #[inline(always)]
    pub(crate) fn find(&self, key: &Key, cpu: u32) -> Option<&Made>
        ensures { IfSome result (λ e. IsFoundStep self.now.made.items key.now cpu e.now) }
    {
        let part = *key.cpus.get(cpu as usize)?;
        let other = self.other(part, cpu);
        let beside = *key.cpus.get(other as usize)?;
        let at = self.place(hash_of(key.shared, cpu, part, beside));
        match self.found(at, key, cpu, other) {
            Some(step) => Some(step),
            None => self.found(at.saturating_add(1), key, cpu, other),
        }
    }

    // Takes room for more steps, as many as fit so many states.
    fn make_room(&mut self, states: usize)
        ensures { MayForget self.old.made.items self.new.made.items }
    {
        let count = self.made.len();
        if count < MOST_STEPS && count <= states / STATES {
            add_places(&mut self.made, count.max(FIRST_STEPS));
        }
    }

    // Remembers whom a step touches at a part.
    fn tell(&mut self, part: usize, other: u8)
        ensures { self.new.made ≡ self.old.made }
    {
        for _ in self.others.len()..part.saturating_add(1) {
            match self.others.push(UNKNOWN) {
                Ok(()) | Err(_) => {}
            }
        }
        if part < self.others.len() {
            self.others[part] = other;
        }
    }

    /// Remembers a step, where there are so many states.
    pub(crate) fn remember(&mut self, step: Made, states: usize)
        ensures { MayRemember self.old.made.items self.new.made.items step }
    {
        self.make_room(states);
        let other = if step.other == step.cpu {
            NONE
        } else {
            (step.other & 0xff) as u8
        };
        self.tell(step.part as usize, other);
        let hash = hash_of(step.shared, step.cpu, step.part, step.beside);
        let at = self.place(hash);
        pass_on(&mut self.made, at);
        put(&mut self.made, at, step);
    }
}
