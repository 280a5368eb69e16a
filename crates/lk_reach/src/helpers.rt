// Helpers, each on a thread of its own. They try acts on the states that are left next, all at the
// same time, while nobody writes down anything. One thread then goes through what they found, in the
// order in which it would have tried the acts itself, and gives the numbers. So how many helpers there
// are changes nothing of what is told.

ghost use Rattle.std.specs.Prelude.{◌≡◌, ◌≤◌, ◌<◌, ◌++◌, ◌∷◌, [], ℕ, IfOk, OnOk, length, slice_index_or};
ghost use Rattle.lk_rows.specs.Programs.{IsLawfulSetup};
ghost use Rattle.lk_reach.specs.Copies.{tight_setup};
ghost use Rattle.lk_reach.specs.declared.helper.Helper.{Helper as HelperValue};
ghost use Rattle.lk_reach.specs.Helped.{AreFresh, AreSent, HasLooked, IsSent};

use crate::book::Book;
use crate::helper::Helper;
use crate::plan::Plan;
use crate::space::Space;
use lk_names::Memory;
use lk_rows::Setup;
use std::alloc::Global;
use std::thread;
use std::thread::Threads;

/// The most helpers.
pub const MAX_HELPERS: usize = 64;

/// Some states in a row, by their numbers.
#[derive(Clone, Copy)]
pub(crate) struct Part {
    /// The first of them.
    pub from: usize,
    /// The one behind the last.
    pub to: usize,
}

impl Part {
    /// How many there are.
    pub(crate) fn len(self) -> usize {
        self.to.saturating_sub(self.from)
    }

    /// Those of them that are left for the helper of this number, where each has so many.
    pub(crate) fn share(self, index: usize, each: usize) -> Part
        ensures { result.to ≤ self.to }
    {
        let from = self.from.saturating_add(index.saturating_mul(each));
        Part {
            from,
            to: self.to.min(from.saturating_add(each)),
        }
    }
}

/// Helpers of an exploration.
#[derive(Drop)]
pub struct Helpers<'a, R> {
    pub(crate) rt: &'a R,
    pub(crate) list: Vec<Helper>,
}

impl<'a, R: Threads + Sync> Helpers<'a, R> {
    /// So many helpers, for machines of a copy of this setup.
    ///
    /// # Errors
    ///
    /// There is not enough memory.
    pub fn new(
        rt: &'a R,
        alloc: Global,
        setup: &Setup,
        count: usize,
    ) -> Result<Helpers<'a, R>, Memory>
        requires { IsLawfulSetup setup.now }
        ensures { IfOk result (λ helpers. AreFresh (tight_setup setup.now) helpers.list.items) }
    {
        let mut list = Vec::new(alloc);
        for _made in 0..count {
            add(&mut list, Helper::new(alloc, setup, count > 1)?)?;
        }
        Ok(Helpers { rt, list })
    }

    /// Tries every act on some states, of which each helper has as many, to one.
    pub(crate) fn look_at(&mut self, space: &Space, plan: &Plan, book: &Book, part: Part)
        requires sent { AreSent plan.now book.now space.now self.old.list.items }
        requires there { part.to ≤ length space.now.keys }
        ensures count { length self.new.list.items ≡ length self.old.list.items }
        ensures looked { (i : ℕ) (d : HelperValue) → i < length self.old.list.items
            → HasLooked plan.now space.now (slice_index_or self.old.list.items i d)
            (slice_index_or self.new.list.items i d) }
    {
        let count = self.list.len();
        if count == 0 {
            return;
        }
        let each = part.len().div_ceil(count);
        thread::for_each_mut(
            self.rt,
            self.list.as_mut_slice(),
            count,
            &|index: usize, helper: &mut Helper|
                requires { IsSent plan.now book.now space.now helper.now
                    × (part.to ≤ length space.now.keys) }
                ensures { HasLooked plan.entry.now space.entry.now helper.entry.now helper.exit.now }
            { helper.look(space, plan, book, part.share(index, each)) },
        );
    }
}

// Adds a helper.
fn add(list: &mut Vec<Helper>, helper: Helper) -> Result<(), Memory>
    ensures { OnOk result (list.new.items ≡ list.old.items ++ helper ∷ []) }
{
    list.push(helper).map_err(|_| Memory)
}
