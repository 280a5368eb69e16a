// What a queue head sees behind itself that chooses its successor.
ghost use Rattle.std.specs.Prelude.{◌≡◌, ◌<◌, ◌||◌, ℕ, Option, Some, IfSome};
ghost use Rattle.lk_names.specs.Lawful.{same_socket};
ghost use Rattle.lk_rows.specs.Searching.{first_by, more_by};
ghost use Rattle.lk_domain.specs.Calls.{sight_by, sight_of, stays_by, terms_of};
ghost use Rattle.lk_law.specs.Leads.{Linked};
ghost use Rattle.lk_domain.specs.Plans.{cpus_of};
ghost use Rattle.lk_domain.specs.Words.{IsNode};

use lk_domain::Domain;
use lk_names::Format;
use lk_rows::{First, More};
use lk_word::NodeName;

// What the head sees behind its own node, and the mark of the link in which it saw it.
#[derive(Clone, Copy)]
pub(crate) struct Behind {
    pub(crate) seen: First,
    pub(crate) mark: bool,
}

// Where a head stands: its processor, in its domain.
#[derive(Clone, Copy)]
pub(crate) struct Site<'a> {
    pub(crate) domain: &'a Domain,
    pub(crate) cpu: u32,
    ghost low: { cpu < cpus_of domain.now.plan },
}

impl<'a> Site<'a> {
    // What the head meets in the link of its own node, with its mark. It has counted so many
    // handoffs.
    pub(crate) fn first_seen(
        &self,
        runs: u64,
        second: Option<NodeName>,
        next: Option<NodeName>,
        mark: bool,
    ) -> First
        requires { IfSome next (IsNode self.now.domain.now.plan) }
        ensures { result ≡ first_by (sight_by (sight_of (terms_of self.now.domain.now.plan)
            self.now.cpu (Some runs)) (Linked next mark)) second next }
    {
        match next {
            None => First::nobody(second),
            Some(next) => self.somebody_behind(runs, second, next, mark),
        }
    }

    // What it meets in the link of the last that it has passed over.
    pub(crate) fn more_seen(
        &self,
        second: Option<NodeName>,
        next: Option<NodeName>,
        mark: bool,
    ) -> More
        requires { IfSome next (IsNode self.now.domain.now.plan) }
        ensures { (r : Option ℕ)
            → result ≡ more_by (sight_by (sight_of (terms_of self.now.domain.now.plan)
            self.now.cpu r) (Linked next mark)) second next }
    {
        match next {
            None => More::nobody(second),
            Some(next) => self.somebody_more(second, next, mark),
        }
    }

    // A waiter is linked behind the head.
    fn somebody_behind(
        &self,
        runs: u64,
        second: Option<NodeName>,
        next: NodeName,
        mark: bool,
    ) -> First
        requires { IsNode self.now.domain.now.plan next }
        ensures { result ≡ first_by (sight_by (sight_of (terms_of self.now.domain.now.plan)
            self.now.cpu (Some runs)) (Linked (Some next) mark)) second (Some next) }
    {
        let goes_on = runs < self.domain.threshold() as u64;
        First::somebody(second, next, goes_on, self.is_local(next, mark))
    }

    // A waiter is linked behind those that were passed over.
    fn somebody_more(&self, second: Option<NodeName>, next: NodeName, mark: bool) -> More
        requires { IsNode self.now.domain.now.plan next }
        ensures { (r : Option ℕ)
            → result ≡ more_by (sight_by (sight_of (terms_of self.now.domain.now.plan)
            self.now.cpu r) (Linked (Some next) mark)) second (Some next) }
    {
        More::somebody(second, next, self.is_local(next, mark))
    }

    // Whether a node that a link with this mark names is local to the processor: its call is never
    // moved aside, or its processor stands on the same socket.
    fn is_local(&self, node: NodeName, mark: bool) -> bool
        requires { IsNode self.now.domain.now.plan node }
        ensures { result ≡ (stays_by self.now.domain.now.plan.format mark
            || same_socket (terms_of self.now.domain.now.plan).sockets self.now.cpu node.cpu) }
    {
        stays(self.domain, mark) || self.domain.socket(self.cpu) == self.domain.socket(node.cpu)
    }
}

// Whether a link with this mark names a call that is never moved aside: in the second format, one
// in an interrupt.
fn stays(domain: &Domain, mark: bool) -> bool
    ensures { result ≡ stays_by domain.now.plan.format mark }
{
    match domain.format() {
        Format::One => false,
        Format::Two => mark,
    }
}
