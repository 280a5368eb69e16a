// What a call that waits has from its first row to its last. Its rows and its path are methods in
// the files beside this one. The processor, the runtime and what interrupts the call are handed to
// each of them.
ghost use Rattle.std.specs.Prelude.{◌≡◌, ◌<◌, false};
ghost use Rattle.std.specs.Option.{ForSome};
ghost use Rattle.lk_domain.specs.Plans.{locks_of};
ghost use Rattle.lk_domain.specs.Words.{IsNode};
ghost use Rattle.lk_run.specs.Phases.{Queues};

use lk_domain::Domain;
use lk_names::LockName;
use lk_rows::Verb;
use lk_word::NodeName;

// A call that queues for a lock: `lock` for its lock, and a reader or a writer for the wait lock of
// it.
#[derive(Clone, Copy)]
pub(crate) struct Call<'a> {
    pub(crate) domain: &'a Domain,
    pub(crate) verb: Verb,
    pub(crate) lock: LockName,
    ghost declared: { lock.index < locks_of domain.now.plan },
    ghost queues: { Queues verb lock },
}

// The call with its node, on its way to the head of the queue.
#[derive(Clone, Copy)]
pub(crate) struct Queued<'a> {
    pub(crate) call: Call<'a>,
    pub(crate) own: NodeName,
    ghost node: { IsNode call.domain.now.plan own },
}

// The call as the queue head, and the first of the secondary queue, if there is one.
#[derive(Clone, Copy)]
pub(crate) struct Front<'a> {
    pub(crate) call: Call<'a>,
    pub(crate) own: NodeName,
    pub(crate) second: Option<NodeName>,
    ghost node: { IsNode call.domain.now.plan own },
    ghost aside: { ForSome second (IsNode call.domain.now.plan) },
}

// A reader whose first row found no way in. The name is that of its lock.
#[derive(Clone, Copy)]
pub(crate) struct Reader<'a> {
    pub(crate) domain: &'a Domain,
    pub(crate) lock: LockName,
    ghost declared: { lock.index < locks_of domain.now.plan },
    ghost plain: { lock.wait ≡ false },
}

// A writer whose first row met somebody. The name is that of its lock.
#[derive(Clone, Copy)]
pub(crate) struct Writer<'a> {
    pub(crate) domain: &'a Domain,
    pub(crate) lock: LockName,
    ghost declared: { lock.index < locks_of domain.now.plan },
    ghost plain: { lock.wait ≡ false },
}
