// What is read of an operation.
ghost use Rattle.std.specs.Prelude.{◌≡◌};
ghost use Rattle.lk_domain.specs.Rows.{queues_up as queues};
ghost use Rattle.lk_domain.specs.RwRows.{on_shared as shared};

use lk_rows::Verb;

// Whether it takes the wait lock where it finds no other way in.
pub(crate) fn queues_up(verb: Verb) -> bool
    ensures { result ≡ queues verb }
{
    matches!(verb, Verb::Read | Verb::Write)
}

// Whether a call of it acts on a reader-writer lock itself, where it does not act on the wait lock.
pub(crate) fn on_shared(verb: Verb, wait: bool) -> bool
    ensures { result ≡ shared verb wait }
{
    !wait
        && matches!(
            verb,
            Verb::Read | Verb::TryRead | Verb::Write | Verb::TryWrite
        )
}
