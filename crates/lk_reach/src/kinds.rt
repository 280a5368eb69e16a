// The kinds of events.

ghost use Rattle.std.specs.Prelude.{◌≡◌, ◌<◌};
ghost use Rattle.lk_reach.specs.Kinds.{kind_value};

use lk_names::{How, RwHow, What};

/// How many kinds of events there are.
pub const KINDS: usize = 33;

/// The number of the kind of an event.
pub(crate) fn kind_of(what: What) -> usize
    ensures is { result ≡ kind_value what }
    ensures few { result < 33 }
{
    match what {
        What::Take { how, .. } => match how {
            How::Fast => 0,
            How::Try => 1,
            How::Pending => 2,
            How::Virt => 3,
            How::Retry => 4,
            How::NoNode => 5,
            How::Steal => 6,
            How::Head => 7,
            How::Sole => 8,
        },
        What::Miss { .. } => 9,
        What::Release { owing: None, .. } => 10,
        What::Release { .. } => 11,
        What::Kick { .. } => 12,
        What::Arrive { .. } => 13,
        What::Pass { moved: 0, .. } => 14,
        What::Pass { .. } => 15,
        What::Flush { .. } => 16,
        What::Promote { .. } => 17,
        What::Leave { .. } => 18,
        What::Halt { .. } => 19,
        What::Wake { .. } => 20,
        What::Int => 21,
        What::Nudge => 22,
        What::RTake { how, .. } => match how {
            RwHow::Fast => 23,
            RwHow::Irq => 24,
            RwHow::Queued => 25,
            RwHow::Try => 26,
        },
        What::RRelease { .. } => 27,
        What::WTake { how, .. } => match how {
            RwHow::Fast => 28,
            RwHow::Irq => 29,
            RwHow::Queued => 30,
            RwHow::Try => 31,
        },
        What::WRelease { .. } => 32,
    }
}
