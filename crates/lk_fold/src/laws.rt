// The law of smaller spaces. The function does nothing: its contract is the law.

ghost use Rattle.lk_fold.specs.Fold.{SmallSpaceIsEnough, StandInsTell};

/// If each act on each state of a set leads to a state for which one of the set stands, one of the
/// set stands for each state that a schedule reaches. It makes the same rows, it is over if that
/// one is, and its acts tell the same kinds of events.
pub fn small_space_is_enough()
    ensures enough { SmallSpaceIsEnough }
    ensures tells { StandInsTell }
{}
