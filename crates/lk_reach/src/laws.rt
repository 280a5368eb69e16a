// The laws of states. The functions do nothing: their contracts are the laws.

ghost use Rattle.lk_reach.specs.Folded.{StandInsAreOver, StandInsMakeRows};
ghost use Rattle.lk_reach.specs.Reach.{AlikeMakeRows, AlikeAreOver, CountsAreIdle};

/// The counts change nothing else: an act on the machine without them tells the same, and leaves
/// the same state.
pub fn counts_are_idle()
    ensures idle { CountsAreIdle }
{}

/// Of two states that differ only in what nobody reads before it is written, both make a row or
/// neither does, and both are over or neither is.
pub fn alike_states_tell()
    ensures rows { AlikeMakeRows }
    ensures over { AlikeAreOver }
{}

/// Of a state that a schedule reaches and one that stands for it, both make a row or neither does,
/// and both are over or neither is.
pub fn stand_ins_tell()
    ensures rows { StandInsMakeRows }
    ensures over { StandInsAreOver }
{}
