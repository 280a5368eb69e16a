// The laws of renamings. The functions do nothing: their contracts are the laws.

ghost use Rattle.lk_renaming.specs.Law.{RenamedGoesOn, RenamedStands, SchedulesRunRenamed};
ghost use Rattle.lk_renaming.specs.Law.{RenamingsCompose, RenamedTwice, RenamedBack};
ghost use Rattle.lk_renaming.specs.Law.{SchedulesHaveNames, AlikeStaysAlike};

/// Processors that are alike may change their numbers: the renamed act on the renamed machine
/// leaves the renamed machine, and tells the renamed event. Each processor stands where it stood,
/// under its new number.
pub fn renamed_goes_on()
    ensures goes_on { RenamedGoesOn }
    ensures stands { RenamedStands }
{}

/// In every lawful setup, the renamed schedule reaches from rest the renamed machine, and its
/// history is the renamed history. On its way nobody lacks a name that its row takes.
pub fn schedules_run_renamed()
    ensures run { SchedulesRunRenamed }
    ensures names { SchedulesHaveNames }
{}

/// One renaming behind another is a renaming, and the way back is one. A machine that is renamed
/// twice is renamed by the one behind the other, and the way back leads back.
pub fn renamings_compose()
    ensures compose { RenamingsCompose }
    ensures twice { RenamedTwice }
    ensures back { RenamedBack }
{}

/// Machines that differ only in what nobody reads before it is written do so under new numbers too.
pub fn alike_stays_alike()
    ensures alike { AlikeStaysAlike }
{}
