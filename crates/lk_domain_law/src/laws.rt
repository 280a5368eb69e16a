// The law of waits on running locks. The functions do nothing: their contracts are the law.

ghost use Rattle.lk_domain_law.specs.Circles.{NoCircle, SomebodyIsFree};
ghost use Rattle.lk_domain_law.specs.GoingOn.{FewCallsGoOn, SomebodyGoesOn};
ghost use Rattle.lk_domain_law.specs.Kept.{BeginsKeepOrder, HaltsKeepOrder, RanksAreAsked, RowsKeepOrder};
ghost use Rattle.lk_domain_law.specs.Kept.{ValuesKeepOrder};

/// A domain whose calls are in order goes on. Whenever its table stands, whatever its processors have
/// done: some processor's next row leads its call on, or nobody is in a call, or somebody is in its
/// critical section, or polls without a node, in its fifth call or above. By `few` it is one of the
/// first three where no processor is in more than four calls, which nest on it.
///
/// *In order* (`IsInOrder`) means: each call that may wait is for a lock that ranks above each lock which
/// its context or one below holds, and above each on which a call below is at work. What *leads on*
/// is (`GoesNowhere`) depends on the family.
pub fn standing_domains_go_on()
    ensures leads { SomebodyGoesOn }
    ensures few { FewCallsGoOn }
{}

/// The calls of a processor are in order from the beginning, when there are none, and stay so: when one
/// more begins, if it does not wait, or is for a lock that ranks above each which the processor holds
/// or on which a call of it is at work; after each row; where a value goes out or comes home; and where
/// a halt ends. No other step changes a frame or a hold. What is asked of a call that begins is what
/// the calls of `lk_ranks` ask (`IsAbove`), with the number of each lock as its rank.
pub fn order_is_kept()
    ensures begins { BeginsKeepOrder }
    ensures rows { RowsKeepOrder }
    ensures values { ValuesKeepOrder }
    ensures halts { HaltsKeepOrder }
    ensures ranks { RanksAreAsked }
{}

/// No processors wait for each other in a circle, where calls are in order, even while others go on.
/// And where somebody waits, there is a lock that somebody waits for, and that no processor has which
/// waits itself. Wait locks of reader-writer locks are among them.
pub fn no_circle()
    ensures circle { NoCircle }
    ensures free { SomebodyIsFree }
{}
