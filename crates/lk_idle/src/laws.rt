// The law of what nobody reads. The function does nothing: its contract is the law.

ghost use Rattle.lk_idle.specs.Alike.{AlikeGoesOn};

/// What nobody reads before it is written changes nothing else: an act on two sound machines that
/// differ in that alone tells the same event, and leaves two that differ in that alone.
pub fn alike_goes_on()
    ensures goes_on { AlikeGoesOn }
{}
