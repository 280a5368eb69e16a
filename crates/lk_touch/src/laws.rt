// The law of touching. The function does nothing: its contract is the law.

ghost use Rattle.lk_touch.specs.Touching.{StepsStayAmong};

/// A step does the same among any other processors than those that it touches: it tells the same, and
/// leaves the same but for them, which stay as they are.
pub fn steps_stay_among_others()
    ensures { StepsStayAmong }
{}
