// Laws of the forms: each is the contract of a function that does nothing.
ghost use Rattle.lk_forms.specs.SetupLaws.{SetupsAreLawful, FormatsLimitCpus, ActsComeLast};
ghost use Rattle.lk_forms.specs.TextLaws.{EventsAreTold, EndsAreTold, CountsAreTold, TranscriptsAreTold};

/// Accepted lines say a lawful setup. It has at most as many processors as its format allows. Until
/// the line `go` they say no acts.
pub fn lines_say_lawful_setups()
    ensures lawful { SetupsAreLawful }
    ensures cpus { FormatsLimitCpus }
    ensures acts { ActsComeLast }
{}

/// A line of a transcript determines what it tells: the number of the act and the event, the number
/// of acts, or one of the ten counts. A whole transcript determines all of these. This holds while
/// all numbers are below 2^64.
pub fn texts_tell_all()
    ensures events { EventsAreTold }
    ensures ends { EndsAreTold }
    ensures counts { CountsAreTold }
    ensures transcripts { TranscriptsAreTold }
{}
