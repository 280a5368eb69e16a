// Laws of the forms: each is the contract of a function that does nothing.
ghost use Rattle.lk_audit_forms.specs.Exact.{PrintedIsRead, ReadIsPrinted};
ghost use Rattle.lk_audit_forms.specs.ExactClosing.{EndIsRead, EndIsPrinted, CountIsRead, CountIsPrinted};

/// The line of an event is read exactly as it is printed. The text printed for an event tells that
/// event, and a line that tells an event is the text printed for it.
pub fn events_are_read_as_printed()
    ensures printed { PrintedIsRead }
    ensures read { ReadIsPrinted }
{}

/// The closing lines are read exactly as they are printed: `end` with a number of acts that is no
/// less than the last event's, and each of the ten counts in its place, with any number of 64
/// bits.
pub fn closing_lines_are_read_as_printed()
    ensures end { EndIsRead }
    ensures end_printed { EndIsPrinted }
    ensures count { CountIsRead }
    ensures count_printed { CountIsPrinted }
{}
