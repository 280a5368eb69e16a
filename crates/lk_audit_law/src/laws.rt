// The laws, as clauses of functions that do nothing: who calls one may use its law.
ghost use Rattle.lk_audit_law.specs.Laws.{RunsAreRead, TranscriptsAreAccepted};

/// An auditor takes each line that a replay writes for an event: it reads it as that event, in its
/// act. By the laws over machines, the events so read are a lawful history.
pub fn runs_are_read()
    ensures read { RunsAreRead }
{
    lk_core::acts_keep();
    lk_core::rest_shows();
    lk_core::runs_keep();
    lk_core::acts_change_little();
}

/// The header of each accepted trace, and behind it the transcript that a replay of the trace
/// writes, is lawful to an audit: it finds the history of the run.
pub fn transcripts_are_accepted()
    ensures accepted { TranscriptsAreAccepted }
{
    lk_core::acts_keep();
    lk_core::rest_shows();
    lk_core::runs_keep();
    lk_core::acts_change_little();
    lk_forms::lines_say_lawful_setups();
}
