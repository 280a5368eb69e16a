// The laws, as clauses of functions that do nothing: who calls one may use its law.
ghost use Rattle.lk_osq.specs.RunLaws.{ActKeeps, RunKeeps, RestShows, RunsInParts};

/// Each act of each processor keeps what a machine shows, and its event is lawful after the
/// history so far.
pub fn acts_keep()
    ensures keep { ActKeeps }
{}

/// The machine at rest shows the empty history.
#[tactic(auto, using(crate::proofs::Runs::rest_shows))]
pub fn rest_shows()
    ensures rest { RestShows }
{}

/// The history of every list of acts from rest is lawful, and the machine that the acts leave
/// shows it.
pub fn runs_keep()
    ensures run { RunKeeps }
{}

/// A run can be divided: the history of two lists of acts, one after the other, is that of both
/// together. The events of a run, without the numbers of their acts, are its history.
#[tactic(auto, using(crate::proofs::Joined::runs_in_parts))]
pub fn runs_in_parts()
    ensures parts { RunsInParts }
{}
