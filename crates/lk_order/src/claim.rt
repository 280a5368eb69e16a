// What the theorems say of a setup whose locks have ranks.

ghost use Rattle.std.specs.Prelude.{◌≡◌, ◌≢◌, ◌⊎◌, ℕ, true, false};
ghost use Rattle.lk_rows.specs.Programs.{IsLawfulSetup};
ghost use Rattle.lk_law.specs.Agree.{halts};
ghost use Rattle.lk_progress.specs.Ordered.{IsOrdered};
ghost use Rattle.lk_progress.specs.Runs.{HasRoom};
ghost use Rattle.lk_order.specs.Checked.{rank_in};
ghost use Rattle.lk_order.specs.Claims.{CalmSchedulesFinish, NeverDeadlocks, FairSchedulesFinish};

use crate::check::{check_ranks, crowded};
use lk_names::Mode;
use lk_progress::{fair_runs_finish, ordered_runs_go_on};
use lk_rows::Setup;

/// What is known of a setup.
#[derive(Clone, Copy)]
pub(crate) enum Claim {
    /// No schedule deadlocks, and every fair schedule ends with everybody finished.
    Finishes,
    /// No schedule deadlocks, and every fair schedule in which nudges come to an end ends with everybody
    /// finished.
    FinishesCalm,
    /// The ranks are in order, and the processor has more than three handlers, so it may run out of
    /// queue nodes.
    Crowded(u32),
    /// The ranks are not in order.
    Unordered,
}

// Whether processors may halt.
fn halts(mode: Mode) -> bool
    ensures { result ≡ halts mode }
{
    matches!(mode, Mode::Pv)
}

// What is known of an ordered setup whose processors may halt. It needs no room, since who finds no
// queue node steals.
fn claim_halting(setup: &Setup) -> Claim
    requires lawful { IsLawfulSetup setup.now }
    requires ordered { (rank : ℕ → ℕ) × IsOrdered rank 32 setup.now }
    requires halts { halts setup.now.mode ≡ true }
    ensures goes_on { NeverDeadlocks setup.now }
    ensures finishes { CalmSchedulesFinish setup.now }
    ensures only { result ≡ Claim.FinishesCalm }
{
    ordered_runs_go_on();
    fair_runs_finish();
    Claim::FinishesCalm
}

// What is known of an ordered setup with room, in which no processor halts.
fn claim_in_order(setup: &Setup) -> Claim
    requires lawful { IsLawfulSetup setup.now }
    requires ordered { (rank : ℕ → ℕ) × IsOrdered rank 32 setup.now }
    requires awake { halts setup.now.mode ≡ false }
    requires room { HasRoom setup.now }
    ensures goes_on { NeverDeadlocks setup.now }
    ensures finishes { FairSchedulesFinish setup.now }
    ensures only { result ≡ Claim.Finishes }
{
    ordered_runs_go_on();
    fair_runs_finish();
    Claim::Finishes
}

/// What is known of a setup, if its locks have these ranks.
pub(crate) fn claim_of(setup: &Setup, ranks: &[u32]) -> Claim
    requires { IsLawfulSetup setup.now }
    ensures ordered { result ≢ Claim.Unordered → IsOrdered (rank_in ranks.now) 32 setup.now }
    ensures goes_on { (result ≡ Claim.FinishesCalm) ⊎ (result ≡ Claim.Finishes)
        → NeverDeadlocks setup.now }
    ensures finishes { result ≡ Claim.Finishes → FairSchedulesFinish setup.now }
    ensures calm { result ≡ Claim.FinishesCalm → CalmSchedulesFinish setup.now }
{
    if !check_ranks(setup, ranks) {
        return Claim::Unordered;
    }
    if halts(setup.mode) {
        return claim_halting(setup);
    }
    match crowded(setup) {
        Some(cpu) => Claim::Crowded(cpu),
        None => claim_in_order(setup),
    }
}
