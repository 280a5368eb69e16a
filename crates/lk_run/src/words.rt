// What the number of a word says, and where the rows lead that meet it.
ghost use Rattle.std.specs.Prelude.{◌≡◌, ◌<◌, Bool};
ghost use Rattle.lk_word.specs.declared.spin_word.NodeName.{NodeName as Node};
ghost use Rattle.lk_law.specs.Cna.{moves_aside};
ghost use Rattle.lk_rows.specs.declared.parts.Flag.{Flag as FlagOf};
ghost use Rattle.lk_domain.specs.NodePlays.{IsFlagNode};
ghost use Rattle.lk_domain.specs.Plans.{IsRunningPlan};
ghost use Rattle.lk_domain.specs.Words.{IsNode, flag_number, name_number, marked};
ghost use Rattle.lk_domain.specs.declared.plan.Plan.{Plan};

use lk_names::Mode;
use lk_rows::Flag;
use lk_word::{MARK, NodeName, node_of_name};

// The mark of a link that names a node: whether the call that uses the node is in a context above
// 0.
#[inline]
pub(crate) fn mark_met(met: u64) -> bool
    ensures { (node : Node) (mark : Bool) → name_number node < 4294967296
        → met ≡ marked mark (name_number node) → result ≡ mark }
{
    met >= MARK
}

// What a flag says: it may name the first of a secondary queue.
#[inline]
pub(crate) fn flag_met(met: u64) -> Flag
    requires flag { (k : Plan) × (flag : FlagOf) × IsRunningPlan k × IsFlagNode k flag
        × (met ≡ flag_number flag) }
    ensures { (k : Plan) (flag : FlagOf) → IsRunningPlan k → IsFlagNode k flag
        → met ≡ flag_number flag → result ≡ flag }
{
    if met == 0 {
        return Flag::Unset;
    }
    if met == 1 {
        return Flag::Go;
    }
    Flag::Second(node_of_name(met))
}

// Whether the family moves waiters aside.
pub(crate) fn moves_waiters(mode: Mode) -> bool
    ensures { result ≡ moves_aside mode }
{
    matches!(mode, Mode::Cna)
}

// The node that a word names.
#[inline]
pub(crate) fn tail_met(met: u64) -> NodeName
    requires tail { (k : Plan) × (node : Node) × IsRunningPlan k × IsNode k node
        × (met ≡ name_number node) }
    ensures { (k : Plan) (node : Node) → IsRunningPlan k → IsNode k node
        → met ≡ name_number node → result ≡ node }
{
    node_of_name(met)
}
