//! What the number of a word says that a step met.
ghost use Rattle.std.specs.Prelude.{◌≡◌, ◌&&◌, not, Bool, Option, IfSome};
ghost use Rattle.lk_word.specs.declared.spin_word.Fields.{Fields};
ghost use Rattle.lk_word.specs.declared.spin_word.NodeName.{NodeName};
ghost use Rattle.lk_word.specs.SpinWord.{packed, IsPackable};
ghost use Rattle.lk_rows.specs.Moves.{is_node};
ghost use Rattle.lk_rows.specs.rows.Cna.{is_held};
ghost use Rattle.lk_domain.specs.Plans.{IsRunningPlan, layout_in};
ghost use Rattle.lk_domain.specs.Words.{IsNode, link_number, marked};
ghost use Rattle.lk_domain.specs.declared.plan.Plan.{Plan};

use crate::plan::Plan;
use lk_rows::{is_held, is_tail};
use lk_word::{Fields, LOWEST_NODE, MARK, NodeName, node_of_name, unpack};

impl Plan {
    /// The fields of the word of a lock.
    #[inline]
    pub fn word_met(&self, met: u64) -> Fields
        requires word { (word : Fields) × IsPackable (layout_in self.now) word
            × (met ≡ packed (layout_in self.now) word) }
        ensures { (word : Fields) → IsPackable (layout_in self.now) word
            → met ≡ packed (layout_in self.now) word → result ≡ word }
    {
        match unpack(self.layout(), met as u32) {
            Some(word) => word,
            None => unreachable!(),
        }
    }
}

/// The node that a link names, if it names one.
#[inline]
pub fn node_met(met: u64) -> Option<NodeName>
    requires link { (k : Plan) × (node : Option NodeName) × (mark : Bool) × IsRunningPlan k
        × IfSome node (IsNode k) × (met ≡ marked mark (link_number node)) }
    ensures { (k : Plan) (node : Option NodeName) (mark : Bool) → IsRunningPlan k
        → IfSome node (IsNode k) → met ≡ marked mark (link_number node) → result ≡ node }
{
    let name = met % MARK;
    if name < LOWEST_NODE {
        return None;
    }
    Some(node_of_name(name))
}

/// Whether the word is that of a held lock whose queue ends with this node: nobody pends.
pub fn is_last(word: Fields, own: NodeName) -> bool
    ensures { result ≡ (is_held word.locked && not word.pending && is_node word.tail own) }
{
    is_held(word) && !word.pending && is_tail(word, own)
}
