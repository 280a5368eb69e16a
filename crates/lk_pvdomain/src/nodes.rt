// The steps of a seat on the node that its call gets next, each one operation.
ghost use Rattle.std.specs.Prelude.{◌≡◌, ◌≢◌};
ghost use Rattle.lk_domain.specs.NodePlays.{AtEntry, InCall, readied_by};
ghost use Rattle.lk_domain.specs.Words.{part_index};
ghost use Rattle.lk_domain.specs.declared.part.Part.TheVariants as part_is;
ghost use Rattle.lk_pvdomain.specs.PvPaths.{IsSeat};

use crate::rule::ResetLooks;
use lk_domain::{Domain, Part, Right, node_moves};
use lk_word::NodeName;

// Reads the flag or the link of the node that the call gets next, which nobody uses. If it is 0 it
// counts as reset.
fn look_reset(seat: &mut Right, domain: &Domain, own: NodeName, part: Part) -> u64
    requires of { IsSeat domain.now own seat.old.table_id seat.old.me }
    requires row { InCall (AtEntry own) seat.old.me.0 }
    requires ready { part ≢ part_is.Flag → seat.old.me.0.calls.ready ≡ part_index part }
    ensures same { (seat.new.table_id ≡ seat.old.table_id) × (seat.new.id ≡ seat.old.id) }
    ensures spares { result ≡ 0 → seat.new.me ≡ (readied_by part seat.old.me.0, seat.old.me.1) }
    ensures stays { result ≢ 0 → seat.new.me ≡ seat.old.me }
{
    let word = domain.plan.node_of(own, part);
    domain.table.shared.load::<ResetLooks>(seat, word)
}

// Resets the flag or the link of the node that the call gets next. It stores only if a read does
// not find it reset. After a call that has stolen its lock it mostly does.
pub(crate) fn reset(seat: &mut Right, domain: &Domain, own: NodeName, part: Part)
    requires of { IsSeat domain.now own seat.old.table_id seat.old.me }
    requires row { InCall (AtEntry own) seat.old.me.0 }
    requires ready { part ≢ part_is.Flag → seat.old.me.0.calls.ready ≡ part_index part }
    ensures same { (seat.new.table_id ≡ seat.old.table_id) × (seat.new.id ≡ seat.old.id) }
    ensures step { seat.new.me ≡ (readied_by part seat.old.me.0, seat.old.me.1) }
{
    if look_reset(seat, domain, own, part) == 0 {
        return;
    }
    node_moves::reset(seat, &domain.table, &domain.plan, own, part);
}
