// The words of a ledger, with the plan by which they stand.
ghost use Rattle.lk_domain.specs.Seated.{IsTableOf};

use lk_domain::Plan;
use lk_domain::ledger_steps::Words;

// The words of the ledger of a domain. A seat of it that holds lock 0 loads and stores them.
#[derive(Clone, Copy)]
pub(crate) struct Books<'a> {
    pub(crate) table: &'a Words,
    pub(crate) plan: &'a Plan,
    ghost stand: { IsTableOf plan.now table.now.shared.table_id table.now.shared.key },
}
