// What a seat knows.
ghost use Rattle.std.specs.Borrow.{ftrue};
ghost use Rattle.lk_domain.specs.Who.{Who};
ghost use Rattle.lk_domain.specs.Calls.{Calls};
ghost use Rattle.lk_domain.specs.Ledgers.{Ledger};

use std::marker::Model;

/// What a seat knows, as contracts see it. The program never makes a value of it.
pub struct View {
    // Its plan, the number of its processor, and those that it took over.
    pub ghost who: { Who },
    // The calls that wait, the locks that are held, and the trail of the call that ended last.
    pub ghost calls: { Calls },
    // What it knows of the ledger.
    pub ghost ledger: { Ledger },
}

impl Model for View {
    ghost also_owns = { λ _. ftrue };
}
