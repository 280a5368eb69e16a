// A processor with its domain.
ghost use Rattle.std.specs.Prelude.{◌≡◌, false};
ghost use Rattle.lk_domain.specs.Seats as seats;
ghost use Rattle.lk_port.specs.Shares.{IsOf, domain_of, may_halt};
ghost use Rattle.lk_port.specs.Standing.{IsLast, Stands, StandsRunning};

use crate::pending::Pending;
use crate::share::Share;
use lk_domain::Cpu;
use lk_names::List;

/// The right to step of a processor, and a share of its domain.
#[derive(Drop)]
pub struct Port {
    pub(crate) share: Share,
    // These three stand before the processor, at whose end a line of the cache is unused: ports may lie side
    // by side, and each call stores here, or each poll.
    pub(crate) pending: Pending,
    // the spinlock of the last call, where the next one may be for it, and whether the processor holds it
    pub(crate) last: u32,
    pub(crate) holds_last: bool,
    pub(crate) cpu: Cpu,
    // of each lock that it holds, whether it holds it as a writer; and of each lock whether it holds it,
    // where its family halts, since then its processor notes nothing
    pub(crate) notes: List<bool>,
    ghost of: { IsOf cpu share },
    ghost lasts: { IsLast (domain_of share) pending cpu last holds_last },
    ghost stands: { ∥ Stands share notes.items pending cpu ∥₁ },
}

impl Port {
    // How it stands. A field keeps that as a fact alone, and this takes it out again.
    pub(crate) fn stands(&self)
        ensures { Stands self.now.share self.now.notes.items self.now.pending self.now.cpu }
    {}

    // The same where its family's waiters run.
    pub(crate) fn runs(&self)
        requires { may_halt self.now.share ≡ false }
        ensures runs { may_halt self.now.share ≡ false }
        ensures of { seats.IsOf self.now.cpu (domain_of self.now.share) }
        ensures stands { StandsRunning (domain_of self.now.share) self.now.notes.items
            self.now.pending self.now.cpu }
    {
        self.stands();
    }

    /// Its number, counted from 0.
    pub fn number(&self) -> u32
        ensures { result ≡ self.now.cpu.number }
    {
        self.cpu.number()
    }
}
