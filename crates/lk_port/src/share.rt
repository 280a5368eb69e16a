// A share of a domain, by whether its waiters halt. The polled calls of `lk_pvdomain` ask for a `PvDomain`.
ghost use Rattle.std.specs.Prelude.{◌≡◌, IfOk, true};
ghost use Rattle.lk_port.specs.Shares.{By, IsFit, domain_of, may_halt};

use crate::opening::Fault;
use lk_domain::Domain;
use lk_pvdomain::PvDomain;
use std::alloc::Global;
use std::sync::Arc;

/// A share of a domain.
#[derive(Drop)]
pub enum Share {
    /// The family's waiters run.
    Runs(Arc<Domain, Global>),
    /// They halt, and each lock is a spinlock.
    Halts(Arc<PvDomain, Global>),
}

impl Share {
    // The first share of a new domain.
    pub(crate) fn new(alloc: Global, domain: Domain) -> Result<Share, Fault>
        ensures domain { IfOk result (λ share. domain_of share ≡ domain) }
        ensures fit { IfOk result IsFit }
    {
        if domain.halts() {
            return match Arc::new(alloc, PvDomain { domain }) {
                Ok(domain) => Ok(Share::Halts(domain)),
                Err(_) => Err(Fault::Memory),
            };
        }
        match Arc::new(alloc, domain) {
            Ok(domain) => Ok(Share::Runs(domain)),
            Err(_) => Err(Fault::Memory),
        }
    }

    // One more.
    pub(crate) fn another(&self) -> Result<Share, Fault>
        requires { IsFit self.now }
        ensures domain { IfOk result (λ share. domain_of share ≡ domain_of self.now) }
        ensures fit { IfOk result IsFit }
    {
        match self {
            Share::Runs(domain) => match Arc::try_clone(domain) {
                Ok(domain) => Ok(Share::Runs(domain)),
                Err(_) => Err(Fault::Memory),
            },
            Share::Halts(domain) => match Arc::try_clone(domain) {
                Ok(domain) => Ok(Share::Halts(domain)),
                Err(_) => Err(Fault::Memory),
            },
        }
    }

    // Whether its waiters halt.
    #[inline]
    pub(crate) fn halts(&self) -> bool
        ensures { result ≡ may_halt self.now }
    {
        match self {
            Share::Runs(_) => false,
            Share::Halts(_) => true,
        }
    }

    // The domain.
    #[inline]
    pub(crate) fn domain(&self) -> &Domain
        ensures { result.now ≡ domain_of self.now }
    {
        match self {
            Share::Runs(domain) => domain,
            Share::Halts(domain) => {
                let domain: &PvDomain = domain;
                &domain.domain
            }
        }
    }

    // The same, where its waiters halt.
    pub(crate) fn halting(&self) -> &PvDomain
        requires { may_halt self.now ≡ true }
        ensures { By self.now (λ _. ⊥) (λ domain. result.now ≡ domain) }
    {
        match self {
            Share::Runs(_) => unreachable!(),
            Share::Halts(domain) => domain,
        }
    }
}
