// Looks at a lock, by anybody who has its domain.
ghost use Rattle.std.specs.Prelude.{◌<◌};
ghost use Rattle.lk_domain.specs.Plans.{locks_of};

use crate::locks::{Rw, Spin};
use crate::shared::Shared;
use lk_domain::Domain;

impl<T> Spin<T> {
    /// Whether somebody holds the lock. It may have changed when this returns. No clause says what
    /// this tells: a test does.
    pub fn is_locked(&self, domain: &Domain) -> bool
        requires lock { self.now.id.index < locks_of domain.now.plan }
    {
        domain.is_locked(self.id)
    }

    /// Whether somebody waits for the lock. In `virt` this is always false, since waiters leave no
    /// mark there. It may have changed when this returns. No clause says what this tells: a test
    /// does.
    pub fn is_contended(&self, domain: &Domain) -> bool
        requires lock { self.now.id.index < locks_of domain.now.plan }
    {
        domain.is_contended(self.id)
    }
}

impl<T> Rw<T> {
    /// Whether somebody holds the lock, as [`Spin::is_locked`] tells it.
    pub fn is_locked(&self, domain: &Domain) -> bool
        requires lock { self.now.id.index < locks_of domain.now.plan }
    {
        domain.is_locked(self.id)
    }

    /// Whether somebody waits for the lock, in each family. It may have changed when this returns. No
    /// clause says what this tells: a test does.
    pub fn is_contended(&self, domain: &Domain) -> bool
        requires lock { self.now.id.index < locks_of domain.now.plan }
    {
        domain.is_contended(self.id)
    }
}

impl<T> Shared<T> {
    /// Whether somebody holds the lock, as a reader or as the writer. It may have changed when this
    /// returns. No clause says what this tells: a test does.
    pub fn is_locked(&self, domain: &Domain) -> bool
        requires lock { self.now.id.index < locks_of domain.now.plan }
    {
        domain.is_locked(self.id)
    }

    /// Whether somebody waits for the lock, in each family. It may have changed when this returns. No
    /// clause says what this tells: a test does.
    pub fn is_contended(&self, domain: &Domain) -> bool
        requires lock { self.now.id.index < locks_of domain.now.plan }
    {
        domain.is_contended(self.id)
    }
}
