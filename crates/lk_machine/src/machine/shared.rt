// The part of a machine that is no single processor's: the words of the locks, and the hash. It can
// be copied, compared and put back.

ghost use Rattle.std.specs.Prelude.{◌≡◌, IfOk, true};
ghost use Rattle.lk_machine.specs.Hashed.{entries_named};
ghost use Rattle.lk_machine.specs.Parts.{Fits, Holds, SharedValue};

use crate::machine::Machine;
use crate::machine::words::Words;
use lk_hash::LockHash;
use lk_names::Memory;
use std::alloc::Global;
use std::hash::{FoldHasher, Hasher};
use std::marker::Model;

/// The words of the locks and the hash, as a machine had them.
#[derive(Drop)]
pub struct Shared {
    words: Words,
    hash: LockHash,
}

impl Model for Shared {
    ghost Value = { SharedValue };

    ghost view = { λ s. record {
      layout = s.words.layout;
      locks = s.words.locks;
      places = s.hash.places;
      hash = entries_named s.hash.entries;
    } };
}

// A number for a table of shared parts.
fn number_of(words: &Words, hash: &LockHash) -> u64 {
    let mut hasher = FoldHasher::default();
    words.feed(&mut hasher);
    hasher.write_u64(hash.number());
    hasher.finish()
}

// A copy of a hash.
fn copied(alloc: Global, hash: &LockHash) -> Result<LockHash, Memory>
    ensures { IfOk result (λ copy. copy ≡ hash.now) }
{
    match hash.copy(alloc) {
        Ok(copy) => Ok(copy),
        Err(_) => Err(Memory),
    }
}

impl Shared {
    /// A number for a table of shared parts.
    pub fn number(&self) -> u64 {
        number_of(&self.words, &self.hash)
    }
}

impl Machine {
    /// A copy of the words of the locks and the hash.
    ///
    /// # Errors
    ///
    /// There is not enough memory.
    pub fn shared(&self, alloc: Global) -> Result<Shared, Memory>
        ensures { IfOk result (λ shared. Holds shared self.now) }
    {
        let words = self.words.copy(alloc)?;
        let hash = copied(alloc, &self.hash)?;
        Ok(Shared { words, hash })
    }

    /// The number that a copy of the words of the locks and the hash has.
    pub fn shared_number(&self) -> u64 {
        number_of(&self.words, &self.hash)
    }

    /// Whether the words of the locks and the hash are these.
    pub fn has_shared(&self, part: &Shared) -> bool
        ensures { result ≡ true → Holds part.now self.now }
    {
        self.words.same(&part.words) && self.hash.same(&part.hash)
    }

    /// Puts back the words of the locks and the hash of a machine of the same setup.
    #[tactic(auto, using(crate::proofs::Powers::powers))]
    pub fn put_shared(&mut self, part: &Shared)
        requires { Fits part.now self.old }
        ensures { self.new
            ≡ record self.old { locks = part.now.locks; hash = part.now.hash } }
    {
        self.words.put(&part.words);
        self.hash.put(&part.hash);
    }
}
