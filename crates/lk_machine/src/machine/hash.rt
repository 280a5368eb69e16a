// The hash has the queue head's node for each lock that is entered. By it a release finds whom to
// kick.

ghost use Rattle.std.specs.Prelude.{◌≡◌, ◌<◌, ◌*◌, true, is_some, length, Some, None};
ghost use Rattle.lk_word.specs.declared.spin_word.Layout.TheVariants.{Wide};
ghost use Rattle.lk_word.specs.SpinWord.{IsTailInRange};
ghost use Rattle.lk_rows.specs.Machine.{entry_at, set_entry, lock_number};
ghost use Rattle.lk_machine.specs.Hashed.{node_number, node_named};
ghost use Rattle.lk_rows.specs.Layouts.{layout_of};

use crate::machine::Machine;
use lk_names::LockName;
use lk_word::NodeName;

// The number under which the hash has a lock.
fn lock_number(lock: LockName) -> u32
    requires { lock.index < 32 }
    ensures { result ≡ lock_number lock }
{
    2 * lock.index + u32::from(lock.wait)
}

// The number that the hash has for a node.
fn node_number(node: NodeName) -> u32
    requires { IsTailInRange Wide (Some node) }
    ensures { result ≡ node_number node }
{
    4 * node.cpu + node.index
}

// The node of a number.
fn node_named(number: u32) -> NodeName
    ensures { result ≡ node_named number }
{
    NodeName {
        cpu: number / 4,
        index: number % 4,
    }
}

impl Machine {
    /// The entry of a lock in the hash: a node, or `None` if the lock is not entered.
    #[tactic(auto, using(crate::proofs::Hashed::hashed), unfolding(lk_rows::specs::Machine::entry_at))]
    pub fn hashed(&self, lock: LockName) -> Option<NodeName>
        requires { lock.index < length self.now.locks }
        ensures { result ≡ entry_at self.now lock }
    {
        match self.hash.find(lock_number(lock)) {
            Some(number) => Some(node_named(number)),
            None => None,
        }
    }

    /// Enters a lock into the hash, with this node (Linux's `pv_hash`). The lock must not be
    /// entered, and the hash must have fewer than four entries for each processor.
    #[tactic(auto, using(crate::proofs::Hashed::hashed, lk_word::proofs::SpinWordLemmas::in_wide), unfolding(lk_rows::specs::Machine::entry_at, lk_rows::specs::Machine::set_entry))]
    pub fn hash_enter(&mut self, lock: LockName, node: NodeName)
        requires lock { lock.index < length self.old.locks }
        requires node { IsTailInRange (layout_of self.old.setup.format) (Some node) }
        requires absent { entry_at self.old lock ≡ None }
        requires room { length self.old.hash < 4 * length self.old.cpus }
        ensures { self.new ≡ set_entry self.old lock (Some node) }
    {
        self.hash.enter(lock_number(lock), node_number(node));
    }

    /// Removes a lock from the hash, and returns its node (Linux's `pv_unhash`). The lock must be
    /// entered.
    #[tactic(auto, using(crate::proofs::Hashed::hashed), unfolding(lk_rows::specs::Machine::entry_at, lk_rows::specs::Machine::set_entry))]
    pub fn hash_remove(&mut self, lock: LockName) -> NodeName
        requires lock { lock.index < length self.old.locks }
        requires present { is_some (entry_at self.old lock) ≡ true }
        ensures node { entry_at self.old lock ≡ Some result }
        ensures next { self.new ≡ set_entry self.old lock None }
    {
        let number = self.hash.remove(lock_number(lock));
        node_named(number)
    }
}
