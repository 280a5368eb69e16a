// Stores of one field of a word or of a node. The other fields stay.

ghost use Rattle.std.specs.Prelude.{◌≡◌, ◌<◌, length};
ghost use Rattle.lk_word.specs.SpinWord.{IsTailInRange};
ghost use Rattle.lk_rows.specs.Layouts.{layout_of};
ghost use Rattle.lk_rows.specs.Machine.{HasNode, node_at, rest_node, set_node, set_word, word_at};

use crate::machine::Machine;
use crate::machine::rest::rest_node;
use lk_names::LockName;
use lk_rows::{Flag, Node, State};
use lk_word::{Fields, Locked, NodeName};

impl Machine {
    /// Stores the locked byte of a word. The pending bit and the tail stay.
    #[inline]
    pub fn set_locked(&mut self, lock: LockName, locked: Locked)
        requires { lock.index < length self.old.locks }
        ensures { self.new
            ≡ set_word self.old lock (record (word_at self.old lock) { locked = locked }) }
    {
        let word = self.word(lock);
        self.set_word(lock, Fields { locked, ..word });
    }

    /// Stores the pending bit of a word. The locked byte and the tail stay.
    #[inline]
    pub fn set_pending(&mut self, lock: LockName, pending: bool)
        requires { lock.index < length self.old.locks }
        ensures { self.new
            ≡ set_word self.old lock (record (word_at self.old lock) { pending = pending }) }
    {
        let word = self.word(lock);
        self.set_word(lock, Fields { pending, ..word });
    }

    /// Stores the tail of a word. The locked byte and the pending bit stay. The tail must fit the
    /// layout of the format.
    #[inline]
    pub fn set_tail(&mut self, lock: LockName, tail: Option<NodeName>)
        requires lock { lock.index < length self.old.locks }
        requires tail { IsTailInRange (layout_of self.old.setup.format) tail }
        ensures { self.new
            ≡ set_word self.old lock (record (word_at self.old lock) { tail = tail }) }
    {
        let word = self.word(lock);
        self.set_word(lock, Fields { tail, ..word });
    }

    /// Stores the flag of a node.
    #[inline]
    pub fn set_flag(&mut self, name: NodeName, flag: Flag)
        requires { HasNode self.old name }
        ensures { self.new
            ≡ set_node self.old name (record (node_at self.old name) { flag = flag }) }
    {
        let node = self.node(name);
        self.set_node(name, Node { flag, ..node });
    }

    /// Stores the link of a node to the node behind it.
    #[inline]
    pub fn set_next(&mut self, name: NodeName, next: Option<NodeName>)
        requires { HasNode self.old name }
        ensures { self.new
            ≡ set_node self.old name (record (node_at self.old name) { next = next }) }
    {
        let node = self.node(name);
        self.set_node(name, Node { next, ..node });
    }

    /// Stores into the first node of a secondary queue which node is the last of that queue.
    #[inline]
    pub fn set_second_tail(&mut self, name: NodeName, second_tail: Option<NodeName>)
        requires { HasNode self.old name }
        ensures { self.new
            ≡ set_node self.old name
            (record (node_at self.old name) { second_tail = second_tail }) }
    {
        let node = self.node(name);
        self.set_node(
            name,
            Node {
                second_tail,
                ..node
            },
        );
    }

    /// Stores into a node how many handoffs were made since the secondary queue became non-empty.
    #[inline]
    pub fn set_runs(&mut self, name: NodeName, runs: u32)
        requires { HasNode self.old name }
        ensures { self.new
            ≡ set_node self.old name (record (node_at self.old name) { runs = runs }) }
    {
        let node = self.node(name);
        self.set_node(name, Node { runs, ..node });
    }

    /// Stores into a node what its waiter says of its processor.
    #[inline]
    pub fn set_state(&mut self, name: NodeName, state: State)
        requires { HasNode self.old name }
        ensures { self.new
            ≡ set_node self.old name (record (node_at self.old name) { state = state }) }
    {
        let node = self.node(name);
        self.set_node(name, Node { state, ..node });
    }

    /// Resets a node: its flag is unset, it names no other node, it has counted no handoffs, and
    /// it says that its processor runs.
    #[inline]
    pub fn reset_node(&mut self, name: NodeName)
        requires { HasNode self.old name }
        ensures { self.new ≡ set_node self.old name rest_node }
    {
        self.set_node(name, rest_node());
    }
}
