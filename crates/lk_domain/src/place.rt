// Where the words of a domain stand in its table, and the numbers that name a node there.
ghost use Rattle.std.specs.Prelude.{◌≡◌, ◌+◌, ◌*◌, ◌<◌, Some};
ghost use Rattle.lk_domain.specs.NodePlays.{IsFlagNode};
ghost use Rattle.lk_domain.specs.Plans.{IsRunningPlan, layout_in, locks_of};
ghost use Rattle.lk_domain.specs.Words.{IsNode, balance_at, far_of, first_node, flag_number};
ghost use Rattle.lk_domain.specs.Words.{lock_at, marked, name_number, node_at, word_at};
ghost use Rattle.lk_word.specs.SpinWord.{index_unit, tail_number};

use crate::part::{Link, Part};
use crate::plan::{MOST_CPUS, MOST_LOCKS, Plan};
use lk_names::{Format, LockName};
use lk_rows::Flag;
use lk_word::{Layout, MARK, NodeName};

// The place of the first lock's word. Before it stand the number of the next processor and the version.
pub const FIRST_LOCK: usize = 8;
// From one lock's word to the next: a line of the cache. The word behind a lock's is its wait lock.
pub const LOCK_WORDS: usize = 8;
// The words between those of locks and those of nodes: as many as there can be balances.
pub const BALANCES: usize = 64;
// The words of the nodes of a processor.
pub const CPU_WORDS: usize = 16;
// The words of a node.
pub const NODE_WORDS: usize = 4;
// The words of a processor that only the family has whose processors halt.
pub const HALTING_WORDS: usize = 16;
/// The nodes of a processor. Each has a word for its state there, and there are as many places in the hash.
pub const NODES: usize = 4;
/// From one kick word to the next: a line of the cache.
pub const KICK_WORDS: usize = 8;

impl Plan {
    /// How the words of its locks are laid out.
    #[inline]
    pub fn layout(&self) -> Layout
        ensures { result ≡ layout_in self.now }
    {
        match self.format {
            Format::One => Layout::Narrow,
            Format::Two => Layout::Wide,
        }
    }

    /// Where the word of a lock stands, which is no wait lock.
    #[inline]
    pub fn lock_word(&self, lock: u32) -> usize
        requires lawful { IsRunningPlan self.now }
        requires lock { lock < locks_of self.now }
        ensures { result ≡ lock_at lock }
    {
        prove!(self.locks.len() <= MOST_LOCKS);
        FIRST_LOCK + LOCK_WORDS * lock as usize
    }

    /// Where the word of a lock or a wait lock stands.
    #[inline]
    pub fn word_of(&self, name: LockName) -> usize
        requires lawful { IsRunningPlan self.now }
        requires lock { name.index < locks_of self.now }
        ensures { result ≡ word_at name }
    {
        prove!(self.locks.len() <= MOST_LOCKS);
        let word = self.lock_word(name.index);
        if name.wait { word + 1 } else { word }
    }

    /// Where the balances begin, behind the words of the locks.
    #[inline]
    pub fn first_balance(&self) -> usize
        requires { IsRunningPlan self.now }
        ensures { result ≡ balance_at self.now 0 }
    {
        prove!(self.locks.len() <= MOST_LOCKS);
        FIRST_LOCK + LOCK_WORDS * self.locks.len()
    }

    /// Where the words of nodes begin.
    #[inline]
    pub fn first_node(&self) -> usize
        requires { IsRunningPlan self.now }
        ensures { result ≡ first_node self.now }
    {
        prove!(self.locks.len() <= MOST_LOCKS);
        self.first_balance() + BALANCES
    }

    /// Where the words begin that only the family has whose processors halt, behind those of the nodes.
    #[inline]
    pub fn first_state(&self) -> usize
        requires { IsRunningPlan self.now }
        ensures { result ≡ far_of self.now }
    {
        prove!(self.locks.len() <= MOST_LOCKS);
        prove!(self.topology.sockets.len() <= MOST_CPUS);
        self.first_node() + CPU_WORDS * self.topology.sockets.len()
    }

    /// Where a word of a node stands.
    #[inline]
    pub fn node_of(&self, node: NodeName, part: Part) -> usize
        requires lawful { IsRunningPlan self.now }
        requires node { IsNode self.now node }
        ensures { result ≡ node_at self.now node part }
    {
        prove!(self.locks.len() <= MOST_LOCKS);
        prove!(self.topology.sockets.len() <= MOST_CPUS);
        let place = part.index();
        prove!(place < NODE_WORDS);
        self.first_node()
            + place
            + (CPU_WORDS * node.cpu as usize + NODE_WORDS * node.index as usize)
    }

    /// What a tail's index counts for in a word. What is below it is no part of the tail.
    #[inline]
    pub fn tail_unit(&self) -> u64
        ensures { result ≡ index_unit (layout_in self.now) }
    {
        lk_word::tail_unit(self.layout())
    }

    /// The number of the word of a free lock with this node as the tail.
    #[inline]
    pub fn tail_of(&self, node: NodeName) -> u64
        requires lawful { IsRunningPlan self.now }
        requires node { IsNode self.now node }
        ensures { result ≡ tail_number (layout_in self.now) (Some node) }
    {
        lk_word::tail_number(self.layout(), node)
    }

    // The number of a flag.
    pub(crate) fn flag_of(&self, flag: Flag) -> u64
        requires lawful { IsRunningPlan self.now }
        requires flag { IsFlagNode self.now flag }
        ensures { result ≡ flag_number flag }
    {
        match flag {
            Flag::Unset => 0,
            Flag::Go => 1,
            Flag::Second(node) => self.name_of(node),
        }
    }

    // The number of a link to a node, with its mark.
    pub(crate) fn link_of(&self, link: Link) -> u64
        requires lawful { IsRunningPlan self.now }
        requires node { IsNode self.now link.node }
        ensures { result ≡ marked link.mark (name_number link.node) }
    {
        prove!(self.topology.sockets.len() <= MOST_CPUS);
        let name = self.name_of(link.node);
        if link.mark { MARK + name } else { name }
    }

    // The number of a node.
    pub(crate) fn name_of(&self, node: NodeName) -> u64
        requires lawful { IsRunningPlan self.now }
        requires node { IsNode self.now node }
        ensures { result ≡ name_number node }
    {
        prove!(self.topology.sockets.len() <= MOST_CPUS);
        lk_word::name_number(node)
    }
}
