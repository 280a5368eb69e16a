// Where the words stand that only the family has whose waiters halt, and the numbers of the hash.
ghost use Rattle.std.specs.Prelude.{◌≡◌, ◌<◌};
ghost use Rattle.lk_domain.specs.Plans.{cpus_of, locks_of};
ghost use Rattle.lk_domain.specs.Words.{IsNode, hash_at, kick_at, pair_number, places_of, state_at};

use lk_domain::{Domain, KICK_WORDS, MOST_CPUS, MOST_LOCKS, NODES};
use lk_word::NodeName;

// The number of the first pair of a lock and a node, since 0 is an empty place of the hash.
pub(crate) const FIRST_PAIR: u64 = 1;
// What the number of a node counts for in that of a lock and a node: as many as there can be locks.
pub(crate) const LOCKS: u64 = MOST_LOCKS as u64;
// And what a processor counts for there, by its nodes.
pub(crate) const CPU_PAIRS: u64 = NODES as u64 * LOCKS;

// Where the state of a node stands.
pub(crate) fn state_of(domain: &Domain, node: NodeName) -> usize
    requires { IsNode domain.now.plan node }
    ensures { result ≡ state_at domain.now.plan node }
{
    prove!(domain.plan.locks.len() <= MOST_LOCKS);
    prove!(domain.plan.topology.sockets.len() <= MOST_CPUS);
    domain.plan.first_state() + (NODES * node.cpu as usize + node.index as usize)
}

// Where the kick word of a processor stands: whether a kick of it is remembered.
pub(crate) fn kick_of(domain: &Domain, cpu: u32) -> usize
    requires { cpu < cpus_of domain.now.plan }
    ensures { result ≡ kick_at domain.now.plan cpu }
{
    prove!(domain.plan.locks.len() <= MOST_LOCKS);
    prove!(domain.plan.topology.sockets.len() <= MOST_CPUS);
    let cpus = domain.plan.topology.sockets.len();
    domain.plan.first_state() + 2 * NODES * cpus + KICK_WORDS * cpu as usize
}

// The number of a lock and a node, as the hash has them.
pub(crate) fn pair_of(domain: &Domain, lock: u32, node: NodeName) -> u64
    requires lock { lock < locks_of domain.now.plan }
    requires node { IsNode domain.now.plan node }
    ensures { result ≡ pair_number lock node }
{
    prove!(domain.plan.locks.len() <= MOST_LOCKS);
    prove!(domain.plan.topology.sockets.len() <= MOST_CPUS);
    FIRST_PAIR + lock as u64 + LOCKS * (NODES as u64 * node.cpu as u64 + node.index as u64)
}

// How many places the hash has.
pub(crate) fn places(domain: &Domain) -> usize
    ensures { result ≡ places_of domain.now.plan }
{
    prove!(domain.plan.topology.sockets.len() <= MOST_CPUS);
    NODES * domain.plan.topology.sockets.len()
}

// Where a place of the hash stands.
pub(crate) fn place_of(domain: &Domain, place: usize) -> usize
    requires { place < places_of domain.now.plan }
    ensures { result ≡ hash_at domain.now.plan place }
{
    prove!(domain.plan.locks.len() <= MOST_LOCKS);
    prove!(domain.plan.topology.sockets.len() <= MOST_CPUS);
    domain.plan.first_state() + NODES * domain.plan.topology.sockets.len() + place
}
