//! The number by which a word of a queue node names another node.
//!
//! Linux has pointers there. The number is 2 plus four times the processor plus the index, so that a
//! flag can be 0 or 1 beside it, and a word of 0 names no node.

ghost use Rattle.std.specs.Prelude.{◌≡◌, ◌^◌, ◌<◌, ◌≤◌};
ghost use Rattle.lk_word.specs.NodeWord.{name_number as number_of, node_of_name as numbered};

use crate::spin_word::NodeName;

/// The lowest number that names a node. Lower numbers name none.
pub const LOWEST_NODE: u64 = 2;

// How many nodes a processor has.
const NODES: u64 = 4;

/// What the mark of a link adds to the number of the node that it names.
pub const MARK: u64 = 0x1_0000_0000;

/// The number of a node.
#[inline]
pub fn name_number(node: NodeName) -> u64
    ensures { result ≡ number_of node }
{
    LOWEST_NODE + (NODES * node.cpu as u64 + node.index as u64)
}

/// The node that a number names. A link's mark has to be taken off before.
#[inline]
pub fn node_of_name(number: u64) -> NodeName
    requires names { 2 ≤ number }
    requires unmarked { number < 2 ^ 32 }
    ensures { result ≡ numbered number }
{
    let place = number - LOWEST_NODE;
    NodeName {
        cpu: (place / NODES) as u32,
        index: (place % NODES) as u32,
    }
}
