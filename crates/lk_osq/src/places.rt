// The rows by their labels.

/// A row: one atomic step, named by its label. `docs/OSQ.md` has the table of all rows.
#[derive(Clone, Copy, Debug, PartialEq, Eq)]
pub enum Place {
    /// Resets its node.
    O1,
    /// Exchanges the tail. It acquires the free lock, or arrives behind a predecessor.
    O2,
    /// Stores its predecessor into its own node.
    O3,
    /// Links its node behind its predecessor.
    O4,
    /// Polls its own flag, until it is set or until the processor is asked to give up.
    O5,
    /// Cuts the link from its predecessor, if the link is there.
    Q1,
    /// Reads its own flag once more.
    Q2,
    /// Reads from its own node who its predecessor is now.
    Q3,
    /// Reads the tail, to see whether it is the last.
    Q4,
    /// Swaps the tail back to its predecessor: the last waiter gives up.
    Q5,
    /// Reads the link to its successor.
    Q6,
    /// Grabs the link to its successor.
    Q7,
    /// Stores its predecessor into the node of its successor.
    Q8,
    /// Links its predecessor to its successor: a waiter in the middle gives up.
    Q9,
    /// Frees the lock, if it has no successor.
    X1,
    /// Grabs the link to its successor.
    X2,
    /// Hands the lock off to its successor.
    X3,
    /// Reads the tail, to see whether it is the last.
    X4,
    /// Frees the lock, if it is the last.
    X5,
    /// Reads the link to its successor.
    X6,
    /// Grabs the link to its successor.
    X7,
}
