// The nodes, the counts, the rows and the frames of a machine.

use lk_names::LockName;
use lk_word::NodeName;

/// What a paravirtual waiter says of its processor, for others to read (Linux's
/// `enum vcpu_state`).
#[derive(Clone, Copy, Debug, PartialEq, Eq)]
pub enum State {
    /// The processor runs (`vcpu_running`).
    Running,
    /// The waiter has said that its processor will halt, and has not taken that back
    /// (`vcpu_halted`).
    Halted,
    /// The waiter is the queue head, and its node was entered into the hash or is about to be
    /// (`vcpu_hashed`).
    Hashed,
}

/// The flag of a queue node: whether the queue head has handed off to its waiter.
#[derive(Clone, Copy, Debug, PartialEq, Eq)]
pub enum Flag {
    /// Nobody has handed off to the waiter.
    Unset,
    /// The queue head has handed off to it, and there is no secondary queue.
    Go,
    /// The queue head has handed off to it. The secondary queue begins with this node.
    Second(NodeName),
}

/// A queue node (Linux's `struct qnode`). What other processors read of a waiter stands here.
#[derive(Clone, Copy, Debug, PartialEq, Eq)]
pub struct Node {
    /// Whether the queue head has handed off to its waiter.
    pub flag: Flag,
    /// The link: the node behind it, or `None` while none is linked.
    pub next: Option<NodeName>,
    /// In the first node of a secondary queue: the last node of that queue.
    pub second_tail: Option<NodeName>,
    /// How many handoffs were made since the secondary queue became non-empty.
    pub runs: u32,
    /// What its waiter says of its processor, in the paravirtual lock.
    pub state: State,
}

/// The ten counts of a replay. Their names are those of Linux's lock events
/// (`kernel/locking/lock_events_list.h`).
#[derive(Clone, Copy, Debug, PartialEq, Eq)]
pub struct Counts {
    /// Acquisitions by the pending bit (P4).
    pub lock_pending: u64,
    /// Entries into the slow path (G1). In mode `pv`, waiters that became the queue head (E1).
    pub lock_slowpath: u64,
    /// Entries into the slow path with the second node of a processor.
    pub lock_use_node2: u64,
    /// Entries into the slow path with the third node of a processor.
    pub lock_use_node3: u64,
    /// Entries into the slow path with the fourth node of a processor.
    pub lock_use_node4: u64,
    /// Entries into the slow path with no node left.
    pub lock_no_node: u64,
    /// Acquisitions by stealing, in mode `pv` (H2).
    pub pv_lock_stealing: u64,
    /// How often a waiter behind another went on to halt (W4). Not each of these becomes a halt.
    pub pv_wait_node: u64,
    /// How often a queue head went on to halt (E10). Not each of these becomes a halt.
    pub pv_wait_head: u64,
    /// Kicks by a release (U5).
    pub pv_kick_unlock: u64,
}

/// The rows: the atomic steps of the locks. `docs/ROWS.md` has a table of each family.
#[derive(Clone, Copy, Debug, PartialEq, Eq)]
pub enum Pc {
    /// Swaps the free word to held: the fast path.
    F1,
    /// Reads whether the word is free, in a try.
    T1,
    /// Swaps the free word to held, in a try.
    T2,
    /// Stores free into the locked byte: the release.
    U1,
    /// Polls until the word is free, in the test-and-set loop.
    V1,
    /// Swaps the free word to held, in the test-and-set loop.
    V2,
    /// Reads once more a word that had only the pending bit set.
    P0,
    /// Sets the pending bit.
    P1,
    /// Clears the pending bit that it set.
    P2,
    /// Polls until the holder releases, with the pending bit set.
    P3,
    /// Acquires the lock and clears the pending bit.
    P4,
    /// Enters the slow path, and takes a queue node if one is left.
    G1,
    /// Reads once more whether the word is free.
    G2,
    /// Swaps the free word to held, before it joins the queue.
    G3,
    /// Exchanges the tail: it joins the queue.
    G4,
    /// Links its node behind its predecessor's.
    G5,
    /// Polls its own flag until the queue head hands off to it.
    G6,
    /// Polls as the queue head until the lock is free and not pending.
    G7,
    /// Swaps the word to acquire the lock and leave an empty queue.
    G8,
    /// Acquires the lock as the queue head, and leaves the tail in the word.
    G9,
    /// Polls until its successor is linked.
    G10,
    /// Hands off to its successor.
    G11,
    /// Polls until the word is free, without a node.
    N1,
    /// Swaps the free word to held, without a node.
    N2,
    /// Reads its own link, to choose its successor.
    C1,
    /// Reads the link of the last waiter that it passed over.
    C2,
    /// Reads which node is the last of the secondary queue.
    C3,
    /// Links the waiters that it passed over behind the secondary queue.
    C4,
    /// Cuts the waiters that it passed over off from the rest.
    C5,
    /// Stores the new last node of the secondary queue.
    C6,
    /// Stores the count of handoffs for its successor.
    C7,
    /// Hands off to its successor, with the secondary queue.
    C8,
    /// Links the rest of the queue behind the secondary queue, which returns.
    C9,
    /// Swaps the tail to the last of the secondary queue, which returns.
    C10,
    /// Polls whether it may steal the lock.
    H1,
    /// Swaps the free byte to held: it steals the lock.
    H2,
    /// Polls its own flag, behind another waiter.
    W1,
    /// Polls whether its predecessor runs.
    W2,
    /// Stores that it halts.
    W3,
    /// Reads its own flag once more.
    W4,
    /// Reads its own state once more, right before it halts.
    W5,
    /// Halts, as a waiter that has not seen its flag set.
    W6,
    /// Swaps its own state from halted to running.
    W7,
    /// Reads its own state, as the queue head.
    E1,
    /// Stores that it runs.
    E2,
    /// Sets the pending bit, so that nobody steals.
    E3,
    /// Swaps pending and free to held: it acquires the lock.
    E4,
    /// Clears the pending bit.
    E5,
    /// Enters itself into the hash.
    E6,
    /// Exchanges the locked byte with slow.
    E7,
    /// Stores held, since the byte was free.
    E8,
    /// Removes itself from the hash.
    E9,
    /// Stores that it is hashed.
    E10,
    /// Reads whether the byte is still slow, right before it halts.
    E11,
    /// Halts as the queue head.
    E12,
    /// Swaps the tail from its own node to none, as the holder.
    E13,
    /// Polls until its successor is linked, as the holder.
    E14,
    /// Hands off to its successor, as the holder.
    E15,
    /// Swaps the state of the new queue head from halted to hashed.
    K1,
    /// Stores slow into the locked byte.
    K2,
    /// Enters the new queue head into the hash.
    K3,
    /// Swaps the byte from held to free: the paravirtual release.
    U2,
    /// Removes the lock from the hash, and learns whom to kick.
    U3,
    /// Stores free into the slow byte: a kick is pending.
    U4,
    /// Kicks the processor that it found in the hash.
    U5,
    /// Adds a reader.
    R1,
    /// Polls until there is no writer, in an interrupt.
    R2,
    /// Takes the reader back.
    R3,
    /// Adds a reader, with the wait lock held.
    R4,
    /// Polls until there is no writer, with the wait lock held.
    R5,
    /// Swaps the empty word to writer.
    Wr1,
    /// Reads whether the word is empty, with the wait lock held.
    Wr2,
    /// Swaps the empty word to writer, with the wait lock held.
    Wr3,
    /// Sets the waiting bit.
    Wr4,
    /// Polls until there are no readers and no writer.
    Wr5,
    /// Swaps the word from waiting to writer.
    Wr6,
    /// Reads whether a reader may enter, in a try.
    Y1,
    /// Adds a reader, in a try.
    Y2,
    /// Takes the reader back: the try fails.
    Y3,
    /// Reads whether the word is empty, in a try.
    Y4,
    /// Swaps the empty word to writer, in a try.
    Y5,
    /// Takes a reader away: the release of a reader.
    Z1,
    /// Stores that there is no writer: the release of the writer.
    Z2,
}

/// Why a CNA queue head reads the last node of the secondary queue (C3).
#[derive(Clone, Copy, Debug, PartialEq, Eq)]
pub enum Why {
    /// To append the waiters that it passed over.
    Append,
    /// To let the secondary queue return in front of the rest of the main queue.
    Flush,
    /// To let the secondary queue return as the rest of the main queue, in which nobody is linked
    /// behind the head.
    Promotion,
}

/// One context of a processor, which is its task or a nested interrupt: its program, its place in
/// the program, and its registers. A register keeps its value until a row stores another.
#[derive(Clone, Copy, Debug, PartialEq, Eq)]
pub struct Frame {
    /// Its context (interrupt nesting level): 0 is the task, c the c-th nested interrupt.
    pub ctx: u32,
    /// Its program: 0 is the task's, h is that of the h-th handler.
    pub program: u32,
    /// The position of its operation in the program, from 0.
    pub at: u32,
    /// The row that it makes next, or `None` if its program has ended.
    pub place: Option<Pc>,
    /// The lock on which it acts.
    pub lock: LockName,
    /// Its own queue node, while it is in the slow path and got one.
    pub me: Option<NodeName>,
    /// The node of its predecessor, which it met as the tail (G4).
    pub prev: Option<NodeName>,
    /// The first node of the secondary queue.
    pub second: Option<NodeName>,
    /// The node of the successor to which it hands off.
    pub y: Option<NodeName>,
    /// The first node that it passed over; at a flush, the first node of the rest of the main
    /// queue.
    pub a: Option<NodeName>,
    /// The last node that it passed over.
    pub b: Option<NodeName>,
    /// How many waiters it passed over, to move them aside.
    pub k: u32,
    /// The last node of the secondary queue.
    pub t: Option<NodeName>,
    /// Why it reads the last node of the secondary queue.
    pub why: Why,
    /// Whether the word that H1 met had a tail.
    pub tailed: bool,
    /// How many polls are left before it goes on to halt.
    pub left: u32,
    /// Whether its node was entered into the hash since it queued, or the holder is about to enter
    /// it.
    pub hashed: bool,
    /// The node whose processor it kicks.
    pub target: Option<NodeName>,
    /// The row at which it goes on once it has the wait lock.
    pub then: Option<Pc>,
}
