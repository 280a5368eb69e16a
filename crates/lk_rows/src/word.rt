// What rows ask of a word, where they lead by it, and the node that a register names. A word is
// written as its tail, its pending bit and its locked byte; 0 is no tail, and `*` is any value.

ghost use Rattle.std.specs.Prelude.{◌≡◌, ◌&&◌, not, if◌then◌else◌};
ghost use Rattle.lk_rows.specs.declared.parts.Pc.TheVariants.{G7, G8, G9};
ghost use Rattle.lk_rows.specs.rows.Cna.{is_held, is_last};
ghost use Rattle.lk_rows.specs.Moves.{is_node, node_of};
ghost use Rattle.lk_rows.specs.rows.Spin.{after_fast, after_pending, to_queue};
ghost use Rattle.lk_rows.specs.rows.Spin.{is_free, is_unlocked};

use crate::parts::{Frame, Pc};
use lk_names::Mode;
use lk_word::{Fields, Locked, NodeName};

/// The word `0,0,1`: a waiter holds the lock, nobody pends and nobody queues.
pub const HELD: Fields = Fields {
    locked: Locked::Held,
    pending: false,
    tail: None,
};

/// Whether the locked byte is free, `*,*,0`: nobody holds the lock.
#[inline]
pub fn is_unlocked(word: Fields) -> bool
    ensures { result ≡ is_unlocked word.locked }
{
    matches!(word.locked, Locked::Free)
}

/// Whether the locked byte is held and not slow, `*,*,1`: the release need not look for a waiter
/// to kick.
#[inline]
pub fn is_held(word: Fields) -> bool
    ensures { result ≡ is_held word.locked }
{
    matches!(word.locked, Locked::Held)
}

/// Whether the word is free, `0,0,0`: nobody holds the lock, nobody pends and nobody queues.
#[inline]
pub fn is_free(word: Fields) -> bool
    ensures { result ≡ is_free word }
{
    is_unlocked(word) && !word.pending && word.tail.is_none()
}

/// Whether the word's tail is this node.
#[inline]
pub fn is_tail(word: Fields, node: NodeName) -> bool
    ensures { result ≡ is_node word.tail node }
{
    match word.tail {
        Some(tail) => tail.cpu == node.cpu && tail.index == node.index,
        None => false,
    }
}

/// Whether the word is `n,0,1`, n being the frame's own node: the lock is held, nobody pends, and
/// nobody queues behind the frame's waiter.
#[inline]
pub fn is_last(frame: Frame, word: Fields) -> bool
    ensures { result ≡ is_last frame word }
{
    is_held(word) && !word.pending && is_tail(word, named(frame.me))
}

/// Whether the word is `n,0,0`, n being this node: the lock is free, nobody pends, and nobody queues
/// behind the node's waiter.
#[inline]
pub fn is_sole(word: Fields, own: NodeName) -> bool
    ensures { result ≡ (is_unlocked word.locked && not word.pending && is_node word.tail own) }
{
    is_unlocked(word) && !word.pending && is_tail(word, own)
}

/// The node that a register names. A register that names none stands for node 0 of processor 0, as
/// in the definitions of the rows.
#[inline]
pub fn named(node: Option<NodeName>) -> NodeName
    ensures { result ≡ node_of node }
{
    node.unwrap_or(NodeName { cpu: 0, index: 0 })
}

/// The row after one that met this word, in a call that has not set the pending bit: G1 if another
/// waiter pends or queues, and else P1, which sets the pending bit.
#[inline]
pub fn to_queue(word: Fields) -> Pc
    ensures { result ≡ to_queue word }
{
    if word.pending || word.tail.is_some() {
        Pc::G1
    } else {
        Pc::P1
    }
}

/// The row after F1, which met this word and found it not free. Mode `virt` goes on to V1, and
/// `pv` to G1. In the other modes P0 reads a word `0,1,0` once more, since its pending waiter is
/// about to acquire the lock.
#[inline]
pub fn after_fast(mode: Mode, word: Fields) -> Pc
    ensures { result ≡ after_fast mode word }
{
    match mode {
        Mode::Virt => Pc::V1,
        Mode::Pv => Pc::G1,
        _ if is_unlocked(word) && word.pending && word.tail.is_none() => Pc::P0,
        _ => to_queue(word),
    }
}

/// The row after P1, which met this word and set the pending bit. If the bit was set before, it is
/// another waiter's, and the call queues (G1). If there is a tail, the call clears the bit again
/// (P2). Else it acquires the lock if that is free (P4), or waits for the holder (P3).
#[inline]
pub fn after_pending(word: Fields) -> Pc
    ensures { result ≡ after_pending word }
{
    if word.pending {
        Pc::G1
    } else if word.tail.is_some() {
        Pc::P2
    } else if is_unlocked(word) {
        Pc::P4
    } else {
        Pc::P3
    }
}

/// The row after G7, in which the queue head with this node met this word. It polls again (G7) while
/// the lock is not free or a waiter pends. Then a head that is alone swaps the word, and so leaves an
/// empty queue (G8), unless there is a secondary queue. Another stores into the byte (G9).
#[inline]
pub fn after_look(word: Fields, own: NodeName, has_second: bool) -> Pc
    ensures { result ≡ (if is_unlocked word.locked && not word.pending
        then (if is_node word.tail own && not has_second then G8 else G9) else G7) }
{
    if !is_unlocked(word) || word.pending {
        Pc::G7
    } else if is_tail(word, own) && !has_second {
        Pc::G8
    } else {
        Pc::G9
    }
}
