// Numbers for tables of parts. Equal parts have equal numbers, and nothing else is said of them.

use lk_rows::{Flag, Frame, Node, Pc, State};
use lk_word::NodeName;
use std::hash::Hasher;

// The lowest byte of a number.
fn byte(number: u32) -> u8 {
    (number & 0xff) as u8
}

// A node's name, or none.
fn name_byte(name: Option<NodeName>) -> u8 {
    match name {
        None => 0,
        Some(name) => byte(name.cpu.wrapping_mul(4).wrapping_add(name.index)).wrapping_add(1),
    }
}

// A row, or none.
fn row_byte(place: Option<Pc>) -> u8 {
    match place {
        None => 0,
        Some(row) => byte(row as u32).wrapping_add(1),
    }
}

fn flag_byte(flag: Flag) -> u8 {
    match flag {
        Flag::Unset => 0,
        Flag::Go => 1,
        Flag::Second(name) => name_byte(Some(name)).wrapping_add(1),
    }
}

fn state_byte(state: State) -> u8 {
    match state {
        State::Running => 0,
        State::Halted => 1,
        State::Hashed => 2,
    }
}

/// Feeds a frame to a hasher.
pub(super) fn feed_frame<H: Hasher>(hasher: &mut H, frame: &Frame) {
    hasher.write(&[
        byte(frame.program),
        byte(frame.at),
        row_byte(frame.place),
        row_byte(frame.then),
        byte(frame.lock.index),
        u8::from(frame.lock.wait),
        name_byte(frame.me),
        name_byte(frame.prev),
        name_byte(frame.second),
        name_byte(frame.y),
        name_byte(frame.a),
        name_byte(frame.b),
        name_byte(frame.t),
        name_byte(frame.target),
        byte(frame.k),
        byte(frame.left),
        u8::from(frame.tailed),
        u8::from(frame.hashed),
    ]);
}

/// Feeds a node to a hasher.
pub(super) fn feed_node<H: Hasher>(hasher: &mut H, node: &Node) {
    hasher.write(&[
        flag_byte(node.flag),
        name_byte(node.next),
        name_byte(node.second_tail),
        byte(node.runs),
        state_byte(node.state),
    ]);
}
