// The names of the kinds of events, and of the counts.

use lk_reach::KINDS;

// How a spinlock is taken.
fn take_name(kind: usize) -> &'static str {
    match kind {
        0 => "take fast",
        1 => "take try",
        2 => "take pending",
        3 => "take virt",
        4 => "take retry",
        5 => "take nonode",
        6 => "take steal",
        7 => "take head",
        _ => "take sole",
    }
}

// The rest of the events of a spinlock up to a handoff.
fn queue_name(kind: usize) -> &'static str {
    match kind {
        9 => "miss",
        10 => "release",
        11 => "release owing",
        12 => "kick",
        13 => "arrive",
        14 => "pass",
        _ => "pass moved",
    }
}

// The events of a secondary queue, and of halts.
fn halt_name(kind: usize) -> &'static str {
    match kind {
        16 => "flush",
        17 => "promote",
        18 => "leave",
        19 => "halt",
        20 => "wake",
        21 => "int",
        _ => "nudge",
    }
}

// The events of readers and writers.
fn rw_name(kind: usize) -> &'static str {
    match kind {
        23 => "rtake fast",
        24 => "rtake irq",
        25 => "rtake queued",
        26 => "rtake try",
        27 => "rrelease",
        28 => "wtake fast",
        29 => "wtake irq",
        30 => "wtake queued",
        31 => "wtake try",
        _ => "wrelease",
    }
}

/// The name of the kind of events with this number.
pub(crate) fn kind_name(kind: usize) -> &'static str {
    if kind < 9 {
        take_name(kind)
    } else if kind < 16 {
        queue_name(kind)
    } else if kind < 23 {
        halt_name(kind)
    } else {
        rw_name(kind)
    }
}

/// The kind of events with this name.
pub(crate) fn kind_named(name: &str) -> Option<usize> {
    for kind in 0..KINDS {
        if kind_name(kind) == name {
            return Some(kind);
        }
    }
    None
}

// The name of the count with this number.
fn count_name(number: usize) -> &'static str {
    match number {
        0 => "lock_pending",
        1 => "lock_slowpath",
        2 => "lock_use_node2",
        3 => "lock_use_node3",
        4 => "lock_use_node4",
        5 => "lock_no_node",
        6 => "pv_lock_stealing",
        7 => "pv_wait_node",
        8 => "pv_wait_head",
        _ => "pv_kick_unlock",
    }
}

/// The count with this name.
pub(crate) fn count_named(name: &str) -> Option<usize> {
    for number in 0..10 {
        if count_name(number) == name {
            return Some(number);
        }
    }
    None
}
