//! The invariant of the locks, and the laws that each row keeps it.
//!
//! A *world* has the words, the nodes, the frames, and what is known of the processors, as
//! functions of names. It is *sound* with some histories if it agrees with them: that is the
//! invariant (`IsSoundWorld` in `specs/SoundWorld.antt`). A world is a machine of a replay, or the
//! state of locks that threads use. The functions do nothing: their contracts are the laws.
#![tactic(auto)]

mod domains;
mod laws;

pub use domains::{halts_are_kicked, holds_move, nodes_are_free, rest_is_sound, rows_are_led};
pub use laws::{
    aside_are_tasks, choice_rows_keep, every_row_keeps, frames_keep, halts_end, kicks_are_shown,
    main_is_the_shown_walk, main_is_the_walk, nodes_are_used, passes_are_bounded, queue_rows_keep,
    rows_know, rw_rows_keep, rw_rows_know, second_is_the_walk, spin_rows_keep,
};
