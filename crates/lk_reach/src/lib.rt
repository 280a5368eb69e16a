//! All schedules of a small setup. An exploration meets every state that some schedule of a machine at
//! rest reaches, and no other: `explore` claims both. A state is a machine without its counts. States
//! that differ only in what nobody reads before it is written go on alike (`lk_idle`), so of them one
//! is kept, and has a number. A plan may ask to fold states: then one is kept, too, of those that
//! differ only in the numbers of processors that are alike, which go on alike (`lk_renaming`).
//!
//! A state is kept as the numbers of its parts, which stand in tables. A part that is found in a
//! table was compared with the part that was sought. So what the theorem rests on is that
//! comparison, and not how the tables work.
#![tactic(auto)]

mod book;
mod column;
mod copies;
mod crew;
mod deeds;
mod ends;
mod exploring;
mod folding;
mod forms;
mod found;
mod graph;
mod helper;
mod helpers;
mod key;
mod keys;
mod kinds;
mod laws;
mod making;
mod numbers;
mod order;
mod origin;
mod origins;
mod path;
mod peers;
mod plan;
mod recent;
mod seeking;
mod slots;
mod sorting;
mod space;
mod spot;
mod steps;
mod table;
mod touch;
mod ways;

pub use book::Seen;
pub use copies::copy_of;
pub use deeds::{Deed, Sought};
pub use exploring::{Watch, explore};
pub use graph::Graph;
pub use helpers::{Helpers, MAX_HELPERS};
pub use key::MAX_CPUS;
pub use kinds::KINDS;
pub use laws::{alike_states_tell, counts_are_idle, stand_ins_tell};
pub use peers::Peers;
pub use plan::{Extras, Plan};
