//! The ledger of a domain, which lock 0 guards: a write, a read, and all jobs of a worker. Each job
//! is done in a critical section of its own.
#![tactic(auto)]

mod books;
mod gate;
mod pv_region;
mod queries;
mod region;
mod settling;
mod updates;
mod working;

pub use gate::{Gate, OpenGate};
pub use pv_region::PvRegion;
pub use region::Region;
pub use working::{Guarded, writes};
