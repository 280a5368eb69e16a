//! Locks for callers that no check follows, as those in C: a processor of a domain with the domain
//! behind it, and every misuse that can be seen is answered.
//!
//! A port has the right to step of one processor, and a share of its domain, of whatever family. So a
//! processor is never used with another domain. The domain ends with its last port.
#![tactic(auto)]

mod answer;
mod asking;
mod halting;
mod last;
mod opening;
mod pending;
mod polling;
mod port;
mod read;
mod share;
mod spin;
mod write;

pub use answer::{Answer, Freed};
pub use opening::{Family, Fault, open};
pub use pending::Pending;
pub use port::Port;
