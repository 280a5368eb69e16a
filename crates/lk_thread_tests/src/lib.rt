//! The tests of running locks: handlers that come while a call waits, nested through all contexts,
//! and each call once. They stand beside the tests of everything else, so that neither waits for the
//! other.
#![tactic(auto)]

#[cfg(test)]
mod far_waiters;
#[cfg(test)]
mod handlers;
#[cfg(test)]
mod ledger_calls;
#[cfg(test)]
mod lock_calls;
#[cfg(test)]
mod pv_calls;
#[cfg(test)]
mod pv_halts;
#[cfg(test)]
mod pv_polls;
#[cfg(test)]
mod pv_region;
#[cfg(test)]
mod region_calls;
#[cfg(test)]
mod rw_calls;
#[cfg(test)]
mod stage;
