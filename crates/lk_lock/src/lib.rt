//! Values under locks, as `Mutex<T>` has them: who holds the lock works on the value, and nobody else
//! reaches it.
//!
//! [`Locks`] makes the locks one by one, each with its value: a [`Spin`] is a value under a spinlock, an
//! [`Rw`] one under a reader-writer lock, a [`Shared`] one that readers share. [`Locks::open`] gives the
//! domain in which they are, of the lock family that it is told, and a processor for each thread. A thread
//! makes a [`Seat`] of its processor and calls [`Seat::with`], or takes a lock by [`Held::lock`] until
//! [`Held::unlock`]. [`Open::close`] ends the domain, and then [`Spin::into_value`] and its kin give the
//! values back.
//!
//! What may wait says so by its bound `Wait`. A release of a paravirtual lock may wait; so where waiters
//! halt, [`Seat::try_turn`] stands for [`Seat::try_with`], and a guard is given back and never dropped.
#![tactic(auto)]

mod held;
mod holding;
mod keys;
mod laying;
mod locks;
mod looking;
mod opening;
mod reading;
mod seat;
mod shared;
mod showing;
mod turning;
mod working;
mod writing;

pub use held::Held;
pub use keys::Keys;
pub use lk_domain::{Cpu, Domain};
pub use locks::{Locks, Rw, Spin};
pub use opening::Open;
pub use seat::Seat;
pub use shared::Shared;
