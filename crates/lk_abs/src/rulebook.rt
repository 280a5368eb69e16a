// The rules that a judge goes by.
ghost use Rattle.std.specs.Prelude.{◌≡◌, ◌≤◌, ◌+◌, length, slice_index_or};
ghost use Rattle.lk_names.specs.Lawful.{movable, stays, is_far, lawful_moves};

use lk_names::{Format, List, Mode, Waiter};
use std::marker::Model;

/// The rules: the format, the lock family, the sockets of the processors, and the threshold.
#[derive(Drop)]
pub(crate) struct Rulebook {
    pub(crate) format: Format,
    pub(crate) mode: Mode,
    pub(crate) sockets: List<u32>,
    pub(crate) threshold: u32,
}

impl Model for Rulebook {
    ghost use Rattle.lk_names.specs.Lawful.{Rules};

    ghost Value = { Rules };

    ghost view = { λ r. record {
      format = r.format;
      mode = r.mode;
      sockets = r.sockets.items;
      threshold = r.threshold;
    } };
}

impl Rulebook {
    /// The threshold: the most handoffs that may pass a moved waiter.
    pub(crate) fn threshold(&self) -> u32
        ensures { result ≡ self.now.threshold }
    {
        self.threshold
    }

    /// The socket of a processor.
    fn socket_of(&self, cpu: u32) -> u32
        ensures { result ≡ slice_index_or self.now.sockets cpu 0 }
    {
        match self.sockets.as_slice().get(cpu as usize) {
            Some(socket) => *socket,
            None => 0,
        }
    }

    /// Whether no queue head may move the waiter aside: in format 2, a waiter in an interrupt.
    fn stays(&self, waiter: Waiter) -> bool
        ensures { result ≡ stays self.now.format waiter.ctx }
    {
        match self.format {
            Format::One => false,
            Format::Two => waiter.ctx > 0,
        }
    }

    /// Whether a waiter is not local to the queue head.
    fn is_far(&self, front: Waiter, waiter: Waiter) -> bool
        ensures { result ≡ is_far self.now front waiter }
    {
        !(self.stays(waiter) || self.socket_of(front.cpu) == self.socket_of(waiter.cpu))
    }

    /// How many of these waiters, first to last, are not local to the queue head and have a waiter
    /// behind them.
    fn movable(&self, front: Waiter, behind: &[Waiter]) -> u32
        requires { length behind.now ≤ 6144 }
        ensures { result ≡ movable (is_far self.now front) behind.now }
    {
        for at in 0..behind.len() {
            if at + 1 == behind.len() || !self.is_far(front, behind[at]) {
                return at as u32;
            }
        }
        behind.len() as u32
    }

    /// How many waiters a handoff may move aside.
    pub(crate) fn lawful_moves(&self, main: &[Waiter]) -> u32
        requires { length main.now ≤ 6144 }
        ensures { result ≡ lawful_moves self.now main.now }
    {
        match (self.mode, main.get(0)) {
            (Mode::Cna, Some(front)) => self.movable(*front, &main[1..]),
            _ => 0,
        }
    }
}
