// New numbers for the processors, of which only those change places that are alike.

ghost use Rattle.std.specs.Prelude.{◌≡◌, ◌<◌, ℕ, true};
ghost use Rattle.lk_renaming.specs.Renamed.{renamed_act};
ghost use Rattle.lk_reach.specs.Order.{AreOwn, IsPlaced, renaming_of};
ghost use Rattle.lk_reach.specs.Peers.{number_of};

use crate::key::MAX_CPUS;
use crate::peers::Peers;
use lk_names::Act;

/// New numbers of processors.
#[derive(Clone, Copy)]
pub(crate) struct Order {
    /// The new number of each processor.
    pub to: [u32; MAX_CPUS],
    /// The old number of each.
    pub back: [u32; MAX_CPUS],
}

// The number of a processor among these. Who is not among them has its own.
fn number_of(numbers: &[u32; MAX_CPUS], cpu: u32) -> u32
    ensures { result ≡ number_of numbers.now cpu }
{
    if cpu < 8 { numbers[cpu as usize] } else { cpu }
}

impl Order {
    /// Nobody gets a new number.
    pub(crate) fn none() -> Order
        ensures to { AreOwn result.to }
        ensures back { AreOwn result.back }
    {
        Order {
            to: [0, 1, 2, 3, 4, 5, 6, 7],
            back: [0, 1, 2, 3, 4, 5, 6, 7],
        }
    }

    /// Whether each processor keeps its number.
    pub(crate) fn is_own(&self) -> bool {
        self.to == Order::none().to
    }

    // Whether a processor gets the number of one that is like it, and each is the new number of one.
    fn is_placed(&self, peers: &Peers, cpus: u32, cpu: u32) -> bool
        ensures { result ≡ true → IsPlaced peers.now.firsts cpus self.now cpu }
    {
        let to = number_of(&self.to, cpu);
        if number_of(&self.back, to) != cpu {
            return false;
        }
        if number_of(&self.to, number_of(&self.back, cpu)) != cpu {
            return false;
        }
        if cpu >= cpus {
            return to == cpu;
        }
        to < cpus && number_of(&peers.firsts, to) == number_of(&peers.firsts, cpu)
    }

    /// Whether only such processors change places, of so many, that are alike.
    pub(crate) fn fits(&self, peers: &Peers, cpus: u32) -> bool
        ensures { result ≡ true → (p : ℕ) → p < 8 → IsPlaced peers.now.firsts cpus self.now p }
    {
        for cpu in 0..MAX_CPUS as u32 {
            if !self.is_placed(peers, cpus, cpu) {
                return false;
            }
        }
        true
    }

    /// The act under the new numbers.
    pub(crate) fn act(&self, doing: Act) -> Act
        ensures { result ≡ renamed_act (renaming_of self.now) doing }
    {
        match doing {
            Act::Step(cpu) => Act::Step(number_of(&self.to, cpu)),
            Act::Interrupt(cpu) => Act::Interrupt(number_of(&self.to, cpu)),
            Act::Preempt(cpu) => Act::Preempt(number_of(&self.to, cpu)),
            Act::Resume(cpu) => Act::Resume(number_of(&self.to, cpu)),
            Act::Nudge(cpu) => Act::Nudge(number_of(&self.to, cpu)),
        }
    }
}
