// The rows of a call that waits in the queue behind another: W1 to W7, one step each.
ghost use Rattle.std.specs.Prelude.{◌≡◌, ◌<◌, ◌-◌, true, false};
ghost use Rattle.lk_rows.specs.declared.parts.Pc.TheVariants.{E1, W1, W2, W3, W4, W5, W6, W7};
ghost use Rattle.lk_pvdomain.specs.PvWords.{Follows, IsNodeOf, Owns, Spares, Spins, Steps, Turns};
ghost use Rattle.lk_pvdomain.specs.PvWords.{Sleeps, Waits, WaitsAsleep, Wakes};

use crate::call::Queued;
use crate::kicks;
use crate::rest::{PvRest, Spinning};
use crate::states::{self, HALTED, RUNNING};
use lk_domain::{Right, node_moves};
use lk_rows::State;
use lk_word::NodeName;

impl<'a> Queued<'a> {
    // The row W1 reads the own flag. Returns whether it is set: it leads to E1, and else to W2.
    pub(crate) fn spin(&self, seat: &mut Right, spinning: Spinning) -> bool
        requires { Waits self.now W1 (Spares spinning.prev spinning.left) seat.old }
        ensures leads { result ≡ true → Steps self.now W1 (Spares spinning.prev spinning.left)
            E1 Owns seat.old seat.new }
        ensures unset { result ≡ false → Steps self.now W1 (Spares spinning.prev spinning.left)
            W2 (Spares spinning.prev spinning.left) seat.old seat.new }
    {
        node_moves::look_flag(seat, &self.domain.table, &self.domain.plan, self.own) != 0
    }

    // The row W2 reads the state of the predecessor. Returns whether it stops: where that one does
    // not run, or this was the last turn of the spin bound, it leads to W3, and else back to W1.
    pub(crate) fn watch(&self, seat: &mut Right, spinning: Spinning) -> bool
        requires prev { IsNodeOf self.now spinning.prev }
        requires waits { Waits self.now W2 (Spares spinning.prev spinning.left) seat.old }
        ensures stops { result ≡ true → Steps self.now W2 (Spares spinning.prev spinning.left)
            W3 (Follows spinning.prev) seat.old seat.new }
        ensures more { result ≡ false → 1 < spinning.left }
        ensures again { result ≡ false → Steps self.now W2 (Spares spinning.prev spinning.left)
            W1 (Spares spinning.prev (spinning.left - 1)) seat.old seat.new }
    {
        if states::look_state(seat, self.domain, spinning.prev) != RUNNING {
            return true;
        }
        spinning.left <= 1
    }

    // The row W3 stores that it has halted, before it looks at its flag once more (W4). Who hands
    // off stores the flag first, and then reads this.
    pub(crate) fn say_halted(&self, seat: &mut Right, prev: NodeName)
        requires { Waits self.now W3 (Follows prev) seat.old }
        ensures { Steps self.now W3 (Follows prev) W4 (Follows prev) seat.old seat.new }
    {
        states::store_state(seat, self.domain, self.own, State::Halted);
    }

    // The row W4 reads the own flag. Returns whether it is set: it leads to W7, and else to W5.
    pub(crate) fn look_once_more(&self, seat: &mut Right, prev: NodeName) -> bool
        requires { Waits self.now W4 (Follows prev) seat.old }
        ensures set { result ≡ true → Steps self.now W4 (Follows prev) W7 (Follows prev) seat.old
            seat.new }
        ensures unset { result ≡ false → Steps self.now W4 (Follows prev) W5 (Follows prev) seat.old
            seat.new }
    {
        node_moves::look_flag(seat, &self.domain.table, &self.domain.plan, self.own) != 0
    }

    // The row W5 reads the own state. Returns whether that is still halted: it leads to W6, and else
    // to W7.
    pub(crate) fn test_state(&self, seat: &mut Right, prev: NodeName) -> bool
        requires { Waits self.now W5 (Follows prev) seat.old }
        ensures halted { result ≡ true → Steps self.now W5 (Follows prev) W6 (Follows prev) seat.old
            seat.new }
        ensures other { result ≡ false → Steps self.now W5 (Follows prev) W7 (Follows prev) seat.old
            seat.new }
    {
        states::look_state(seat, self.domain, self.own) == HALTED
    }

    // The row W6: the processor halts, until it is kicked. There the call rests.
    pub(crate) fn halt(&self, seat: &mut Right, prev: NodeName) -> Option<PvRest>
        requires prev { IsNodeOf self.now prev }
        requires waits { Waits self.now W6 (Follows prev) seat.old }
        ensures { Turns self.now W6 (Follows prev) result seat.old seat.new }
    {
        kicks::halt(seat, self.domain, self.own);
        Some(PvRest::Halts(prev))
    }

    // Ends the halt where the processor was kicked, which is no row. Returns whether it was: it
    // leads to W7.
    pub(crate) fn wake(&self, seat: &mut Right, prev: NodeName) -> bool
        requires { WaitsAsleep self.now W6 W7 (Follows prev) seat.old }
        ensures kicked { result ≡ true → Wakes self.now W6 W7 (Follows prev) seat.old seat.new }
        ensures sleeps { result ≡ false → Sleeps self.now W6 W7 (Follows prev) seat.old seat.new }
    {
        kicks::is_woken(seat, self.domain, self.own)
    }

    // The row W7 takes back that it has halted, unless its predecessor has made it hashed (K1). It
    // leads to W1, with all turns of the spin bound.
    pub(crate) fn say_running(&self, seat: &mut Right, prev: NodeName)
        requires { Waits self.now W7 (Follows prev) seat.old }
        ensures { Steps self.now W7 (Follows prev) W1 (Spins prev) seat.old seat.new }
    {
        states::rouse(seat, self.domain, self.own, State::Running);
    }
}
