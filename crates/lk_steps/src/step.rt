// What an act does.
ghost use Rattle.std.specs.Prelude.{◌≡◌, ◌≤◌, length};
ghost use Rattle.lk_rows.specs.Acts.{processor_of};
ghost use Rattle.lk_steps.specs.Shown.{CanShow};

use crate::idle::{cpu_of, idle_of};
use crate::spot::{Spot, spot_of};
use crate::text::Text;
use lk_machine::Machine;
use lk_names::{Act, Memory, Waiter};
use lk_rows::{Frame, Pc};
use std::alloc::Global;

// The bytes of room for the text of an act, and for the value of a part of the machine.
const TEXT_ROOM: usize = 128;

/// What an act is about to do.
#[derive(Clone, Copy)]
pub(crate) enum Deed {
    /// A step makes this row of the top frame, which operates on this part of the machine.
    Row(Pc, Spot),
    /// An act that is neither a row nor idle.
    Other,
    /// The act changes nothing, for this reason.
    Idle(&'static str),
}

/// What the act is about to do. `frame` is the top frame of its processor.
pub(crate) fn deed_of(machine: &Machine, locks: u32, act: Act, frame: &Frame) -> Deed
    requires { CanShow machine.now locks (processor_of act) }
{
    if let Some(why) = idle_of(machine, act) {
        return Deed::Idle(why);
    }
    let cpu = cpu_of(act);
    match (act, frame.place) {
        (Act::Step(_), Some(place)) if !machine.halted(cpu) => {
            Deed::Row(place, spot_of(place, cpu, frame))
        }
        _ => Deed::Other,
    }
}

// The word of an act in a schedule.
fn act_word(act: Act) -> &'static str {
    match act {
        Act::Step(_) => "step",
        Act::Interrupt(_) => "int",
        Act::Preempt(_) => "pre",
        Act::Resume(_) => "res",
        Act::Nudge(_) => "nudge",
    }
}

// Whether the row is a compare-exchange. It changes its part wherever it meets what it compares with,
// so it failed where its part stays.
fn is_compare_exchange(place: Pc) -> bool {
    match place {
        Pc::F1 | Pc::T2 | Pc::V2 | Pc::U2 => true,
        Pc::G3 | Pc::G8 | Pc::N2 | Pc::C10 => true,
        Pc::H2 | Pc::W7 | Pc::E4 | Pc::E13 | Pc::K1 => true,
        Pc::Wr1 | Pc::Wr3 | Pc::Wr6 | Pc::Y5 => true,
        _ => false,
    }
}

/// The text of an act that was made.
#[derive(Drop)]
pub(crate) struct Step {
    /// Who acted, and what the act did.
    pub(crate) text: Text,
    // The value of the row's part of the machine before the act, and after it.
    met: Text,
    left: Text,
    /// Whether the act decided nothing: it is idle, or it left its part and its frame as they were
    /// and told no event.
    pub(crate) is_vain: bool,
}

impl Step {
    /// No text.
    ///
    /// # Errors
    ///
    /// There is not enough memory.
    pub(crate) fn new(alloc: Global) -> Result<Step, Memory> {
        Ok(Step {
            text: Text::new(alloc, TEXT_ROOM)?,
            met: Text::new(alloc, TEXT_ROOM)?,
            left: Text::new(alloc, TEXT_ROOM)?,
            is_vain: false,
        })
    }

    /// Notes the value of the act's part, before the act is made.
    pub(crate) fn meet(&mut self, machine: &Machine, locks: u32, deed: Deed)
        requires { locks ≤ length machine.now.locks }
    {
        self.met.text.clear();
        if let Deed::Row(_, spot) = deed {
            spot.tell_value(machine, locks, &mut self.met);
        }
    }

    /// Notes the value of the act's part, once the act is made.
    pub(crate) fn leave(&mut self, machine: &Machine, locks: u32, deed: Deed)
        requires { locks ≤ length machine.now.locks }
    {
        self.left.text.clear();
        if let Deed::Row(_, spot) = deed {
            spot.tell_value(machine, locks, &mut self.left);
        }
    }

    // Tells a row, its part, the value of that part before and after, and whether a compare-exchange
    // failed.
    fn tell_row(&mut self, place: Pc, spot: Spot, stays: bool) {
        self.text.row(place);
        self.text.word(" ");
        spot.tell_name(&mut self.text);
        self.text.word(" ");
        self.text.append(&self.met);
        if !stays {
            self.text.word(" -> ");
            self.text.append(&self.left);
        } else if is_compare_exchange(place) {
            self.text.word(", fails");
        }
    }

    /// Puts the text of the act together. `by` is who acted. `is_still` says that the act left its
    /// frame as it was and told no event.
    pub(crate) fn tell(&mut self, by: Waiter, act: Act, deed: Deed, is_still: bool) {
        self.text.text.clear();
        self.text.pair(by.cpu, ".", by.ctx);
        self.text.word(" ");
        let stays = self.met.text.as_str() == self.left.text.as_str();
        match deed {
            Deed::Row(place, spot) => self.tell_row(place, spot, stays),
            Deed::Other => self.text.word(act_word(act)),
            Deed::Idle(why) => {
                self.text.word(act_word(act));
                self.text.word(" idle, ");
                self.text.word(why);
            }
        }
        self.is_vain = match deed {
            Deed::Row(..) => stays && is_still,
            Deed::Other => false,
            Deed::Idle(_) => true,
        };
    }
}
