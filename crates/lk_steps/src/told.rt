// A machine whose acts are told.
ghost use Rattle.std.specs.Prelude.{◌≡◌, ◌≤◌, ◌<◌, ◌+◌, IfOk, length};
ghost use Rattle.lk_rows.specs.Acts.{next, processor_of};
ghost use Rattle.lk_rows.specs.Programs.{IsLawfulSetup};

use crate::idle::cpu_of;
use crate::step::{Step, deed_of};
use lk_core::rest_shows;
use lk_machine::Machine;
use lk_names::{Act, Event, Memory, Waiter};
use lk_rows::Setup;
use std::alloc::Global;

/// A machine whose acts are told.
#[derive(Drop)]
pub(crate) struct Told {
    /// The machine.
    pub(crate) machine: Machine,
    /// The number of its locks.
    pub(crate) locks: u32,
    /// The number of acts that were made on it.
    pub(crate) acts: u64,
}

impl Told {
    ghost use Rattle.lk_steps.specs.Told.{CanGoOn};

    /// The machine of a setup, on which no act was made. It takes all its memory here.
    ///
    /// # Errors
    ///
    /// There is not enough memory.
    pub(crate) fn at_rest(alloc: Global, setup: Setup) -> Result<Told, Memory>
        requires { IsLawfulSetup setup }
        ensures ready { IfOk result CanGoOn }
        ensures acts { IfOk result (λ told. told.acts ≡ 0) }
    {
        rest_shows();
        let locks = setup.locks.len() as u32;
        let machine = Machine::new(alloc, setup)?;
        Ok(Told {
            machine,
            locks,
            acts: 0,
        })
    }

    /// Makes the act, puts what it did into `step`, and returns its event. The machine and the
    /// event are what `lk_rows` defines.
    pub(crate) fn act(&mut self, act: Act, step: &mut Step) -> Option<Event>
        requires ready { CanGoOn self.old }
        requires few { self.old.acts < 100000000 }
        requires processor { processor_of act < length self.old.machine.cpus }
        ensures machine { self.new.machine ≡ (next self.old.machine act).0 }
        ensures event { result ≡ (next self.old.machine act).1 }
        ensures ready { CanGoOn self.new }
        ensures acts { self.new.acts ≡ self.old.acts + 1 }
        ensures cpus { length self.new.machine.cpus ≡ length self.old.machine.cpus }
    {
        let cpu = cpu_of(act);
        let frame = self.machine.frame(cpu);
        let deed = deed_of(&self.machine, self.locks, act, &frame);
        step.meet(&self.machine, self.locks, deed);
        let event = lk_core::act(&mut self.machine, act);
        self.acts += 1;
        step.leave(&self.machine, self.locks, deed);
        let by = match event {
            Some(event) => event.by,
            None => Waiter {
                cpu,
                ctx: frame.ctx,
            },
        };
        let is_still = event.is_none() && self.machine.frame(cpu) == frame;
        step.tell(by, act, deed, is_still);
        event
    }
}
