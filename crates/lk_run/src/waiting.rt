// A call that queues, waited for by one loop: turns, and between them what interrupts it.
ghost use Rattle.lk_domain.specs.Seats.{IsOf};
ghost use Rattle.lk_run.specs.Resting.{Arrived};
ghost use Rattle.lk_run.specs.Turns.{Begun, Earns};
ghost use Rattle.lk_run.specs.Words.{Has};

use crate::call::Call;
use crate::irq::{Irq, give_way};
use crate::pacing::Pace;
use lk_domain::Cpu;
use std::sync::Wait;

impl<'a> Call<'a> {
    // From the place to which the first row led that met this word, until it has the lock. It polls
    // after each turn.
    pub(crate) fn wait_on<I: Irq, R: Wait>(&self, cpu: &mut Cpu, rt: &R, irq: &mut I, met: u64)
        requires domain { IsOf cpu.old self.now.domain.now }
        requires begun { Begun (Arrived self.now met) I.nests cpu.old (I.polls irq.old) }
        ensures { Earns (Arrived self.now met) (Has self.now) I.nests cpu.old (I.polls irq.old)
            cpu.new (I.polls irq.new) }
    {
        let Some(mut place) = self.contend(cpu, met) else {
            return;
        };
        let mut pace = Pace::new();
        for _ in rt.forever() {
            give_way(cpu, rt, self.domain, irq);
            pace.pause(place.row());
            match self.turn(cpu, place) {
                None => return,
                Some(next) => {
                    pace.renew(place.row(), next.row());
                    place = next;
                }
            }
        }
        unreachable!()
    }
}
