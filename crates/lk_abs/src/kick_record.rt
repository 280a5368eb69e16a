// What the events so far say of halts and kicks, kept in memory.
ghost use Rattle.std.specs.Prelude.{◌≡◌, ◌^◌, ◌<◌, ◌≤◌, ◌+◌, ◌*◌, [], IfOk, length, All};
ghost use Rattle.lk_names.specs.Kicks.{kicks_of, kicks_told};
ghost use Rattle.lk_abs.specs.NoKick.{is_owed, is_left};
ghost use Rattle.lk_abs.specs.Remembered.{state_of, HasRoom, IsKept, IsNamed, IsRoused, IsToldOn};

use lk_names::{Event, List, Memory, Waiter, What};
use std::alloc::Global;

/// The halts and kicks of the events so far, by waiter and by processor.
#[derive(Drop)]
pub(crate) struct KickRecord {
    /// For each waiter, whether it has halted. A processor has six places, one for each context.
    pub(crate) asleep: List<bool>,
    /// For each processor, how many releases said that a kick of it is pending.
    pub(crate) owing: List<u64>,
    /// For each processor, how many kicks of it were made.
    pub(crate) kicks: List<u64>,
    /// For each processor, whether it remembers a kick.
    pub(crate) kicked: List<bool>,
    /// How many events there were.
    pub(crate) told: u64,
}

/// Ends the halt of each context of the processor.
fn rouse(asleep: &mut List<bool>, cpu: usize)
    requires within { cpu * 6 + 6 < length asleep.old.items + 1 }
    requires small { length asleep.old.items < 6145 }
    ensures roused { IsRoused asleep.old.items asleep.new.items (cpu * 6) 6 }
    ensures room { asleep.new.room ≡ asleep.old.room }
{
    for ctx in 0..6 {
        *asleep.get_mut(cpu * 6 + ctx) = false;
    }
}

impl KickRecord {
    /// A record of up to 1,024 processors: nobody has halted, and no kick is pending. It takes all
    /// its memory here.
    pub(crate) fn new(alloc: Global, processors: usize) -> Result<KickRecord, Memory>
        requires { processors ≤ 1024 }
        ensures kept { IfOk result (λ k. IsKept k) }
        ensures processors { IfOk result (λ k. length k.owing.items ≡ processors) }
        ensures state { IfOk result (λ k. state_of k ≡ kicks_of []) }
        ensures told { IfOk result (λ k. k.told ≡ 0) }
    {
        let asleep = List::filled(alloc, false, processors * 6)?;
        let owing = List::filled(alloc, 0, processors)?;
        let kicks = List::filled(alloc, 0, processors)?;
        let kicked = List::filled(alloc, false, processors)?;
        Ok(KickRecord {
            asleep,
            owing,
            kicks,
            kicked,
            told: 0,
        })
    }

    /// Whether the processor has a kick pending: a release has still to make one, or a kick was
    /// made and has ended no halt yet.
    fn is_owed(&self, cpu: usize) -> bool
        requires within { cpu < length self.now.owing.items }
        requires room { HasRoom self.now }
        ensures { result ≡ is_owed (state_of self.now) cpu }
    {
        *self.kicks.get(cpu) < *self.owing.get(cpu) || *self.kicked.get(cpu)
    }

    /// Whether the waiter has halted and its processor has no kick pending.
    pub(crate) fn is_left(&self, waiter: Waiter) -> bool
        requires cpu { waiter.cpu < length self.now.owing.items }
        requires ctx { waiter.ctx < 6 }
        requires room { HasRoom self.now }
        ensures { result ≡ is_left (state_of self.now) waiter }
    {
        let cpu = waiter.cpu as usize;
        *self.asleep.get(cpu * 6 + waiter.ctx as usize) && !self.is_owed(cpu)
    }

    /// Adds an event to all but the number of events.
    fn step(&mut self, event: &Event)
        requires room { HasRoom self.old }
        requires named { IsNamed (length self.old.owing.items) event.now }
        requires few_owing { All (λ n. n < 2 ^ 63) self.old.owing.items }
        requires few_kicks { All (λ n. n < 2 ^ 63) self.old.kicks.items }
        ensures room { HasRoom self.new }
        ensures told { IsToldOn self.old self.new event.now }
        ensures count { self.new.told ≡ self.old.told }
    {
        let cpu = event.by.cpu as usize;
        match event.what {
            What::Halt { .. } => *self.asleep.get_mut(cpu * 6 + event.by.ctx as usize) = true,
            What::Wake { .. } => {
                rouse(&mut self.asleep, cpu);
                *self.kicked.get_mut(cpu) = false;
            }
            What::Int | What::Nudge => rouse(&mut self.asleep, cpu),
            What::Kick { cpu } => {
                *self.kicks.get_mut(cpu as usize) += 1;
                *self.kicked.get_mut(cpu as usize) = true;
            }
            What::Release { owing, .. } => {
                match owing {
                    Some(cpu) => *self.owing.get_mut(cpu as usize) += 1,
                    None => {}
                }
            }
            What::Take { .. }
            | What::Miss { .. }
            | What::Arrive { .. }
            | What::Pass { .. }
            | What::Flush { .. }
            | What::Promote { .. }
            | What::Leave { .. }
            | What::RTake { .. }
            | What::RRelease { .. }
            | What::WTake { .. }
            | What::WRelease { .. } => {}
        }
    }

    /// Adds an event to the record. There must be fewer than 2^63 events before it.
    pub(crate) fn tell(&mut self, event: &Event)
        requires kept { IsKept self.old }
        requires named { IsNamed (length self.old.owing.items) event.now }
        requires few { self.old.told < 2 ^ 63 }
        ensures kept { IsKept self.new }
        ensures processors { length self.new.owing.items ≡ length self.old.owing.items }
        ensures state { state_of self.new ≡ kicks_told (state_of self.old) event.now }
        ensures told { self.new.told ≡ self.old.told + 1 }
    {
        self.step(event);
        self.told += 1;
    }
}
