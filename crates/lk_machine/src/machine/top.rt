// The frames of a processor, and what its newest one meets and tells.

ghost use Rattle.std.specs.Prelude.{◌≡◌, ◌<◌, ◌-◌, Some, length};
ghost use Rattle.lk_rows.specs.Machine.{HasTop, top_frame, frame_at, depth_at, word_at, rw_at, set_top};
ghost use Rattle.lk_machine.specs.Ready.{IsReady};
ghost use Rattle.lk_word.specs.RwWord.{IsPackableRw};

use crate::machine::Machine;
use lk_names::{Event, LockName, Waiter, What};
use lk_rows::{Frame, Pc};
use lk_word::{Fields, RwFields};

impl Machine {
    /// A copy of the newest frame of a processor.
    #[inline]
    #[tactic(auto, unfolding(lk_rows::specs::Machine::frame_at, lk_rows::specs::Machine::depth_at, lk_rows::specs::Machine::cpu_at))]
    pub fn frame(&self, cpu: u32) -> Frame
        requires { HasTop self.now cpu }
        ensures { result ≡ top_frame self.now cpu }
    {
        let state = &self.cpus[cpu as usize];
        state.frames[state.frames.len() - 1]
    }

    /// Stores the newest frame of a processor.
    #[inline]
    #[tactic(auto, unfolding(lk_rows::specs::Machine::set_top, lk_rows::specs::Machine::set_cpu, lk_rows::specs::Machine::depth_at, lk_rows::specs::Machine::cpu_at))]
    pub fn set_frame(&mut self, cpu: u32, frame: Frame)
        requires { HasTop self.old cpu }
        ensures { self.new ≡ set_top self.old cpu frame }
    {
        let state = &mut self.cpus[cpu as usize];
        let top = state.frames.len() - 1;
        state.frames[top] = frame;
    }

    /// Stores the row at which the newest frame of a processor stands.
    #[inline]
    #[tactic(auto, unfolding(lk_rows::specs::Machine::set_top, lk_rows::specs::Machine::set_cpu, lk_rows::specs::Machine::frame_at, lk_rows::specs::Machine::depth_at, lk_rows::specs::Machine::cpu_at))]
    pub fn set_place(&mut self, cpu: u32, place: Pc)
        requires { HasTop self.old cpu }
        ensures { self.new
            ≡ set_top self.old cpu (record (top_frame self.old cpu) { place = Some place }) }
    {
        let state = &mut self.cpus[cpu as usize];
        let top = state.frames.len() - 1;
        state.frames[top].place = Some(place);
    }

    /// A copy of the frame of a processor in this context (interrupt nesting level).
    #[inline]
    #[tactic(auto, unfolding(lk_rows::specs::Machine::frame_at, lk_rows::specs::Machine::depth_at, lk_rows::specs::Machine::cpu_at))]
    pub fn frame_at(&self, cpu: u32, ctx: u32) -> Frame
        requires cpu { cpu < length self.now.cpus }
        requires ctx { ctx < depth_at self.now cpu }
        ensures { frame_at self.now (record { cpu = cpu; ctx = ctx }) ≡ Some result }
    {
        let state = &self.cpus[cpu as usize];
        state.frames[ctx as usize]
    }

    /// The number of frames of a processor, which is 1 with no interrupt.
    #[inline]
    #[tactic(auto, unfolding(lk_rows::specs::Machine::depth_at, lk_rows::specs::Machine::cpu_at))]
    pub fn depth(&self, cpu: u32) -> u32
        requires { cpu < length self.now.cpus }
        ensures { result ≡ depth_at self.now cpu }
    {
        let state = &self.cpus[cpu as usize];
        state.frames.len() as u32
    }

    /// The row at which the newest frame of a processor stands, or `None` if its program has
    /// ended.
    #[inline]
    #[tactic(auto, unfolding(lk_rows::specs::Machine::frame_at, lk_rows::specs::Machine::depth_at, lk_rows::specs::Machine::cpu_at))]
    pub fn place(&self, cpu: u32) -> Option<Pc>
        requires { HasTop self.now cpu }
        ensures { result ≡ (top_frame self.now cpu).place }
    {
        let state = &self.cpus[cpu as usize];
        let top = state.frames.len() - 1;
        state.frames[top].place
    }

    /// The lock on which the newest frame of a processor acts.
    #[inline]
    pub fn lock(&self, cpu: u32) -> LockName
        requires { HasTop self.now cpu }
        ensures { result ≡ (top_frame self.now cpu).lock }
    {
        self.frame(cpu).lock
    }

    /// The word of the spinlock or wait lock on which the newest frame of a processor acts.
    #[inline]
    pub fn word_met(&self, cpu: u32) -> Fields
        requires { IsReady self.now cpu }
        ensures { result ≡ word_at self.now (top_frame self.now cpu).lock }
    {
        self.word(self.lock(cpu))
    }

    /// The word of the reader-writer lock on which the newest frame of a processor acts.
    #[inline]
    pub fn rw_met(&self, cpu: u32) -> RwFields
        requires { IsReady self.now cpu }
        ensures fields { result ≡ rw_at self.now (top_frame self.now cpu).lock.index }
        ensures packable { IsPackableRw result }
    {
        self.rw(self.lock(cpu).index)
    }

    /// An event with this content, of the waiter whose frame is the newest of a processor.
    #[inline]
    pub fn event(&self, cpu: u32, what: What) -> Event
        requires { HasTop self.now cpu }
        ensures { result
            ≡ record {
              by = record {
                cpu = cpu;
                ctx =
                    (top_frame self.now cpu).ctx;
              };
              what = what;
            } }
    {
        let ctx = self.frame(cpu).ctx;
        Event {
            by: Waiter { cpu, ctx },
            what,
        }
    }
}
