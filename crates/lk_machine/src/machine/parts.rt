// The part of a machine that is one processor's: it can be copied, compared and put back.

ghost use Rattle.std.specs.Prelude.{◌≡◌, ◌<◌, ◌≤◌, IfOk, length, true, vec_capacity};
ghost use Rattle.lk_rows.specs.Machine.{cpu_at, set_cpu};
ghost use Rattle.lk_machine.specs.Parts.{is_over, row_of};

use crate::machine::number::{feed_frame, feed_node};
use crate::machine::same::{same_frames, same_nodes};
use crate::machine::{CpuState, MAX_FRAMES, Machine};
use lk_names::Memory;
use lk_rows::{Frame, Pc};
use std::alloc::Global;
use std::hash::{FoldHasher, Hasher};

// A copy of frames, with room for those of interrupts.
fn copied(alloc: Global, frames: &[Frame]) -> Result<Vec<Frame>, Memory>
    requires { length frames.now ≤ 6 }
    ensures items { IfOk result (λ copy. copy.items ≡ frames.now) }
    ensures room { IfOk result (λ copy. 6 ≤ vec_capacity copy) }
{
    let mut copy = Vec::with_capacity(alloc, MAX_FRAMES)?;
    copy.extend_from_slice(frames).map_err(|_| Memory)?;
    Ok(copy)
}

impl CpuState {
    /// A copy of the part.
    ///
    /// # Errors
    ///
    /// There is not enough memory.
    pub fn copy(&self, alloc: Global) -> Result<CpuState, Memory>
        ensures { IfOk result (λ copy. copy ≡ self.now) }
    {
        let frames = copied(alloc, &self.frames)?;
        Ok(CpuState {
            frames,
            nodes: self.nodes,
            queued: self.queued,
            preempted: self.preempted,
            halted: self.halted,
            kicked: self.kicked,
            handlers: self.handlers,
        })
    }

    /// Whether the part is the same as another.
    pub fn same(&self, other: &CpuState) -> bool
        ensures { result ≡ true → self.now ≡ other.now }
    {
        if self.queued != other.queued || self.handlers != other.handlers {
            return false;
        }
        if self.preempted != other.preempted {
            return false;
        }
        if self.halted != other.halted {
            return false;
        }
        if self.kicked != other.kicked {
            return false;
        }
        if !same_nodes(&self.nodes, &other.nodes) {
            return false;
        }
        same_frames(&self.frames, &other.frames)
    }

    /// A number for a table of parts.
    pub fn number(&self) -> u64 {
        let mut hasher = FoldHasher::default();
        hasher.write_u32(self.queued);
        hasher.write_u32(self.handlers);
        hasher.write(&[
            u8::from(self.preempted),
            u8::from(self.halted),
            u8::from(self.kicked),
        ]);
        for frame in &self.frames {
            feed_frame(&mut hasher, frame);
        }
        for node in &self.nodes {
            feed_node(&mut hasher, node);
        }
        hasher.finish()
    }

    /// The row that a step of the processor makes, or `None` if it is preempted or halted, or if
    /// the program of its newest frame has ended.
    pub fn next_row(&self) -> Option<Pc>
        ensures { result ≡ row_of self.now }
    {
        if self.preempted || self.halted {
            return None;
        }
        let frame = self.frames.last()?;
        frame.place
    }

    /// Whether the processor is done: its task's program has ended, and no handler of it runs.
    pub fn is_over(&self) -> bool
        ensures { result ≡ is_over self.now }
    {
        self.frames.len() == 1 && self.frames[0].place.is_none()
    }
}

impl Machine {
    /// The part of one processor.
    #[inline]
    #[tactic(auto, unfolding(lk_rows::specs::Machine::cpu_at))]
    pub fn cpu_part(&self, cpu: u32) -> &CpuState
        requires { cpu < length self.now.cpus }
        ensures { result.now ≡ cpu_at self.now cpu }
    {
        &self.cpus[cpu as usize]
    }

    /// Puts back the part of one processor.
    #[tactic(auto, unfolding(lk_rows::specs::Machine::set_cpu))]
    pub fn put_cpu(&mut self, cpu: u32, part: &CpuState)
        requires { cpu < length self.old.cpus }
        ensures { self.new ≡ set_cpu self.old cpu part.now }
    {
        let state = &mut self.cpus[cpu as usize];
        state.frames.clear();
        match state.frames.extend_from_slice(&part.frames) {
            Ok(()) => {}
            Err(_) => unreachable!(),
        }
        state.nodes = part.nodes;
        state.queued = part.queued;
        state.preempted = part.preempted;
        state.halted = part.halted;
        state.kicked = part.kicked;
        state.handlers = part.handlers;
    }
}
