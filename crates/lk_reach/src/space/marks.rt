// Marks of parts. A part makes a row or none, and is done or not, whichever state has it. There are far
// fewer parts than states, and they are far larger than marks.

ghost use Rattle.std.specs.Prelude.{◌≡◌, ◌≢◌, ◌<◌, ◌≤◌, IfOk, Some, length, replicate, slice_get, true, false};
ghost use Rattle.lk_rows.specs.Machine.{CpuState as CpuValue, Machine as MachineValue};
ghost use Rattle.lk_machine.specs.Parts.{row_of};
ghost use Rattle.lk_idle.specs.Alike.{AreAlike};
ghost use Rattle.lk_reach.specs.declared.key.Key.{Key as KeyValue};
ghost use Rattle.lk_reach.specs.Ends.{AreOvers};
ghost use Rattle.lk_reach.specs.Reach.{AreOver};
ghost use Rattle.lk_reach.specs.Rows.{AreUsed, AreUsedNow, MakesAt, MakesMarked};
ghost use Rattle.lk_reach.specs.Space.{Keeps};

use crate::ends::sight::other_row;
use crate::ends::{is_marked, mark};
use crate::graph::add_mark;
use crate::space::{Space, is_row};
use lk_machine::CpuState;
use lk_names::Memory;
use lk_rows::Pc;
use std::alloc::Global;

// For each of these parts a mark that is not set.
fn unmarked(alloc: Global, parts: &[CpuState]) -> Result<Vec<bool>, Memory>
    ensures { IfOk result (λ marks. marks.items ≡ replicate (length parts.now) false) }
{
    let marks = vec![in alloc; false; parts.len()]?;
    Ok(marks)
}

// Whether a part is marked, and makes this row.
fn makes_at(parts: &[CpuState], marks: &Vec<bool>, at: usize, row: Pc) -> bool
    requires { at < length parts.now }
    ensures yes { result ≡ true → MakesAt parts.now marks.now.items row at }
    ensures no { result ≡ false → ¬ MakesAt parts.now marks.now.items row at }
{
    if !is_marked(marks, at) {
        return false;
    }
    is_row(parts[at].next_row(), row)
}

// Whether one of the marked parts makes this row.
fn makes_marked(parts: &[CpuState], marks: &Vec<bool>, row: Pc) -> bool
    ensures yes { result ≡ true → MakesMarked parts.now marks.now.items row }
    ensures no { result ≡ false → ¬ MakesMarked parts.now marks.now.items row }
{
    for at in 0..parts.len() {
        if makes_at(parts, marks, at, row) {
            return true;
        }
    }
    false
}

// Whether two of these parts make different rows.
fn differ_at(parts: &[CpuState], part: usize, other: usize) -> bool
    ensures { result ≡ true → (x y : CpuValue) → slice_get parts.now part ≡ Some x
        → slice_get parts.now other ≡ Some y → row_of x ≢ row_of y }
{
    if part == other {
        return false;
    }
    match (parts.get(part), parts.get(other)) {
        (Some(one), Some(next)) => other_row(one.next_row(), next.next_row()),
        _ => false,
    }
}

// For each of these parts whether it is done.
fn overs(alloc: Global, parts: &[CpuState]) -> Result<Vec<bool>, Memory>
    ensures { IfOk result (λ marks. AreOvers parts.now marks.items) }
{
    let mut marks = Vec::with_capacity(alloc, parts.len())?;
    for at in 0..parts.len() {
        add_mark(&mut marks, parts[at].is_over())?;
    }
    Ok(marks)
}

impl Space {
    /// For each part of a processor that was met whether it is done.
    ///
    /// # Errors
    ///
    /// There is not enough memory.
    pub(crate) fn overs(&self) -> Result<Vec<bool>, Memory>
        ensures { IfOk result (λ marks. AreOvers self.now.parts marks.items) }
    {
        let marks = overs(self.alloc, &self.parts.items)?;
        Ok(marks)
    }

    /// Whether the first processors are done at a state, where the parts are marked that are done.
    pub(crate) fn are_over_at(&self, state: usize, cpus: u32, overs: &Vec<bool>) -> bool
        requires there { state < length self.now.keys }
        requires few { cpus ≤ 8 }
        requires overs { AreOvers self.now.parts overs.now.items }
        ensures yes { result ≡ true → (s : MachineValue) → Keeps self.now state s
            → length s.cpus ≡ cpus → AreOver s }
        ensures no { result ≡ false → (s : MachineValue) → Keeps self.now state s
            → length s.cpus ≡ cpus → ¬ AreOver s }
    {
        for cpu in 0..cpus {
            if !is_marked(overs, self.keys.part(state, cpu)) {
                return false;
            }
        }
        true
    }

    /// Whether one of the first processors makes another row at a state than at another one.
    pub(crate) fn makes_other(&self, state: usize, then: usize, cpus: u32) -> bool
        requires few { cpus ≤ 8 }
        requires there { state < length self.now.keys }
        requires other { then < length self.now.keys }
        ensures { result ≡ true → (s t : MachineValue) → Keeps self.now state s
            → Keeps self.now then t → length s.cpus ≡ cpus → length t.cpus ≡ cpus → ¬ AreAlike t s }
    {
        for cpu in 0..cpus {
            let part = self.keys.part(state, cpu);
            let other = self.keys.part(then, cpu);
            if differ_at(&self.parts.items, part, other) {
                return true;
            }
        }
        false
    }

    // Marks the parts of a state's first processors.
    fn mark_parts(&self, marks: &mut Vec<bool>, state: usize, cpus: u32)
        requires there { state < length self.now.keys }
        requires few { cpus ≤ 8 }
        ensures { (key : KeyValue) → slice_get self.now.keys state ≡ Some key
            → AreUsedNow key marks.old.items marks.new.items cpus }
    {
        for cpu in 0..cpus {
            mark(marks, self.keys.part(state, cpu));
        }
    }

    /// For each part of a processor that was met whether some state has it, as that of one of so many
    /// processors.
    ///
    /// # Errors
    ///
    /// There is not enough memory.
    pub(crate) fn used(&self, cpus: u32) -> Result<Vec<bool>, Memory>
        requires { cpus ≤ 8 }
        ensures { IfOk result (λ marks. AreUsed self.now cpus (length self.now.keys) marks.items) }
    {
        let mut marks = unmarked(self.alloc, &self.parts.items)?;
        for state in 0..self.len() {
            self.mark_parts(&mut marks, state, cpus);
        }
        Ok(marks)
    }

    /// Whether one of the marked parts makes this row.
    pub(crate) fn makes_used(&self, marks: &Vec<bool>, row: Pc) -> bool
        ensures yes { result ≡ true → MakesMarked self.now.parts marks.now.items row }
        ensures no { result ≡ false → ¬ MakesMarked self.now.parts marks.now.items row }
    {
        makes_marked(&self.parts.items, marks, row)
    }
}
