// The form of a processor's part: the part without what nobody reads before it is written. Those are
// the dead registers of its newest frame, and nodes that no frame has.

ghost use Rattle.std.specs.Prelude.{◌≡◌, ◌<◌, IfOk, OnOk, length, true, false};
ghost use Rattle.lk_rows.specs.Machine.{HasTop, cpu_at};
ghost use Rattle.lk_idle.specs.Free.{freed_node, is_owned, owns};
ghost use Rattle.lk_reach.specs.Space.{HasForm, IsFront, Rests};

use crate::table::CpuTable;
use lk_idle::rested;
use lk_machine::{MAX_FRAMES, MAX_NODES, Machine};
use lk_names::Memory;
use lk_rows::{Flag, Node};
use lk_word::NodeName;
use std::alloc::Global;

// Whether a processor has frames, and no more than it may have.
fn has_top(machine: &Machine, cpu: u32) -> bool
    requires { cpu < length machine.now.cpus }
    ensures { result ≡ true → HasTop machine.now cpu }
{
    let depth = machine.depth(cpu) as usize;
    depth > 0 && depth <= MAX_FRAMES
}

// Sets the dead registers of a processor's newest frame at rest.
fn rest_top(machine: &mut Machine, cpu: u32)
    requires { cpu < length machine.old.cpus }
    ensures { Rests machine.old machine.new cpu }
{
    if has_top(machine, cpu) {
        let frame = machine.frame(cpu);
        machine.set_frame(cpu, rested(frame));
    }
}

// Whether a frame's own node has this index.
fn owns(own: Option<NodeName>, index: u32) -> bool
    ensures { result ≡ owns own index }
{
    match own {
        Some(name) => name.index == index,
        None => false,
    }
}

/// Whether a frame of a processor has its node with this index.
pub(crate) fn has_owner(machine: &Machine, cpu: u32, index: u32) -> bool
    requires { cpu < length machine.now.cpus }
    ensures { result ≡ false → is_owned (cpu_at machine.now cpu).frames index ≡ false }
{
    for ctx in 0..machine.depth(cpu) {
        if owns(machine.frame_at(cpu, ctx).me, index) {
            return true;
        }
    }
    false
}

// A node at rest, but for its state.
fn freed(node: Node) -> Node
    ensures { result ≡ freed_node false node }
{
    Node {
        flag: Flag::Unset,
        next: None,
        second_tail: None,
        runs: 0,
        state: node.state,
    }
}

// Sets a node of a processor at rest, if no frame has it.
fn free_node(machine: &mut Machine, cpu: u32, index: u32)
    requires cpu { cpu < length machine.old.cpus }
    requires index { index < 4 }
    ensures { Rests machine.old machine.new cpu }
{
    if !has_owner(machine, cpu, index) {
        let name = NodeName { cpu, index };
        machine.set_node(name, freed(machine.node(name)));
    }
}

// Sets each node of a processor at rest that no frame has.
fn free_nodes(machine: &mut Machine, cpu: u32)
    requires { cpu < length machine.old.cpus }
    ensures { Rests machine.old machine.new cpu }
{
    for index in 0..MAX_NODES as u32 {
        free_node(machine, cpu, index);
    }
}

/// The number of the form of a processor's part in a table of forms. It gets one if it has none. The
/// machine is as before.
///
/// # Errors
///
/// There is not enough memory.
pub(crate) fn form_number(
    forms: &mut CpuTable,
    alloc: Global,
    machine: &mut Machine,
    cpu: u32,
) -> Result<u32, Memory>
    requires { cpu < length machine.old.cpus }
    ensures form { IfOk result (λ n. HasForm forms.new.items.items n (cpu_at machine.old cpu)) }
    ensures front { IsFront forms.old.items.items forms.new.items.items }
    ensures machine { OnOk result (machine.new ≡ machine.old) }
{
    let part = machine.cpu_part(cpu).copy(alloc)?;
    rest_top(machine, cpu);
    free_nodes(machine, cpu);
    let number = forms.number(alloc, machine.cpu_part(cpu), 0)?;
    machine.put_cpu(cpu, &part);
    Ok(number)
}
