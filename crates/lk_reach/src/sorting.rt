// The processors that are alike, sorted by what they do. Whoever follows an order checks it, so
// nothing is claimed here: from another order there come more states, and never a wrong answer.

ghost use Rattle.std.specs.Prelude.{◌<◌, ◌≤◌, ℕ, length};
ghost use Rattle.lk_rows.specs.Programs.{HasPrograms};

use crate::forms::has_owner;
use crate::key::MAX_CPUS;
use crate::order::Order;
use crate::peers::Peers;
use lk_idle::rested;
use lk_machine::{MAX_NODES, Machine};
use lk_rows::{Flag, Frame, Node, Pc, State};
use lk_word::NodeName;
use std::hash::{FoldHasher, Hasher};

// For each processor a number of what it does.
type Shapes = [u64; MAX_CPUS];

// Two numbers in one. They do not count alike.
fn mixed(one: u64, other: u64) -> u64 {
    let mut hasher = FoldHasher::default();
    hasher.write_u64(one);
    hasher.write_u64(other);
    hasher.finish()
}

// The lowest byte of a number.
fn byte(number: u32) -> u8 {
    (number & 0xff) as u8
}

// A node's name as a processor sees it: none, one of its own nodes, or one of another processor's.
fn name_byte(cpu: u32, name: Option<NodeName>) -> u8 {
    match name {
        None => 0,
        Some(name) if name.cpu == cpu => byte(name.index).wrapping_add(1),
        Some(name) => byte(name.index).wrapping_add(65),
    }
}

// A row, or none.
fn row_byte(place: Option<Pc>) -> u8 {
    match place {
        None => 0,
        Some(row) => byte(row as u32).wrapping_add(1),
    }
}

// A flag, as a processor sees it.
fn flag_byte(cpu: u32, flag: Flag) -> u8 {
    match flag {
        Flag::Unset => 0,
        Flag::Go => 1,
        Flag::Second(name) => name_byte(cpu, Some(name)).wrapping_add(2),
    }
}

fn state_byte(state: State) -> u8 {
    match state {
        State::Running => 0,
        State::Halted => 1,
        State::Hashed => 2,
    }
}

// Feeds a frame of a processor to a hasher.
fn feed_frame(hasher: &mut FoldHasher, cpu: u32, frame: &Frame) {
    hasher.write(&[
        byte(frame.program),
        byte(frame.at),
        row_byte(frame.place),
        row_byte(frame.then),
        byte(frame.lock.index),
        u8::from(frame.lock.wait),
        name_byte(cpu, frame.me),
        name_byte(cpu, frame.prev),
        name_byte(cpu, frame.second),
        name_byte(cpu, frame.y),
        name_byte(cpu, frame.a),
        name_byte(cpu, frame.b),
        name_byte(cpu, frame.t),
        name_byte(cpu, frame.target),
        byte(frame.k),
        byte(frame.left),
        u8::from(frame.tailed),
        u8::from(frame.hashed),
    ]);
}

// Feeds a node of a processor to a hasher.
fn feed_node(hasher: &mut FoldHasher, cpu: u32, node: &Node) {
    hasher.write(&[
        flag_byte(cpu, node.flag),
        name_byte(cpu, node.next),
        name_byte(cpu, node.second_tail),
        byte(node.runs),
        state_byte(node.state),
    ]);
}

// Feeds a node of a processor to a hasher. Of one that no frame has, its state alone counts.
fn feed_own(hasher: &mut FoldHasher, machine: &Machine, cpu: u32, index: u32)
    requires cpu { cpu < length machine.now.cpus }
    requires index { index < 4 }
{
    let node = machine.node(NodeName { cpu, index });
    if has_owner(machine, cpu, index) {
        feed_node(hasher, cpu, &node);
    } else {
        hasher.write(&[state_byte(node.state)]);
    }
}

// Feeds the nodes of a processor to a hasher.
fn feed_nodes(hasher: &mut FoldHasher, machine: &Machine, cpu: u32)
    requires { cpu < length machine.now.cpus }
{
    for index in 0..MAX_NODES as u32 {
        feed_own(hasher, machine, cpu, index);
    }
}

// A number of what a processor does, in which no other processor is named.
fn shape(machine: &Machine, cpu: u32) -> u64
    requires cpu { cpu < length machine.now.cpus }
    requires programs { HasPrograms machine.now.setup cpu }
{
    let mut hasher = FoldHasher::default();
    hasher.write(&[
        byte(machine.queued(cpu)),
        byte(machine.handlers_left(cpu)),
        u8::from(machine.preempted(cpu)),
        u8::from(machine.halted(cpu)),
        u8::from(machine.kicked(cpu)),
    ]);
    for ctx in 0..machine.depth(cpu) {
        feed_frame(&mut hasher, cpu, &rested(machine.frame_at(cpu, ctx)));
    }
    feed_nodes(&mut hasher, machine, cpu);
    hasher.finish()
}

// For each processor a number of what it does.
fn shapes_of(machine: &Machine) -> Shapes
    requires few { length machine.now.cpus ≤ 8 }
    requires programs { (p : ℕ) → p < length machine.now.cpus → HasPrograms machine.now.setup p }
{
    let mut shapes = [0; MAX_CPUS];
    for cpu in 0..machine.cpus() {
        shapes[cpu as usize] = shape(machine, cpu);
    }
    shapes
}

// Adds to two processors that the one names the other, in this place.
fn add_name(links: &mut Shapes, shapes: &Shapes, cpu: u32, place: u64, name: Option<NodeName>) {
    let Some(name) = name else {
        return;
    };
    let (from, to) = (cpu as usize, name.cpu as usize);
    if from < MAX_CPUS && to < MAX_CPUS {
        links[from] = links[from].wrapping_add(mixed(place, shapes[to]));
        links[to] = links[to].wrapping_add(mixed(place.wrapping_add(64), shapes[from]));
    }
}

// Adds whom a frame of a processor names.
fn add_frame(links: &mut Shapes, shapes: &Shapes, cpu: u32, frame: &Frame) {
    add_name(links, shapes, cpu, 0, frame.prev);
    add_name(links, shapes, cpu, 1, frame.second);
    add_name(links, shapes, cpu, 2, frame.y);
    add_name(links, shapes, cpu, 3, frame.a);
    add_name(links, shapes, cpu, 4, frame.b);
    add_name(links, shapes, cpu, 5, frame.t);
    add_name(links, shapes, cpu, 6, frame.target);
}

// Adds whom a node of a processor names, if a frame has the node.
fn add_node(links: &mut Shapes, shapes: &Shapes, machine: &Machine, cpu: u32, index: u32)
    requires cpu { cpu < length machine.now.cpus }
    requires index { index < 4 }
{
    if !has_owner(machine, cpu, index) {
        return;
    }
    let node = machine.node(NodeName { cpu, index });
    add_name(links, shapes, cpu, 7, node.next);
    add_name(links, shapes, cpu, 8, node.second_tail);
    if let Flag::Second(name) = node.flag {
        add_name(links, shapes, cpu, 9, Some(name));
    }
}

// Adds whom the nodes of a processor name.
fn add_nodes(links: &mut Shapes, shapes: &Shapes, machine: &Machine, cpu: u32)
    requires { cpu < length machine.now.cpus }
{
    for index in 0..MAX_NODES as u32 {
        add_node(links, shapes, machine, cpu, index);
    }
}

// Adds whom a processor names.
fn add_names(links: &mut Shapes, shapes: &Shapes, machine: &Machine, cpu: u32)
    requires { cpu < length machine.now.cpus }
{
    for ctx in 0..machine.depth(cpu) {
        add_frame(links, shapes, cpu, &rested(machine.frame_at(cpu, ctx)));
    }
    add_nodes(links, shapes, machine, cpu);
}

// For each processor a number of whom it names, and of who names it.
fn links_of(machine: &Machine, shapes: &Shapes) -> Shapes {
    let mut links = [0; MAX_CPUS];
    for cpu in 0..machine.cpus() {
        add_names(&mut links, shapes, machine, cpu);
    }
    links
}

// The numbers of what the processors do, with those of whom they name.
fn linked(machine: &Machine, shapes: &Shapes) -> Shapes {
    let links = links_of(machine, shapes);
    let mut more = [0; MAX_CPUS];
    for cpu in 0..MAX_CPUS {
        more[cpu] = mixed(shapes[cpu], links[cpu]);
    }
    more
}

// Whether two processors are alike, and the first comes before the second.
fn is_before(peers: &Peers, shapes: &Shapes, one: usize, other: usize) -> bool
    requires one { one < 8 }
    requires other { other < 8 }
{
    if peers.firsts[one] != peers.firsts[other] {
        return false;
    }
    shapes[one] < shapes[other] || (shapes[one] == shapes[other] && one < other)
}

// How many that are like a processor come before it.
fn rank(peers: &Peers, shapes: &Shapes, cpus: usize, cpu: usize) -> usize
    requires cpus { cpus ≤ 8 }
    requires cpu { cpu < 8 }
{
    let mut rank = 0usize;
    for other in 0..cpus {
        if is_before(peers, shapes, other, cpu) {
            rank = rank.wrapping_add(1);
        }
    }
    rank
}

// The processor of this rank, by their numbers, among those that are like one.
fn of_rank(peers: &Peers, cpus: usize, cpu: usize, rank: usize) -> usize
    requires cpus { cpus ≤ 8 }
    requires cpu { cpu < 8 }
{
    let mut before = 0usize;
    for other in 0..cpus {
        if peers.firsts[other] == peers.firsts[cpu] {
            if before == rank {
                return other;
            }
            before = before.wrapping_add(1);
        }
    }
    cpu
}

/// New numbers by which the processors that are alike are sorted by what they do.
pub(crate) fn order_of(machine: &Machine, peers: &Peers) -> Order
    requires few { length machine.now.cpus ≤ 8 }
    requires programs { (p : ℕ) → p < length machine.now.cpus → HasPrograms machine.now.setup p }
{
    let shapes = linked(machine, &linked(machine, &shapes_of(machine)));
    let cpus = machine.cpus() as usize;
    let mut order = Order::none();
    for cpu in 0..cpus {
        let to = of_rank(peers, cpus, cpu, rank(peers, &shapes, cpus, cpu));
        if to < MAX_CPUS {
            order.to[cpu] = to as u32;
            order.back[to] = cpu as u32;
        }
    }
    order
}
