// New processors.
ghost use Rattle.std.specs.Prelude.{◌≡◌, ◌≢◌, ◌⊎◌, IfOk, length, map, true};
ghost use Rattle.lk_domain.specs.declared.domain.Domain.{Domain};
ghost use Rattle.lk_port.specs.Opened.{ArePortsOf};
ghost use Rattle.qlock_c.specs.Opened.{AreEmpty, AreHandlesOf, AreOpen, ArePorts};
ghost use Rattle.qlock_c.specs.Opened.{family_numbered, kind_numbered};

use crate::codes::{IN_USE, MEMORY, RANGE, fault_code};
use crate::processor::{Processor, put, take};
use lk_domain::{MOST_CPUS, MOST_LOCKS};
use lk_names::{Kind, List, Memory};
use lk_port::{Family, Port, open};
use std::alloc::Global;

// The family of a number.
fn family_of(family: u32) -> Option<Family>
    ensures { result ≡ family_numbered family }
{
    match family {
        0 => Some(Family::Virt),
        1 => Some(Family::Native),
        2 => Some(Family::Cna),
        3 => Some(Family::Pv),
        _ => None,
    }
}

// The kind of a number.
fn kind_of(kind: u8) -> Kind
    ensures { result ≡ kind_numbered kind }
{
    if kind == 1 { Kind::Rw } else { Kind::Spin }
}

// The kinds of the locks.
fn kinds_of(alloc: Global, kinds: &[u8]) -> Result<List<Kind>, Memory>
    ensures { IfOk result (λ all. all.items ≡ map kind_numbered kinds.now) }
{
    let mut all = List::new(alloc, kinds.len())?;
    for i in 0..kinds.len() {
        all.push(kind_of(kinds[i]));
    }
    Ok(all)
}

// Whether all numbers are those of kinds.
fn are_kinds(kinds: &[u8]) -> bool {
    for i in 0..kinds.len() {
        if kinds[i] > 1 {
            return false;
        }
    }
    true
}

// Whether no handle is in use.
fn are_empty(cpus: &[Processor]) -> bool
    ensures { result ≡ true → AreEmpty cpus.now }
{
    for i in 0..cpus.len() {
        if cpus[i].used {
            return false;
        }
    }
    true
}

// Empties the handles again.
fn empty_all(alloc: Global, cpus: &mut [Processor])
    ensures { AreEmpty cpus.new }
{
    for i in 0..cpus.len() {
        if let Some(port) = take(alloc, &mut cpus[i]) {
            drop(port);
        }
    }
}

// Puts the ports of a domain into the handles, the last one first. False: there is not enough memory.
fn put_all(alloc: Global, mut ports: Vec<Port>, cpus: &mut [Processor]) -> bool
    requires { length ports.items ≡ length cpus.old }
    ensures many { length cpus.new ≡ length cpus.old }
    ensures each { result ≡ true → (domain : Domain)
        → ArePortsOf domain (length cpus.old) ports.items → AreHandlesOf domain cpus.new }
{
    for i in 0..cpus.len() {
        let Some(port) = ports.pop() else {
            return false;
        };
        let Ok(port) = Box::new(alloc, port) else {
            return false;
        };
        put(&mut cpus[i], port);
    }
    true
}

// A new domain, whose processors are put into the handles, all of which are empty.
fn open_empty(
    alloc: Global,
    family: Family,
    kinds: &[u8],
    sockets: &[u32],
    threshold: u32,
    cpus: &mut [Processor],
) -> u32
    requires many { length cpus.old ≡ length sockets.now }
    requires empty { AreEmpty cpus.old }
    ensures opened { result ≡ 0 → ArePorts family kinds.now sockets.now threshold cpus.new }
    ensures refused { result ≢ 0 → AreEmpty cpus.new }
{
    let Ok(locks) = kinds_of(alloc, kinds) else {
        return MEMORY;
    };
    let Ok(sockets) = List::from_slice(alloc, sockets) else {
        return MEMORY;
    };
    let ports = match open(alloc, family, locks, sockets, threshold) {
        Ok(ports) => ports,
        Err(fault) => return fault_code(fault),
    };
    if put_all(alloc, ports, cpus) {
        return 0;
    }
    empty_all(alloc, cpus);
    MEMORY
}

// A new domain, whose processors are put into the handles.
pub(crate) fn open_all(
    alloc: Global,
    family: u32,
    kinds: &[u8],
    sockets: &[u32],
    threshold: u32,
    cpus: &mut [Processor],
) -> u32
    ensures opened { result ≡ 0 → AreOpen family kinds.now sockets.now threshold cpus.new }
    ensures refused { result ≢ 0 → (cpus.new ≡ cpus.old)
        ⊎ (AreEmpty cpus.old × AreEmpty cpus.new) }
{
    let Some(family) = family_of(family) else {
        return RANGE;
    };
    if sockets.len() > MOST_CPUS
        || kinds.len() > MOST_LOCKS
        || cpus.len() != sockets.len()
        || !are_kinds(kinds)
    {
        return RANGE;
    }
    if !are_empty(cpus) {
        return IN_USE;
    }
    open_empty(alloc, family, kinds, sockets, threshold, cpus)
}
