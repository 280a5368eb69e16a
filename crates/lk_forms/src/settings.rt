// The lines of a header, each by the words behind its keyword.
ghost use Rattle.std.specs.Prelude.{◌≡◌, ◌≤◌, ◌<◌, ◌⊎◌, Ok, Err, IfOk, IfErr, length, []};
ghost use Rattle.lk_names.specs.declared.limits.TheConstants.{MAX_SOCKET};
ghost use Rattle.lk_text.specs.Numbers.{number_of};
ghost use Rattle.lk_forms.specs.Words.{words};
ghost use Rattle.lk_forms.specs.declared.limits.TheConstants.{MAX_LOCKS, MAX_WIDE_CPUS};
ghost use Rattle.lk_forms.specs.Operations.{and_then, or_fault};
ghost use Rattle.lk_forms.specs.declared.answers.Fault.TheVariants.{BadNumber};
ghost use Rattle.lk_forms.specs.Grammar.{mode_of, mode_word, mode_line, most_cpus, cpus_line, numbers_from, sockets_line, threshold_line, spins_line, kind_named, kind_word, next_lock, lock_line, has_program, program_line, handler_line, irq_line};
ghost use Rattle.lk_forms.specs.Agrees.{Agrees, IsAnswer, IsRoomy};

use crate::answers::{Fault, LineRefusal, Which};
use crate::arguments::{cpu_word, number_in, one_word, two_words};
use crate::limits::{MAX_CPUS, MAX_HANDLERS, MAX_LOCKS, MAX_WIDE_CPUS};
use crate::programs::read_ops;
use crate::tables::{no_handlers, no_programs, zero_sockets};
use crate::words::next_word;
use lk_names::{Format, Kind, List, MAX_SOCKET, MAX_TURNS, Mode};
use lk_rows::Setup;
use lk_text::read_number;
use std::alloc::Global;

// The mode that a word is, if it is one.
fn mode_of(word: &[u8]) -> Option<Mode>
    ensures { result ≡ mode_of word.now }
{
    match word {
        b"virt" => Some(Mode::Virt),
        b"native" => Some(Mode::Native),
        b"cna" => Some(Mode::Cna),
        b"pv" => Some(Mode::Pv),
        _ => None,
    }
}

/// The mode that a word says: `virt`, `native`, `cna` or `pv`.
pub fn mode_word(word: &[u8]) -> Result<Mode, LineRefusal>
    ensures { result ≡ mode_word word.now }
{
    mode_of(word).ok_or(LineRefusal::Bad(Fault::UnknownWord))
}

/// `mode m`
pub(crate) fn mode_line(setup: &mut Setup, args: &[u8]) -> Result<(), LineRefusal>
    ensures { Agrees (mode_line setup.old (words args.now)) setup.old setup.new result }
{
    let word = one_word(args)?;
    setup.mode = mode_word(word)?;
    Ok(())
}

// The most processors of a trace of this format.
fn most_cpus(format: Format) -> usize
    ensures value { result ≡ most_cpus format }
    ensures few { result ≤ MAX_WIDE_CPUS }
{
    match format {
        Format::One => MAX_CPUS,
        Format::Two => MAX_WIDE_CPUS,
    }
}

/// `cpus n`
pub(crate) fn cpus_line(alloc: Global, setup: &mut Setup, args: &[u8]) -> Result<(), LineRefusal>
    ensures { Agrees (cpus_line setup.old (words args.now)) setup.old setup.new result }
{
    let word = one_word(args)?;
    let cpus = number_in(1, most_cpus(setup.format) as u64, word)? as usize;
    let sockets = zero_sockets(alloc, cpus)?;
    let progs = no_programs(alloc, cpus)?;
    let irqs = no_handlers(alloc, cpus)?;
    setup.topology.sockets = sockets;
    setup.progs = progs;
    setup.irqs = irqs;
    Ok(())
}

/// `threshold t`
pub(crate) fn threshold_line(setup: &mut Setup, args: &[u8]) -> Result<(), LineRefusal>
    ensures { Agrees (threshold_line setup.old (words args.now)) setup.old setup.new result }
{
    let word = one_word(args)?;
    setup.threshold = number_in(0, MAX_TURNS, word)? as u32;
    Ok(())
}

/// `spins s`
pub(crate) fn spins_line(setup: &mut Setup, args: &[u8]) -> Result<(), LineRefusal>
    ensures { Agrees (spins_line setup.old (words args.now)) setup.old setup.new result }
{
    let word = one_word(args)?;
    setup.spins = number_in(1, MAX_TURNS, word)? as u32;
    Ok(())
}

// The kind that a word is, if it is one.
fn kind_named(word: &[u8]) -> Option<Kind>
    ensures { result ≡ kind_named word.now }
{
    match word {
        b"spin" => Some(Kind::Spin),
        b"rw" => Some(Kind::Rw),
        _ => None,
    }
}

/// The kind of lock that a word names: `spin` or `rw`.
///
/// # Errors
///
/// `UnknownWord`: the word is another.
pub fn kind_word(word: &[u8]) -> Result<Kind, LineRefusal>
    ensures { result ≡ kind_word word.now }
{
    kind_named(word).ok_or(LineRefusal::Bad(Fault::UnknownWord))
}

// The number of the next lock, behind so many locks.
fn next_lock(locks: usize, word: &[u8]) -> Result<(), LineRefusal>
    ensures number { IsAnswer (and_then (or_fault BadNumber (number_of word.now)) (next_lock locks))
        (λ u. locks) result }
    ensures few { IfOk result (λ u. locks < MAX_LOCKS) }
{
    let lock = read_number(word).ok_or(LineRefusal::Bad(Fault::BadNumber))?;
    if lock == locks as u64 && lock < MAX_LOCKS as u64 {
        Ok(())
    } else {
        Err(LineRefusal::Bad(Fault::OutOfRange))
    }
}

/// `lock i kind`
pub(crate) fn lock_line(setup: &mut Setup, args: &[u8]) -> Result<(), LineRefusal>
    requires { setup.old.locks.room ≡ MAX_LOCKS }
    ensures { Agrees (lock_line setup.old (words args.now)) setup.old setup.new result }
{
    let (number, kind) = two_words(args)?;
    next_lock(setup.locks.len(), number)?;
    let kind = kind_word(kind)?;
    setup.locks.push(kind);
    Ok(())
}

/// The number of words.
pub fn count_words(args: &[u8]) -> usize
    ensures { result ≡ length (words args.now) }
{
    let mut count = 0;
    let mut rest = args;
    while let Some((_word, behind)) = next_word(rest) {
        count += 1;
        rest = behind;
    }
    count
}

/// Reads the sockets of `cpus` processors, one number from 0 to 63 for each. There must be exactly
/// so many words.
///
/// # Errors
///
/// `BadNumber` or `OutOfRange`, for the first word that is wrong; or not enough memory.
pub fn read_sockets(alloc: Global, cpus: usize, args: &[u8]) -> Result<List<u32>, LineRefusal>
    requires { length (words args.now) ≡ cpus }
    ensures ok { IfOk result (λ list.
        (numbers_from 0 MAX_SOCKET [] (words args.now) ≡ Ok list.items) × (list.room ≡ cpus)) }
    ensures err { IfErr result (λ why.
        (numbers_from 0 MAX_SOCKET [] (words args.now) ≡ Err why) ⊎ (why ≡ LineRefusal.Memory)) }
{
    let mut sockets = List::new(alloc, cpus)?;
    let mut rest = args;
    while let Some((word, behind)) = next_word(rest) {
        let socket = number_in(0, MAX_SOCKET, word)?;
        sockets.push(socket as u32);
        rest = behind;
    }
    Ok(sockets)
}

/// `sockets s0 s1 ..`
pub(crate) fn sockets_line(alloc: Global, setup: &mut Setup, args: &[u8]) -> Result<(), LineRefusal>
    ensures { Agrees (sockets_line setup.old (words args.now)) setup.old setup.new result }
{
    let cpus = setup.topology.sockets.len();
    if count_words(args) != cpus {
        return Err(LineRefusal::Bad(Fault::WordCount));
    }
    setup.topology.sockets = read_sockets(alloc, cpus, args)?;
    Ok(())
}

// Whether a line `prog` gave the processor a program.
#[tactic(auto, using(std::proofs::lemmas::Option::get_or_from_slice_get))]
fn has_program(setup: &Setup, cpu: usize) -> bool
    requires { cpu < length setup.now.progs.items }
    ensures { result ≡ has_program setup.now cpu }
{
    setup.progs.get(cpu).len() > 0
}

/// `prog p ops`
pub(crate) fn program_line(alloc: Global, setup: &mut Setup, args: &[u8]) -> Result<(), LineRefusal>
    requires { IsRoomy setup.old }
    ensures { Agrees (program_line setup.old (words args.now)) setup.old setup.new result }
{
    let Some((cpu, args)) = next_word(args) else {
        return Err(LineRefusal::Bad(Fault::WordCount));
    };
    let cpu = cpu_word(setup.topology.sockets.len() as u32, cpu)? as usize;
    if has_program(setup, cpu) {
        return Err(LineRefusal::Bad(Fault::Repeated));
    }
    let ops = read_ops(alloc, setup.locks.as_slice(), args)?;
    *setup.progs.get_mut(cpu) = ops;
    Ok(())
}

// One more handler of a processor.
fn handler_line(
    alloc: Global,
    setup: &mut Setup,
    cpu: &[u8],
    args: &[u8],
) -> Result<(), LineRefusal>
    requires { IsRoomy setup.old }
    ensures { Agrees (handler_line setup.old cpu.now (words args.now)) setup.old setup.new result }
{
    let cpu = cpu_word(setup.topology.sockets.len() as u32, cpu)? as usize;
    if setup.irqs.get(cpu).len() >= MAX_HANDLERS {
        return Err(LineRefusal::Limit(Which::Handlers));
    }
    let ops = read_ops(alloc, setup.locks.as_slice(), args)?;
    setup.irqs.get_mut(cpu).push(ops);
    Ok(())
}

/// `irq p ops`
pub(crate) fn irq_line(alloc: Global, setup: &mut Setup, args: &[u8]) -> Result<(), LineRefusal>
    requires { IsRoomy setup.old }
    ensures { Agrees (irq_line setup.old (words args.now)) setup.old setup.new result }
{
    let Some((cpu, args)) = next_word(args) else {
        return Err(LineRefusal::Bad(Fault::WordCount));
    };
    handler_line(alloc, setup, cpu, args)
}
