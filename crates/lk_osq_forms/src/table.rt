// The rounds of the processors.
ghost use Rattle.std.specs.Prelude.{◌≡◌, ◌≤◌, ◌<◌, IfOk, length, replicate};
ghost use Rattle.lk_forms.specs.Words.{words};
ghost use Rattle.lk_osq_forms.specs.Lines.{has_rounds, cpus_line, program_line, header_args};
ghost use Rattle.lk_osq_forms.specs.Table.{IsTable, Makes};

use crate::keyword::Keyword;
use lk_forms::{Fault, LineRefusal, MAX_CPUS, cpu_word, no_words, number_in, one_word, two_words};
use lk_names::{List, Memory};
use std::alloc::Global;

/// The most rounds of a processor.
const MAX_ROUNDS: u64 = 64;

/// One processor, with no rounds. Room for all is taken here.
pub(crate) fn one_cpu(alloc: Global) -> Result<List<u32>, Memory>
    ensures table { IfOk result IsTable }
    ensures items { IfOk result (λ rounds. rounds.items ≡ replicate 1 0) }
{
    let mut rounds = List::new(alloc, MAX_CPUS)?;
    rounds.push(0);
    Ok(rounds)
}

// So many processors, each with no rounds.
fn set_cpus(rounds: &mut List<u32>, cpus: u32)
    requires few { cpus ≤ 64 }
    requires room { rounds.old.room ≡ 64 }
    ensures items { rounds.new.items ≡ replicate cpus 0 }
    ensures room { rounds.new.room ≡ 64 }
{
    rounds.clear();
    for _cpu in 0..cpus {
        rounds.push(0);
    }
}

// `cpus n`
fn cpus_line(rounds: &mut List<u32>, args: &[u8]) -> Result<(), LineRefusal>
    requires { IsTable rounds.old }
    ensures makes { Makes (cpus_line (words args.now)) rounds.old rounds.new result }
    ensures table { IsTable rounds.new }
{
    let cpus = number_in(1, MAX_CPUS as u64, one_word(args)?)?;
    set_cpus(rounds, cpus as u32);
    Ok(())
}

// Whether a line `prog` gave the processor rounds.
#[tactic(auto, using(std::proofs::lemmas::Option::get_or_from_slice_get))]
fn has_rounds(rounds: &List<u32>, cpu: usize) -> bool
    requires { cpu < length rounds.now.items }
    ensures { result ≡ has_rounds rounds.now.items cpu }
{
    *rounds.get(cpu) > 0
}

// `prog p r`
fn program_line(rounds: &mut List<u32>, args: &[u8]) -> Result<(), LineRefusal>
    requires { IsTable rounds.old }
    ensures makes { Makes
        (program_line rounds.old.items (words args.now)) rounds.old rounds.new result }
    ensures table { IsTable rounds.new }
{
    let (cpu, count) = two_words(args)?;
    let cpu = cpu_word(rounds.len() as u32, cpu)? as usize;
    let count = number_in(1, MAX_ROUNDS, count)?;
    if has_rounds(rounds, cpu) {
        return Err(LineRefusal::Bad(Fault::Repeated));
    }
    *rounds.get_mut(cpu) = count as u32;
    Ok(())
}

/// A line of the header, by the words behind its keyword.
pub(crate) fn header_args(
    rounds: &mut List<u32>,
    keyword: Keyword,
    args: &[u8],
) -> Result<(), LineRefusal>
    requires { IsTable rounds.old }
    ensures makes { Makes
        (header_args keyword rounds.old.items (words args.now)) rounds.old rounds.new result }
    ensures table { IsTable rounds.new }
{
    match keyword {
        Keyword::Cpus => cpus_line(rounds, args),
        Keyword::Prog => program_line(rounds, args),
        Keyword::Go => no_words(args),
        _ => Err(LineRefusal::Bad(Fault::Misplaced)),
    }
}
