// What the words ask for.
ghost use Rattle.std.specs.Prelude.{◌≡◌, Ok, None, true, IfOk, IfErr, IsErr, map, string_bytes};
ghost use Rattle.std.specs.List.{list_any};
ghost use Rattle.clap.specs.Words.{found_of, rows_of, subcommand_rows_of, kind_of};
ghost use Rattle.clap.specs.declared.error.kind.ErrorKind.TheVariants.{OutOfMemory};
ghost use Rattle.lk_words.specs.Reading.{reading_of, start_of, is_flag};
ghost use Rattle.lk_words.specs.Command.{said_of, start_in};

use crate::asked::Reading;
use crate::command::qlock;
use clap::error::ErrorKind;
use clap::{ArgMatches, Error};
use lk_names::Memory;
use lk_text::read_number;
use std::alloc::Global;

// The last start number, which is one less than the modulus of the draws.
const LAST_START: u64 = 2_147_483_646;

// The start number that a word writes.
fn start_of(word: &str) -> Option<u32>
    ensures { result ≡ start_of word.now }
{
    match read_number(word.as_bytes())? {
        n @ 1..=LAST_START => Some(n as u32),
        _ => None,
    }
}

// The start number among the matches of a command.
fn start_in(matches: &ArgMatches<'_>) -> Option<u32>
    ensures { result ≡ start_in (rows_of (found_of matches.now)) }
{
    start_of(matches.get_str("n")?)
}

// What the matches say.
fn said_of(matches: &ArgMatches<'_>) -> Option<Reading>
    ensures { result ≡ said_of (subcommand_rows_of matches.now) }
{
    let (name, below) = matches.subcommand()?;
    match name {
        "replay" => Some(Reading::Replay),
        "osq" => Some(Reading::Osq),
        "audit" => Some(Reading::Audit),
        "ledger" => Some(Reading::Ledger),
        "gen" => Some(Reading::Gen(start_in(below)?)),
        "load" => Some(Reading::Load(start_in(below)?)),
        _ => None,
    }
}

// Whether the word begins with a hyphen.
fn is_flag(word: &str) -> bool
    ensures { result ≡ is_flag word.now }
{
    match word.as_bytes() {
        [] => false,
        [b, ..] => *b == b'-',
    }
}

// Whether a word begins with a hyphen.
fn has_flag(words: &[String]) -> bool
    ensures { result ≡ list_any (λ word. is_flag (string_bytes word)) words.now }
{
    words.iter().any(|word| is_flag(word.as_str()))
}

// What clap's answer says: there was no memory exactly where its error says so, and any other
// error means that the words ask for nothing.
fn told(answer: Result<ArgMatches<'_>, Error>) -> Result<Option<Reading>, Memory>
    ensures ok { IfOk answer.entry (λ matches. result ≡ Ok (said_of (subcommand_rows_of matches))) }
    ensures memory { IfErr answer.entry (λ error. kind_of error ≡ OutOfMemory → IsErr result) }
    ensures other { IfErr answer.entry (λ error. ¬ (kind_of error ≡ OutOfMemory) → result ≡ Ok None) }
{
    match answer {
        Ok(matches) => Ok(said_of(&matches)),
        Err(error) => match error.kind() {
            ErrorKind::OutOfMemory => Err(Memory),
            _ => Ok(None),
        },
    }
}

/// Returns what the words ask for; none if they name no command. If a word begins with a hyphen,
/// the words name no command, and clap does not read them.
///
/// # Errors
///
/// There is not enough memory.
pub fn reading(alloc: Global, words: &[String]) -> Result<Option<Reading>, Memory>
    ensures exact { IfOk result (λ r. r ≡ reading_of (map string_bytes words.now)) }
    ensures flag { list_any is_flag (map string_bytes words.now) ≡ true → result ≡ Ok None }
{
    if has_flag(words) {
        return Ok(None);
    }
    told(qlock(alloc)?.try_get_matches_from(words))
}
