// The command line as clap reads it.
ghost use Rattle.std.specs.Prelude.{◌≡◌, IfOk, false};
ghost use Rattle.clap.specs.Words.{app_of, shape_of};
ghost use Rattle.clap.specs.declared.builder.command.Command.TheViews.{out-Command as fields_of};
ghost use Rattle.lk_words.specs.Command.{plain, numbered, qlock};

use clap::{Arg, ArgAction, Command};
use std::alloc::{AllocError, Global};

// A command with no word behind it.
fn plain<'a>(alloc: Global, name: &'a str) -> Command<'a>
    ensures shape { shape_of result ≡ plain name.entry.now }
    ensures local { (fields_of result).has_globals ≡ false }
{
    Command::new(alloc, name)
}

// A command with a number behind it.
fn numbered<'a>(alloc: Global, name: &'a str) -> Result<Command<'a>, AllocError>
    ensures shape { IfOk result (λ c. shape_of c ≡ numbered name.entry.now) }
    ensures local { IfOk result (λ c. (fields_of c).has_globals ≡ false) }
{
    let n = Arg::new(alloc, "n").required(true).action(ArgAction::Set);
    Command::new(alloc, name).arg(n)
}

/// The commands.
pub(crate) fn qlock<'a>(alloc: Global) -> Result<Command<'a>, AllocError>
    ensures { IfOk result (λ c. app_of c ≡ qlock) }
{
    let generates = numbered(alloc, "gen")?;
    let loads = numbered(alloc, "load")?;
    Command::new(alloc, "qlock")
        .no_binary_name(true)
        .disable_help_flag(true)
        .disable_help_subcommand(true)
        .subcommand_required(true)
        .subcommand(plain(alloc, "replay"))?
        .subcommand(plain(alloc, "osq"))?
        .subcommand(plain(alloc, "audit"))?
        .subcommand(plain(alloc, "ledger"))?
        .subcommand(generates)?
        .subcommand(loads)
}
