//! The whole command line, as `clap` is told it.
ghost use Rattle.std.specs.Prelude.{◌++◌, IfOk, map};
ghost use Rattle.clap.specs.Words.{new_app};
ghost use Rattle.toml_words.specs.CommandLine.{AreDefined, IsDefined, defined_in, editors, judges, readers, root, tool};

use crate::arguments::{Allowed, args};
use crate::commands::{SUBCOMMANDS, Subcommand};
use clap::Command;
use std::alloc::{AllocError, Global};

/// What `--version` prints behind the name.
const VERSION: &str = "1.0.0";

/// The command with all subcommands.
pub(crate) fn command<'a>(
    alloc: Global,
    profiles: &'a [&'a str],
    layouts: &'a [&'a str],
) -> Result<Command<'a>, AllocError>
    ensures { IfOk result (IsDefined (tool profiles.entry layouts.entry)) }
{
    let allowed = Allowed { profiles, layouts };
    let subcommands = all_subcommands(alloc, allowed)?;
    root(alloc)?.subcommands(subcommands)
}

/// The command without them.
fn root<'a>(alloc: Global) -> Result<Command<'a>, AllocError>
    ensures { IfOk result (IsDefined root) }
{
    Command::new(alloc, "tomled")
        .about("Reads and edits TOML documents, and keeps their layout")
        .version(VERSION)
        .subcommand_required(true)
        .bin_name("tomled")
}

/// All subcommands.
#[tactic(auto, unfolding(crate::specs::CommandLine::readers, crate::specs::CommandLine::editors, crate::specs::CommandLine::judges))]
fn all_subcommands<'a>(alloc: Global, allowed: Allowed<'a>) -> Result<Vec<Command<'a>>, AllocError>
    ensures { IfOk result (λ list. AreDefined (readers allowed.entry.profiles ++ (editors allowed.entry.profiles allowed.entry.layouts ++ judges allowed.entry.profiles)) list.items) }
{
    subcommands(alloc, SUBCOMMANDS.as_slice(), allowed)
}

/// These subcommands, in their order.
fn subcommands<'a>(
    alloc: Global,
    rows: &'a [Subcommand<'a>],
    allowed: Allowed<'a>,
) -> Result<Vec<Command<'a>>, AllocError>
    ensures { IfOk result (λ list. AreDefined (map (defined_in allowed.entry.profiles allowed.entry.layouts) rows.entry.now) list.items) }
{
    let mut list = Vec::with_capacity(alloc, rows.len())?;
    for row in rows {
        list.push(subcommand(alloc, row, allowed)?)?;
    }
    Ok(list)
}

/// One subcommand, with its arguments.
fn subcommand<'a>(
    alloc: Global,
    row: &'a Subcommand<'a>,
    allowed: Allowed<'a>,
) -> Result<Command<'a>, AllocError>
    ensures { IfOk result (IsDefined (defined_in allowed.entry.profiles allowed.entry.layouts row.entry.now)) }
{
    let args = args(alloc, row.arguments, allowed)?;
    bare(alloc, row).args(args)
}

/// The subcommand without them.
fn bare<'a>(alloc: Global, row: &'a Subcommand<'a>) -> Command<'a>
    ensures { IsDefined (new_app row.entry.now.name.now) result }
{
    Command::new(alloc, row.name)
        .about(row.about)
        .after_help(row.example)
}
