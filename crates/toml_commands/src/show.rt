//! `show`: the data of a document as tagged JSON.
ghost use Rattle.std.specs.Prelude.{IfErr, IfOk};
ghost use Rattle.toml_tree.specs.declared.profile.Profile.TheVariants.{One};
ghost use Rattle.toml_names.specs.reader.Parts.{part_kinds};
ghost use Rattle.toml_delivery.specs.Outcomes.{Ends};
ghost use Rattle.toml_commands.specs.Refusals.{IsRefused};
ghost use Rattle.toml_commands.specs.Show.{IsLineOf, Shows, ShowsData};

use crate::document::read_data;
use std::alloc::{AllocError, Global};
use std::mem;
use toml_delivery::{Ending, Outcome};
use toml_names::NamedText;
use toml_print::write_tagged;
use toml_tree::Profile;

/// What `show` prints for a document of profile 1, and for other bytes: `run_show_in` with `Profile::One`.
pub fn run_show(alloc: Global, file: &[u8]) -> Result<Outcome, AllocError>
    ensures { IfOk result (Shows One file.now) }
{
    run_show_in(alloc, file, Profile::One)
}

/// Prints the data of a document of the profile, and else its refusal. What it read stays in memory, for a program that ends.
pub fn run_show_in(alloc: Global, file: &[u8], profile: Profile) -> Result<Outcome, AllocError>
    ensures { IfOk result (Shows profile file.now) }
{
    Outcome::of_text(alloc, shown(alloc, file, profile))
}

/// The line of a document's data. What the document names stays in memory: the program ends once the line is printed.
fn shown(alloc: Global, file: &[u8], profile: Profile) -> Result<Vec<u8>, Ending>
    ensures good { IfOk result (λ line. ShowsData profile file.now line.items) }
    ensures refused { IfErr result (Ends (IsRefused profile file.now)) }
{
    let whole = read_data(alloc, file, profile)?;
    let line = data_line(alloc, &whole)?;
    mem::forget(whole);
    Ok(line)
}

/// The tagged JSON of the data in compact text, and LF.
fn data_line(alloc: Global, whole: &NamedText<'_>) -> Result<Vec<u8>, AllocError>
    ensures { IfOk result (λ line. IsLineOf (part_kinds whole.now 0) line.items) }
{
    let mut line = Vec::new(alloc);
    write_tagged(alloc, &mut line, whole)?;
    line.push(b'\n')?;
    Ok(line)
}
