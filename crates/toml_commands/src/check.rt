//! `check`: whether a file is a document.
ghost use Rattle.std.specs.Prelude.{◌≡◌, codes, IfErr, IfOk};
ghost use Rattle.toml_tree.specs.declared.profile.Profile.TheVariants.{One};
ghost use Rattle.toml_names.specs.model.Documents.{IsDocumentIn};
ghost use Rattle.toml_commands.specs.Check.{Checks};
ghost use Rattle.toml_delivery.specs.Outcomes.{Ends};
ghost use Rattle.toml_commands.specs.Refusals.{IsRefused};

use crate::document::judge;
use std::alloc::{AllocError, Global};
use toml_delivery::{Ending, Outcome};
use toml_tree::Profile;

/// What `check` prints for a document of profile 1, and for other bytes: `run_check_in` with `Profile::One`.
pub fn run_check(alloc: Global, file: &[u8]) -> Result<Outcome, AllocError>
    ensures { IfOk result (Checks One file.now) }
{
    run_check_in(alloc, file, Profile::One)
}

/// Prints `ok` for a document of the profile, and else its refusal. What it read stays in memory, for a program that ends.
pub fn run_check_in(alloc: Global, file: &[u8], profile: Profile) -> Result<Outcome, AllocError>
    ensures { IfOk result (Checks profile file.now) }
{
    Outcome::of_text(alloc, checked(alloc, file, profile))
}

/// `ok` and LF, for a document.
fn checked(alloc: Global, file: &[u8], profile: Profile) -> Result<Vec<u8>, Ending>
    ensures good { IfOk result (λ text. IsDocumentIn profile file.now × (text.items ≡ codes "ok\n")) }
    ensures refused { IfErr result (Ends (IsRefused profile file.now)) }
{
    judge(alloc, file, profile)?;
    Ok("ok\n".to_string(alloc)?.into_bytes())
}
