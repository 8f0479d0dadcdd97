//! `validate`: which of some files are no documents, and why.
ghost use Rattle.std.specs.Prelude.{IfOk};
ghost use Rattle.toml_commands.specs.Explaining.{IsValidated};
ghost use Rattle.tomled.specs.Asking.{Asked};
ghost use Rattle.tomled.specs.Validating.{IsOneTold, IsValidation, words_of};

use crate::inputs::Inputs;
use std::alloc::{AllocError, Global};
use toml_commands::{MOST, Source, explained_check, run_check_in};
use toml_delivery::{Outcome, RunFault};
use toml_tree::Profile;

/// Reads one file after the other, and tells of each that is no document of the profile why, or that it can't be read. The status is 3
/// where one can't be read, else 1 where one is no document.
pub fn validated<I: Inputs>(
    alloc: Global,
    inputs: &mut I,
    files: &[&str],
    profile: Profile,
) -> Result<Outcome, RunFault>
    ensures { Asked (I.reads inputs.old) (I.reads inputs.new) (IsValidation profile (words_of files.now) result) }
{
    let mut status = 0;
    let mut text = Vec::new(alloc);
    for file in files {
        let outcome = validated_file(alloc, inputs, *file, profile)?;
        status = outcome.status.max(status);
        text.extend_from_slice(&outcome.err)?;
    }
    Ok(Outcome::failed(alloc, status, text))
}

/// What one file comes to.
fn validated_file<I: Inputs>(
    alloc: Global,
    inputs: &mut I,
    file: &str,
    profile: Profile,
) -> Result<Outcome, RunFault>
    ensures { Asked (I.reads inputs.old) (I.reads inputs.new) (IsOneTold profile file.now result) }
{
    let source = Source {
        word: file,
        limit: MOST,
        may_be_input: true,
    };
    match inputs.read(alloc, source) {
        Ok(bytes) => Ok(validated_bytes(alloc, file, &bytes, profile)?),
        Err(fault) => fault.outcome(alloc, true),
    }
}

/// What a file comes to that has these bytes: what `check` answers, with what is said of a refusal.
fn validated_bytes(
    alloc: Global,
    file: &str,
    bytes: &[u8],
    profile: Profile,
) -> Result<Outcome, AllocError>
    ensures { IfOk result (IsValidated profile file.now bytes.now) }
{
    let outcome = run_check_in(alloc, bytes, profile)?;
    explained_check(alloc, file, bytes, profile, outcome)
}
