//! `apply`: the text that edits make of a document.
ghost use Rattle.std.specs.Prelude.{◌≡◌, [], ◌∷◌, IfErr, IfOk, string_bytes};
ghost use Rattle.toml_units.specs.Certificates.{certificate_of};
ghost use Rattle.toml_commands.specs.Apply.{Applies, IsListApplied};
ghost use Rattle.toml_commands.specs.Edit.{IsUnedited};
ghost use Rattle.toml_delivery.specs.Outcomes.{Ends, IsGood, texts_of};

use crate::edit::make;
use crate::edit_list::edit_list;
use std::alloc::{AllocError, Global};
use toml_delivery::{Answer, Ending, Outcome};
use toml_editor::Layout;
use toml_tree::Profile;
use toml_units::{Certificate, certificate_text};

/// Prints the edited text, and has its certificate written as the one file, where `edit` writes these two; else the refusal of
/// `edit`. What it read stays in memory, for a program that ends.
pub fn run_apply_in(
    alloc: Global,
    file: &[u8],
    edits: &[u8],
    profile: Profile,
    layout: Layout,
) -> Result<Outcome, AllocError>
    ensures { IfOk result (Applies layout profile file.now edits.now) }
{
    Outcome::of(alloc, applied(alloc, file, edits, profile, layout))
}

/// The edited text, and its certificate.
#[tactic(auto, using(crate::proofs::Edited::unedited, crate::proofs::Applied::applied))]
fn applied(
    alloc: Global,
    file: &[u8],
    edits: &[u8],
    profile: Profile,
    layout: Layout,
) -> Result<Answer, Ending>
    ensures good { IfOk result (IsGood (IsListApplied layout profile file.now edits.now)) }
    ensures refused { IfErr result (Ends (IsUnedited layout profile file.now edits.now)) }
{
    let edits = edit_list(alloc, edits)?;
    let (text, certificate) = make(alloc, file, &edits, profile, layout)?;
    Ok(text_answer(alloc, text, &certificate)?)
}

/// A text, and as the one file the text of its certificate.
pub fn text_answer(
    alloc: Global,
    text: String,
    certificate: &Certificate,
) -> Result<Answer, AllocError>
    ensures printed { IfOk result (λ answer. answer.out.items ≡ string_bytes text) }
    ensures files { IfOk result (λ answer. texts_of answer.files.items ≡ certificate_of certificate.now.pairs.items ∷ []) }
{
    let certificate = certificate_text(alloc, certificate)?;
    Ok(Answer {
        out: text.into_bytes(),
        files: vec![in alloc; certificate.into_bytes()]?,
    })
}
