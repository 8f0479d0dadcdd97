//! `edit`: what edits make of a document, and the certificate which shows it.
ghost use Rattle.std.specs.Prelude.{◌≡◌, [], ◌∷◌, codes, map, string_bytes, IfErr, IfOk};
ghost use Rattle.toml_edits.specs.Edits.{change};
ghost use Rattle.toml_editor.specs.Edited.{IsEditedWith};
ghost use Rattle.toml_layout.specs.declared.layout.Layout.TheVariants.{Plain};
ghost use Rattle.toml_tree.specs.declared.profile.Profile.TheVariants.{One};
ghost use Rattle.toml_units.specs.Certificates.{certificate_of};
ghost use Rattle.toml_commands.specs.Edit.{Edits, IsEditEnding, IsEditing, IsEditorEnding, IsUnedited, IsUnmade, TellsNumber};
ghost use Rattle.toml_delivery.specs.Outcomes.{Ends, texts_of};

use crate::document::{name_ending, syntax_ending, text_refusal};
use crate::edit_list::edit_list;
use crate::verify::reason_code;
use std::alloc::{AllocError, Global};
use toml_delivery::{Answer, Ending, Outcome, Refusal};
use toml_editor::{EditorFault, Layout, edit_with_at_exit};
use toml_edits::{Edit, EditFault};
use toml_text::MAX_LEN;
use toml_tree::Profile;
use toml_units::{Certificate, certificate_text};

/// What `edit` comes to in profile 1: `run_edit_in` with `Profile::One`.
pub fn run_edit(alloc: Global, file: &[u8], edits: &[u8]) -> Result<Outcome, AllocError>
    ensures { IfOk result (Edits One file.now edits.now) }
{
    run_edit_in(alloc, file, edits, Profile::One)
}

/// Prints `ok` where the edits can be made of the document, and has two files written: the edited text, and the text of the
/// certificate which shows that it keeps all else. Otherwise the refusal, and no file. The edit list is judged before the
/// document, and the document and the values of the edits are read in the profile. What it read stays in memory, for a program that
/// ends.
pub fn run_edit_in(
    alloc: Global,
    file: &[u8],
    edits: &[u8],
    profile: Profile,
) -> Result<Outcome, AllocError>
    ensures { IfOk result (Edits profile file.now edits.now) }
{
    Outcome::of(alloc, edited(alloc, file, edits, profile))
}

/// `ok` and LF, the edited text and its certificate.
#[tactic(auto, using(crate::proofs::Edited::unedited, crate::proofs::Edited::edited))]
fn edited(alloc: Global, file: &[u8], edits: &[u8], profile: Profile) -> Result<Answer, Ending>
    ensures good { IfOk result (IsEditing profile file.now edits.now) }
    ensures refused { IfErr result (Ends (IsUnedited Plain profile file.now edits.now)) }
{
    let edits = edit_list(alloc, edits)?;
    let (text, certificate) = make(alloc, file, &edits, profile, Layout::Plain)?;
    Ok(good(alloc, text, &certificate)?)
}

/// What the edits make of the document in the layout, and the certificate which shows it.
#[tactic(auto, using(crate::proofs::Edited::numbered, crate::proofs::Edited::unmade))]
pub fn make(
    alloc: Global,
    file: &[u8],
    edits: &[Edit],
    profile: Profile,
    layout: Layout,
) -> Result<(String, Certificate), Ending>
    ensures good { IfOk result (λ r. IsEditedWith layout profile file.now (map change edits.now) (string_bytes r.0) r.1.pairs.items) }
    ensures refused { IfErr result (Ends (IsUnmade layout profile file.now (map change edits.now))) }
{
    match edit_with_at_exit(alloc, file, edits, profile, layout) {
        Ok(made) => Ok(made),
        Err(fault) => Err(editor_ending(fault)),
    }
}

/// `ok` and LF, and as files the text and that of the certificate.
fn good(alloc: Global, text: String, certificate: &Certificate) -> Result<Answer, AllocError>
    ensures printed { IfOk result (λ answer. answer.out.items ≡ codes "ok\n") }
    ensures files { let texts = string_bytes text ∷ certificate_of certificate.now.pairs.items ∷ [] in
        IfOk result (λ answer. texts_of answer.files.items ≡ texts) }
{
    let certificate = certificate_text(alloc, certificate)?;
    Ok(Answer {
        out: "ok\n".to_string(alloc)?.into_bytes(),
        files: vec![in alloc; text.into_bytes(), certificate.into_bytes()]?,
    })
}

/// What a fault of the editor comes to.
fn editor_ending(fault: EditorFault) -> Ending
    requires { TellsNumber fault }
    ensures { IsEditorEnding fault result }
{
    let (code, place) = match fault {
        EditorFault::Text(fault) => return Ending::Refused(text_refusal(fault)),
        EditorFault::Syntax(fault) => return syntax_ending(fault),
        EditorFault::Names(fault) => return name_ending(fault),
        EditorFault::Edit { index, fault } => return edit_ending(index, fault),
        EditorFault::Spread { index } => (307, index),
        EditorFault::LastElement { index } => (308, index),
        EditorFault::TooLong => (102, MAX_LEN),
        EditorFault::Unverified(reason) => (309, usize::from(reason_code(reason))),
        EditorFault::NoMemory => return Ending::NoMemory,
    };
    Ending::Refused(Refusal { code, place })
}

/// What a fault of the edit with this number comes to.
fn edit_ending(index: usize, fault: EditFault) -> Ending
    ensures { IsEditEnding index fault result }
{
    let code = match fault {
        EditFault::NoSuchPlace => 301,
        EditFault::AlreadyThere => 302,
        EditFault::NotATable => 303,
        EditFault::IndexOutside => 304,
        EditFault::NotAName => 305,
        EditFault::BadValue => 306,
        EditFault::RootNamed => 310,
        EditFault::AddressLength => 312,
        EditFault::NotAnElement => 313,
        EditFault::NoMemory => return Ending::NoMemory,
    };
    Ending::Refused(Refusal { code, place: index })
}
