//! What is said of a refusal behind its line: where it is, and why.
ghost use Rattle.std.specs.Prelude.{◌≡◌, ◌≢◌, ◌<◌, ◌≤◌, ◌↔◌, IfOk, IsTrue, string_bytes};
ghost use Rattle.toml_explain.specs.Documents.{OpensAs};
ghost use Rattle.toml_words.specs.Request.{asked_by};
ghost use Rattle.toml_commands.specs.Explaining.{ExplainsDocument, ExplainsFile, ExplainsList, ExplainsPlace, ExplainsValue};
ghost use Rattle.toml_commands.specs.Explaining.{HasSaid, IsExplained, IsExplainedText, IsSaid, bytes_at, explains};

use crate::edit_list::edits_listed;
use crate::judging::{JudgedWords, of_judged};
use crate::one::edits_of_words;
use crate::verify::reason_of;
use std::alloc::{AllocError, Global};
use toml_checker::Reason;
use toml_delivery::{Outcome, Refusal};
use toml_edits::{Edit, place};
use toml_explain::{
    Input, explain_absent, explain_document, explain_edit, explain_list, explain_nowhere,
    explain_place, explain_unverified,
};
use toml_names::Step;
use toml_tree::Profile;
use toml_words::{OneEdit, Request};

/// Whether refusals of the request are explained.
pub fn explains(request: &Request<'_>) -> bool
    ensures { result ≡ explains (asked_by request.now) }
{
    match *request {
        Request::Show { explain, .. } => explain,
        Request::Check { explain, .. } => explain,
        Request::Edit { explain, .. } => explain,
        Request::Verify { explain, .. } => explain,
        _ => true,
    }
}

/// The outcome with what is said of its refusal behind the line, where the request explains.
pub fn explained(
    alloc: Global,
    request: &Request<'_>,
    inputs: &[Vec<u8>],
    outcome: Outcome,
) -> Result<Outcome, AllocError>
    ensures { IfOk result (IsExplained request.now inputs.now outcome) }
{
    let Some(refusal) = outcome.refusal else {
        return Ok(outcome);
    };
    if !explains(request) {
        return Ok(outcome);
    }
    let text = explanation(alloc, request, inputs, refusal)?;
    with_text(outcome, text.as_str())
}

/// The outcome of `check` of a file, with what is said of its refusal behind the line.
pub fn explained_check(
    alloc: Global,
    word: &str,
    bytes: &[u8],
    profile: Profile,
    outcome: Outcome,
) -> Result<Outcome, AllocError>
    ensures { IfOk result (IsExplainedText profile word.now bytes.now outcome) }
{
    let Some(refusal) = outcome.refusal else {
        return Ok(outcome);
    };
    let text = explain_document(
        alloc,
        Input { word, bytes },
        profile,
        refusal.code,
        refusal.place,
    )?;
    with_text(outcome, text.as_str())
}

/// The outcome with a text behind what it tells.
fn with_text(outcome: Outcome, text: &str) -> Result<Outcome, AllocError>
    ensures { IfOk result (HasSaid text.now outcome) }
{
    let mut outcome = outcome;
    outcome.err.extend_from_slice(text.as_bytes())?;
    Ok(outcome)
}

/// What is said of the refusal.
fn explanation(
    alloc: Global,
    request: &Request<'_>,
    inputs: &[Vec<u8>],
    refusal: Refusal,
) -> Result<String, AllocError>
    ensures { IfOk result (λ text. IsSaid request.now inputs.now refusal (string_bytes text)) }
{
    match *request {
        Request::Show { file, profile, .. } => {
            of_document(alloc, input(file, inputs, 0), profile, refusal)
        }
        Request::Check { file, profile, .. } => {
            of_document(alloc, input(file, inputs, 0), profile, refusal)
        }
        Request::Get {
            file,
            place,
            profile,
            ..
        } => of_get(alloc, input(file, inputs, 0), place, profile, refusal),
        Request::One {
            file,
            place,
            edit,
            profile,
            ..
        } => of_one(alloc, input(file, inputs, 0), place, edit, profile, refusal),
        Request::Edit {
            file,
            edits,
            profile,
            ..
        } => {
            let list = input(edits, inputs, 1);
            of_list(alloc, input(file, inputs, 0), list, profile, refusal)
        }
        Request::Apply {
            file,
            edits,
            profile,
            ..
        } => {
            let list = input(edits, inputs, 1);
            of_list(alloc, input(file, inputs, 0), list, profile, refusal)
        }
        Request::Verify {
            before,
            edits,
            after,
            cert,
            profile,
            ..
        } => {
            let words = JudgedWords {
                before,
                edits,
                after,
                cert: Some(cert),
            };
            of_judged(alloc, words, inputs, profile, refusal)
        }
        Request::Certify {
            before,
            edits,
            after,
            profile,
            ..
        } => {
            let words = JudgedWords {
                before,
                edits,
                after,
                cert: None,
            };
            of_judged(alloc, words, inputs, profile, refusal)
        }
        Request::Validate { .. } => Ok(String::new(alloc)),
    }
}

/// What was read by its word, with the word.
pub fn input<'i>(word: &'i str, inputs: &'i [Vec<u8>], at: usize) -> Input<'i>
    ensures word { result.word.now ≡ word.entry.now }
    ensures bytes { result.bytes.now ≡ bytes_at inputs.entry.now at }
{
    let bytes: &'i [u8] = match inputs.get(at) {
        Some(bytes) => bytes,
        None => &[],
    };
    Input { word, bytes }
}

/// Of a file that is no document.
pub fn of_document(
    alloc: Global,
    file: Input<'_>,
    profile: Profile,
    refusal: Refusal,
) -> Result<String, AllocError>
    ensures { IfOk result (λ text. OpensAs profile file.entry.word.now file.entry.bytes.now refusal.code refusal.place (string_bytes text)) }
{
    explain_document(alloc, file, profile, refusal.code, refusal.place)
}

/// Of `get`.
fn of_get(
    alloc: Global,
    file: Input<'_>,
    place: &str,
    profile: Profile,
    refusal: Refusal,
) -> Result<String, AllocError>
    ensures no_place { ExplainsPlace place.now refusal result }
    ensures no_document { ExplainsDocument profile file.entry refusal result }
    ensures in_file { 300 ≤ refusal.code → refusal.code ≢ 340 → ExplainsFile file.entry result }
{
    if refusal.code == 340 {
        return explain_place(alloc, place, refusal.place);
    }
    if is_of_document(refusal.code) {
        return of_document(alloc, file, profile, refusal);
    }
    explain_absent(alloc, file, place, refusal.code, profile)
}

/// Whether the code is one of a text that is no document.
fn is_of_document(code: u16) -> bool
    ensures yes { IsTrue result ↔ (code < 300) }
{
    code < 300
}

/// Of one edit at a place.
fn of_one(
    alloc: Global,
    file: Input<'_>,
    place: &str,
    edit: OneEdit<'_>,
    profile: Profile,
    refusal: Refusal,
) -> Result<String, AllocError>
    ensures no_place { ExplainsPlace place.now refusal result }
    ensures no_document { ExplainsDocument profile file.entry refusal result }
    ensures value { ExplainsValue file.entry refusal result }
    ensures in_file { 300 ≤ refusal.code → refusal.code ≢ 306 → refusal.code ≢ 340 → ExplainsFile file.entry result }
{
    if refusal.code == 340 {
        return explain_place(alloc, place, refusal.place);
    }
    if is_of_document(refusal.code) {
        return of_document(alloc, file, profile, refusal);
    }
    if refusal.code == 309 {
        return unverified(alloc, file, refusal);
    }
    let edits = edits_of_words(alloc, file.bytes, place, edit, profile)?;
    if leads_nowhere(&edits, refusal.place) {
        return explain_nowhere(
            alloc,
            file,
            place,
            &edits,
            refusal.place,
            refusal.code,
            profile,
        );
    }
    let hint = hint(edit, &edits);
    explain_edit(
        alloc,
        file,
        &edits,
        refusal.place,
        refusal.code,
        hint,
        profile,
    )
}

/// What makes a parent that is missing, where the one edit has an address of names alone: else something may be missing that is not made.
fn hint(wished: OneEdit<'_>, edits: &[Edit]) -> &'static str {
    let alone = match wished {
        OneEdit::Set { parents, .. } => !parents,
        OneEdit::Insert { parents, .. } => !parents,
        OneEdit::Rename { .. } => false,
        OneEdit::Remove => false,
    };
    match edits {
        [edit] if alone && has_names_alone(place(edit).steps()) => {
            "; --parents makes what is missing above"
        }
        _ => "",
    }
}

/// Whether each step is a name.
fn has_names_alone(steps: &[Step]) -> bool {
    steps.iter().all(|step| matches!(step, Step::Name(_)))
}

/// Whether the edit with the index is at an address at which nothing can stand, as the root has no element: its place leads to none.
fn leads_nowhere(edits: &[Edit], index: usize) -> bool {
    match edits.get(index) {
        Some(edit) => matches!(place(edit).steps().first(), Some(Step::Index(_))),
        None => false,
    }
}

/// Of a text that the judge refuses.
fn unverified(alloc: Global, file: Input<'_>, refusal: Refusal) -> Result<String, AllocError>
    ensures { ExplainsFile file.entry result }
{
    explain_unverified(alloc, file, reason_told(refusal.place))
}

/// The reason of the judge with the number, if it is that of one.
fn reason_told(number: usize) -> Option<Reason> {
    reason_of(u16::try_from(number).ok()?)
}

/// Of an edit list and a document.
fn of_list(
    alloc: Global,
    file: Input<'_>,
    list: Input<'_>,
    profile: Profile,
    refusal: Refusal,
) -> Result<String, AllocError>
    ensures no_list { ExplainsList list.entry refusal result }
    ensures no_document { ExplainsDocument profile file.entry refusal result }
    ensures value { ExplainsValue file.entry refusal result }
    ensures in_file { 300 ≤ refusal.code → refusal.code ≢ 306 → refusal.code ≢ 320 → refusal.code ≢ 321 → ExplainsFile file.entry result }
{
    if refusal.code == 320 || refusal.code == 321 {
        return explain_list(alloc, list.word, refusal.code, refusal.place);
    }
    if is_of_document(refusal.code) {
        return of_document(alloc, file, profile, refusal);
    }
    if refusal.code == 309 {
        return unverified(alloc, file, refusal);
    }
    let edits = edits_listed(alloc, list.bytes)?;
    explain_edit(
        alloc,
        file,
        &edits,
        refusal.place,
        refusal.code,
        "",
        profile,
    )
}
