//! The judge's reasons.
ghost use Rattle.std.specs.Prelude.{◌≡◌, ◌≢◌, IfOk, string_bytes};
ghost use Rattle.toml_checker.specs.declared.verdict.Reason.TheVariants.{EditsRefused};
ghost use Rattle.toml_explain.specs.Documents.{ShowsInFile, ShowsMoreInFile};
ghost use Rattle.toml_explain.specs.Reasons.{told_of};

use crate::added::explain_added;
use crate::data::data_of;
use crate::differing::explain_difference;
use crate::edit::explain_edit;
use crate::input::Input;
use crate::lost::explain_lost;
use crate::telling::told_at;
use std::alloc::{AllocError, Global};
use toml_checker::Reason;
use toml_edits::{Draft, Edit, EditFault};
use toml_tree::Profile;
use toml_units::Certificate;

/// What an edited text is judged by: the text before, the edits, the text after, and a certificate where there is one.
#[derive(Clone, Copy)]
pub struct Judged<'a> {
    pub before: Input<'a>,
    pub edits: &'a [Edit],
    pub after: Input<'a>,
    pub certificate: Option<&'a Certificate>,
    pub profile: Profile,
}

/// A sentence of a whole file.
pub(crate) fn plain(alloc: Global, file: Input<'_>, sentence: &str) -> Result<String, AllocError>
    ensures { IfOk result (λ text. ShowsInFile file.entry.word.now file.entry.bytes.now (string_bytes text)) }
{
    told_at(alloc, file, None, String::from_str(alloc, sentence)?)
}

/// The code of a fault of an edit.
fn code_of_edit(fault: EditFault) -> Result<u16, AllocError> {
    match fault {
        EditFault::NoSuchPlace => Ok(301),
        EditFault::AlreadyThere => Ok(302),
        EditFault::NotATable => Ok(303),
        EditFault::IndexOutside => Ok(304),
        EditFault::NotAName => Ok(305),
        EditFault::BadValue => Ok(306),
        EditFault::RootNamed => Ok(310),
        EditFault::AddressLength => Ok(312),
        EditFault::NotAnElement => Ok(313),
        EditFault::NoMemory => Err(AllocError),
    }
}

/// The first edit that is not defined on the data so far, and the code of its fault.
fn first_refused(
    alloc: Global,
    bytes: &[u8],
    edits: &[Edit],
    profile: Profile,
) -> Result<Option<(usize, u16)>, AllocError> {
    let Some(data) = data_of(alloc, bytes, profile)? else {
        return Ok(None);
    };
    let mut draft = Draft::of(data);
    for (index, edit) in edits.iter().enumerate() {
        if let Err(fault) = draft.apply(alloc, edit, profile) {
            return Ok(Some((index, code_of_edit(fault)?)));
        }
    }
    Ok(None)
}

/// Why the edits are not defined.
fn explain_edits(alloc: Global, judged: Judged<'_>) -> Result<String, AllocError>
    ensures { IfOk result (λ text. ShowsMoreInFile judged.entry.before.word.now judged.entry.before.bytes.now (string_bytes text)) }
{
    let (before, edits, profile) = (judged.before, judged.edits, judged.profile);
    match first_refused(alloc, before.bytes, edits, profile)? {
        Some((index, code)) => explain_edit(alloc, before, edits, index, code, "", profile),
        None => plain(alloc, before, "the edits can't be made of this text"),
    }
}

/// Why an edited text is not handed out that the judge refuses (309), behind the word of the file that was to be edited: the judge's
/// reason. It fails for want of memory alone.
pub fn explain_unverified(
    alloc: Global,
    file: Input<'_>,
    reason: Option<Reason>,
) -> Result<String, AllocError>
    ensures { IfOk result (λ text. ShowsInFile file.entry.word.now file.entry.bytes.now (string_bytes text)) }
{
    let because = match reason {
        Some(Reason::BeforeRefused) => "this is no document",
        Some(Reason::AfterRefused) => "the edited text is no document",
        Some(Reason::EditsRefused) => "the edits can't be made of this text",
        Some(Reason::OtherData) => "the data are not those that the edits give",
        Some(Reason::Lost) => "what no edit names is not kept",
        Some(Reason::Unasked) => "the edited text has a line that no edit asks for",
        Some(Reason::NewComment) => "the edited text has a comment that no edit asks for",
        Some(Reason::BadPair | Reason::NotTheSame) | None => "the texts do not fit together",
    };
    let sentence = format!(in alloc;
        "what the edits make of this file is not handed out, since the judge refuses it: {because}"
    )?;
    told_at(alloc, file, None, sentence)
}

/// Why the judge says no: 403 as the edit that is refused; 404 tells the first address, in the order of the names' bytes, at which the data
/// differ, and what each has there; 406 shows the first unit of the text before that is lost, 407 and 408 the first line or comment of the
/// text after that nobody asked for. Where there is no certificate, the pairs are those of the search for one. Of 401 and 402 it says that
/// the text is no document: why, `explain_document` says by its refusal. It fails for want of memory alone.
pub fn explain_reason(
    alloc: Global,
    judged: Judged<'_>,
    reason: Reason,
) -> Result<String, AllocError>
    ensures shown { let told = told_of judged.entry.before judged.entry.after reason in
        reason ≢ EditsRefused → IfOk result (λ text. ShowsInFile told.word.now told.bytes.now (string_bytes text)) }
    ensures edits { reason ≡ EditsRefused → IfOk result (λ text. ShowsMoreInFile judged.entry.before.word.now judged.entry.before.bytes.now (string_bytes text)) }
{
    match reason {
        Reason::BeforeRefused => plain(alloc, judged.before, "this is no document"),
        Reason::AfterRefused => plain(alloc, judged.after, "this is no document"),
        Reason::EditsRefused => explain_edits(alloc, judged),
        Reason::OtherData => explain_difference(alloc, judged),
        Reason::BadPair => {
            plain(
                alloc,
                judged.after,
                "the pairs of the certificate do not rise, or one names no two units that are the same",
            )
        }
        Reason::Lost => explain_lost(alloc, judged),
        Reason::Unasked => explain_added(alloc, judged, false),
        Reason::NewComment => explain_added(alloc, judged, true),
        Reason::NotTheSame => {
            plain(
                alloc,
                judged.after,
                "the mark U+FEFF is in one text alone, or without an edit the texts differ",
            )
        }
    }
}
