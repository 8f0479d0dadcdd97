//! Edits at places of a command line that lead to no address.
ghost use Rattle.std.specs.Prelude.{◌≡◌, ◌≢◌, IfOk, string_bytes};
ghost use Rattle.toml_explain.specs.Documents.{ShowsInFile, ShowsMoreInFile};

use crate::absent::steps_of;
use crate::edit::{Found, edit_alone, edit_rule, edit_text, look_up, with_value};
use crate::input::Input;
use crate::place::shown_place;
use crate::standing::question;
use std::alloc::{AllocError, Global};
use toml_edits::Edit;
use toml_places::{PlaceFault, read_place};
use toml_tree::Profile;

/// What is found in a file of the longest front of a place that stands there.
fn look_up_place(
    alloc: Global,
    bytes: &[u8],
    profile: Profile,
    place: &str,
) -> Result<Found, AllocError> {
    let steps = match read_place(alloc, place.as_bytes()) {
        Ok(read) => steps_of(alloc, bytes, profile, &read)?,
        Err(PlaceFault::NoMemory) => return Err(AllocError),
        Err(PlaceFault::BadPlace { .. }) => Vec::new(alloc),
    };
    look_up(alloc, bytes, profile, &steps, 0)
}

/// The rule that the edit breaks, by the code, and the name that may be meant.
fn push_rule(
    alloc: Global,
    sentence: &mut String,
    found: &Found,
    edit: &Edit,
    code: u16,
) -> Result<(), AllocError> {
    if code != 301 {
        return sentence.push_str(edit_rule(edit, code));
    }
    sentence.push_str("nothing stands there: before an index is no array, or a shorter one")?;
    match &found.meant {
        Some(name) => sentence.push_str(question(alloc, name)?.as_str()),
        None => Ok(()),
    }
}

/// Why an edit is refused of which the place leads to no address, as `[-n]` and `[+]` where no array stands or one is too short: as
/// `explain_edit`, but the place stands for the address as it was written, and below the sentence the line in which the longest
/// front of the place is named first that stands in the file, where one does. It fails for want of memory alone.
pub fn explain_nowhere(
    alloc: Global,
    file: Input<'_>,
    place: &str,
    edits: &[Edit],
    index: usize,
    code: u16,
    profile: Profile,
) -> Result<String, AllocError>
    ensures value { code ≡ 306 → IfOk result (λ text. ShowsMoreInFile file.entry.word.now file.entry.bytes.now (string_bytes text)) }
    ensures below { code ≢ 306 → IfOk result (λ text. ShowsInFile file.entry.word.now file.entry.bytes.now (string_bytes text)) }
{
    let Some(edit) = edits.get(index) else {
        return edit_alone(alloc, file, index);
    };
    let found = look_up_place(alloc, file.bytes, profile, place)?;
    let shown = shown_place(alloc, place)?;
    let mut sentence = edit_text(alloc, edit, index, shown.as_str())?;
    push_rule(alloc, &mut sentence, &found, edit, code)?;
    with_value(alloc, file, edit, code, sentence, found.spot, profile)
}
