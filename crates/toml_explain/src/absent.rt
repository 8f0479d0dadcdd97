//! Places of a document at which nothing stands that is asked for.
ghost use Rattle.std.specs.Prelude.{IfOk, string_bytes};
ghost use Rattle.toml_explain.specs.Documents.{ShowsInFile};

use crate::edit::look_up;
use crate::input::Input;
use crate::place::shown_place;
use crate::standing::question;
use crate::telling::told_at;
use std::alloc::{AllocError, Global};
use toml_names::{NamedText, Step, names_of_text};
use toml_places::{Place, PlaceFault, part_in, read_place, step_in};
use toml_text::Source;
use toml_tree::Profile;

/// The steps to which a place leads in a text, up to the first that leads to none.
pub(crate) fn steps_of(
    alloc: Global,
    bytes: &[u8],
    profile: Profile,
    place: &Place,
) -> Result<Vec<Step>, AllocError> {
    let Ok(source) = Source::new(bytes) else {
        return Ok(Vec::new(alloc));
    };
    match names_of_text(alloc, source, profile) {
        Ok(names) => leading(alloc, &names, place),
        Err(fault) => {
            fault.told()?;
            Ok(Vec::new(alloc))
        }
    }
}

/// The steps to which a place leads in the data of a text, up to the first that leads to none.
fn leading(alloc: Global, names: &NamedText<'_>, place: &Place) -> Result<Vec<Step>, AllocError> {
    let mut steps = Vec::new(alloc);
    let mut part = Some(names.root());
    for place_step in place.steps() {
        let Some(step) = step_in(names, part, place_step)? else {
            return Ok(steps);
        };
        part = part_in(names, part, &step)?;
        steps.push(step)?;
    }
    Ok(steps)
}

/// What is wrong with what stands, or does not stand, at a place.
fn absent_sentence(alloc: Global, shown: &str, code: u16) -> Result<String, AllocError> {
    match code {
        307 if shown == "." => String::from_str(alloc, "the whole document is no single value"),
        301 => format!(in alloc; "nothing stands at {shown}"),
        307 => {
            format!(in alloc;
                "headers or dotted keys make what stands at {shown}, and no single value"
            )
        }
        _ => format!(in alloc; "what stands at {shown} is refused"),
    }
}

/// Why a place of a document has no answer: nothing stands there (301), or no single value (307). Below that the line in which what
/// stands there, or else its parent, is named first, where one stands; with 301 a name that is near. It fails for want of memory alone.
pub fn explain_absent(
    alloc: Global,
    file: Input<'_>,
    place: &str,
    code: u16,
    profile: Profile,
) -> Result<String, AllocError>
    ensures { IfOk result (λ text. ShowsInFile file.entry.word.now file.entry.bytes.now (string_bytes text)) }
{
    let shown = shown_place(alloc, place)?;
    let mut sentence = absent_sentence(alloc, shown.as_str(), code)?;
    let read = match read_place(alloc, place.as_bytes()) {
        Ok(read) => read,
        Err(PlaceFault::NoMemory) => return Err(AllocError),
        Err(PlaceFault::BadPlace { .. }) => return told_at(alloc, file, None, sentence),
    };
    let steps = steps_of(alloc, file.bytes, profile, &read)?;
    let found = look_up(alloc, file.bytes, profile, &steps, steps.len())?;
    if let Some(name) = &found.meant {
        if code == 301 {
            sentence.push_str(question(alloc, name)?.as_str())?;
        }
    }
    told_at(alloc, file, found.spot, sentence)
}
