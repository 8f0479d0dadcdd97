//! `get`: what stands at a place of a document.
ghost use Rattle.std.specs.Prelude.{◌∷◌, ◌++◌, [], IfErr, IfOk, List};
ghost use Rattle.std.specs.Option.{option_copied};
ghost use Rattle.toml_tree.specs.HandedOut.{AreLinesIn};
ghost use Rattle.toml_tree.specs.Tree.{Line};
ghost use Rattle.toml_tree.specs.declared.profile.Profile.TheVariants.{One};
ghost use Rattle.toml_names.specs.reader.Parts.{part_kinds};
ghost use Rattle.toml_places.specs.Reads.{IsPlace};
ghost use Rattle.toml_commands.specs.Get.{Comes, Finds, FindsForm, FindsSpelled, Gets, IsBadPlace};
ghost use Rattle.toml_delivery.specs.Outcomes.{Ends, Prints};
ghost use Rattle.toml_commands.specs.Refusals.{IsRefused};

use crate::document::{read_data, read_source};
use std::alloc::{AllocError, Global};
use std::mem;
use toml_delivery::{Ending, Outcome, Refusal};
use toml_names::NamedText;
use toml_places::{Place, PlaceFault, read_place};
use toml_print::{Form, ValueText, print_at, value_text};
use toml_tree::Profile;

/// What `get` prints of what it finds.
#[derive(Clone, Copy, Debug, Drop, PartialEq, Eq)]
pub enum GetForm {
    /// It in a form.
    Printed(Form),
    /// The bytes of the one value that stands there.
    Toml,
}

/// What was found at a place.
#[derive(Drop)]
pub enum Found {
    /// Nothing stands there.
    Nothing,
    /// Something stands there that is no single value.
    Spread,
    /// The bytes of what stands there, without a newline.
    Text(Vec<u8>),
}

/// What `get` answers for a document of profile 1, and for other bytes: `run_get_in` with `Profile::One`.
pub fn run_get(
    alloc: Global,
    file: &[u8],
    place: &[u8],
    form: GetForm,
    default: Option<&[u8]>,
) -> Result<Outcome, AllocError>
    ensures { IfOk result (Gets One file.now place.now form (option_copied default.entry)) }
{
    run_get_in(alloc, file, place, form, default, Profile::One)
}

/// Prints what stands at the place in a document of the profile, or the default where nothing stands there. A place that is none is
/// refused first (340), then other bytes. What it read stays in memory, for a program that ends.
pub fn run_get_in(
    alloc: Global,
    file: &[u8],
    place: &[u8],
    form: GetForm,
    default: Option<&[u8]>,
    profile: Profile,
) -> Result<Outcome, AllocError>
    ensures { IfOk result (Gets profile file.now place.now form (option_copied default.entry)) }
{
    let place = match place_of(alloc, place) {
        Ok(place) => place,
        Err(ending) => return Outcome::of_text(alloc, Err(ending)),
    };
    match find(alloc, file, &place, form, profile) {
        Ok(found) => told(alloc, found, default),
        Err(ending) => Outcome::of_text(alloc, Err(ending)),
    }
}

/// The place that the bytes are, or why they are none.
pub fn place_of(alloc: Global, place: &[u8]) -> Result<Place, Ending>
    ensures place { IfOk result (IsPlace place.now) }
    ensures refused { IfErr result (Ends (IsBadPlace place.now)) }
{
    match read_place(alloc, place) {
        Ok(place) => Ok(place),
        Err(PlaceFault::BadPlace { at }) => Err(Ending::Refused(Refusal {
            code: 340,
            place: at,
        })),
        Err(PlaceFault::NoMemory) => Err(Ending::NoMemory),
    }
}

/// What stands at the place in a document, or why the bytes are none. What the document names stays in memory: the program ends once
/// it is printed.
fn find(
    alloc: Global,
    file: &[u8],
    place: &Place,
    form: GetForm,
    profile: Profile,
) -> Result<Found, Ending>
    ensures found { IfOk result (Finds profile file.now place.now form) }
    ensures refused { IfErr result (Ends (IsRefused profile file.now)) }
{
    let names = read_data(alloc, file, profile)?;
    let found = match form {
        GetForm::Printed(form) => printed(alloc, &names, place, form)?,
        GetForm::Toml => spelled(alloc, file, &names, place, profile)?,
    };
    mem::forget(names);
    Ok(found)
}

/// What stands at the place, in a form.
fn printed(
    alloc: Global,
    names: &NamedText<'_>,
    place: &Place,
    form: Form,
) -> Result<Found, AllocError>
    ensures { IfOk result (FindsForm form (part_kinds names.now 0) place.now) }
{
    match print_at(alloc, names, place, form)? {
        Some(text) => Ok(Found::Text(text)),
        None => Ok(Found::Nothing),
    }
}

/// The one value that stands at the place, as it is spelled.
fn spelled(
    alloc: Global,
    file: &[u8],
    names: &NamedText<'_>,
    place: &Place,
    profile: Profile,
) -> Result<Found, Ending>
    ensures found { (lines : List Line) → AreLinesIn profile file.now lines → IfOk result (FindsSpelled lines (part_kinds names.now 0) place.now) }
    ensures refused { IfErr result (Ends (IsRefused profile file.now)) }
{
    let source = read_source(file)?;
    match value_text(alloc, source, profile, names, place)? {
        ValueText::Nothing => Ok(Found::Nothing),
        ValueText::Spread => Ok(Found::Spread),
        ValueText::One(text) => Ok(Found::Text(Vec::from_slice(alloc, text.as_bytes())?)),
    }
}

/// What comes of what was found.
fn told(alloc: Global, found: Found, default: Option<&[u8]>) -> Result<Outcome, AllocError>
    ensures { IfOk result (Comes found (option_copied default.entry)) }
{
    match (found, default) {
        (Found::Text(text), _) => print_line(alloc, text),
        (Found::Nothing, Some(default)) => print_line(alloc, Vec::from_slice(alloc, default)?),
        (Found::Nothing, None) => Outcome::missing(alloc),
        (Found::Spread, _) => Outcome::of_text(
            alloc,
            Err(Ending::Refused(Refusal {
                code: 307,
                place: 0,
            })),
        ),
    }
}

/// Prints the bytes and LF.
fn print_line(alloc: Global, text: Vec<u8>) -> Result<Outcome, AllocError>
    ensures { IfOk result (Prints (text.items ++ 0x0A ∷ [])) }
{
    let mut line = text;
    line.push(b'\n')?;
    Outcome::of_text(alloc, Ok(line))
}
