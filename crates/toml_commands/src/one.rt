//! `set`, `insert`, `rename` and `remove`: one edit at a place.
ghost use Rattle.std.specs.Prelude.{◌≡◌, IfErr, IfOk, map, string_bytes};
ghost use Rattle.toml_edits.specs.Edits.{change};
ghost use Rattle.toml_one.specs.Kept.{Keeps};
ghost use Rattle.toml_one.specs.Wishes.{wished};
ghost use Rattle.toml_words.specs.Request.{asked_edit, asked_value};
ghost use Rattle.toml_commands.specs.One.{AreWished, AreWishedOrNone, IsMadeAt, IsUnmadeAt, MakesWish, value_text, wished_by};
ghost use Rattle.toml_delivery.specs.Outcomes.{Ends, IsGood};
ghost use Rattle.toml_commands.specs.Refusals.{IsRefused};

use crate::apply::text_answer;
use crate::document::read_data;
use crate::edit::make;
use crate::edit_list::no_edits;
use crate::get::place_of;
use std::alloc::{AllocError, Global};
use std::mem;
use toml_delivery::{Answer, Ending, Outcome};
use toml_editor::Layout;
use toml_edits::Edit;
use toml_one::{Wish, edits_at};
use toml_places::Place;
use toml_scalar::spell_string;
use toml_tree::Profile;
use toml_words::{NewValue, OneEdit};

/// Prints the text that the edit at the place makes of the document, and has its certificate written as the one file; or the
/// refusal. The place is judged first, then the document, and then the edits that stand for the one edit, as `edit` judges them.
/// What it read stays in memory, for a program that ends.
pub fn run_one_in(
    alloc: Global,
    file: &[u8],
    place: &[u8],
    edit: OneEdit<'_>,
    profile: Profile,
    layout: Layout,
) -> Result<Outcome, AllocError>
    ensures { IfOk result (MakesWish layout profile file.now place.now (wished_by (asked_edit edit.entry))) }
{
    match edit {
        OneEdit::Set { value, parents } => {
            let text = value_text(alloc, value)?;
            let value = text.as_str();
            run_wish(
                alloc,
                file,
                place,
                Wish::Set { value, parents },
                profile,
                layout,
            )
        }
        OneEdit::Insert { value, parents } => {
            let text = value_text(alloc, value)?;
            let value = text.as_str();
            run_wish(
                alloc,
                file,
                place,
                Wish::Insert { value, parents },
                profile,
                layout,
            )
        }
        OneEdit::Rename { to } => run_wish(
            alloc,
            file,
            place,
            Wish::Rename { to },
            profile,
            layout,
        ),
        OneEdit::Remove => run_wish(alloc, file, place, Wish::Remove, profile, layout),
    }
}

/// The text of a value: of a string's characters their spelling.
pub fn value_text(alloc: Global, value: NewValue<'_>) -> Result<String, AllocError>
    ensures { IfOk result (λ text. string_bytes text ≡ value_text (asked_value value.entry)) }
{
    if value.is_string {
        spell_string(alloc, value.text)
    } else {
        String::from_str(alloc, value.text)
    }
}

/// What a wish comes to.
fn run_wish(
    alloc: Global,
    file: &[u8],
    place: &[u8],
    wish: Wish<'_>,
    profile: Profile,
    layout: Layout,
) -> Result<Outcome, AllocError>
    ensures { IfOk result (MakesWish layout profile file.now place.now (wished wish.entry)) }
{
    Outcome::of(alloc, made_at(alloc, file, place, wish, profile, layout))
}

/// The edited text, and its certificate.
#[tactic(auto, using(crate::proofs::Wishing::no_place, crate::proofs::Wishing::no_document, crate::proofs::Wishing::unmade_at, crate::proofs::Wishing::made_at))]
fn made_at(
    alloc: Global,
    file: &[u8],
    place: &[u8],
    wish: Wish<'_>,
    profile: Profile,
    layout: Layout,
) -> Result<Answer, Ending>
    ensures good { IfOk result (IsGood (IsMadeAt layout profile file.now place.now (wished wish.entry))) }
    ensures refused { IfErr result (Ends (IsUnmadeAt layout profile file.now place.now (wished wish.entry))) }
{
    let place = place_of(alloc, place)?;
    let edits = edits_of(alloc, file, &place, wish, profile)?;
    let (text, certificate) = make(alloc, file, &edits, profile, layout)?;
    Ok(text_answer(alloc, text, &certificate)?)
}

/// The edits that stand for the wish in the document, up to and with the first that puts something at an address of more than 100 steps.
/// Its names stay in memory.
pub fn edits_of(
    alloc: Global,
    file: &[u8],
    place: &Place,
    wish: Wish<'_>,
    profile: Profile,
) -> Result<Vec<Edit>, Ending>
    ensures wished { IfOk result (λ edits. Keeps (AreWished profile file.now place.now (wished wish.entry)) (map change edits.items)) }
    ensures refused { IfErr result (Ends (IsRefused profile file.now)) }
{
    let names = read_data(alloc, file, profile)?;
    let edits = edits_at(alloc, &names, place, wish)?;
    mem::forget(names);
    Ok(edits)
}

/// The edits that stand for an edit of words at a place, as `edits_of`, for who explains why they are refused; none where the place or the
/// document is refused.
pub fn edits_of_words(
    alloc: Global,
    file: &[u8],
    place: &str,
    edit: OneEdit<'_>,
    profile: Profile,
) -> Result<Vec<Edit>, AllocError>
    ensures { IfOk result (λ edits.
        AreWishedOrNone profile file.now place.now (wished_by (asked_edit edit.entry)) (map change edits.items)) }
{
    match edit {
        OneEdit::Set { value, parents } => {
            let text = value_text(alloc, value)?;
            let value = text.as_str();
            wished_or_none(alloc, file, place, Wish::Set { value, parents }, profile)
        }
        OneEdit::Insert { value, parents } => {
            let text = value_text(alloc, value)?;
            let value = text.as_str();
            wished_or_none(alloc, file, place, Wish::Insert { value, parents }, profile)
        }
        OneEdit::Rename { to } => wished_or_none(alloc, file, place, Wish::Rename { to }, profile),
        OneEdit::Remove => wished_or_none(alloc, file, place, Wish::Remove, profile),
    }
}

/// The edits that stand for a wish at a place, or none.
#[tactic(auto, using(crate::proofs::NoEdits::none_of_place, crate::proofs::NoEdits::none_of_document, crate::proofs::NoEdits::some_wished))]
fn wished_or_none(
    alloc: Global,
    file: &[u8],
    place: &str,
    wish: Wish<'_>,
    profile: Profile,
) -> Result<Vec<Edit>, AllocError>
    ensures { IfOk result (λ edits. AreWishedOrNone profile file.now place.now (wished wish.entry) (map change edits.items)) }
{
    let place = match place_of(alloc, place.as_bytes()) {
        Ok(place) => place,
        Err(ending) => return no_edits(alloc, ending),
    };
    match edits_of(alloc, file, &place, wish, profile) {
        Ok(edits) => Ok(edits),
        Err(ending) => no_edits(alloc, ending),
    }
}
