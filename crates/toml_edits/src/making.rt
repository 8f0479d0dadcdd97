//! New tables in data: a section, and an element of an array of tables.
ghost use Rattle.std.specs.Prelude.{◌≡◌, ◌⊎◌, ◌↔◌, [], Some, None, IsTrue, IfErr, OnOk, OnErr, IfOk, MatchOption, ℕ, List, option_copied};
ghost use Rattle.toml_names.specs.model.Addresses.{Address};
ghost use Rattle.toml_names.specs.model.Data.{kind_at, kind_in};
ghost use Rattle.toml_names.specs.mentions.Mentions.{a_table};
ghost use Rattle.toml_edits.specs.Applied.{IsApplied, IsRefused};
ghost use Rattle.toml_edits.specs.After.{an_empty_table, one_empty_table};
ghost use Rattle.toml_edits.specs.Edits.{new_section, new_element};
ghost use Rattle.toml_edits.specs.Faults.{IsFault, IsElementOf, IsNextIndex};
ghost use Rattle.toml_edits.specs.Making.{IsPlaceOf};
ghost use Rattle.toml_tree.specs.declared.profile.Profile.{Profile};

use crate::applying::step_fault;
use crate::change::{DatumChange, alter};
use crate::fault::EditFault;
use std::alloc::{AllocError, Global};
use std::collections::BTreeMap;
use toml_names::{Datum, MAX_STEPS, Name, Step};

/// A table that has no members.
fn empty_table(alloc: Global) -> Datum
    ensures { (at : Address) → kind_at result at ≡ an_empty_table at }
{
    Datum::Table(BTreeMap::new(alloc))
}

/// An array whose only element is an empty table.
fn one_empty_table(alloc: Global) -> Result<Datum, AllocError>
    ensures { IfOk result (λ d. (at : Address) → kind_at d at ≡ one_empty_table at) }
{
    let mut items = Vec::new(alloc);
    items.push(empty_table(alloc))?;
    Ok(Datum::Array(items))
}

/// Makes an empty table that is a member of a table.
pub(crate) fn section(alloc: Global, root: &mut Datum, at: &[Step]) -> Result<(), EditFault>
    ensures fault { (profile : Profile) → IfErr result (IsRefused profile (new_section at.now) (kind_at root.old)) }
    ensures ok { (profile : Profile) → OnOk result (IsApplied profile (new_section at.now) (kind_at root.old) (kind_at root.new)) }
    ensures err { OnErr result ((p : Address) → kind_at root.new p ≡ kind_at root.old p) }
{
    if let Some(fault) = section_fault(&*root, at) {
        return Err(fault);
    }
    let Some((last, parent)) = at.split_last() else {
        return Err(EditFault::RootNamed);
    };
    let Step::Name(name) = last else {
        return Err(EditFault::NotAName);
    };
    let table = empty_table(alloc);
    alter(
        alloc,
        root,
        parent,
        DatumChange::AddMember(name.as_str(), table),
    )
}

/// Why no section may be made there.
fn section_fault(root: &Datum, at: &[Step]) -> Option<EditFault>
    ensures { (profile : Profile) → IsFault profile (new_section at.now) (kind_at root.now) result }
{
    let Some((last, above)) = at.split_last() else {
        return Some(EditFault::RootNamed);
    };
    let Some(parent) = root.part(above) else {
        return Some(EditFault::NoSuchPlace);
    };
    if let Step::Index(_) = last {
        return Some(EditFault::NotAName);
    }
    if let Some(fault) = step_fault(parent, last) {
        return Some(fault);
    }
    if at.len() > MAX_STEPS {
        return Some(EditFault::AddressLength);
    }
    None
}

/// The place of an element of an array that a table has.
#[derive(Clone, Copy)]
struct ElementPlace<'a> {
    /// The steps to the table.
    above: &'a [Step],
    name: &'a Name,
    /// The steps to the array.
    array: &'a [Step],
    index: u64,
}

/// The steps as such a place.
fn element_place<'a>(at: &'a [Step]) -> Option<ElementPlace<'a>>
    ensures { MatchOption result ((r : Address) (n : List ℕ) (i : ℕ) → ¬ IsElementOf at.now r n i) (IsPlaceOf at.now) }
{
    let (last, array) = at.split_last()?;
    let Step::Index(index) = last else {
        return None;
    };
    let (before, above) = array.split_last()?;
    let Step::Name(name) = before else {
        return None;
    };
    Some(ElementPlace {
        above,
        name,
        array,
        index: *index,
    })
}

/// Whether it is a table.
fn is_table(datum: &Datum) -> bool
    ensures { IsTrue result ↔ (kind_at datum.now [] ≡ Some a_table) }
{
    matches!(datum, Datum::Table(_))
}

/// Whether the index is that of the next element. Where there is no array the first is the next.
fn is_next(array: Option<&Datum>, index: u64) -> bool
    ensures { IsTrue result ↔ IsNextIndex (kind_in (option_copied array.entry)) [] index }
{
    match array {
        Some(datum) => has_length(datum, index),
        None => index == 0,
    }
}

/// Whether it is an array of so many elements.
fn has_length(datum: &Datum, length: u64) -> bool
    ensures { IsTrue result ↔ IsNextIndex (kind_at datum.now) [] length }
{
    match datum {
        Datum::Array(items) => length == items.len() as u64,
        _ => false,
    }
}

/// Why no element may be made there.
fn element_fault(root: &Datum, at: &[Step], place: ElementPlace<'_>) -> Option<EditFault>
    requires { IsPlaceOf at.now place }
    ensures { (profile : Profile) → IsFault profile (new_element at.now) (kind_at root.now) result }
{
    let Some(parent) = root.part(place.above) else {
        return Some(EditFault::NoSuchPlace);
    };
    if !is_table(parent) {
        return Some(EditFault::NotATable);
    }
    if !is_next(root.part(place.array), place.index) {
        return Some(EditFault::IndexOutside);
    }
    if at.len() > MAX_STEPS {
        return Some(EditFault::AddressLength);
    }
    None
}

/// Makes an empty table that is the last element of an array, and the array where there is none.
pub(crate) fn element(alloc: Global, root: &mut Datum, at: &[Step]) -> Result<(), EditFault>
    ensures fault { (profile : Profile) → IfErr result (IsRefused profile (new_element at.now) (kind_at root.old)) }
    ensures ok { (profile : Profile) → OnOk result (IsApplied profile (new_element at.now) (kind_at root.old) (kind_at root.new)) }
    ensures err { OnErr result ((p : Address) → kind_at root.new p ≡ kind_at root.old p) }
{
    if at.is_empty() {
        return Err(EditFault::RootNamed);
    }
    let Some(place) = element_place(at) else {
        return Err(EditFault::NotAnElement);
    };
    if let Some(fault) = element_fault(&*root, at, place) {
        return Err(fault);
    }
    if root.part(place.array).is_some() {
        let table = empty_table(alloc);
        return alter(
            alloc,
            root,
            place.array,
            DatumChange::AddElement(place.index, table),
        );
    }
    let array = one_empty_table(alloc)?;
    alter(
        alloc,
        root,
        place.above,
        DatumChange::AddMember(place.name.as_str(), array),
    )
}
