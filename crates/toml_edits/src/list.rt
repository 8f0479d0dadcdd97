//! Edit lists: JSON read into edits.
ghost use Rattle.std.specs.Prelude.{◌≡◌, codes, option_map, IfOk};
ghost use Rattle.serde_json.specs.Find.{get};
ghost use Rattle.serde_json.specs.View.{view, items_view};
ghost use Rattle.toml_edits.specs.EditList.{ReadsEdits, ReadsItems, entry_of, edit_of, text_at, address_at, address_of, steps_of, step_of, count, has_no_text, members_of};
ghost use Rattle.toml_edits.specs.Edits.{change, set, insert, rename};

use crate::edit::Edit;
use crate::fault::EditsFault;
use serde_json::Value;
use std::alloc::{AllocError, Global};
use toml_names::{Address, Name, Step};

/// The edits of a JSON list, in its order.
///
/// Each entry is an object with exactly the members `op`, `at` and `value` (`"set"`, `"insert"`), or `op`, `at` and `to`
/// (`"rename"`), or `op` and `at` (`"remove"`, `"section"`, `"element"`); `at` is a list of texts and of whole numbers
/// from 0 to 2^64 - 1, `value` and `to` are texts. `NotAList` is told where the bytes are no JSON list, `BadEdits` with
/// the first entry that is not of this form, counted from 0. JSON is what `serde_json` reads: of two equal members the
/// last counts.
pub fn read_edits(alloc: Global, bytes: &[u8]) -> Result<Vec<Edit>, EditsFault>
    ensures { ReadsEdits bytes.now result }
{
    let value = match Value::from_slice(alloc, bytes) {
        Ok(value) => value,
        Err(error) => {
            if error.is_memory() {
                return Err(EditsFault::NoMemory);
            }
            return Err(EditsFault::NotAList);
        }
    };
    match value.as_array() {
        Some(entries) => read_entries(alloc, entries),
        None => Err(EditsFault::NotAList),
    }
}

/// The edits of the entries.
fn read_entries(alloc: Global, entries: &[Value]) -> Result<Vec<Edit>, EditsFault>
    ensures { ReadsItems (items_view entries.now) result }
{
    let mut edits = Vec::new(alloc);
    for (index, entry) in entries.iter().enumerate() {
        match read_entry(alloc, entry)? {
            Some(edit) => edits.push(edit)?,
            None => return Err(EditsFault::BadEdits { index }),
        }
    }
    Ok(edits)
}

/// The edit of an entry, or none where it is not of the form.
fn read_entry(alloc: Global, entry: &Value) -> Result<Option<Edit>, AllocError>
    ensures { IfOk result (λ edit. option_map change edit ≡ entry_of (view entry.now)) }
{
    let Some(op) = text_at(entry, "op") else {
        return Ok(None);
    };
    let Some(at) = address_at(alloc, entry)? else {
        return Ok(None);
    };
    if count(entry) != members_of(op) {
        return Ok(None);
    }
    edit_of(alloc, op, at, entry)
}

/// The text of a member.
fn text_at<'v>(entry: &'v Value, key: &'static str) -> Option<&'v str>
    ensures { option_map (λ text. text.now) result ≡ text_at key.now (view entry.now) }
{
    entry.get(key)?.as_str()
}

/// The address in `at`.
fn address_at(alloc: Global, entry: &Value) -> Result<Option<Address>, AllocError>
    ensures { IfOk result (λ at. at ≡ address_at (view entry.now)) }
{
    match entry.get("at") {
        Some(at) => address_of(alloc, at),
        None => Ok(None),
    }
}

/// The address that a JSON list of texts and numbers is.
fn address_of(alloc: Global, at: &Value) -> Result<Option<Address>, AllocError>
    ensures { IfOk result (λ a. a ≡ address_of (view at.now)) }
{
    match at.as_array() {
        Some(items) => steps_of(alloc, items),
        None => Ok(None),
    }
}

/// The steps of an address.
fn steps_of(alloc: Global, items: &[Value]) -> Result<Option<Address>, AllocError>
    ensures { IfOk result (λ a. a ≡ steps_of (items_view items.now)) }
{
    let mut steps = Vec::with_capacity(alloc, items.len())?;
    for item in items {
        match step_of(alloc, item)? {
            Some(step) => steps.push(step)?,
            None => return Ok(None),
        }
    }
    Ok(Some(Address::of(steps)))
}

/// A step: a text is a name, a whole number an index.
fn step_of(alloc: Global, item: &Value) -> Result<Option<Step>, AllocError>
    ensures { IfOk result (λ s. s ≡ step_of (view item.now)) }
{
    if let Some(name) = item.as_str() {
        let text = String::from_str(alloc, name)?;
        return Ok(Some(Step::Name(Name::of(text)?)));
    }
    Ok(item.as_u64().map(Step::Index))
}

/// How many members an object has.
fn count(entry: &Value) -> usize
    ensures { result ≡ count (view entry.now) }
{
    match entry.as_object() {
        Some(members) => members.len(),
        None => 0,
    }
}

/// Whether the operation has no text.
fn has_no_text(op: &str) -> bool
    ensures { result ≡ has_no_text op.now }
{
    op == "remove" || op == "section" || op == "element"
}

/// How many members an entry has by its operation.
fn members_of(op: &str) -> usize
    ensures { result ≡ members_of op.now }
{
    if has_no_text(op) { 2 } else { 3 }
}

/// The edit by its operation.
fn edit_of(alloc: Global, op: &str, at: Address, entry: &Value) -> Result<Option<Edit>, AllocError>
    ensures { IfOk result (λ edit. option_map change edit ≡ edit_of op.now at (view entry.now)) }
{
    if op == "set" {
        return set_of(alloc, at, entry);
    }
    if op == "insert" {
        return insert_of(alloc, at, entry);
    }
    if op == "rename" {
        return rename_of(alloc, at, entry);
    }
    if op == "remove" {
        return Ok(Some(Edit::Remove { at }));
    }
    if op == "section" {
        return Ok(Some(Edit::Section { at }));
    }
    if op == "element" {
        return Ok(Some(Edit::Element { at }));
    }
    Ok(None)
}

/// The `set` of an entry, if its `value` is a text.
fn set_of(alloc: Global, at: Address, entry: &Value) -> Result<Option<Edit>, AllocError>
    ensures { IfOk result (λ edit. option_map change edit ≡ option_map (set at) (text_at (codes "value") (view entry.now))) }
{
    let Some(text) = text_at(entry, "value") else {
        return Ok(None);
    };
    let value = String::from_str(alloc, text)?;
    Ok(Some(Edit::Set { at, value }))
}

/// The `insert` of an entry, if its `value` is a text.
fn insert_of(alloc: Global, at: Address, entry: &Value) -> Result<Option<Edit>, AllocError>
    ensures { IfOk result (λ edit. option_map change edit ≡ option_map (insert at) (text_at (codes "value") (view entry.now))) }
{
    let Some(text) = text_at(entry, "value") else {
        return Ok(None);
    };
    let value = String::from_str(alloc, text)?;
    Ok(Some(Edit::Insert { at, value }))
}

/// The `rename` of an entry, if its `to` is a text.
fn rename_of(alloc: Global, at: Address, entry: &Value) -> Result<Option<Edit>, AllocError>
    ensures { IfOk result (λ edit. option_map change edit ≡ option_map (rename at) (text_at (codes "to") (view entry.now))) }
{
    let Some(text) = text_at(entry, "to") else {
        return Ok(None);
    };
    let to = String::from_str(alloc, text)?;
    Ok(Some(Edit::Rename { at, to }))
}
