//! An edit that is wished at a place, as a list of edits.
ghost use Rattle.std.specs.Prelude.{◌≡◌, ◌↔◌, ◌&&◌, ◌∷◌, [], IfOk, IsTrue, List, Some, is_some, map};
ghost use Rattle.toml_tree.specs.Tree as spelled;
ghost use Rattle.toml_names.specs.mentions.Mentions.{a_table, named};
ghost use Rattle.toml_names.specs.reader.Parts.{part_kinds, shape_kind};
ghost use Rattle.toml_names.specs.tree.NameTree.{IsTreeOf};
ghost use Rattle.toml_edits.specs.Edits.{change, insert, remove, rename};
ghost use Rattle.toml_places.specs.Leading.{below_steps};
ghost use Rattle.toml_one.specs.Kept.{Keeps};
ghost use Rattle.toml_one.specs.Steps.{ends_in_name};
ghost use Rattle.toml_one.specs.Wishes.{AreEditsAt, IsFree, IsInserted, IsNewMember, IsOne, IsSetAlone, IsSetAt, IsWithParents, PutsIn, or_nowhere, put_at, wished};

use crate::parents::{Here, Made, make_parents, nowhere};
use crate::steps::{ends_behind, ends_in_name};
use std::alloc::{AllocError, Global};
use toml_edits::Edit;
use toml_names::{Address, NamedText, Shape, Step};
use toml_places::{Place, PlaceStep, part_at};

/// What is wished at a place of a document.
#[derive(Clone, Copy, Debug)]
pub enum Wish<'a> {
    /// A value, the text of a TOML value: for what stands there, or a new one where nothing does.
    Set {
        /// The text of the value.
        value: &'a str,
        /// Make what is missing above the place.
        parents: bool,
    },
    /// A new member or element.
    Insert {
        /// The text of the value.
        value: &'a str,
        /// Make what is missing above the place.
        parents: bool,
    },
    /// Another name for a member.
    Rename {
        /// The name, its characters as they are.
        to: &'a str,
    },
    /// That what stands there goes.
    Remove,
}

/// The edits that stand for the wish, in the data of a document and by where its names stand.
///
/// A place that leads to no address stands for one at which nothing is. `Set` is a `set`; it is an `insert` where the place ends in
/// `[+]`, or where nothing stands there, it ends in a name, and a table stands at its parent. With `parents`, where the place ends in
/// a name and nothing stands there, it is an `insert` behind the edits that make what is missing above: in a value an empty value,
/// else a section, or a new element of an array of tables; `[+]` of an array that is missing is then `[0]`. An edit that puts something
/// at an address of more than 100 steps is always refused: the list is handed out up to and with the first such edit, whole where none is.
pub fn edits_at(
    alloc: Global,
    names: &NamedText<'_>,
    place: &Place,
    wish: Wish<'_>,
) -> Result<Vec<Edit>, AllocError>
    ensures { (lines : List spelled.Line) → IsTreeOf names.now (named lines)
        → IfOk result (λ edits. Keeps (AreEditsAt (part_kinds names.now 0) (named lines) place.now (wished wish.entry)) (map change edits.items)) }
{
    match wish {
        Wish::Set { value, parents } => set_at(alloc, names, place, value, parents),
        Wish::Insert { value, parents } => insert_at(alloc, names, place, value, parents),
        Wish::Rename { to } => rename_at(alloc, names, place, to),
        Wish::Remove => remove_at(alloc, names, place),
    }
}

/// The edits of a `set`.
fn set_at(
    alloc: Global,
    names: &NamedText<'_>,
    place: &Place,
    value: &str,
    parents: bool,
) -> Result<Vec<Edit>, AllocError>
    ensures { (lines : List spelled.Line) → IsTreeOf names.now (named lines)
        → IfOk result (λ edits.
        Keeps (IsSetAt (parents && ends_in_name place.now) (part_kinds names.now 0) (named lines) place.now value.now) (map change edits.items)) }
{
    if makes_parents(place, parents) {
        with_parents(alloc, names, place, value, true)
    } else {
        set_alone(alloc, names, place, value)
    }
}

/// The edits of an `insert`.
fn insert_at(
    alloc: Global,
    names: &NamedText<'_>,
    place: &Place,
    value: &str,
    parents: bool,
) -> Result<Vec<Edit>, AllocError>
    ensures { (lines : List spelled.Line) → IsTreeOf names.now (named lines)
        → IfOk result (λ edits.
        Keeps (IsInserted (parents && ends_in_name place.now) (part_kinds names.now 0) (named lines) place.now value.now) (map change edits.items)) }
{
    if makes_parents(place, parents) {
        with_parents(alloc, names, place, value, false)
    } else {
        insert_alone(alloc, names, place, value)
    }
}

/// Whether parents are made, where that is wished.
fn makes_parents(place: &Place, wished: bool) -> bool
    ensures { result ≡ (wished && ends_in_name place.now) }
{
    wished && ends_in_name(place.steps())
}

/// One `rename`.
fn rename_at(
    alloc: Global,
    names: &NamedText<'_>,
    place: &Place,
    to: &str,
) -> Result<Vec<Edit>, AllocError>
    ensures { IfOk result (λ edits. IsOne (part_kinds names.now 0) place.now (λ at. rename at to.now) (map change edits.items)) }
{
    let at = or_nowhere(alloc, place.address(alloc, names)?)?;
    let to = String::from_str(alloc, to)?;
    one(alloc, Edit::Rename { at, to })
}

/// One `remove`.
fn remove_at(alloc: Global, names: &NamedText<'_>, place: &Place) -> Result<Vec<Edit>, AllocError>
    ensures { IfOk result (λ edits. IsOne (part_kinds names.now 0) place.now remove (map change edits.items)) }
{
    let at = or_nowhere(alloc, place.address(alloc, names)?)?;
    one(alloc, Edit::Remove { at })
}

/// One `insert`.
fn insert_alone(
    alloc: Global,
    names: &NamedText<'_>,
    place: &Place,
    value: &str,
) -> Result<Vec<Edit>, AllocError>
    ensures { IfOk result (λ edits. IsOne (part_kinds names.now 0) place.now (λ at. insert at value.now) (map change edits.items)) }
{
    let at = or_nowhere(alloc, place.address(alloc, names)?)?;
    one(alloc, put(alloc, false, at, value)?)
}

/// One `set`, or one `insert` where a new value is put in.
fn set_alone(
    alloc: Global,
    names: &NamedText<'_>,
    place: &Place,
    value: &str,
) -> Result<Vec<Edit>, AllocError>
    ensures { IfOk result (λ edits. IsSetAlone (part_kinds names.now 0) place.now value.now (map change edits.items)) }
{
    let found = place.address(alloc, names)?;
    let puts_in = puts_in(names, place.steps(), &found)?;
    let at = or_nowhere(alloc, found)?;
    one(alloc, put(alloc, !puts_in, at, value)?)
}

/// The list of one edit.
fn one(alloc: Global, edit: Edit) -> Result<Vec<Edit>, AllocError>
    ensures { IfOk result (λ edits. edits.items ≡ edit ∷ []) }
{
    let mut edits = Vec::with_capacity(alloc, 1)?;
    edits.push(edit)?;
    Ok(edits)
}

/// A `set` of a value, or else an `insert`.
fn put(alloc: Global, sets: bool, at: Address, value: &str) -> Result<Edit, AllocError>
    ensures { IfOk result (λ edit. change edit ≡ put_at sets at value.now) }
{
    let value = String::from_str(alloc, value)?;
    if sets {
        Ok(Edit::Set { at, value })
    } else {
        Ok(Edit::Insert { at, value })
    }
}

/// Whether a `set` at the address to which the place leads puts a new value in.
fn puts_in(
    names: &NamedText<'_>,
    place: &[PlaceStep],
    found: &Option<Address>,
) -> Result<bool, AllocError>
    ensures { IfOk result (λ r. IsTrue r ↔ PutsIn (part_kinds names.now 0) place.now found.now) }
{
    if ends_behind(place) {
        return Ok(true);
    }
    match found {
        Some(at) => is_new_member(names, at.steps()),
        None => Ok(false),
    }
}

/// Whether a new member belongs at the address: nothing stands there, it ends in a name, and a table stands at its parent.
fn is_new_member(names: &NamedText<'_>, at: &[Step]) -> Result<bool, AllocError>
    ensures { IfOk result (λ r. IsTrue r ↔ IsNewMember (part_kinds names.now 0) at.now) }
{
    let Some((last, parent)) = at.split_last() else {
        return Ok(false);
    };
    match last {
        Step::Index(_) => Ok(false),
        Step::Name(_) => is_free(names, at, parent),
    }
}

/// Whether nothing stands at the address, and a table at the one above.
fn is_free(names: &NamedText<'_>, at: &[Step], parent: &[Step]) -> Result<bool, AllocError>
    ensures { IfOk result (λ r. IsTrue r ↔ IsFree (part_kinds names.now 0) at.now parent.now) }
{
    if part_at(names, at)?.is_some() {
        return Ok(false);
    }
    is_table(names, parent)
}

/// Whether a table stands at the address.
fn is_table(names: &NamedText<'_>, at: &[Step]) -> Result<bool, AllocError>
    ensures { IfOk result (λ r. IsTrue r ↔ (below_steps at.now (part_kinds names.now 0) [] ≡ Some a_table)) }
{
    match part_at(names, at)? {
        Some(part) => Ok(is_table_shape(&names.shape(part)?)),
        None => Ok(false),
    }
}

/// Whether it is a table.
fn is_table_shape(shape: &Shape) -> bool
    ensures { IsTrue result ↔ (shape_kind shape.now ≡ a_table) }
{
    matches!(shape, Shape::Table)
}

/// The edits that make what is missing above the place, and then one of its value: a `set` where something stands there and that may
/// be, else an `insert`.
fn with_parents(
    alloc: Global,
    names: &NamedText<'_>,
    place: &Place,
    value: &str,
    may_set: bool,
) -> Result<Vec<Edit>, AllocError>
    ensures { (lines : List spelled.Line) → IsTreeOf names.now (named lines)
        → IfOk result (λ edits. Keeps (IsWithParents may_set (part_kinds names.now 0) (named lines) place.now value.now) (map change edits.items)) }
{
    let Made { mut edits, end } = make_parents(alloc, names, place.steps())?;
    let Some(end) = end else {
        return Ok(edits);
    };
    let sets = sets_at(may_set, end.here);
    edits.push(put(alloc, sets, end.at, value)?)?;
    Ok(edits)
}

/// Whether something stands there that may be set.
fn sets_at(may_set: bool, here: Here) -> bool
    ensures { result ≡ (may_set && is_some here.part) }
{
    may_set && here.part.is_some()
}

/// The address, or one at which nothing stands.
fn or_nowhere(alloc: Global, found: Option<Address>) -> Result<Address, AllocError>
    ensures { IfOk result (λ at. at ≡ or_nowhere found) }
{
    match found {
        Some(at) => Ok(at),
        None => nowhere(alloc),
    }
}
