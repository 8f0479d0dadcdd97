//! One edit after the other, on the data and on the working tree.
ghost use Rattle.std.specs.Prelude.{◌≡◌, IfErr, IfOk, IsTrue, OnOk, false, map, option_copied, ◌&&◌, not};
ghost use Rattle.toml_scalar.specs.Spelling.{spelled};
ghost use Rattle.toml_edits.specs.Drafts.{IsReadyAt, drafted};
ghost use Rattle.toml_edits.specs.Edits.{change, place as place_of};
ghost use Rattle.toml_editor.specs.Edited.{RemovesFlat, TakesLastElement, MayBeSpread};
ghost use Rattle.toml_editor.specs.Exact.{WritesEdit, WritesHeader, WritesInside, WritesLine, WritesNoElement, WritesRename, WritesSet};
ghost use Rattle.toml_editor.specs.Made.{MakesEdit, MakesEdits, RefusesEdit, RefusesEdits};
ghost use Rattle.toml_editor.specs.Making.{HasNames, IsMade, IsMany, TellsRow};
ghost use Rattle.toml_editor.specs.SpelledEdits.{AreSpelled, IsSpelled};
ghost use Rattle.toml_working.specs.Starting.{NoneIsGone, read_of};
ghost use Rattle.toml_working.specs.Stands.{KeepsRest, KeepsTexts};

use crate::fault::EditorFault;
use crate::spelled::Spelled;
use std::alloc::{AllocError, Global};
use toml_edits::{Draft, Edit, EditFault, place};
use toml_layout::{Brackets, open_value};
use toml_names::{Address, Datum, LineNames, Name, Step};
use toml_tree::Profile;
use toml_working::{Above, Before, NewHeader, Tree, innermost_element, is_flat, parent_of};

/// What was read of the document, in the profile, by which the edits are made on its working tree.
#[derive(Clone, Copy)]
pub(crate) struct Read<'a, 't> {
    pub(crate) before: Before<'a, 't>,
    pub(crate) names: &'a LineNames<'t>,
    pub(crate) profile: Profile,
}

/// Makes the edits. The first one that is not defined on the data so far, or whose place is spread, or that would leave an
/// array of tables without an element, is told with its number. Where the edits before it are plain, none that is made sets a
/// table or an array of which the text has no one value, puts a header line in below a line's value, or takes out the only
/// element of an array of tables; and one that is told to be spread, or to take a last element, is not plain, nor held by an
/// array or an inline table in a value.
pub(crate) fn make_all<'x>(
    alloc: Global,
    tree: &mut Tree<'x>,
    read: Read<'_, 'x>,
    draft: &mut Draft,
    edits: &'x [Edit],
    spelled: &'x [Spelled],
) -> Result<(), EditorFault>
    requires names { HasNames read }
    requires spelled { AreSpelled (map change edits.now) spelled.now }
    ensures made { OnOk result (MakesEdits read.entry (map change edits.now) draft.old draft.new tree.old tree.new) }
    ensures told { IfErr result (RefusesEdits read.entry (map change edits.now) draft.old tree.old) }
{
    for (index, edit) in edits.iter().enumerate() {
        if let Err(fault) = make(alloc, tree, read, draft, edit, &spelled[index], index) {
            return Err(fault);
        }
    }
    Ok(())
}

/// Makes the edit with this number.
fn make<'x>(
    alloc: Global,
    tree: &mut Tree<'x>,
    read: Read<'_, 'x>,
    draft: &mut Draft,
    edit: &'x Edit,
    spelled: &'x Spelled,
    index: usize,
) -> Result<(), EditorFault>
    requires names { HasNames read }
    requires spelled { IsSpelled (change edit.now) spelled.now }
    ensures made { OnOk result (MakesEdit read.entry (change edit.now) draft.old draft.new tree.old tree.new) }
    ensures told { IfErr result (RefusesEdit read.entry index (change edit.now) draft.old tree.old) }
{
    draft.turn_to(alloc, edit)?;
    make_here(alloc, tree, read, draft, edit, spelled, index)
}

/// Makes the edit with this number, on the data first, which were turned to it.
fn make_here<'x>(
    alloc: Global,
    tree: &mut Tree<'x>,
    read: Read<'_, 'x>,
    draft: &mut Draft,
    edit: &'x Edit,
    spelled: &'x Spelled,
    index: usize,
) -> Result<(), EditorFault>
    requires names { HasNames read }
    requires ready { IsReadyAt draft.old (place_of (change edit.now)) }
    requires spelled { IsSpelled (change edit.now) spelled.now }
    ensures made { OnOk result (MakesEdit read.entry (change edit.now) draft.old draft.new tree.old tree.new) }
    ensures told { IfErr result (RefusesEdit read.entry index (change edit.now) draft.old tree.old) }
{
    let spread = may_be_spread(draft, edit);
    let only = is_only_element(draft, edit);
    let flat = removes_flat(draft, edit);
    applied(alloc, draft, edit, index, read.profile)?;
    let done = write_edit(alloc, tree, read, edit, spelled, flat)?;
    let is_spread = not_made(done, spread);
    if is_spread {
        return Err(EditorFault::Spread { index });
    }
    let is_last = not_made(done, only);
    if is_last {
        return Err(EditorFault::LastElement { index });
    }
    Ok(())
}

/// Whether an edit was not made that may be refused for it.
fn not_made(done: bool, may: bool) -> bool
    ensures { result ≡ (not done && may) }
{
    !done && may
}

/// Makes the edit on the data.
fn applied(
    alloc: Global,
    draft: &mut Draft,
    edit: &Edit,
    index: usize,
    profile: Profile,
) -> Result<(), EditorFault>
    ensures ok { OnOk result (IsMade profile (change edit.now) draft.old draft.new) }
    ensures told { IfErr result (TellsRow profile index (change edit.now) (drafted draft.old)) }
{
    match draft.apply(alloc, edit, profile) {
        Ok(()) => Ok(()),
        Err(EditFault::NoMemory) => Err(EditorFault::NoMemory),
        Err(fault) => Err(EditorFault::Edit { index, fault }),
    }
}

/// Makes the edit on the working tree; where it removes a table, `flat` says that no table stands in that. It answers `false`
/// where the tree has no one place for it.
fn write_edit<'x>(
    alloc: Global,
    tree: &mut Tree<'x>,
    read: Read<'_, 'x>,
    edit: &'x Edit,
    spelled: &'x Spelled,
    flat: bool,
) -> Result<bool, AllocError>
    requires names { HasNames read }
    requires spelled { IsSpelled (change edit.now) spelled.now }
    ensures { IfOk result (WritesEdit read.entry.profile (read_of read.entry.before) flat (change edit.now) tree.old tree.new) }
{
    let at = tree.elements.uncut(alloc, place(edit))?;
    match edit {
        Edit::Set { value, .. } => write_set(alloc, tree, read, &at, value.as_str()),
        Edit::Insert { value, .. } => {
            write_insert(alloc, tree, read, &at, value.as_str(), &spelled.steps)
        }
        Edit::Rename { to, .. } => {
            write_rename(alloc, tree, read, &at, to.as_str(), spelled.to.as_str())?;
            Ok(true)
        }
        Edit::Remove { .. } => {
            let named = tree.guesses.named(alloc, read.names, &at)?;
            tree.remove(read.before, named, &at, flat)
        }
        Edit::Section { .. } => write_header(alloc, tree, read, &at, Brackets::One, spelled),
        Edit::Element { .. } => write_header(alloc, tree, read, &at, Brackets::Two, spelled),
    }
}

/// Puts the value of a `set` in on the working tree. It answers `false` where no single value stands there.
fn write_set<'x>(
    alloc: Global,
    tree: &mut Tree<'x>,
    read: Read<'_, 'x>,
    at: &Address,
    value: &'x str,
) -> Result<bool, AllocError>
    requires { HasNames read }
    ensures rest { OnOk result (KeepsRest tree.old tree.new) }
    ensures set { IfOk result (WritesSet read.entry.profile (read_of read.entry.before) at.now value.now tree.old tree.new) }
{
    match open_value(alloc, value, read.profile)? {
        Some(new) => {
            let named = tree.guesses.named(alloc, read.names, at)?;
            tree.set(read.before, named, at, new)
        }
        // The data have taken the value by now, so it is one of the profile.
        None => Ok(true),
    }
}

/// Puts the value of an `insert` in on the working tree; the steps of its address are spelled so. Of a
/// parent that is a table or an array it answers `false` where that is an array of tables.
fn write_insert<'x>(
    alloc: Global,
    tree: &mut Tree<'x>,
    read: Read<'_, 'x>,
    at: &Address,
    value: &'x str,
    steps: &'x [String],
) -> Result<bool, AllocError>
    requires { HasNames read }
    ensures rest { OnOk result (KeepsRest tree.old tree.new) }
    ensures line { let read_here = read_of read.entry.before in
        OnOk result (WritesLine read.entry.profile read_here at.now value.now steps.now tree.old tree.new) }
    ensures inside { let read_here = read_of read.entry.before in
        IfOk result (WritesInside read.entry.profile read_here at.now value.now steps.now tree.old tree.new) }
    ensures element { IfOk result (WritesNoElement read.entry.profile (read_of read.entry.before) at.now value.now tree.old) }
{
    match open_value(alloc, value, read.profile)? {
        Some(new) => {
            let parent = parent_of(alloc, at)?;
            let named = tree.guesses.named(alloc, read.names, &parent)?;
            tree.insert(read.before, named, &parent, at, steps, new)
        }
        // The data have taken the value by now, so it is one of the profile.
        None => Ok(true),
    }
}

/// Gives what stands at the address another name on the working tree, which is spelled so.
fn write_rename<'x>(
    alloc: Global,
    tree: &mut Tree<'x>,
    read: Read<'_, 'x>,
    at: &Address,
    to: &str,
    spelling: &'x str,
) -> Result<(), AllocError>
    requires names { HasNames read }
    requires spelling { spelling.now ≡ spelled to.now }
    ensures { OnOk result (NoneIsGone tree.old.elements → WritesRename (read_of read.entry.before) at.now to.now tree.old tree.new) }
{
    let name = Name::of(String::from_str(alloc, to)?)?;
    let named = tree.guesses.named(alloc, read.names, at)?;
    tree.rename(read.before, named, at, &name, spelling)
}

/// Puts the header line of a new table, or of a new element, in on the working tree; the steps of its address are spelled so. It answers
/// `false` where it would stand in a value.
fn write_header<'x>(
    alloc: Global,
    tree: &mut Tree<'x>,
    read: Read<'_, 'x>,
    at: &Address,
    brackets: Brackets,
    spelled: &'x Spelled,
) -> Result<bool, AllocError>
    requires { HasNames read }
    ensures rest { OnOk result (KeepsTexts tree.old tree.new) }
    ensures header { let read_here = read_of read.entry.before in
        IfOk result (WritesHeader brackets read_here at.now spelled.now.steps.items tree.old tree.new) }
{
    let parent = parent_of(alloc, at)?;
    let element = innermost_element(alloc, &parent)?;
    let near = match &element {
        Some(element) => tree.guesses.named(alloc, read.names, element)?,
        None => None,
    };
    let above = Above {
        named: tree.guesses.named(alloc, read.names, &parent)?,
        at: parent,
        element,
        near,
    };
    let new = NewHeader {
        at,
        brackets,
        spelled: &spelled.steps,
    };
    tree.add_header(read.before, &above, new)
}

/// Whether the place of the edit may be spread over several expressions, by the data.
fn may_be_spread(draft: &Draft, edit: &Edit) -> bool
    ensures yes { IsTrue result → MayBeSpread (change edit.now) (drafted draft.now) }
    ensures no { result ≡ false → ¬ MayBeSpread (change edit.now) (drafted draft.now) }
{
    match edit {
        Edit::Set { at, .. } => is_many(draft.found(at)),
        Edit::Insert { at, .. } => matches!(at.steps().last(), Some(Step::Index(_))),
        Edit::Section { .. } | Edit::Element { .. } => true,
        Edit::Rename { .. } | Edit::Remove { .. } => false,
    }
}

/// Whether it is a table or an array.
#[tactic(auto, using(crate::proofs::Shapes::many_table, crate::proofs::Shapes::many_array, crate::proofs::Shapes::scalar_is_one, crate::proofs::Shapes::none_is_one))]
fn is_many(found: Option<&Datum>) -> bool
    ensures yes { IsTrue result → IsMany (option_copied found.entry) }
    ensures no { result ≡ false → ¬ IsMany (option_copied found.entry) }
{
    match found {
        Some(Datum::Array(_)) => true,
        Some(Datum::Table(_)) => true,
        Some(Datum::Scalar(_)) | None => false,
    }
}

/// Whether the edit removes the only element of an array; the data were turned to it.
fn is_only_element(draft: &Draft, edit: &Edit) -> bool
    requires { IsReadyAt draft.now (place_of (change edit.now)) }
    ensures yes { IsTrue result → TakesLastElement (change edit.now) (drafted draft.now) }
    ensures no { result ≡ false → ¬ TakesLastElement (change edit.now) (drafted draft.now) }
{
    match edit {
        Edit::Remove { at } => draft.is_only(at),
        _ => false,
    }
}

/// Whether the edit removes a table in which no table stands.
fn removes_flat(draft: &Draft, edit: &Edit) -> bool
    requires { IsReadyAt draft.now (place_of (change edit.now)) }
    ensures { IsTrue result → RemovesFlat (change edit.now) (drafted draft.now) }
{
    match edit {
        Edit::Remove { at } => is_flat(draft.found(at)),
        _ => false,
    }
}
