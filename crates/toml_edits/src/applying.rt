//! Edits applied to data.
ghost use Rattle.std.specs.Prelude.{◌≡◌, ◌⊎◌, ◌↔◌, ◌∷◌, [], Some, None, IsSome, IsTrue, IfErr, OnOk, OnErr, ℕ, List};
ghost use Rattle.toml_names.specs.declared.model.address.Step.TheVariants.{Name};
ghost use Rattle.toml_names.specs.model.Addresses.{Address, child};
ghost use Rattle.toml_names.specs.model.Data.{kind_at};
ghost use Rattle.toml_edits.specs.Applied.{IsApplied, IsRefused};
ghost use Rattle.toml_edits.specs.Edits.{change, set, insert, rename, remove};
ghost use Rattle.toml_edits.specs.Faults.{IsFault};
ghost use Rattle.toml_edits.specs.Judged.{IsFitting, IsStepFault, IsJudged};
ghost use Rattle.toml_edits.specs.Readings.{IsReading};
ghost use Rattle.toml_tree.specs.declared.profile.Profile.{Profile};
ghost use Rattle.toml_tree.specs.declared.profile.Profile.TheVariants.{One};

use crate::change::{DatumChange, alter};
use crate::edit::Edit;
use crate::fault::EditFault;
use crate::making::{element, section};
use crate::reach::reaches;
use crate::value::{Reading, read_text};
use std::alloc::Global;
use toml_names::{Data, Datum, MAX_STEPS, Step};
use toml_tree::Profile;

/// Applies an edit to data, the text of its value read in profile 1: `apply_in` with `Profile::One`.
pub fn apply(alloc: Global, data: &mut Data, edit: &Edit) -> Result<(), EditFault>
    ensures fault { IfErr result (IsRefused One (change edit.now) (kind_at «data».old.root)) }
    ensures ok { OnOk result (IsApplied One (change edit.now) (kind_at «data».old.root) (kind_at «data».new.root)) }
    ensures err { OnErr result ((at : Address) → kind_at «data».new.root at ≡ kind_at «data».old.root at) }
{
    apply_in(alloc, data, edit, Profile::One)
}

/// Applies an edit to data, the text of its value read in the profile.
///
/// It tells the first fault of this order, `NoMemory` aside, which may come in place of any answer; after a fault the data
/// are as before.
///
/// | Fault | When |
/// |---|---|
/// | `RootNamed` | the address is that of the root |
/// | `NotAnElement` | `element`: the last step is a name, or no name stands directly before it |
/// | `BadValue` | `set`, `insert`: the text is longer than a text may be, is not one value of the profile, or a key in it breaks the table rules |
/// | `NoSuchPlace` | `set`, `rename`, `remove`: nothing stands at the address; `insert`, `section`: nothing at its parent; `element`: nothing at the parent of the array |
/// | `NotATable` | `insert`, `section` of a name: the parent is no table; `element`: the parent of the array is none |
/// | `IndexOutside` | `insert` at an index: the parent is no array, or the index is greater than its length; `element`: the parent is there and is no array, or the index is not its length, 0 where it is not there |
/// | `NotAName` | `rename`, `section`: the last step is an index |
/// | `AlreadyThere` | `insert`, `section`: the table has the name; `rename`: it has the new name, which may be the old one |
/// | `AddressLength` | an address of the result would have more than 100 steps |
/// | `NoMemory` | a growth was refused |
///
/// A parent that loses its last child stays.
pub fn apply_in(
    alloc: Global,
    data: &mut Data,
    edit: &Edit,
    profile: Profile,
) -> Result<(), EditFault>
    ensures fault { IfErr result (IsRefused profile (change edit.now) (kind_at «data».old.root)) }
    ensures ok { OnOk result (IsApplied profile (change edit.now) (kind_at «data».old.root) (kind_at «data».new.root)) }
    ensures err { OnErr result ((at : Address) → kind_at «data».new.root at ≡ kind_at «data».old.root at) }
{
    let root = &mut data.root;
    match edit {
        Edit::Set { at, value } => set(alloc, root, at.steps(), value.as_str(), profile),
        Edit::Insert { at, value } => insert(alloc, root, at.steps(), value.as_str(), profile),
        Edit::Rename { at, to } => rename(alloc, root, at.steps(), to.as_str()),
        Edit::Remove { at } => remove(alloc, root, at.steps()),
        Edit::Section { at } => section(alloc, root, at.steps()),
        Edit::Element { at } => element(alloc, root, at.steps()),
    }
}

/// Takes what stands at the steps out of the data.
fn remove(alloc: Global, root: &mut Datum, at: &[Step]) -> Result<(), EditFault>
    ensures fault { (profile : Profile) → IfErr result (IsRefused profile (remove at.now) (kind_at root.old)) }
    ensures ok { (profile : Profile) → OnOk result (IsApplied profile (remove at.now) (kind_at root.old) (kind_at root.new)) }
    ensures err { OnErr result ((p : Address) → kind_at root.new p ≡ kind_at root.old p) }
{
    let Some((last, parent)) = at.split_last() else {
        return Err(EditFault::RootNamed);
    };
    if root.part(at).is_none() {
        return Err(EditFault::NoSuchPlace);
    }
    match last {
        Step::Name(name) => alter(alloc, root, parent, DatumChange::DropMember(name.as_str())),
        Step::Index(index) => alter(alloc, root, parent, DatumChange::DropElement(*index)),
    }
}

/// Gives the member at the steps another name.
fn rename(alloc: Global, root: &mut Datum, at: &[Step], to: &str) -> Result<(), EditFault>
    ensures fault { (profile : Profile) → IfErr result (IsRefused profile (rename at.now to.now) (kind_at root.old)) }
    ensures ok { (profile : Profile) → OnOk result (IsApplied profile (rename at.now to.now) (kind_at root.old) (kind_at root.new)) }
    ensures err { OnErr result ((p : Address) → kind_at root.new p ≡ kind_at root.old p) }
{
    let Some((last, parent)) = at.split_last() else {
        return Err(EditFault::RootNamed);
    };
    if root.part(at).is_none() {
        return Err(EditFault::NoSuchPlace);
    }
    let Step::Name(from) = last else {
        return Err(EditFault::NotAName);
    };
    if has_member(&*root, parent, to) {
        return Err(EditFault::AlreadyThere);
    }
    alter(alloc, root, parent, DatumChange::Rename(from.as_str(), to))
}

/// Whether a table stands at the steps and has the name.
fn has_member(root: &Datum, steps: &[Step], name: &str) -> bool
    ensures { IsTrue result ↔ IsSome (kind_at root.now (child steps.now name.now)) }
{
    let Some(datum) = root.part(steps) else {
        return false;
    };
    has_name(datum, name)
}

/// Whether it is a table that has the name.
fn has_name(datum: &Datum, name: &str) -> bool
    ensures { IsTrue result ↔ IsSome (kind_at datum.now (Name name.now ∷ [])) }
{
    match datum {
        Datum::Table(members) => members.contains_key(name),
        _ => false,
    }
}

/// Puts the data of the text in the place of what stands at the steps.
fn set(
    alloc: Global,
    root: &mut Datum,
    at: &[Step],
    text: &str,
    profile: Profile,
) -> Result<(), EditFault>
    ensures fault { IfErr result (IsRefused profile (set at.now text.now) (kind_at root.old)) }
    ensures ok { OnOk result (IsApplied profile (set at.now text.now) (kind_at root.old) (kind_at root.new)) }
    ensures err { OnErr result ((p : Address) → kind_at root.new p ≡ kind_at root.old p) }
{
    let value = value_to_set(alloc, &*root, at, text, profile)?;
    alter(alloc, root, at, DatumChange::Put(value))
}

/// The data of the text, if they may be set at the steps.
fn value_to_set(
    alloc: Global,
    root: &Datum,
    at: &[Step],
    text: &str,
    profile: Profile,
) -> Result<Datum, EditFault>
    ensures { IsJudged profile (set at.now text.now) text.now (kind_at root.now) result }
{
    if at.is_empty() {
        return Err(EditFault::RootNamed);
    }
    let reading = read_text(alloc, text, profile)?;
    if reading.is_bad() {
        return Err(EditFault::BadValue);
    }
    if root.part(at).is_none() {
        return Err(EditFault::NoSuchPlace);
    }
    fitting(at, reading)
}

/// Puts the data of the text in at the steps, as a new member or element.
fn insert(
    alloc: Global,
    root: &mut Datum,
    at: &[Step],
    text: &str,
    profile: Profile,
) -> Result<(), EditFault>
    ensures fault { IfErr result (IsRefused profile (insert at.now text.now) (kind_at root.old)) }
    ensures ok { OnOk result (IsApplied profile (insert at.now text.now) (kind_at root.old) (kind_at root.new)) }
    ensures err { OnErr result ((p : Address) → kind_at root.new p ≡ kind_at root.old p) }
{
    let Some((last, parent)) = at.split_last() else {
        return Err(EditFault::RootNamed);
    };
    let value = value_to_insert(alloc, &*root, at, text, profile)?;
    match last {
        Step::Name(name) => alter(
            alloc,
            root,
            parent,
            DatumChange::AddMember(name.as_str(), value),
        ),
        Step::Index(index) => alter(alloc, root, parent, DatumChange::AddElement(*index, value)),
    }
}

/// The data of the text, if they may be inserted at the steps.
fn value_to_insert(
    alloc: Global,
    root: &Datum,
    at: &[Step],
    text: &str,
    profile: Profile,
) -> Result<Datum, EditFault>
    ensures { IsJudged profile (insert at.now text.now) text.now (kind_at root.now) result }
{
    let Some((last, above)) = at.split_last() else {
        return Err(EditFault::RootNamed);
    };
    let reading = read_text(alloc, text, profile)?;
    if reading.is_bad() {
        return Err(EditFault::BadValue);
    }
    let Some(parent) = root.part(above) else {
        return Err(EditFault::NoSuchPlace);
    };
    if let Some(fault) = step_fault(parent, last) {
        return Err(fault);
    }
    fitting(at, reading)
}

/// Why nothing new may stand one step below.
pub(crate) fn step_fault(parent: &Datum, step: &Step) -> Option<EditFault>
    ensures { IsStepFault step.now (kind_at parent.now) result }
{
    match step {
        Step::Name(name) => match parent {
            Datum::Table(members) if members.contains_key(name.as_str()) => {
                Some(EditFault::AlreadyThere)
            }
            Datum::Table(_) => None,
            _ => Some(EditFault::NotATable),
        },
        Step::Index(index) => match parent {
            Datum::Array(items) if *index <= items.len() as u64 => None,
            _ => Some(EditFault::IndexOutside),
        },
    }
}

/// The data of what was read, if no address in them is too long below the steps.
pub(crate) fn fitting(at: &[Step], reading: Reading) -> Result<Datum, EditFault>
    ensures { (profile : Profile) (text : List ℕ) → IsReading profile text reading → IsFitting profile at.now text result }
{
    match reading {
        Reading::Good(value) => {
            if reaches(&value, (MAX_STEPS + 1).saturating_sub(at.len())) {
                return Err(EditFault::AddressLength);
            }
            Ok(value)
        }
        Reading::Bad => Err(EditFault::BadValue),
        Reading::Long => Err(EditFault::AddressLength),
    }
}
