//! The addresses that edits touch.
ghost use Rattle.std.specs.Prelude.{◌≡◌, ◌⊎◌, map, IfOk, OnOk};
ghost use Rattle.toml_names.specs.model.Addresses.{Address as Steps, child};
ghost use Rattle.toml_names.specs.model.AddressSets.{HidesLess, is_hidden};
ghost use Rattle.toml_edits.specs.Edits.{change};
ghost use Rattle.toml_edits.specs.Near.{AreNear, HidesBeside, IsRenamed, Opens, OpensMore, Shifts, way_to};

use crate::edit::Edit;
use std::alloc::{AllocError, Global};
use toml_names::{Address, AddressSet, MAX_STEPS, Step};

/// The addresses at and below which edits move or make something, and no others. What the set hides plays no part in the
/// edits (the laws `near` and `near_faults`), and it hides all that is beside the ways to them. A way goes one step further
/// than data do, and no more, however long the address is.
pub fn near_addresses(alloc: Global, edits: &[Edit]) -> Result<AddressSet, AllocError>
    ensures near { IfOk result (λ set. AreNear (is_hidden set) (map change edits.now)) }
    ensures only { IfOk result (λ set. HidesBeside (is_hidden set) (map change edits.now)) }
{
    let mut set = AddressSet::new(alloc);
    for edit in edits {
        add_opened(&mut set, edit)?;
    }
    Ok(set)
}

/// Puts in the addresses at and below which an edit moves or makes something.
fn add_opened(set: &mut AddressSet, edit: &Edit) -> Result<(), AllocError>
    ensures { OnOk result (OpensMore (Opens (change edit.now)) (is_hidden set.old) (is_hidden set.new)) }
{
    match edit {
        Edit::Set { at, .. } => add_place(set, at),
        Edit::Insert { at, .. } => add_shifted(set, at),
        Edit::Rename { at, to } => add_renamed(set, at, to.as_str()),
        Edit::Remove { at } => add_shifted(set, at),
        Edit::Section { at } => add_place(set, at),
        Edit::Element { at } => add_place(set, at),
    }
}

/// Puts in an address, as far as its way goes.
fn add_place(set: &mut AddressSet, at: &Address) -> Result<(), AllocError>
    ensures { OnOk result (OpensMore (λ (p : Steps). p ≡ at.now) (is_hidden set.old) (is_hidden set.new)) }
{
    set.add(cut(at.steps()))
}

/// Puts in the address of the array whose element is at an address; where the last step is a name, the address.
fn add_shifted(set: &mut AddressSet, at: &Address) -> Result<(), AllocError>
    ensures { OnOk result (OpensMore (Shifts at.now) (is_hidden set.old) (is_hidden set.new)) }
{
    match at.steps().split_last() {
        Some((Step::Index(_), parent)) => set.add(cut(parent)),
        Some((Step::Name(_), _)) => add_place(set, at),
        None => add_place(set, at),
    }
}

/// Puts in an address and, where it is that of a member, the address of the same with the new name.
fn add_renamed(set: &mut AddressSet, at: &Address, to: &str) -> Result<(), AllocError>
    ensures { OnOk result (OpensMore (λ (p : Steps). (p ≡ at.now) ⊎ IsRenamed at.now to.now p) (is_hidden set.old) (is_hidden set.new)) }
{
    add_place(set, at)?;
    add_new_name(set, at, to)
}

/// Puts in the address of a member with the new name; where the address is none of a member, nothing.
fn add_new_name(set: &mut AddressSet, at: &Address, to: &str) -> Result<(), AllocError>
    ensures { OnOk result (OpensMore (IsRenamed at.now to.now) (is_hidden set.old) (is_hidden set.new)) }
{
    match at.steps().split_last() {
        Some((Step::Name(_), parent)) => add_child(set, parent, to),
        Some((Step::Index(_), _)) => Ok(()),
        None => Ok(()),
    }
}

/// Puts in the address of a name in the table at an address, as far as its way goes.
fn add_child(set: &mut AddressSet, parent: &[Step], name: &str) -> Result<(), AllocError>
    ensures { OnOk result (HidesLess set.old set.new (way_to (child parent.now name.now))) }
{
    if parent.len() > MAX_STEPS {
        set.add(cut(parent))
    } else {
        set.add_below(parent, name)
    }
}

/// The way to an address: its steps, up to one more than an address in data may have.
fn cut(steps: &[Step]) -> &[Step]
    ensures { result.now ≡ way_to steps.now }
{
    &steps[..(MAX_STEPS + 1).min(steps.len())]
}
