//! The data after edits.
ghost use Rattle.std.specs.Prelude.{◌≡◌, IfOk, OnOk, map};
ghost use Rattle.toml_names.specs.reader.LineNames.{Stand};
ghost use Rattle.toml_edits.specs.declared.fault.EditFault.TheVariants as faults;
ghost use Rattle.toml_edits.specs.Edits.{change};
ghost use Rattle.toml_checker.specs.After.{GivesData, Makes, TellsMade};

use std::alloc::{AllocError, Global};
use std::mem;
use toml_edits::{Draft, Edit, EditFault, near_addresses};
use toml_names::{AddressSet, Data, LineNames};
use toml_tree::Profile;

/// What the edits, one after the other, make of data; none where one is not defined on the data so far.
pub(crate) fn data_after(
    alloc: Global,
    old: Data,
    edits: &[Edit],
    profile: Profile,
) -> Result<Option<Data>, AllocError>
    ensures { IfOk result (GivesData profile (map change edits.now) old) }
{
    let mut draft = Draft::of(old);
    for edit in edits {
        if let Err(fault) = draft.apply(alloc, edit, profile) {
            told(fault)?;
            return Ok(None);
        }
    }
    Ok(Some(draft.into_data()?))
}

/// Passes on that there was no memory.
fn told(fault: EditFault) -> Result<(), AllocError>
    ensures { OnOk result (¬ (fault ≡ faults.NoMemory)) }
{
    match fault {
        EditFault::NoMemory => Err(AllocError),
        _ => Ok(()),
    }
}

/// What edits make of the data of a document: those along the addresses that they touch, beside the rest of the document's
/// own. Only the former are built.
#[derive(Drop)]
pub(crate) struct Made<'t> {
    /// The names of the document.
    names: LineNames<'t>,
    /// The addresses that the edits touch.
    touched: AddressSet,
    /// What the edits make along these.
    data: Data,
}

/// What the edits make of the data of the lines taken; none where one is not defined on the data so far.
pub(crate) fn make<'t>(
    alloc: Global,
    names: LineNames<'t>,
    edits: &[Edit],
    profile: Profile,
) -> Result<Option<Made<'t>>, AllocError>
    requires { Stand names }
    ensures { IfOk result (Makes profile names.entry (map change edits.now)) }
{
    let touched = near_addresses(alloc, edits)?;
    let near = names.data_near(&touched)?;
    match data_after(alloc, near, edits, profile)? {
        Some(data) => Ok(Some(Made {
            names,
            touched,
            data,
        })),
        None => Ok(None),
    }
}

/// What becomes of the names of both texts once they are judged.
#[derive(Clone, Copy, Drop)]
pub enum Afterwards {
    /// They are let go, name by name.
    LetGo,
    /// Where it comes to comparing the data, they stay in memory, for a program that ends: then all of it goes at once.
    Stay,
}

/// Whether what was made are the data of the lines whose names these are.
pub(crate) fn are_made(
    names: LineNames,
    made: Made,
    afterwards: Afterwards,
) -> Result<bool, AllocError>
    requires new { Stand names }
    requires old { Stand made.names }
    ensures { IfOk result (TellsMade names.entry made.entry) }
{
    let holds = names.has_data_beside(&made.names, &made.touched, &made.data)?;
    if let Afterwards::Stay = afterwards {
        mem::forget(names);
        mem::forget(made);
    }
    Ok(holds)
}
