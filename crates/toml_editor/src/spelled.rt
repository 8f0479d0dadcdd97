//! The names that edits bring, spelled.
ghost use Rattle.std.specs.Prelude.{◌≡◌, IfOk, map, string_bytes};
ghost use Rattle.toml_edits.specs.Edits.{change};
ghost use Rattle.toml_editor.specs.SpelledEdits.{AreSpelled, IsNewName, IsSpelled};
ghost use Rattle.toml_working.specs.Spellings.{AreSteps, step_spelled};

use std::alloc::{AllocError, Global};
use toml_edits::{Edit, place};
use toml_names::{Address, Step};
use toml_scalar::spell_key;

/// The spellings of an edit's names.
#[derive(Drop)]
pub(crate) struct Spelled {
    /// That of each step of the address; of an index it has no bytes.
    pub(crate) steps: Vec<String>,
    /// That of the new name, if there is one.
    pub(crate) to: String,
}

/// The spellings of the edits, one for each.
pub(crate) fn spell_all(alloc: Global, edits: &[Edit]) -> Result<Vec<Spelled>, AllocError>
    ensures { IfOk result (λ list. AreSpelled (map change edits.now) list.items) }
{
    let mut list = Vec::with_capacity(alloc, edits.len())?;
    for edit in edits {
        list.push(spell(alloc, edit)?)?;
    }
    Ok(list)
}

/// The spellings of an edit.
fn spell(alloc: Global, edit: &Edit) -> Result<Spelled, AllocError>
    ensures { IfOk result (λ s. IsSpelled (change edit.now) s) }
{
    Ok(Spelled {
        steps: spellings(alloc, place(edit))?,
        to: new_name(alloc, edit)?,
    })
}

/// The spelling of the new name that an edit brings, if it brings one.
fn new_name(alloc: Global, edit: &Edit) -> Result<String, AllocError>
    ensures { IfOk result (IsNewName (change edit.now)) }
{
    match edit {
        Edit::Rename { to, .. } => spell_key(alloc, to),
        _ => Ok(String::new(alloc)),
    }
}

/// The spelling of each step.
fn spellings(alloc: Global, at: &Address) -> Result<Vec<String>, AllocError>
    ensures { IfOk result (λ list. AreSteps at.now list.items) }
{
    let steps = at.steps();
    let mut list = Vec::with_capacity(alloc, steps.len())?;
    for step in steps {
        list.push(spelling(alloc, step)?)?;
    }
    Ok(list)
}

/// The spelling of a step.
fn spelling(alloc: Global, step: &Step) -> Result<String, AllocError>
    ensures { IfOk result (λ text. string_bytes text ≡ step_spelled step.now) }
{
    match step {
        Step::Name(name) => spell_key(alloc, name.as_str()),
        Step::Index(_) => Ok(String::new(alloc)),
    }
}
