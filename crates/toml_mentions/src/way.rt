//! How many steps of the way to a sought address lead to another one.
ghost use Rattle.std.specs.Prelude.{◌≡◌, IfOk};
ghost use Rattle.toml_names.specs.declared.model.address.Step.TheVariants.{Name as ByName, Index as ByIndex};
ghost use Rattle.toml_names.specs.mentions.Keys.{spelled_name};
ghost use Rattle.toml_names.specs.model.Addresses.{Address, child, element, same_step};
ghost use Rattle.toml_mentions.specs.Sought.{way_to};

use std::alloc::{AllocError, Global};
use toml_names::Step;
use toml_scalar::name_of;

/// How many steps lead to the name of a key part, below an address to which so many lead.
pub(crate) fn named(
    alloc: Global,
    target: &[Step],
    way: Option<usize>,
    part: &str,
) -> Result<Option<usize>, AllocError>
    ensures { (at : Address) → way ≡ way_to target.now at → IfOk result (λ w. w ≡ way_to target.now (child at (spelled_name part.now))) }
{
    let Some(depth) = way else {
        return Ok(None);
    };
    if depth >= target.len() {
        return Ok(None);
    }
    if is_name(alloc, &target[depth], part)? {
        Ok(Some(depth + 1))
    } else {
        Ok(None)
    }
}

/// Whether a step is the name that the text of a key part spells.
fn is_name(alloc: Global, step: &Step, part: &str) -> Result<bool, AllocError>
    ensures { IfOk result (λ r. r ≡ same_step (ByName (spelled_name part.now)) step.now) }
{
    match step {
        Step::Name(name) => match name_of(alloc, part)? {
            Some(spelled) => Ok(spelled.as_str() == name.as_str()),
            None => Ok("" == name.as_str()),
        },
        Step::Index(_) => Ok(false),
    }
}

/// How many steps lead to an element of an array to which so many lead.
pub(crate) fn indexed(target: &[Step], way: Option<usize>, index: u64) -> Option<usize>
    ensures { (at : Address) → way ≡ way_to target.now at → result ≡ way_to target.now (element at index) }
{
    let Some(depth) = way else {
        return None;
    };
    if depth >= target.len() {
        return None;
    }
    if is_index(&target[depth], index) {
        Some(depth + 1)
    } else {
        None
    }
}

/// Whether a step is the index.
fn is_index(step: &Step, index: u64) -> bool
    ensures { result ≡ same_step (ByIndex index) step.now }
{
    match step {
        Step::Index(other) => index == *other,
        Step::Name(_) => false,
    }
}
