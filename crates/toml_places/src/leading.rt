//! To which address a place leads in the data of a text.
ghost use Rattle.std.specs.Prelude.{◌≡◌, ◌↔◌, ◌<◌, ◌≤◌, ◌-◌, IfOk, IfSome, IsTrue, SomeIff, option_map};
ghost use Rattle.std.specs.Map.{lookup};
ghost use Rattle.std.specs.Str.{bytes_eq};
ghost use Rattle.toml_names.specs.declared.model.address.Step.TheVariants as steps;
ghost use Rattle.toml_names.specs.mentions.Mentions.{an_array};
ghost use Rattle.toml_names.specs.reader.Parts.{IsPart, part_kinds, plain_members, shape_kind};
ghost use Rattle.toml_places.specs.Leading.{IsAddressOf, below_step, below_steps};
ghost use Rattle.toml_places.specs.Parts.{IsLengthOf, IsStepOf, Stands, kinds_in};

use crate::place::{Place, PlaceStep};
use std::alloc::{AllocError, Global};
use toml_names::{Address, NamedText, Shape, Step};

/// The index of the n-th element from the end, from 1, of so many.
fn from_end(len: u64, n: u64) -> Option<u64>
    ensures { SomeIff result ((0 < n) × (n ≤ len)) (len - n) }
{
    if n == 0 {
        return None;
    }
    len.checked_sub(n)
}

/// The step of an index, if there is one.
fn index_step(index: Option<u64>) -> Option<Step>
    ensures { result ≡ option_map steps.Index index }
{
    Some(Step::Index(index?))
}

/// Whether it is an array.
fn is_array(shape: &Shape) -> bool
    ensures { IsTrue result ↔ (shape_kind shape.now ≡ an_array) }
{
    matches!(shape, Shape::Array)
}

/// The number of elements of an array.
fn array_len(names: &NamedText<'_>, part: Option<usize>) -> Result<Option<u64>, AllocError>
    requires { IfSome part (IsPart names.now) }
    ensures { IfOk result (IsLengthOf (kinds_in names.now part)) }
{
    let Some(id) = part else {
        return Ok(None);
    };
    if !is_array(&names.shape(id)?) {
        return Ok(None);
    }
    Ok(Some(names.items(id).len() as u64))
}

/// The step of an address that a step of a place is, by the part that stands at the place so far, None where nothing does: a name and
/// an index as they stand, `[-n]` the n-th element from the end of the array, `[+]` the index behind its last. None where no array
/// stands there, or it has fewer than n elements.
pub fn step_in(
    names: &NamedText<'_>,
    part: Option<usize>,
    step: &PlaceStep,
) -> Result<Option<Step>, AllocError>
    requires { IfSome part (IsPart names.now) }
    ensures { IfOk result (IsStepOf (kinds_in names.now part) step.now) }
{
    match step {
        PlaceStep::Name(name) => Ok(Some(Step::Name(name.copy()?))),
        PlaceStep::Index(index) => Ok(Some(Step::Index(*index))),
        PlaceStep::FromEnd(n) => match array_len(names, part)? {
            Some(len) => Ok(index_step(from_end(len, *n))),
            None => Ok(None),
        },
        PlaceStep::Behind => Ok(index_step(array_len(names, part)?)),
    }
}

/// The part of the first member with the name.
fn find(members: &[(&str, usize)], name: &str) -> Option<usize>
    ensures { result ≡ lookup (bytes_eq name.now) (plain_members members.now) }
{
    for (member, part) in members {
        if name == *member {
            return Some(*part);
        }
    }
    None
}

/// The part at a name of a table.
fn member(names: &NamedText<'_>, id: usize, name: &str) -> Result<Option<usize>, AllocError>
    requires { IsPart names.now id }
    ensures { IfOk result (λ part. Stands names.now part (below_step (steps.Name name.now) (part_kinds names.now id))) }
{
    let members = names.members(id)?;
    Ok(find(&members, name))
}

/// The part at an index of an array.
fn item(names: &NamedText<'_>, id: usize, index: u64) -> Option<usize>
    requires { IsPart names.now id }
    ensures { Stands names.now result (below_step (steps.Index index) (part_kinds names.now id)) }
{
    names.items(id).get(index as usize).copied()
}

/// The part one step below a part; None where nothing stands there, as below nothing. No data are built.
pub fn part_in(
    names: &NamedText<'_>,
    part: Option<usize>,
    step: &Step,
) -> Result<Option<usize>, AllocError>
    requires { IfSome part (IsPart names.now) }
    ensures { IfOk result (λ next. Stands names.now next (below_step step.now (kinds_in names.now part))) }
{
    match (part, step) {
        (None, _) => Ok(None),
        (Some(id), Step::Name(name)) => member(names, id, name.as_str()),
        (Some(id), Step::Index(index)) => Ok(item(names, id, *index)),
    }
}

/// The part of a text's data that stands at the steps of an address; None where nothing stands there. No data are built.
pub fn part_at(names: &NamedText<'_>, at: &[Step]) -> Result<Option<usize>, AllocError>
    ensures { IfOk result (λ part. Stands names.now part (below_steps at.now (part_kinds names.now 0))) }
{
    let mut part = Some(names.root());
    for step in at {
        part = part_in(names, part, step)?;
    }
    Ok(part)
}

impl Place {
    /// The address that the place is in the data of a text: names and indices as they stand; `[-n]` is the n-th element from
    /// the end of the array that stands at the place so far, `[+]` the index behind its last. None where no array stands there,
    /// or it has fewer than n elements. No data are built.
    pub fn address(
        &self,
        alloc: Global,
        names: &NamedText<'_>,
    ) -> Result<Option<Address>, AllocError>
        ensures { IfOk result (IsAddressOf (part_kinds names.now 0) self.now) }
    {
        let mut steps = Vec::with_capacity(alloc, self.steps().len())?;
        let mut part = Some(names.root());
        for place_step in self.steps() {
            let Some(step) = step_in(names, part, place_step)? else {
                return Ok(None);
            };
            part = part_in(names, part, &step)?;
            steps.push(step)?;
        }
        Ok(Some(Address::of(steps)))
    }
}
