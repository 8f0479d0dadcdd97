//! What stands in the data of a text along the steps of an address.
ghost use Rattle.std.specs.Prelude.{◌≡◌, IfOk, IfSome};
ghost use Rattle.toml_names.specs.reader.Parts.{IsPart};
ghost use Rattle.toml_explain.specs.Standing.{IsFrontOf, IsMeant, IsNear, IsNearest, near_limit};

use crate::place::shown_place;
use std::alloc::{AllocError, Global};
use strsim::osa_distance;
use toml_names::{Name, NamedText, Step};
use toml_places::part_in;
use toml_scalar::spell_key;

/// The deepest part that stands along steps, and how many of them lead to it.
#[derive(Clone, Copy)]
pub(crate) struct Front {
    pub part: usize,
    pub depth: usize,
}

/// How far steps lead in the data of a text.
pub(crate) fn front_of(names: &NamedText<'_>, steps: &[Step]) -> Result<Front, AllocError>
    ensures { IfOk result (IsFrontOf names.now steps.now) }
{
    let mut part = names.root();
    for (depth, step) in steps.iter().enumerate() {
        match part_in(names, Some(part), step)? {
            Some(next) => part = next,
            None => return Ok(Front { part, depth }),
        }
    }
    Ok(Front {
        part,
        depth: steps.len(),
    })
}

/// How many bytes a name has at most that is compared with others, so that a comparison takes no more than a fixed time.
const MAX_NAME: usize = 64;

/// How many changes lead from a name to one that is near at most: a third of its length, or one; not all of it may change.
fn near_limit(name: &str) -> usize
    ensures { result ≡ near_limit name.now }
{
    (name.len() / 3).max(1).min(name.len().saturating_sub(1))
}

/// How many changes lead from one name to the other, where they are few but some.
fn distance(alloc: Global, name: &str, member: &str) -> Result<Option<usize>, AllocError>
    ensures { IfOk result (λ few. IfSome few (λ n. IsNear name.now member.now)) }
{
    if name.len() > MAX_NAME || member.len() > MAX_NAME {
        return Ok(None);
    }
    let changes = osa_distance(alloc, name, member)?;
    if 0 < changes && changes <= near_limit(name) {
        Ok(Some(changes))
    } else {
        Ok(None)
    }
}

/// The first of the names that are nearest to a name, where one is near.
fn nearest<'m>(
    alloc: Global,
    members: &[(&'m str, usize)],
    name: &str,
) -> Result<Option<&'m str>, AllocError>
    ensures { IfOk result (λ near. IfSome near (IsNearest members.now name.now)) }
{
    let mut best = None;
    let mut least = usize::MAX;
    for (member, _) in members {
        if let Some(changes) = distance(alloc, name, *member)? {
            if changes < least {
                least = changes;
                best = Some(*member);
            }
        }
    }
    Ok(best)
}

/// A name between quotation marks, as it is shown.
pub(crate) fn quoted(alloc: Global, name: &str) -> Result<String, AllocError> {
    let spelled = spell_key(alloc, name)?;
    let shown = shown_place(alloc, spelled.as_str())?;
    if shown.as_str().starts_with('"') {
        return Ok(shown);
    }
    format!(in alloc; "\"{}\"", shown.as_str())
}

/// The name that may be meant, where the step behind a front is a name and one of its table is near.
pub(crate) fn meant(
    alloc: Global,
    names: &NamedText<'_>,
    front: Front,
    steps: &[Step],
) -> Result<Option<Name>, AllocError>
    requires { IsPart names.now front.part }
    ensures { IfOk result (λ near. IfSome near (IsMeant names.now front steps.now)) }
{
    let Some(Step::Name(name)) = steps.get(front.depth) else {
        return Ok(None);
    };
    let members = names.members(front.part)?;
    match nearest(alloc, &members, name.as_str())? {
        Some(near) => Ok(Some(Name::spelled(alloc, near)?)),
        None => Ok(None),
    }
}

/// A question behind a sentence: whether this name is meant.
pub(crate) fn question(alloc: Global, name: &Name) -> Result<String, AllocError> {
    let word = quoted(alloc, name.as_str())?;
    format!(in alloc; "; did you mean {}?", word.as_str())
}
