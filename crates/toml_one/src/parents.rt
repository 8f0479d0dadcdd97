//! What is made above a place at which nothing stands yet.
ghost use Rattle.std.specs.Prelude.{◌≡◌, ◌↔◌, ◌∷◌, ◌++◌, [], IfOk, IfSome, IsTrue, List, OnOk, Some, false, is_some, length, map, nat_lt};
ghost use Rattle.std.specs.Option.{option_copied};
ghost use Rattle.std.specs.String.{string_bytes};
ghost use Rattle.toml_tree.specs.Tree as spelled;
ghost use Rattle.toml_edits.specs.Edits.{change};
ghost use Rattle.toml_names.specs.mentions.Mentions.{named};
ghost use Rattle.toml_names.specs.reader.Parts.{IsPart};
ghost use Rattle.toml_names.specs.tree.NameTree.{IsTreeOf};
ghost use Rattle.toml_places.specs.Parts.{kinds_in};
ghost use Rattle.toml_names.specs.mentions.Rules.{max_steps};
ghost use Rattle.toml_one.specs.Kept.{puts_too_deep};
ghost use Rattle.toml_one.specs.Parents.{Front, IsNewStepOf, IsNextElement, MakesAt, MakesMissing, MakesTable, empty_value, further, is_in_value, nowhere, stands_in_value};
ghost use Rattle.toml_one.specs.Steps.{is_index};
ghost use Rattle.toml_one.specs.Walking.{IsMadeAbove, IsPassed, IsReached, changes_of, ends_too_deep};

use crate::steps::{is_behind, is_index};
use std::alloc::{AllocError, Global};
use toml_edits::Edit;
use toml_names::{Address, MAX_STEPS, Name, NamedText, Place, Step};
use toml_places::{PlaceStep, part_in, step_in};

/// What stands at a front of a place: its part, None where nothing does, and whether it is a value or in one, or is made so.
#[derive(Clone, Copy, Drop)]
pub(crate) struct Here {
    pub part: Option<usize>,
    pub in_value: bool,
}

/// A front of a place: its address, and what stands there.
#[derive(Drop)]
pub(crate) struct Reached {
    pub at: Address,
    pub here: Here,
}

/// The edits that make what is missing above a place, and the end of the place. The first that puts something too deep is the last,
/// and the end was not reached: else the addresses of the edits would take memory with the square of the place's steps.
#[derive(Drop)]
pub(crate) struct Made {
    pub edits: Vec<Edit>,
    pub end: Option<Reached>,
}

/// Makes what is missing above the place, the shortest front first.
pub(crate) fn make_parents(
    alloc: Global,
    names: &NamedText<'_>,
    place: &[PlaceStep],
) -> Result<Made, AllocError>
    ensures { (lines : List spelled.Line) → IsTreeOf names.now (named lines)
        → IfOk result (λ made. IsMadeAbove names.now (named lines) place.now made) }
{
    let mut edits = Vec::new(alloc);
    let mut front = root(alloc, names);
    for (i, step) in place.iter().enumerate() {
        front = pass(alloc, names, &mut edits, front, step, &place[i + 1..])?;
        if front.here.part.is_none() && ends_too_deep(&edits) {
            return Ok(Made { edits, end: None });
        }
    }
    let end = Some(front);
    Ok(Made { edits, end })
}

/// Whether the last of the edits puts something too deep.
fn ends_too_deep(edits: &[Edit]) -> bool
    ensures { result ≡ ends_too_deep (map change edits.now) }
{
    match edits.split_last() {
        Some((last, _)) => puts_too_deep(last),
        None => false,
    }
}

/// Whether the edit puts something at an address of more than 100 steps: it is refused, whatever the data.
fn puts_too_deep(edit: &Edit) -> bool
    ensures { result ≡ puts_too_deep (change edit.now) }
{
    match edit {
        Edit::Insert { at, .. } => is_too_deep(at),
        Edit::Section { at } => is_too_deep(at),
        Edit::Element { at } => is_too_deep(at),
        Edit::Set { .. } => false,
        Edit::Rename { .. } => false,
        Edit::Remove { .. } => false,
    }
}

/// Whether the address has more than 100 steps.
fn is_too_deep(at: &Address) -> bool
    ensures { result ≡ nat_lt max_steps (length at.now) }
{
    at.steps().len() > MAX_STEPS
}

/// The front that has no steps.
fn root(alloc: Global, names: &NamedText<'_>) -> Reached
    ensures at { result.at ≡ [] }
    ensures part { result.here.part ≡ Some 0 }
    ensures is { IfSome result.here.part (IsPart names.now) }
    ensures in_value { result.here.in_value ≡ false }
{
    Reached {
        at: Address::root(alloc),
        here: Here {
            part: Some(names.root()),
            in_value: false,
        },
    }
}

/// Goes one step further, and adds the edit that makes what is missing there, if these steps are left behind it.
fn pass(
    alloc: Global,
    names: &NamedText<'_>,
    edits: &mut Vec<Edit>,
    front: Reached,
    step: &PlaceStep,
    left: &[PlaceStep],
) -> Result<Reached, AllocError>
    requires { IfSome front.here.part (IsPart names.now) }
    ensures part { IfOk result (λ to. IfSome to.here.part (IsPart names.now)) }
    ensures passed { (lines : List spelled.Line) (here : Front) → IsTreeOf names.now (named lines) → IsReached names.now front here
        → IfOk result (λ to. IsPassed names.now (named lines) here step.now left.now edits.old.items edits.new.items to) }
{
    let above = front.here;
    let found = new_step(names, above.part, step)?;
    let to = go_on(alloc, names, front, &found)?;
    let made = made_at(alloc, names, above, &found, &to, left.first())?;
    push_made(edits, made)?;
    Ok(to)
}

/// Adds the edit, if there is one.
fn push_made(edits: &mut Vec<Edit>, made: Option<Edit>) -> Result<(), AllocError>
    ensures { OnOk result (map change edits.new.items ≡ map change edits.old.items ++ changes_of made) }
{
    if let Some(edit) = made {
        edits.push(edit)?;
    }
    Ok(())
}

/// The step of an address that a step of a place is: where nothing stands `[+]` is the first element.
fn new_step(
    names: &NamedText<'_>,
    part: Option<usize>,
    step: &PlaceStep,
) -> Result<Option<Step>, AllocError>
    requires { IfSome part (IsPart names.now) }
    ensures { IfOk result (IsNewStepOf (kinds_in names.now part) step.now) }
{
    if part.is_none() && is_behind(step) {
        return Ok(Some(Step::Index(0)));
    }
    step_in(names, part, step)
}

/// One step further; where there is no such step, to an address at which nothing stands.
fn go_on(
    alloc: Global,
    names: &NamedText<'_>,
    front: Reached,
    found: &Option<Step>,
) -> Result<Reached, AllocError>
    requires { IfSome front.here.part (IsPart names.now) }
    ensures part { IfOk result (λ to. IfSome to.here.part (IsPart names.now)) }
    ensures reached { (lines : List spelled.Line) (here : Front) → IsTreeOf names.now (named lines) → IsReached names.now front here
        → IfOk result (λ to. IsReached names.now to (further (named lines) here found.now)) }
{
    let above = front.here;
    let Some(step) = found else {
        let at = nowhere(alloc)?;
        let here = Here {
            part: None,
            in_value: above.in_value,
        };
        return Ok(Reached { at, here });
    };
    let part = part_in(names, above.part, step)?;
    let at = below(front.at, step)?;
    let in_value = stands_in_value(names, &at, part.is_some(), above.in_value);
    let here = Here { part, in_value };
    Ok(Reached { at, here })
}

/// The address one step below.
fn below(at: Address, step: &Step) -> Result<Address, AllocError>
    ensures { IfOk result (λ below. below ≡ at ++ step.now ∷ []) }
{
    let mut steps = at.into_steps();
    steps.push(step.copy()?)?;
    Ok(Address::of(steps))
}

/// An address at which nothing stands in any document, nor above it.
pub(crate) fn nowhere(alloc: Global) -> Result<Address, AllocError>
    ensures { IfOk result (λ at. at ≡ nowhere) }
{
    let name = Name::spelled(alloc, "")?;
    Address::root(alloc).element(alloc, 0)?.child(alloc, name)
}

/// Whether what stands at an address is a value or in one; where nothing stands there, whether what is above is.
fn stands_in_value(names: &NamedText<'_>, at: &Address, there: bool, above: bool) -> bool
    ensures { (lines : List spelled.Line) → IsTreeOf names.now (named lines) → result ≡ stands_in_value (named lines) at.now there above }
{
    if there {
        is_in_value(names.place(at))
    } else {
        above
    }
}

/// Whether the place is that of a value, or in one.
fn is_in_value(place: Option<Place>) -> bool
    ensures { result ≡ is_in_value place }
{
    match place {
        Some(Place::KeyVal(_)) => true,
        Some(Place::Inside(_)) => true,
        _ => false,
    }
}

/// The edit that makes what is missing at a front below another, where `next` follows; none at the end of the place.
fn made_at(
    alloc: Global,
    names: &NamedText<'_>,
    above: Here,
    found: &Option<Step>,
    to: &Reached,
    next: Option<&PlaceStep>,
) -> Result<Option<Edit>, AllocError>
    requires { IfSome above.part (IsPart names.now) }
    ensures { IfOk result (λ made.
        MakesAt (is_some to.now.here.part) above.in_value (option_copied next.entry) (kinds_in names.now above.part) found.now to.now.at (changes_of made)) }
{
    let Some(next) = next else {
        return Ok(None);
    };
    if to.here.part.is_some() {
        return Ok(None);
    }
    made_missing(alloc, names, above, found, &to.at, next)
}

/// The edit that makes what is missing at a front at which nothing stands.
fn made_missing(
    alloc: Global,
    names: &NamedText<'_>,
    above: Here,
    found: &Option<Step>,
    at: &Address,
    next: &PlaceStep,
) -> Result<Option<Edit>, AllocError>
    requires { IfSome above.part (IsPart names.now) }
    ensures { IfOk result (λ made.
        MakesMissing above.in_value (is_index next.now) next.now (kinds_in names.now above.part) found.now at.now (changes_of made)) }
{
    if above.in_value {
        let at = at.copy(alloc)?;
        let value = empty_value(alloc, next)?;
        return Ok(Some(Edit::Insert { at, value }));
    }
    if is_index(next) {
        return Ok(None);
    }
    made_table(alloc, names, above.part, found, at)
}

/// The section or the element that is made.
fn made_table(
    alloc: Global,
    names: &NamedText<'_>,
    above: Option<usize>,
    found: &Option<Step>,
    at: &Address,
) -> Result<Option<Edit>, AllocError>
    requires { IfSome above (IsPart names.now) }
    ensures { IfOk result (λ made. MakesTable (kinds_in names.now above) found.now at.now (changes_of made)) }
{
    match found {
        Some(step) => table_at(alloc, names, above, step, at),
        None => Ok(None),
    }
}

/// The section or the element that is made at this step.
fn table_at(
    alloc: Global,
    names: &NamedText<'_>,
    above: Option<usize>,
    step: &Step,
    at: &Address,
) -> Result<Option<Edit>, AllocError>
    requires { IfSome above (IsPart names.now) }
    ensures { IfOk result (λ made. MakesTable (kinds_in names.now above) (Some step.now) at.now (changes_of made)) }
{
    match step {
        Step::Name(_) => {
            let at = at.copy(alloc)?;
            Ok(Some(Edit::Section { at }))
        }
        Step::Index(index) => {
            if !is_next_element(names, above, *index)? {
                return Ok(None);
            }
            let at = at.copy(alloc)?;
            Ok(Some(Edit::Element { at }))
        }
    }
}

/// Whether the index is that behind the last element of the array that stands there, or 0 where nothing does.
fn is_next_element(
    names: &NamedText<'_>,
    part: Option<usize>,
    index: u64,
) -> Result<bool, AllocError>
    requires { IfSome part (IsPart names.now) }
    ensures { IfOk result (λ r. IsTrue r ↔ IsNextElement (kinds_in names.now part) index) }
{
    if part.is_none() {
        return Ok(index == 0);
    }
    match step_in(names, part, &PlaceStep::Behind)? {
        Some(Step::Index(len)) => Ok(len == index),
        Some(Step::Name(_)) => Ok(false),
        None => Ok(false),
    }
}

/// The text of an empty array where an index follows, else of an empty table.
fn empty_value(alloc: Global, next: &PlaceStep) -> Result<String, AllocError>
    ensures { IfOk result (λ text. string_bytes text ≡ empty_value next.now) }
{
    if is_index(next) {
        String::from_str(alloc, "[]")
    } else {
        String::from_str(alloc, "{}")
    }
}
