//! What an edit does to the address of a thing. Nothing here takes memory.
ghost use Rattle.std.specs.Prelude.{◌≡◌, MatchOption};
ghost use Rattle.toml_edits.specs.Carry.{setting, inserting, renaming, removing, parted, carry_below, nowhere, up_from, down_above, to_name};
ghost use Rattle.toml_edits.specs.Carry as moves;
ghost use Rattle.toml_edits.specs.Courses.{LeadElsewhere, LeadNoFurther, LeadOn, LeadTo, LeadToIndex, LeadToNoIndex, arrives};
ghost use Rattle.toml_edits.specs.Edits.{change};

use crate::edit::Edit;
use toml_names::{Name, Step};

/// What an edit does to the address of a thing.
#[derive(Clone, Copy, Drop)]
pub enum Course<'e> {
    /// Nothing: the thing stays where it is.
    Stays,
    /// The step behind so many others becomes this index.
    ToIndex(usize, u64),
    /// The step behind so many others becomes this name.
    ToName(usize, &'e str),
    /// The thing is gone.
    Nowhere,
}

/// What is left of the steps below a place, if they lead to it or below it.
fn below<'a>(place: &[Step], steps: &'a [Step]) -> Option<&'a [Step]>
    ensures { MatchOption result (LeadElsewhere place.now steps.now) (λ rest. LeadTo place.now rest.now steps.now) }
{
    let mut left = steps;
    for step in place {
        let (first, rest) = left.split_first()?;
        if !step.is_same(first) {
            return None;
        }
        left = rest;
    }
    Some(left)
}

/// The next step on the way from the place, and what is left behind it, if the steps lead below the place.
fn next<'a>(place: &[Step], steps: &'a [Step]) -> Option<(&'a Step, &'a [Step])>
    ensures { MatchOption result (LeadNoFurther place.now steps.now) (λ way. LeadOn place.now way.0.now way.1.now steps.now) }
{
    below(place, steps)?.split_first()
}

/// The index to which the steps lead on from the parent, if they do to one.
fn next_index(parent: &[Step], steps: &[Step]) -> Option<u64>
    ensures { MatchOption result (LeadToNoIndex parent.now steps.now) (λ i. LeadToIndex parent.now i steps.now) }
{
    let (step, _) = next(parent, steps)?;
    match step {
        Step::Index(index) => Some(*index),
        Step::Name(_) => None,
    }
}

/// `set`: what is strictly below the place goes.
fn course_set<'e>(place: &[Step], steps: &[Step]) -> Course<'e>
    ensures { arrives result steps.now ≡ setting place.now steps.now }
{
    if place.is_empty() {
        return Course::Stays;
    }
    let Some(rest) = below(place, steps) else {
        return Course::Stays;
    };
    if rest.is_empty() {
        return Course::Stays;
    }
    Course::Nowhere
}

/// `insert`: from the index on, an element stands one further.
fn course_insert<'e>(place: &[Step], steps: &[Step]) -> Course<'e>
    ensures { arrives result steps.now ≡ inserting (parted place.now) steps.now }
{
    let Some((last, parent)) = place.split_last() else {
        return Course::Stays;
    };
    match last {
        Step::Name(_) => Course::Stays,
        Step::Index(index) => course_up(parent, *index, steps),
    }
}

/// The elements from the index on, one further.
fn course_up<'e>(parent: &[Step], from: u64, steps: &[Step]) -> Course<'e>
    ensures { arrives result steps.now ≡ carry_below parent.now (up_from from) steps.now }
{
    let Some(index) = next_index(parent, steps) else {
        return Course::Stays;
    };
    if index < from {
        return Course::Stays;
    }
    if index == u64::MAX {
        return Course::Nowhere;
    }
    Course::ToIndex(parent.len(), index + 1)
}

/// `rename`: what is at or below the place has the new name in its step.
fn course_rename<'e>(place: &[Step], to: &'e str, steps: &[Step]) -> Course<'e>
    ensures { arrives result steps.now ≡ renaming (parted place.now) to.now steps.now }
{
    let Some((last, parent)) = place.split_last() else {
        return Course::Stays;
    };
    match last {
        Step::Name(name) => course_name(parent, name, to, steps),
        Step::Index(_) => Course::Stays,
    }
}

/// What the parent has under the name, under the new one.
fn course_name<'e>(parent: &[Step], from: &Name, to: &'e str, steps: &[Step]) -> Course<'e>
    ensures { arrives result steps.now ≡ carry_below parent.now (to_name from.now to.now) steps.now }
{
    let Some((step, _)) = next(parent, steps) else {
        return Course::Stays;
    };
    let Step::Name(name) = step else {
        return Course::Stays;
    };
    if from.as_str() != name.as_str() {
        return Course::Stays;
    }
    Course::ToName(parent.len(), to)
}

/// `remove`: what is at or below the place goes, and of an element the later ones stand one nearer.
fn course_remove<'e>(place: &[Step], steps: &[Step]) -> Course<'e>
    ensures { arrives result steps.now ≡ removing (parted place.now) steps.now }
{
    let Some((last, parent)) = place.split_last() else {
        return Course::Stays;
    };
    match last {
        Step::Name(_) => course_away(place, steps),
        Step::Index(index) => course_down(parent, *index, steps),
    }
}

/// The elements behind the index, one nearer, and the one at it nowhere.
fn course_down<'e>(parent: &[Step], removed: u64, steps: &[Step]) -> Course<'e>
    ensures { arrives result steps.now ≡ carry_below parent.now (down_above removed) steps.now }
{
    let Some(index) = next_index(parent, steps) else {
        return Course::Stays;
    };
    if index < removed {
        return Course::Stays;
    }
    if index == removed {
        return Course::Nowhere;
    }
    Course::ToIndex(parent.len(), index - 1)
}

/// What is at or below the place, nowhere.
fn course_away<'e>(place: &[Step], steps: &[Step]) -> Course<'e>
    ensures { arrives result steps.now ≡ carry_below place.now nowhere steps.now }
{
    match below(place, steps) {
        Some(_) => Course::Nowhere,
        None => Course::Stays,
    }
}

/// What the edit does to the address with these steps, as `carry` has it.
pub fn course_of<'e>(edit: &'e Edit, steps: &[Step]) -> Course<'e>
    ensures { arrives result steps.now ≡ moves.carry (change edit.now) steps.now }
{
    match edit {
        Edit::Set { at, .. } => course_set(at.steps(), steps),
        Edit::Insert { at, .. } => course_insert(at.steps(), steps),
        Edit::Rename { at, to } => course_rename(at.steps(), to.as_str(), steps),
        Edit::Remove { at } => course_remove(at.steps(), steps),
        Edit::Section { .. } | Edit::Element { .. } => Course::Stays,
    }
}
