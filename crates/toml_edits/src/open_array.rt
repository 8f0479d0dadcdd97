//! An array of which the edits put in or take out elements, one after the other.
ghost use Rattle.std.specs.Prelude.{◌≡◌, ◌↔◌, ◌<◌, ◌≤◌, ◌++◌, ◌∷◌, [], IfSome, IsTrue, OnErr, OnOk, drop, length, option_copied};
ghost use Rattle.toml_names.specs.model.Addresses.{Address, element};
ghost use Rattle.toml_names.specs.declared.model.address.Step.{Step as AnyStep};
ghost use Rattle.toml_names.specs.model.Data.{Kinds, kind_at, kind_in};
ghost use Rattle.toml_lists.specs.Gaps.{items};
ghost use Rattle.toml_edits.specs.Drafts.{FindsOpen, IsMadeIn, IsOfElement, IsOpenFor, StandAt, element_change, elements_at};
ghost use Rattle.toml_edits.specs.Edits.{change, insert, remove};
ghost use Rattle.toml_edits.specs.Judged.{IsJudged};
ghost use Rattle.toml_tree.specs.declared.profile.Profile.{Profile};

use crate::applying::fitting;
use crate::edit::Edit;
use crate::exchange::has_array;
use crate::fault::EditFault;
use crate::value::read_text;
use std::alloc::Global;
use toml_lists::GapList;
use toml_names::{Address, Datum, Step};
use toml_tree::Profile;

/// An array that is held open: its elements are not in the data, but in a list of their own.
#[derive(Drop)]
pub(crate) struct OpenArray {
    pub(crate) at: Address,
    pub(crate) elements: GapList<Datum>,
}

/// What an edit does that puts an element into an array or takes one out.
#[derive(Clone, Copy)]
pub(crate) struct OfElement<'e> {
    /// The address of the element.
    pub(crate) at: &'e Address,
    /// The steps to the array.
    pub(crate) array: &'e [Step],
    pub(crate) index: u64,
    /// The text of the value that comes in; without one the element goes.
    pub(crate) value: Option<&'e str>,
}

/// The edit as such a one, if it is one.
pub(crate) fn of_element(edit: &Edit) -> Option<OfElement<'_>>
    ensures { IfSome result (IsOfElement (change edit.now)) }
{
    let (at, value) = match edit {
        Edit::Insert { at, value } => (at, Some(value.as_str())),
        Edit::Remove { at } => (at, None),
        _ => return None,
    };
    let (last, array) = at.steps().split_last()?;
    match last {
        Step::Index(index) => Some(OfElement {
            at,
            array,
            index: *index,
            value,
        }),
        Step::Name(_) => None,
    }
}

impl OpenArray {
    /// Applies the edit. Of data in which these elements stand at the address, it tells the fault; of those with the elements that
    /// it leaves, that it makes them.
    pub(crate) fn apply(
        &mut self,
        alloc: Global,
        edit: OfElement<'_>,
        profile: Profile,
    ) -> Result<(), EditFault>
        requires { edit.at.now ≡ element self.old.at edit.index }
        ensures at { self.new.at ≡ self.old.at }
        ensures made { IsMadeIn profile (element_change edit.entry) self.old self.new result }
        ensures err { OnErr result (items self.new.elements ≡ items self.old.elements) }
    {
        match edit.value {
            Some(text) => self.insert(alloc, edit.at.steps(), edit.index, text, profile),
            None => self.remove(edit.at.steps(), edit.index),
        }
    }

    /// Puts an element in.
    fn insert(
        &mut self,
        alloc: Global,
        at: &[Step],
        index: u64,
        text: &str,
        profile: Profile,
    ) -> Result<(), EditFault>
        requires { at.now ≡ element self.old.at index }
        ensures at { self.new.at ≡ self.old.at }
        ensures made { IsMadeIn profile (insert at.now text.now) self.old self.new result }
        ensures err { OnErr result (items self.new.elements ≡ items self.old.elements) }
    {
        let value = self.value_to_insert(alloc, at, index, text, profile)?;
        match self.elements.insert(index as usize, value) {
            Ok(()) => Ok(()),
            Err(_) => Err(EditFault::NoMemory),
        }
    }

    /// The data of the text, if they may be put in.
    fn value_to_insert(
        &self,
        alloc: Global,
        at: &[Step],
        index: u64,
        text: &str,
        profile: Profile,
    ) -> Result<Datum, EditFault>
        requires { at.now ≡ element self.now.at index }
        ensures judged { (f : Kinds) → StandAt self.now f → IsJudged profile (insert at.now text.now) text.now f result }
        ensures room { OnOk result (index ≤ length (items self.now.elements)) }
    {
        let reading = read_text(alloc, text, profile)?;
        if reading.is_bad() {
            return Err(EditFault::BadValue);
        }
        if !self.elements.takes(index as usize) {
            return Err(EditFault::IndexOutside);
        }
        fitting(at, reading)
    }

    /// Takes an element out.
    fn remove(&mut self, at: &[Step], index: u64) -> Result<(), EditFault>
        requires { at.now ≡ element self.old.at index }
        ensures at { self.new.at ≡ self.old.at }
        ensures made { (profile : Profile) → IsMadeIn profile (remove at.now) self.old self.new result }
        ensures err { OnErr result (items self.new.elements ≡ items self.old.elements) }
    {
        if !self.elements.has(index as usize) {
            return Err(EditFault::NoSuchPlace);
        }
        let _element = self.elements.remove(index as usize);
        Ok(())
    }

    /// What stands at the steps from the array, of which there is one at least.
    pub(crate) fn part(&self, steps: &[Step]) -> Option<&Datum>
        requires { 0 < length steps.now }
        ensures { (rest : Address) → kind_in (option_copied result) rest ≡ elements_at (items self.now.elements) (steps.now ++ rest) }
    {
        let (step, rest) = steps.split_first()?;
        match step {
            Step::Index(index) => self.elements.get(*index as usize)?.part(rest),
            Step::Name(_) => None,
        }
    }

    /// What stands at the address in data of which this is the root, the elements being put back. Of what the array stands in, and of
    /// the array, this tells no more than what kind it is.
    pub(crate) fn found<'a>(&'a self, root: &'a Datum, at: &Address) -> Option<&'a Datum>
        ensures { FindsOpen self.now (kind_at root.now) at.now (option_copied result) }
    {
        if !has_array(root, self.at.steps()) {
            return root.at(at);
        }
        if !self.at.is_above(at) {
            return root.at(at);
        }
        self.part(behind(at.steps(), self.at.steps().len()))
    }

    /// Whether the address is seen to be one step below the array, and that is in data of which this is the root.
    pub(crate) fn is_open_for(&self, root: &Datum, at: &Address) -> bool
        ensures { IsTrue result ↔ IsOpenFor self.now (kind_at root.now) at.now }
    {
        is_child_of(at, &self.at) && has_array(root, self.at.steps())
    }

    /// Whether it has one element.
    pub(crate) fn has_one(&self) -> bool
        ensures { IsTrue result ↔ (length (items self.now.elements) ≡ 1) }
    {
        self.elements.has(0) && !self.elements.has(1)
    }
}

/// Whether the address is seen to be one step below the other.
fn is_child_of(at: &Address, above: &Address) -> bool
    ensures { IsTrue result ↔ ((s : AnyStep) × (at.now ≡ above.now ++ s ∷ [])) }
{
    let fronts = at.steps().len().saturating_sub(1);
    fronts == above.steps().len() && above.is_above(at)
}

/// The steps behind the first so many.
fn behind(steps: &[Step], count: usize) -> &[Step]
    ensures { result.now ≡ drop count steps.now }
{
    let (_, rest) = steps.split_at(count.min(steps.len()));
    rest
}
