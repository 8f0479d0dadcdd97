//! Data while edits are made on them, one after the other.
ghost use Rattle.std.specs.Prelude.{◌≡◌, ◌↔◌, ◌++◌, [], ℕ, None, IfErr, IfOk, IsTrue, OnErr, OnOk, option_copied, true};
ghost use Rattle.toml_names.specs.model.Addresses.{Address, element};
ghost use Rattle.toml_names.specs.model.Data.{kind_at, kind_in};
ghost use Rattle.toml_edits.specs.Applied.{IsApplied, IsRefused};
ghost use Rattle.toml_edits.specs.Drafts.{HasOne, IsOfElement, IsOnlyElement, IsPlaced, IsReadyAt, IsTurned, drafted, is_array};
ghost use Rattle.toml_edits.specs.Edits.{change, place as place_of};

use crate::applying::apply_in;
use crate::edit::Edit;
use crate::exchange::{empty, fill};
use crate::fault::EditFault;
use crate::open_array::{OfElement, OpenArray, of_element};
use crate::walking::push_copies;
use std::alloc::{AllocError, Global};
use toml_lists::GapList;
use toml_names::{Address, Data, Datum, Step};
use toml_tree::Profile;

/// Arrays with fewer elements are not held open: their elements are moved for each edit.
const FEW: usize = 64;

/// Data while edits are made on them. Contracts see what stands at each address in them, `drafted`.
///
/// The array into which the edits put elements, or from which they take some, is held open: an edit then moves the few elements
/// between its place and that of the edit before. Another edit puts it back first.
#[derive(Drop)]
pub struct Draft {
    data: Data,
    array: Option<OpenArray>,
}

impl Draft {
    /// The data before the edits. It takes no memory.
    pub fn of(data: Data) -> Draft
        ensures { (at : Address) → drafted result at ≡ kind_at «data».root at }
    {
        Draft { data, array: None }
    }

    /// The data that the edits have made.
    pub fn into_data(self) -> Result<Data, AllocError>
        ensures { IfOk result (λ d. (at : Address) → kind_at d.root at ≡ drafted self at) }
    {
        let mut draft = self;
        draft.close()?;
        let Draft { data, array: _ } = draft;
        Ok(data)
    }

    /// Applies an edit, the text of its value read in the profile: what it answers and makes is what `apply_in` answers and makes
    /// of data.
    pub fn apply(&mut self, alloc: Global, edit: &Edit, profile: Profile) -> Result<(), EditFault>
        ensures fault { IfErr result (IsRefused profile (change edit.now) (drafted self.old)) }
        ensures ok { OnOk result (IsApplied profile (change edit.now) (drafted self.old) (drafted self.new)) }
        ensures err { OnErr result ((at : Address) → drafted self.new at ≡ drafted self.old at) }
    {
        match of_element(edit) {
            Some(element) => self.apply_to_element(alloc, edit, element, profile),
            None => self.apply_closed(alloc, edit, profile),
        }
    }

    /// Makes ready for an edit, so that what stands at its place can be looked at. The data stay the same.
    pub fn turn_to(&mut self, alloc: Global, edit: &Edit) -> Result<(), AllocError>
        ensures ready { OnOk result (IsReadyAt self.new (place_of (change edit.now))) }
        ensures same { (at : Address) → drafted self.new at ≡ drafted self.old at }
    {
        match of_element(edit) {
            Some(element) => self.turn_to_element(alloc, element),
            None => self.close(),
        }
    }

    /// What stands at the address. Of what an open array stands in, and of that array, this tells no more than what kind it is;
    /// whoever has turned to an edit there is told all.
    pub fn found(&self, at: &Address) -> Option<&Datum>
        ensures kind { kind_in (option_copied result) [] ≡ drafted self.now at.now }
        ensures part { IsReadyAt self.now at.now → (rest : Address) → kind_in (option_copied result) rest ≡ drafted self.now (at.now ++ rest) }
    {
        match &self.array {
            Some(array) => array.found(&self.data.root, at),
            None => self.data.root.at(at),
        }
    }

    /// Whether the address is seen to be that of the only element of an array. Whoever has turned to an edit there sees it.
    pub fn is_only(&self, at: &Address) -> bool
        ensures yes { IsTrue result → IsOnlyElement (drafted self.now) at.now }
        ensures seen { IsReadyAt self.now at.now → IsOnlyElement (drafted self.now) at.now → IsTrue result }
    {
        match at.steps().split_last() {
            Some((Step::Index(index), above)) => *index == 0 && self.has_one(at, above),
            _ => false,
        }
    }

    /// Whether the array at the steps, right above the address of its first element, has no other one.
    fn has_one(&self, at: &Address, above: &[Step]) -> bool
        requires { at.now ≡ element above.now 0 }
        ensures yes { IsTrue result → IsOnlyElement (drafted self.now) at.now }
        ensures seen { IsReadyAt self.now at.now → IsOnlyElement (drafted self.now) at.now → IsTrue result }
    {
        match &self.array {
            Some(array) => array.is_open_for(&self.data.root, at) && array.has_one(),
            None => is_single(self.data.root.part(above)),
        }
    }

    /// Puts the elements of the open array back.
    fn close(&mut self) -> Result<(), AllocError>
        ensures closed { OnOk result (self.new.array ≡ None) }
        ensures same { (at : Address) → drafted self.new at ≡ drafted self.old at }
    {
        let Some(OpenArray { at, elements }) = self.array.take() else {
            return Ok(());
        };
        match elements.into_vec() {
            Ok(items) => {
                fill(&mut self.data.root, at.steps(), items);
                Ok(())
            }
            Err(elements) => {
                self.array = Some(OpenArray { at, elements });
                Err(AllocError)
            }
        }
    }

    /// Opens the array at the steps, if there is one with more than a few elements.
    fn open_at(&mut self, alloc: Global, steps: &[Step]) -> Result<(), AllocError>
        requires { self.old.array ≡ None }
        ensures turned { OnOk result (IsTurned self.new steps.now) }
        ensures same { (at : Address) → drafted self.new at ≡ drafted self.old at }
    {
        if !has_many(self.data.root.part(steps)) {
            return Ok(());
        }
        let at = address_of(alloc, steps)?;
        let elements = empty(alloc, &mut self.data.root, steps);
        self.array = Some(OpenArray {
            at,
            elements: GapList::of(alloc, elements),
        });
        Ok(())
    }

    /// Opens the array of the element, if there is one with more than a few, and no other.
    fn turn_to_element(&mut self, alloc: Global, element: OfElement<'_>) -> Result<(), AllocError>
        requires { IsPlaced element }
        ensures turned { OnOk result (IsTurned self.new element.entry.array.now) }
        ensures same { (at : Address) → drafted self.new at ≡ drafted self.old at }
    {
        if self.is_turned_to(element.at) {
            return Ok(());
        }
        self.close()?;
        self.open_at(alloc, element.array)
    }

    /// Whether the array of the element is open.
    fn is_turned_to(&self, at: &Address) -> bool
        ensures { IsTrue result → (q : Address) (i : ℕ) → at.now ≡ element q i → IsTurned self.now q }
    {
        match &self.array {
            Some(array) => array.is_open_for(&self.data.root, at),
            None => false,
        }
    }

    /// Applies an edit that puts an element in or takes one out.
    fn apply_to_element(
        &mut self,
        alloc: Global,
        edit: &Edit,
        element: OfElement<'_>,
        profile: Profile,
    ) -> Result<(), EditFault>
        requires { IsOfElement (change edit.now) element }
        ensures fault { IfErr result (IsRefused profile (change edit.now) (drafted self.old)) }
        ensures ok { OnOk result (IsApplied profile (change edit.now) (drafted self.old) (drafted self.new)) }
        ensures err { OnErr result ((at : Address) → drafted self.new at ≡ drafted self.old at) }
    {
        self.turn_to_element(alloc, element)?;
        self.apply_turned(alloc, edit, element, profile)
    }

    /// Applies it where its array is open, or none.
    fn apply_turned(
        &mut self,
        alloc: Global,
        edit: &Edit,
        element: OfElement<'_>,
        profile: Profile,
    ) -> Result<(), EditFault>
        requires edit { IsOfElement (change edit.now) element }
        requires turned { IsTurned self.old element.array.now }
        ensures fault { IfErr result (IsRefused profile (change edit.now) (drafted self.old)) }
        ensures ok { OnOk result (IsApplied profile (change edit.now) (drafted self.old) (drafted self.new)) }
        ensures err { OnErr result ((at : Address) → drafted self.new at ≡ drafted self.old at) }
    {
        match &mut self.array {
            Some(array) => array.apply(alloc, element, profile),
            None => apply_in(alloc, &mut self.data, edit, profile),
        }
    }

    /// Applies another edit.
    fn apply_closed(
        &mut self,
        alloc: Global,
        edit: &Edit,
        profile: Profile,
    ) -> Result<(), EditFault>
        ensures fault { IfErr result (IsRefused profile (change edit.now) (drafted self.old)) }
        ensures ok { OnOk result (IsApplied profile (change edit.now) (drafted self.old) (drafted self.new)) }
        ensures err { OnErr result ((at : Address) → drafted self.new at ≡ drafted self.old at) }
    {
        self.close()?;
        apply_in(alloc, &mut self.data, edit, profile)
    }
}

/// Whether it is an array with more than a few elements.
fn has_many(found: Option<&Datum>) -> bool
    ensures { IsTrue result → is_array (kind_in (option_copied found.entry) []) ≡ true }
{
    match found {
        Some(Datum::Array(items)) => items.len() >= FEW,
        _ => false,
    }
}

/// Whether it is an array of one element.
fn is_single(found: Option<&Datum>) -> bool
    ensures { IsTrue result ↔ HasOne (kind_in (option_copied found.entry)) }
{
    match found {
        Some(datum) => has_one_element(datum),
        None => false,
    }
}

/// Whether the datum is an array of one element.
fn has_one_element(datum: &Datum) -> bool
    ensures { IsTrue result ↔ HasOne (kind_at datum.now) }
{
    match datum {
        Datum::Array(items) => items.len() == 1,
        Datum::Scalar(_) | Datum::Table(_) => false,
    }
}

/// The address with these steps.
fn address_of(alloc: Global, steps: &[Step]) -> Result<Address, AllocError>
    ensures { IfOk result (λ a. a ≡ steps.now) }
{
    let mut copies = Vec::with_capacity(alloc, steps.len())?;
    push_copies(&mut copies, steps)?;
    Ok(Address::of(copies))
}
