//! What edits owe.
ghost use Rattle.std.specs.Prelude.{◌≡◌, ◌↔◌, ◌⊎◌, IsTrue, IfOk, option_copied, option_map};
ghost use Rattle.toml_checker.specs.Debts.{AnyCovers, Covers, CoversMore, IsCovered, IsKept, IsNothingOwed, IsOwedBy, MayCover, ReachesWith};
ghost use Rattle.toml_checker.specs.EditLists.{changes};
ghost use Rattle.toml_checker.specs.Owed as owed;
ghost use Rattle.toml_edits.specs.Edits.{change};
ghost use Rattle.toml_edits.specs.Carry.{parted};
ghost use Rattle.toml_names.specs.model.Addresses.{Address as Steps, child};
ghost use Rattle.toml_names.specs.model.AddressSets.{reaches_in};

use crate::above::is_at_or_above;
use crate::edit_list::EditList;
use std::alloc::{AllocError, Global};
use toml_edits::Edit;
use toml_names::{Address, AddressSet, MAX_STEPS, Name, Step};

/// What an edit owes: all at or above an address, and all below it, unless it is a removal.
#[derive(Drop)]
pub(crate) struct Debt {
    pub(crate) at: Address,
    pub(crate) below: bool,
}

/// What edits owe: the debts at addresses that are no longer than those of things can be, as a set that one walk asks, and the
/// others.
#[derive(Drop)]
pub(crate) struct Debts {
    // none where nothing is owed: a set reaches the root always
    short: Option<AddressSet>,
    long: Vec<Debt>,
}

/// The address of the steps.
fn copied(alloc: Global, steps: &[Step]) -> Result<Address, AllocError>
    ensures { IfOk result (λ at. at ≡ steps.now) }
{
    let mut all = Vec::with_capacity(alloc, steps.len())?;
    for step in steps {
        all.push(step.copy()?)?;
    }
    Ok(Address::of(all))
}

/// The address of what the thing at an address stands in; the root stands in nothing.
fn parent(alloc: Global, at: &Address) -> Result<Option<Address>, AllocError>
    ensures { IfOk result (λ q. q ≡ option_map (λ w. w.0) (parted at.now)) }
{
    match at.steps().split_last() {
        Some((_, steps)) => Ok(Some(copied(alloc, steps)?)),
        None => Ok(None),
    }
}

/// The address with another name as its last step.
fn renamed(alloc: Global, at: &Address, to: &str) -> Result<Option<Address>, AllocError>
    ensures { IfOk result (λ r. r ≡ option_map (λ w. child w.0 to.now) (parted at.now)) }
{
    let Some(parent) = parent(alloc, at)? else {
        return Ok(None);
    };
    let name = Name::of(String::from_str(alloc, to)?)?;
    Ok(Some(parent.child(alloc, name)?))
}

/// Where the result of an edit stands right behind it; a new table stands at its place.
fn result_of(alloc: Global, edit: &Edit) -> Result<Option<Address>, AllocError>
    ensures { IfOk result (λ r. r ≡ owed.result (change edit.now)) }
{
    match edit {
        Edit::Set { at, .. } => Ok(Some(at.copy(alloc)?)),
        Edit::Insert { at, .. } => Ok(Some(at.copy(alloc)?)),
        Edit::Rename { at, to } => renamed(alloc, at, to.as_str()),
        Edit::Remove { at } => parent(alloc, at),
        Edit::Section { at } => Ok(Some(at.copy(alloc)?)),
        Edit::Element { at } => Ok(Some(at.copy(alloc)?)),
    }
}

/// What an edit owes behind the edits that follow it; nothing, where its result is carried nowhere.
pub(crate) fn owed_by(
    alloc: Global,
    edit: &Edit,
    later: &EditList,
) -> Result<Option<Debt>, AllocError>
    ensures { IfOk result (λ d. (a : Steps) → MayCover d a ↔ IsOwedBy (change edit.now) (changes later.now) a) }
{
    let Some(made) = result_of(alloc, edit)? else {
        return Ok(None);
    };
    let Some(at) = later.carry(alloc, &made)? else {
        return Ok(None);
    };
    Ok(Some(Debt {
        at,
        below: !matches!(edit, Edit::Remove { .. }),
    }))
}

/// Nothing is owed.
pub(crate) fn no_debts(alloc: Global) -> Debts
    ensures { IsNothingOwed result }
{
    Debts {
        short: None,
        long: Vec::new(alloc),
    }
}

/// The set, or one of no addresses.
fn kept(alloc: Global, set: Option<AddressSet>) -> AddressSet
    ensures { IsKept set result }
{
    match set {
        Some(set) => set,
        None => AddressSet::new(alloc),
    }
}

/// The set with one address more, and all below that, where it is meant.
fn with_place(
    alloc: Global,
    set: Option<AddressSet>,
    at: &[Step],
    with_all_below: bool,
) -> Result<AddressSet, AllocError>
    ensures { IfOk result (λ new. ReachesWith set new with_all_below at.now) }
{
    let mut set = kept(alloc, set);
    set.add_place(at, with_all_below)?;
    Ok(set)
}

/// What is owed with one debt more.
fn with_debt(alloc: Global, debts: Debts, debt: Debt) -> Result<Debts, AllocError>
    ensures { IfOk result (λ new. (a : Steps) → CoversMore (Covers debt) debts new a) }
{
    let Debts { short, mut long } = debts;
    if debt.at.steps().len() > MAX_STEPS + 1 {
        long.push(debt)?;
        return Ok(Debts { short, long });
    }
    let short = with_place(alloc, short, debt.at.steps(), debt.below)?;
    Ok(Debts {
        short: Some(short),
        long,
    })
}

/// Whether a set that may not be there reaches the address.
fn is_reached(set: Option<&AddressSet>, at: &[Step]) -> bool
    ensures { result ≡ reaches_in (option_copied set.entry) at.now }
{
    match set {
        Some(set) => set.reaches(at),
        None => false,
    }
}

/// What is owed with what an edit owes, if anything.
pub(crate) fn with_owed(
    alloc: Global,
    debts: Debts,
    owed: Option<Debt>,
) -> Result<Debts, AllocError>
    ensures { IfOk result (λ new. (a : Steps) → CoversMore (MayCover owed) debts new a) }
{
    match owed {
        Some(debt) => with_debt(alloc, debts, debt),
        None => Ok(debts),
    }
}

impl Debts {
    /// Whether the address is owed.
    pub(crate) fn cover(&self, at: &Address) -> bool
        ensures { IsTrue result ↔ IsCovered self.now at.now }
    {
        is_reached(self.short.as_ref(), at.steps()) || any_covers(&self.long, at)
    }
}

impl Debt {
    /// Whether it covers the address.
    fn covers(&self, at: &Address) -> bool
        ensures { IsTrue result ↔ Covers self.now at.now }
    {
        is_at_or_above(at, &self.at) || (self.below && is_at_or_above(&self.at, at))
    }
}

/// Whether one of them covers the address.
fn any_covers(debts: &[Debt], at: &Address) -> bool
    ensures { IsTrue result ↔ AnyCovers debts.now at.now }
{
    for debt in debts {
        if debt.covers(at) {
            return true;
        }
    }
    false
}
