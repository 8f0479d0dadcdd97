//! Sets of addresses, to be walked down step by step.
ghost use Rattle.std.specs.BTreeMap.{get_by_text};
ghost use Rattle.std.specs.Prelude.{◌≡◌, ◌++◌, ℕ, List, OnOk, option_copied, true};
ghost use Rattle.toml_names.specs.declared.model.address.Step.TheVariants.{Name, Index};
ghost use Rattle.toml_names.specs.model.Addresses.{Address as Steps, child};
ghost use Rattle.toml_names.specs.model.AddressSets.{AddsElement, AddsName, HidesLess, IsElementPut, IsNamePut, IsRootAlone, ReachesElement, ReachesMore, ReachesName, below, is_hidden, is_whole, last_step, reaches};
ghost use Rattle.toml_names.specs.model.Hidden.{is_off_all};

use crate::model::address::Step;
use std::alloc::{AllocError, Global};
use std::collections::BTreeMap;

/// Some addresses. All beside the ways to them is hidden by the set: names that are on no way, with all below them, and
/// what is below elements that are on none. What is above or at them is reached, and what is below those that have all below them.
#[derive(Drop)]
pub struct AddressSet {
    alloc: Global,
    // whether all below the way so far is meant: then nothing there is hidden, and all is reached
    whole: bool,
    names: BTreeMap<String, AddressSet>,
    elements: BTreeMap<u64, AddressSet>,
}

impl AddressSet {
    /// No addresses. It reaches the root alone.
    pub fn new(alloc: Global) -> AddressSet
        ensures hides { (at : Steps) → is_hidden result at ≡ is_off_all at }
        ensures reaches { IsRootAlone result }
    {
        AddressSet {
            alloc,
            whole: false,
            names: BTreeMap::new(alloc),
            elements: BTreeMap::new(alloc),
        }
    }

    /// Puts an address in, with all below it. Where that lacks memory, nothing is said of the set any more.
    pub fn add(&mut self, at: &[Step]) -> Result<(), AllocError>
        ensures hides { OnOk result (HidesLess self.old self.new at.now) }
        ensures reaches { OnOk result (ReachesMore self.old self.new true at.now) }
    {
        enter(self, at, None, true)
    }

    /// Puts in an address, for who asks what is reached: with all below it, or alone. Where that lacks memory, nothing is said of
    /// the set any more.
    pub fn add_place(&mut self, at: &[Step], with_all_below: bool) -> Result<(), AllocError>
        ensures { OnOk result (ReachesMore self.old self.new with_all_below at.now) }
    {
        enter(self, at, None, with_all_below)
    }

    /// Puts in the address of a name in the table at an address, with all below it. Where that lacks memory, nothing is said of
    /// the set any more.
    pub fn add_below(&mut self, parent: &[Step], name: &str) -> Result<(), AllocError>
        ensures hides { OnOk result (HidesLess self.old self.new (child parent.now name.now)) }
        ensures reaches { OnOk result (ReachesMore self.old self.new true (child parent.now name.now)) }
    {
        enter(self, parent, Some(name), true)
    }

    /// Whether it reaches an address: that is above or at one of its own, or below one that was put in with all below it. It takes no
    /// memory.
    pub fn reaches(&self, at: &[Step]) -> bool
        ensures { result ≡ reaches self.now at.now }
    {
        let mut set = self;
        for step in at {
            if set.whole {
                return true;
            }
            match set.below(step) {
                Some(next) => set = next,
                None => return false,
            }
        }
        true
    }

    /// What it has one step down, if anything.
    fn below(&self, step: &Step) -> Option<&AddressSet>
        ensures { option_copied result ≡ below self.now step.now }
    {
        match step {
            Step::Name(name) => self.below_name(name.as_str()),
            Step::Index(index) => self.below_index(*index),
        }
    }

    /// Whether it has all below the way so far.
    pub(crate) fn is_whole(&self) -> bool
        ensures { result ≡ is_whole self.now }
    {
        self.whole
    }

    /// What it has below a name, if anything.
    pub(crate) fn below_name(&self, name: &str) -> Option<&AddressSet>
        ensures { option_copied result ≡ below self.now (Name name.now) }
    {
        self.names.get(name)
    }

    /// What it has below an index, if anything.
    pub(crate) fn below_index(&self, index: u64) -> Option<&AddressSet>
        ensures { option_copied result ≡ below self.now (Index index) }
    {
        self.elements.get(&index)
    }

    /// The names that it has, and what it has below each.
    pub(crate) fn names(&self) -> &BTreeMap<String, AddressSet>
        ensures { (n : List ℕ) → get_by_text result.now n ≡ below self.now (Name n) }
    {
        &self.names
    }
}

/// Puts in the address to which the steps lead, and the name behind them if there is one, with all below it where that is meant.
/// Where the set is whole, it has it.
#[cycle(enter)]
fn enter(
    set: &mut AddressSet,
    way: &[Step],
    last: Option<&str>,
    whole: bool,
) -> Result<(), AllocError>
    ensures hides { OnOk result (whole ≡ true → HidesLess set.old set.new (way.now ++ last_step last.entry)) }
    ensures reaches { OnOk result (ReachesMore set.old set.new whole (way.now ++ last_step last.entry)) }
{
    if set.whole {
        return Ok(());
    }
    let Some((step, rest)) = way.split_first() else {
        return enter_last(set, last, whole);
    };
    match step {
        Step::Name(name) => enter_name(set.alloc, &mut set.names, name.as_str(), rest, last, whole),
        Step::Index(index) => {
            enter_element(set.alloc, &mut set.elements, *index, rest, last, whole)
        }
    }
}

/// Puts in the address of the way so far, or the name behind it.
#[cycle(enter)]
fn enter_last(set: &mut AddressSet, last: Option<&str>, whole: bool) -> Result<(), AllocError>
    ensures hides { OnOk result (whole ≡ true → HidesLess set.old set.new (last_step last.entry)) }
    ensures reaches { OnOk result (ReachesMore set.old set.new whole (last_step last.entry)) }
{
    match last {
        Some(name) => enter_name(set.alloc, &mut set.names, name, &[], None, whole),
        None => {
            if whole {
                set.whole = true;
            }
            Ok(())
        }
    }
}

/// Puts in what is left of an address behind a name, which may be new.
#[cycle(enter)]
fn enter_name(
    alloc: Global,
    names: &mut BTreeMap<String, AddressSet>,
    name: &str,
    rest: &[Step],
    last: Option<&str>,
    whole: bool,
) -> Result<(), AllocError>
    ensures hides { OnOk result (whole ≡ true → AddsName names.old names.new name.now (rest.now ++ last_step last.entry)) }
    ensures reaches { OnOk result (ReachesName names.old names.new name.now whole (rest.now ++ last_step last.entry)) }
{
    if let Some(below) = names.get_mut(name) {
        return enter(below, rest, last, whole);
    }
    let mut below = AddressSet::new(alloc);
    enter(&mut below, rest, last, whole)?;
    put_name(alloc, names, name, below)?;
    Ok(())
}

/// Puts in what is left of an address behind an index, which may be new.
#[cycle(enter)]
fn enter_element(
    alloc: Global,
    elements: &mut BTreeMap<u64, AddressSet>,
    index: u64,
    rest: &[Step],
    last: Option<&str>,
    whole: bool,
) -> Result<(), AllocError>
    ensures hides { OnOk result (whole ≡ true → AddsElement elements.old elements.new index (rest.now ++ last_step last.entry)) }
    ensures reaches { OnOk result (ReachesElement elements.old elements.new index whole (rest.now ++ last_step last.entry)) }
{
    if let Some(below) = elements.get_mut(&index) {
        return enter(below, rest, last, whole);
    }
    let mut below = AddressSet::new(alloc);
    enter(&mut below, rest, last, whole)?;
    put_element(elements, index, below)?;
    Ok(())
}

/// Puts a set in at a name. It stands apart, since what it takes of the stack would be taken for each step of a way in `enter`.
#[inline(never)]
fn put_name(
    alloc: Global,
    names: &mut BTreeMap<String, AddressSet>,
    name: &str,
    below: AddressSet,
) -> Result<(), AllocError>
    ensures { OnOk result (IsNamePut name.now below names.old names.new) }
{
    let key = String::from_str(alloc, name)?;
    names.insert(key, below)?;
    Ok(())
}

/// Puts a set in at an index, apart from `enter` too.
#[inline(never)]
fn put_element(
    elements: &mut BTreeMap<u64, AddressSet>,
    index: u64,
    below: AddressSet,
) -> Result<(), AllocError>
    ensures { OnOk result (IsElementPut index below elements.old elements.new) }
{
    elements.insert(index, below)?;
    Ok(())
}
