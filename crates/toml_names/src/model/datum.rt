//! The data of a document: tables, arrays and scalars.
ghost use Rattle.std.specs.Prelude.{◌≡◌, ◌↔◌, ◌∷◌, ◌++◌, ℕ, List, slice_get, IsTrue, IsSome, IfOk, OnOk, option_copied};
ghost use Rattle.std.specs.BTreeMap.{get_by_text};
ghost use Rattle.toml_scalar.specs.Values.{scalar_value};
ghost use Rattle.toml_names.specs.declared.model.address.Step.TheVariants.{Name, Index};
ghost use Rattle.toml_names.specs.model.Addresses.{Address};
ghost use Rattle.toml_names.specs.model.Data.{kind_at, kind_in};
ghost use Rattle.toml_names.specs.model.Parts.{HasMemberPut};
ghost use Rattle.toml_names.specs.model.SameData.{AreMembersOf, AreSameElements, AreSameMembers, HasAllNames};

use crate::model::address::{Address, Step};
use std::alloc::{AllocError, Global};
use std::collections::BTreeMap;
use toml_scalar::{FloatText, Moment, Scalar, is_same};

/// A scalar, an array or a table. Contracts see it as a finite map, `kind_at`: what stands at each address in it.
#[derive(Drop)]
pub enum Datum {
    Scalar(Scalar),
    Array(Vec<Datum>),
    Table(BTreeMap<String, Datum>),
}

/// The data of a document. Whoever writes `root` keeps it a table.
#[derive(Drop)]
pub struct Data {
    pub root: Datum,
}

impl Data {
    /// Data of their own that are the same.
    pub fn copy(&self, alloc: Global) -> Result<Data, AllocError>
        ensures { IfOk result (λ d. (at : Address) → kind_at d.root at ≡ kind_at self.now.root at) }
    {
        Ok(Data {
            root: self.root.copy(alloc)?,
        })
    }
}

impl Datum {
    /// The part one step below.
    fn child(&self, step: &Step) -> Option<&Datum>
        ensures { (rest : Address) → kind_in (option_copied result) rest ≡ kind_at self.now (step.now ∷ rest) }
    {
        match (self, step) {
            (Datum::Array(items), Step::Index(index)) => items.get(*index as usize),
            (Datum::Table(members), Step::Name(name)) => members.get(name.as_str()),
            _ => None,
        }
    }

    /// The part that the steps lead to.
    fn below(&self, steps: &[Step]) -> Option<&Datum>
        ensures { (rest : Address) → kind_in (option_copied result) rest ≡ kind_at self.now (steps.now ++ rest) }
    {
        let mut here = self;
        for step in steps {
            here = here.child(step)?;
        }
        Some(here)
    }

    /// The part at the steps, if anything stands there. It takes no memory.
    #[tactic(auto, using(crate::proofs::lemmas::model::Levels::part_found))]
    pub fn part(&self, steps: &[Step]) -> Option<&Datum>
        ensures part { (rest : Address) → kind_in (option_copied result) rest ≡ kind_at self.now (steps.now ++ rest) }
        ensures found { IsSome result ↔ IsSome (kind_at self.now steps.now) }
    {
        self.below(steps)
    }

    /// The part at the address, if anything stands there. It takes no memory.
    pub fn at(&self, at: &Address) -> Option<&Datum>
        ensures part { (rest : Address) → kind_in (option_copied result) rest ≡ kind_at self.now (at.now ++ rest) }
        ensures found { IsSome result ↔ IsSome (kind_at self.now at.now) }
    {
        self.part(at.steps())
    }

    /// The member of a name, if it is a table and has one.
    pub(crate) fn member(&self, name: &str) -> Option<&Datum>
        ensures { (rest : Address) → kind_in (option_copied result) rest ≡ kind_at self.now (Name name.now ∷ rest) }
    {
        let Datum::Table(members) = self else {
            return None;
        };
        members.get(name)
    }

    /// The elements, if it is an array.
    pub(crate) fn items(&self) -> &[Datum]
        ensures { (index : ℕ) (rest : Address) → kind_in (slice_get result.now index) rest ≡ kind_at self.now (Index index ∷ rest) }
    {
        let Datum::Array(items) = self else {
            return &[];
        };
        items
    }

    /// A datum of its own that is the same.
    #[cycle(copy)]
    pub fn copy(&self, alloc: Global) -> Result<Datum, AllocError>
        ensures { IfOk result (λ d. (at : Address) → kind_at d at ≡ kind_at self.now at) }
    {
        match self {
            Datum::Scalar(scalar) => Ok(Datum::Scalar(copy_scalar(alloc, scalar)?)),
            Datum::Array(items) => Ok(Datum::Array(copy_items(alloc, items)?)),
            Datum::Table(members) => Ok(Datum::Table(copy_members(alloc, members)?)),
        }
    }
}

/// Whether two data are the same: the same stands at each address in both. It takes no memory.
#[cycle(same)]
pub fn same(one: &Datum, other: &Datum) -> bool
    ensures { IsTrue result ↔ ((at : Address) → kind_at one.now at ≡ kind_at other.now at) }
{
    match (one, other) {
        (Datum::Scalar(one), Datum::Scalar(other)) => is_same(one, other),
        (Datum::Array(one), Datum::Array(other)) => same_items(one, other),
        (Datum::Table(one), Datum::Table(other)) => {
            same_members(one, other) && has_names(one, other)
        }
        _ => false,
    }
}

/// Whether the elements of two arrays are the same, index by index.
#[cycle(same)]
fn same_items(one: &[Datum], other: &[Datum]) -> bool
    ensures { IsTrue result ↔ AreSameElements one.now other.now }
{
    if one.len() != other.len() {
        return false;
    }
    for (index, item) in one.iter().enumerate() {
        if !same(item, &other[index]) {
            return false;
        }
    }
    true
}

/// Whether each member of a table is in another table under its name, and the same.
#[cycle(same)]
fn same_members(one: &BTreeMap<String, Datum>, other: &BTreeMap<String, Datum>) -> bool
    ensures { IsTrue result ↔ AreMembersOf one.now other.now }
{
    for (name, member) in one {
        match other.get(name.as_str()) {
            Some(found) => {
                if !same(member, found) {
                    return false;
                }
            }
            None => return false,
        }
    }
    true
}

/// Whether a table has each name of another one.
fn has_names(table: &BTreeMap<String, Datum>, other: &BTreeMap<String, Datum>) -> bool
    ensures { IsTrue result ↔ HasAllNames table.now other.now }
{
    for (name, _) in other {
        if !table.contains_key(name.as_str()) {
            return false;
        }
    }
    true
}

/// A scalar of its own with the same value.
fn copy_scalar(alloc: Global, scalar: &Scalar) -> Result<Scalar, AllocError>
    ensures { IfOk result (λ s. scalar_value s ≡ scalar_value scalar.now) }
{
    match scalar {
        Scalar::Text(text) => Ok(Scalar::Text(String::from_str(alloc, text.as_str())?)),
        Scalar::Integer(number) => Ok(Scalar::Integer(*number)),
        Scalar::Float(float) => Ok(Scalar::Float(FloatText {
            text: String::from_str(alloc, float.text.as_str())?,
        })),
        Scalar::Bool(truth) => Ok(Scalar::Bool(*truth)),
        Scalar::Moment(moment) => Ok(Scalar::Moment(Moment {
            kind: moment.kind,
            text: String::from_str(alloc, moment.text.as_str())?,
        })),
    }
}

/// Elements of their own that are the same, index by index.
#[cycle(copy)]
fn copy_items(alloc: Global, items: &[Datum]) -> Result<Vec<Datum>, AllocError>
    ensures { IfOk result (λ copies. AreSameElements copies.items items.now) }
{
    let mut copies = Vec::new(alloc);
    for item in items {
        copies.push(item.copy(alloc)?)?;
    }
    Ok(copies)
}

/// Members of their own that are the same, name by name.
#[cycle(copy)]
fn copy_members(
    alloc: Global,
    members: &BTreeMap<String, Datum>,
) -> Result<BTreeMap<String, Datum>, AllocError>
    ensures { IfOk result (λ copies. AreSameMembers copies members.now) }
{
    let mut copies = BTreeMap::new(alloc);
    for (name, member) in members {
        let copied = member.copy(alloc)?;
        add_member(alloc, &mut copies, name.as_str(), copied)?;
    }
    Ok(copies)
}

/// Puts a member into a table under a name.
pub(crate) fn add_member(
    alloc: Global,
    members: &mut BTreeMap<String, Datum>,
    name: &str,
    member: Datum,
) -> Result<(), AllocError>
    ensures { OnOk result (HasMemberPut name.now member members.old members.new) }
{
    let key = String::from_str(alloc, name)?;
    members.insert(key, member)?;
    Ok(())
}
