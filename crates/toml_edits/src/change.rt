//! A change of data by value: of the datum at an address. What was taken out on the way is put back.
ghost use Rattle.std.specs.BTreeMap.{get_by_text};
ghost use Rattle.std.specs.List.{insert as inserted};
ghost use Rattle.std.specs.Prelude.{◌≡◌, ◌≤◌, ◌++◌, [], List, ℕ, Some, None, IsSome, OnOk, OnErr, IfErr, cond, vec_len};
ghost use Rattle.std.specs.Str.{bytes_eq};
ghost use Rattle.toml_names.specs.model.Addresses.{Address};
ghost use Rattle.toml_names.specs.model.Data.{kind_at};
ghost use Rattle.toml_names.specs.model.Parts.{HasMemberPut};
ghost use Rattle.toml_edits.specs.declared.fault.EditFault.TheVariants.{NoMemory};
ghost use Rattle.toml_edits.specs.Changed.{below, changed, HasMemberRenamed, IsApplicable};

use crate::fault::EditFault;
use std::alloc::{AllocError, Global};
use std::collections::BTreeMap;
use std::mem;
use toml_names::{Datum, Step};
use toml_scalar::Scalar;

/// A change of one datum.
#[derive(Drop)]
pub(crate) enum DatumChange<'n> {
    /// Another datum in its place.
    Put(Datum),
    /// A member more of a table.
    AddMember(&'n str, Datum),
    /// An element more of an array, at the index.
    AddElement(u64, Datum),
    /// Another name for a member: the old one, the new one.
    Rename(&'n str, &'n str),
    DropMember(&'n str),
    DropElement(u64),
}

/// What stands for a part that was taken out. It takes no memory.
pub(crate) fn hole() -> Datum
    ensures { IsSome (kind_at result []) }
{
    Datum::Scalar(Scalar::Bool(false))
}

/// Adds a member to a table, or leaves it as it was where the growth is refused.
fn add_member(
    alloc: Global,
    members: &mut BTreeMap<String, Datum>,
    name: &str,
    part: Datum,
) -> Result<(), AllocError>
    ensures ok { OnOk result (HasMemberPut name.now part members.old members.new) }
    ensures err { OnErr result (members.new.entries ≡ members.old.entries) }
{
    let key = String::from_str(alloc, name)?;
    members.insert(key, part)?;
    Ok(())
}

/// Takes the member with the name out of a table, if there is one.
fn take_member(members: &mut BTreeMap<String, Datum>, name: &str) -> Option<Datum>
    ensures taken { result ≡ get_by_text members.old name.now }
    ensures left { (n : List ℕ) → get_by_text members.new n ≡ cond (bytes_eq name.now n) None (get_by_text members.old n) }
{
    members.remove(name)
}

/// Puts a member where one is.
fn put_member(members: &mut BTreeMap<String, Datum>, name: &str, part: Datum)
    requires { IsSome (get_by_text members.old name.now) }
    ensures { HasMemberPut name.now part members.old members.new }
{
    if let Some(member) = members.get_mut(name) {
        *member = part;
    }
}

/// Gives a member another name. The growth comes first, so that a refused one changes nothing.
fn rename_member(
    alloc: Global,
    members: &mut BTreeMap<String, Datum>,
    from: &str,
    to: &str,
) -> Result<(), AllocError>
    requires from { IsSome (get_by_text members.old from.now) }
    requires to { get_by_text members.old to.now ≡ None }
    ensures ok { OnOk result (HasMemberRenamed from.now to.now members.old members.new) }
    ensures err { OnErr result (members.new.entries ≡ members.old.entries) }
{
    add_member(alloc, members, to, hole())?;
    if let Some(member) = take_member(members, from) {
        put_member(members, to, member);
    }
    Ok(())
}

/// Puts an element into an array at the index, or leaves it as it was where the growth is refused.
fn add_element(items: &mut Vec<Datum>, index: usize, part: Datum) -> Result<(), AllocError>
    requires { index ≤ vec_len items.old }
    ensures ok { OnOk result (items.new.items ≡ inserted items.old.items index part) }
    ensures err { OnErr result (items.new.items ≡ items.old.items) }
{
    items.insert(index, part)?;
    Ok(())
}

/// Changes a datum. After a refused growth it is as before.
fn change_here(
    alloc: Global,
    datum: Datum,
    change: DatumChange<'_>,
) -> (Datum, Result<(), AllocError>)
    requires { IsApplicable change (kind_at datum) }
    ensures ok { OnOk result.1 ((at : Address) → kind_at result.0 at ≡ changed change.entry (kind_at datum) at) }
    ensures err { OnErr result.1 ((at : Address) → kind_at result.0 at ≡ kind_at datum at) }
{
    match change {
        DatumChange::Put(part) => (part, Ok(())),
        DatumChange::AddMember(name, part) => match datum {
            Datum::Table(mut members) => {
                let done = add_member(alloc, &mut members, name, part);
                (Datum::Table(members), done)
            }
            other => (other, Ok(())),
        },
        DatumChange::AddElement(index, part) => match datum {
            Datum::Array(mut items) => {
                let done = add_element(&mut items, index as usize, part);
                (Datum::Array(items), done)
            }
            other => (other, Ok(())),
        },
        DatumChange::Rename(from, to) => match datum {
            Datum::Table(mut members) => {
                let done = rename_member(alloc, &mut members, from, to);
                (Datum::Table(members), done)
            }
            other => (other, Ok(())),
        },
        DatumChange::DropMember(name) => match datum {
            Datum::Table(mut members) => {
                let _member = take_member(&mut members, name);
                (Datum::Table(members), Ok(()))
            }
            other => (other, Ok(())),
        },
        DatumChange::DropElement(index) => match datum {
            Datum::Array(mut items) => {
                let _element = items.remove(index as usize);
                (Datum::Array(items), Ok(()))
            }
            other => (other, Ok(())),
        },
    }
}

/// Changes the datum that the steps lead to. After a refused growth all is as before.
fn change_at(
    alloc: Global,
    datum: Datum,
    steps: &[Step],
    change: DatumChange<'_>,
) -> (Datum, Result<(), AllocError>)
    requires { IsApplicable change (λ at. kind_at datum (steps.now ++ at)) }
    ensures ok { OnOk result.1 ((at : Address) → kind_at result.0 at ≡ below steps.now (changed change.entry) (kind_at datum) at) }
    ensures err { OnErr result.1 ((at : Address) → kind_at result.0 at ≡ kind_at datum at) }
{
    let Some((step, rest)) = steps.split_first() else {
        return change_here(alloc, datum, change);
    };
    let (hollow, part) = datum.swap_child(step, hole());
    let (part, done) = change_at(alloc, part, rest, change);
    let (whole, _hole) = hollow.swap_child(step, part);
    (whole, done)
}

/// Changes the part of a datum that the steps lead to. After a refused growth all is as before.
pub(crate) fn alter(
    alloc: Global,
    root: &mut Datum,
    steps: &[Step],
    change: DatumChange<'_>,
) -> Result<(), EditFault>
    requires { IsApplicable change (λ at. kind_at root.old (steps.now ++ at)) }
    ensures ok { OnOk result ((at : Address) → kind_at root.new at ≡ below steps.now (changed change.entry) (kind_at root.old) at) }
    ensures err { OnErr result ((at : Address) → kind_at root.new at ≡ kind_at root.old at) }
    ensures fault { IfErr result (λ x. x ≡ NoMemory) }
{
    let whole = mem::replace(root, hole());
    let (whole, done) = change_at(alloc, whole, steps, change);
    *root = whole;
    match done {
        Ok(()) => Ok(()),
        Err(_) => Err(EditFault::NoMemory),
    }
}
