//! The names in a table and their nodes: a few in a plain vector, those behind them in a hash map.
ghost use Rattle.std.specs.Cow.{cow_str_bytes};
ghost use Rattle.std.specs.Option.{option_map, unwrap_or};
ghost use Rattle.indexmap.specs.IndexMap.{get, insert_entry};
ghost use Rattle.toml_names.specs.tree.NameMaps.{children_of, children_behind, same_name, AreDistinct};
ghost use Rattle.std.specs.Prelude.{◌∷◌, ◌++◌, ◌≡◌, ◌-◌, ◌<◌, ◌↔◌, IsTrue, length, take, slice_get, Some, OnErr, OnOk, IfOk, IfSome, IfNone, []};
ghost use Rattle.std.specs.Map.{lookup};
ghost use Rattle.std.specs.Str.{bytes_eq};

use crate::tree::hash_key::HashKey;
use crate::tree::hashing::NameHashing;
use indexmap::IndexMap;
use std::alloc::{AllocError, Global};
use std::borrow::CowStr;
use std::marker::Model;

/// How many names are searched one by one: a hash map takes room for nine from its first name on.
const FEW: usize = 8;

/// The names in a table and their nodes, in the order of their first mentions. The first few are searched one by one, those
/// behind them by their hash.
#[derive(Drop)]
pub struct NameMap<'t> {
    few: Vec<(CowStr<'t>, usize)>,
    rest: Option<Box<IndexMap<CowStr<'t>, usize, NameHashing>>>,
}

impl<'t> Model for NameMap<'t> {
    ghost use Rattle.std.specs.Prelude.{List, ℕ, ◌++◌};
    ghost use Rattle.toml_names.specs.tree.NameMaps.{children_of, children_behind, AreDistinct};

    ghost Value = { List (List ℕ × ℕ) };

    ghost view = { λ m. children_of m.few.items ++ children_behind m.rest };

    ghost invariant = { λ m. AreDistinct (children_of m.few.items ++ children_behind m.rest) };
}

impl<'t> NameMap<'t> {
    /// No names.
    pub(crate) fn new(alloc: Global) -> NameMap<'t>
        ensures { result ≡ [] }
    {
        NameMap {
            few: Vec::new(alloc),
            rest: None,
        }
    }

    /// How many names there are.
    pub(crate) fn len(&self) -> usize
        ensures count { result ≡ length self.now }
        ensures distinct { AreDistinct self.now }
    {
        match &self.rest {
            Some(rest) => self.few.len() + rest.len(),
            None => self.few.len(),
        }
    }

    /// The node of a name.
    pub(crate) fn get(&self, name: &str) -> Option<usize>
        ensures { result ≡ lookup (bytes_eq name.now) self.now }
    {
        if let Some(id) = find(&self.few, name) {
            return Some(id);
        }
        match &self.rest {
            Some(rest) => rest.get(name).copied(),
            None => None,
        }
    }

    /// The name at a place, and its node.
    pub(crate) fn nth(&self, index: usize) -> Option<(&str, usize)>
        ensures pair { option_map (λ e. (e.0.now, e.1)) result ≡ slice_get self.now index }
        ensures found { IfSome result (λ e. lookup (bytes_eq e.0.now) self.now ≡ Some e.1) }
    {
        if let Some(pair) = self.few.get(index) {
            return Some((pair.0.as_str(), pair.1));
        }
        let rest = self.rest.as_ref()?;
        let (name, id) = rest.get_index(index - self.few.len())?;
        Some((name.as_str(), *id))
    }

    /// The node of a name, which is looked for at the place first: where it stands there, nothing is hashed.
    pub(crate) fn get_from(&self, place: usize, name: &str) -> Option<usize>
        ensures { result ≡ lookup (bytes_eq name.now) self.now }
    {
        if let Some((known, id)) = self.nth(place) {
            if known == name {
                return Some(id);
            }
        }
        self.get(name)
    }

    /// The node that a name leads to; a name that leads nowhere goes last, with `id`.
    pub(crate) fn find_or_insert(
        &mut self,
        alloc: Global,
        key: &mut HashKey<'_>,
        name: CowStr<'t>,
        id: usize,
    ) -> Result<Option<usize>, AllocError>
        ensures found { IfOk result (λ to. to ≡ lookup (bytes_eq (cow_str_bytes name.entry)) self.old) }
        ensures known { IfOk result (λ to. IfSome to (λ there. self.new ≡ self.old)) }
        ensures inserted { IfOk result (λ to. IfNone to (self.new ≡ self.old ++ (cow_str_bytes name.entry, id) ∷ [])) }
        ensures unchanged { OnErr result (self.new ≡ self.old) }
    {
        if let Some(led) = find(&self.few, name.as_str()) {
            return Ok(Some(led));
        }
        if let Some(rest) = &mut self.rest {
            return find_or_insert_behind(rest, name, id);
        }
        if self.few.len() < FEW {
            push_few(&mut self.few, name, id)?;
        } else {
            self.rest = Some(one_behind(alloc, key.hashing(), name, id)?);
        }
        Ok(None)
    }

    /// Drops the last name, if there is one.
    pub(crate) fn drop_last(&mut self)
        ensures { self.new ≡ take (length self.old - 1) self.old }
    {
        if drop_last_behind(&mut self.rest) {
            return;
        }
        let len = self.few.len();
        self.few.truncate(len.saturating_sub(1));
    }
}

/// The last byte of a name, if it has one.
fn last_byte(name: &str) -> Option<u8>
    ensures { result ≡ slice_get name.now (length name.now - 1) }
{
    name.as_bytes().last().copied()
}

/// Whether two names are one. Names of a table are often alike but for their ends, so these are looked at first.
fn is_same_name(one: &str, other: &str) -> bool
    ensures { result ≡ bytes_eq one.now other.now }
{
    last_byte(one) == last_byte(other) && one == other
}

/// Where a name leads among a few, each looked at in turn.
fn find(few: &[(CowStr<'_>, usize)], name: &str) -> Option<usize>
    ensures { result ≡ lookup (bytes_eq name.now) (children_of few.now) }
{
    for (known, id) in few {
        if is_same_name(name, known.as_str()) {
            return Some(*id);
        }
    }
    None
}

/// Puts a name behind a few. The first takes room for itself alone: a great many small tables have one name.
fn push_few<'t>(
    few: &mut Vec<(CowStr<'t>, usize)>,
    name: CowStr<'t>,
    id: usize,
) -> Result<(), AllocError>
    ensures pushed { OnOk result (few.new.items ≡ few.old.items ++ (name.entry, id) ∷ []) }
    ensures unchanged { OnErr result (few.new.items ≡ few.old.items) }
{
    if few.is_empty() {
        few.reserve_exact(1)?;
    }
    few.push((name, id))?;
    Ok(())
}

/// A hash map with one name in it.
fn one_behind<'t>(
    alloc: Global,
    hashing: NameHashing,
    name: CowStr<'t>,
    id: usize,
) -> Result<Box<IndexMap<CowStr<'t>, usize, NameHashing>>, AllocError>
    ensures { IfOk result (λ names. names.value.entries ≡ (name.entry, id) ∷ []) }
{
    let mut names = IndexMap::with_hasher(alloc, hashing);
    names.insert(name, id)?;
    Ok(Box::new(alloc, names)?)
}

/// The node that a name leads to; a name that leads nowhere goes last, with `id`.
fn find_or_insert_behind<'t>(
    names: &mut IndexMap<CowStr<'t>, usize, NameHashing>,
    name: CowStr<'t>,
    id: usize,
) -> Result<Option<usize>, AllocError>
    ensures found { IfOk result (λ to. to ≡ lookup (bytes_eq (cow_str_bytes name.entry)) (children_of names.old.entries)) }
    ensures known { IfOk result (λ to. IfSome to (λ there. names.new.entries ≡ names.old.entries)) }
    ensures inserted { IfOk result (λ to. IfNone to (names.new.entries ≡ names.old.entries ++ (name.entry, id) ∷ [])) }
    ensures unchanged { OnErr result (names.new.entries ≡ names.old.entries) }
{
    let before = names.len();
    let led = insert_behind(names, name, id)?;
    if names.len() == before {
        Ok(Some(led))
    } else {
        Ok(None)
    }
}

/// Puts a new name last, with `id`, and gives its node; a name that is there keeps the node that it has.
fn insert_behind<'t>(
    names: &mut IndexMap<CowStr<'t>, usize, NameHashing>,
    name: CowStr<'t>,
    id: usize,
) -> Result<usize, AllocError>
    ensures found { IfOk result (λ to. to ≡ unwrap_or (get same_name names.old name.entry) id) }
    ensures entries { IfOk result (λ to. names.new.entries ≡ insert_entry same_name names.old.entries name.entry to) }
    ensures unchanged { OnErr result (names.new.entries ≡ names.old.entries) }
{
    Ok(*names.entry(name)?.or_insert(id))
}

/// Drops the last name, if there is one, and tells whether there was.
fn drop_last_behind(rest: &mut Option<Box<IndexMap<CowStr<'_>, usize, NameHashing>>>) -> bool
    ensures some { IsTrue result ↔ (0 < length (children_behind rest.old)) }
    ensures front { children_behind rest.new ≡ take (length (children_behind rest.old) - 1) (children_behind rest.old) }
{
    let Some(names) = rest else {
        return false;
    };
    let len = names.len();
    names.truncate(len.saturating_sub(1));
    0 < len
}
