//! The finished tree of names, part by part: what stands at a node, and the nodes right below it. No data are built, so
//! that who writes them out holds one scalar's value at a time, and the names of one table for each level.
ghost use Rattle.std.specs.Prelude.{◌≡◌, ◌<◌, [], IfOk, IsPermutation, OnOk, Some, vec_len};
ghost use Rattle.std.specs.Cmp.Lexicographic.{slice_cmp};
ghost use Rattle.std.specs.List.Sorted.{IsStrictlySortedBy};
ghost use Rattle.std.specs.Map.{keys_of};
ghost use Rattle.std.specs.Ordering.{nat_cmp};
ghost use Rattle.toml_names.specs.reader.Parts.{AreItems, AreMembers, part_kinds, plain_members, shape_kind};
ghost use Rattle.toml_names.specs.tree.NameMaps.{AreDistinct};
ghost use Rattle.toml_names.specs.tree.NameTree.{IsTree};

use crate::meaning::scalars::value_spelled;
use crate::mentions::mention::Kind;
use crate::tree::name_map::NameMap;
use crate::tree::name_tree::NameTree;
use std::alloc::{AllocError, Global};
use toml_scalar::Scalar;

/// What stands at a part of the data: a table, an array, or a scalar and its value.
#[derive(Drop)]
pub enum Shape {
    Table,
    Array,
    Scalar(Scalar),
}

impl<'t> NameTree<'t> {
    /// What stands at a node. The value of a scalar is made here.
    pub(crate) fn shape(&self, id: usize) -> Result<Shape, AllocError>
        requires within { id < vec_len self.now.nodes }
        requires tree { IsTree self.now.nodes.items }
        ensures { IfOk result (λ shape. part_kinds self.now.nodes.items id [] ≡ Some (shape_kind shape)) }
    {
        match self.nodes[id].kind() {
            Kind::Table => Ok(Shape::Table),
            Kind::Array => Ok(Shape::Array),
            Kind::Scalar(kind, token) => {
                Ok(Shape::Scalar(value_spelled(self.alloc, kind, token)?))
            },
        }
    }

    /// The nodes of the elements of a node.
    pub(crate) fn items(&self, id: usize) -> &[usize]
        requires within { id < vec_len self.now.nodes }
        requires tree { IsTree self.now.nodes.items }
        ensures { AreItems self.now.nodes.items id result.now }
    {
        self.nodes[id].elements()
    }

    /// The names in a node and their nodes, in the order of the names' bytes.
    pub(crate) fn members(&self, id: usize) -> Result<Vec<(&str, usize)>, AllocError>
        requires within { id < vec_len self.now.nodes }
        requires tree { IsTree self.now.nodes.items }
        ensures { IfOk result (λ members. AreMembers self.now.nodes.items id (plain_members members.items)) }
    {
        match self.nodes[id].names() {
            Some(names) => in_order(self.alloc, names),
            None => Ok(Vec::new(self.alloc)),
        }
    }
}

/// The names and their nodes, in the order of the names' bytes. Names that ascend already are looked through once.
fn in_order<'m>(alloc: Global, names: &'m NameMap<'_>) -> Result<Vec<(&'m str, usize)>, AllocError>
    ensures same { IfOk result (λ members. IsPermutation names.now (plain_members members.items)) }
    ensures distinct { OnOk result (AreDistinct names.now) }
    ensures ascending { IfOk result (λ members. IsStrictlySortedBy (slice_cmp nat_cmp) (keys_of (plain_members members.items))) }
{
    let mut members = pairs(alloc, names)?;
    members.sort_unstable();
    Ok(members)
}

/// The names and their nodes, in the order of their first mentions.
fn pairs<'m>(alloc: Global, names: &'m NameMap<'_>) -> Result<Vec<(&'m str, usize)>, AllocError>
    ensures same { IfOk result (λ members. plain_members members.items ≡ names.now) }
    ensures distinct { OnOk result (AreDistinct names.now) }
{
    let mut members = Vec::with_capacity(alloc, names.len())?;
    for place in 0..names.len() {
        if let Some(pair) = names.nth(place) {
            members.push(pair)?;
        }
    }
    Ok(members)
}
