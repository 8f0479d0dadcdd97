//! The data at a node and below it, of all that a set of addresses does not hide.
ghost use Rattle.std.specs.Prelude.{◌≡◌, ◌<◌, IfOk, Some, false, slice_index_or, vec_len};
ghost use Rattle.toml_names.specs.declared.model.address.Step.TheVariants.{Index};
ghost use Rattle.toml_names.specs.mentions.Mentions.{a_table, an_array};
ghost use Rattle.toml_names.specs.model.AddressSets.{below, is_whole};
ghost use Rattle.toml_names.specs.model.Building.{IsOnly};
ghost use Rattle.toml_names.specs.tree.Finished.{IsOfKind};
ghost use Rattle.toml_names.specs.tree.Near.{IsNearDatum, IsNearIn, IsSound};
ghost use Rattle.toml_names.specs.tree.Nodes.{nowhere};

use crate::mentions::mention::Kind;
use crate::model::address_set::AddressSet;
use crate::model::datum::{Datum, add_member};
use crate::tree::name_tree::NameTree;
use crate::tree::results::scalar_datum;
use std::alloc::AllocError;
use std::collections::BTreeMap;

impl<'t> NameTree<'t> {
    /// The data at a node and below it, of all that the set does not hide.
    #[cycle(near)]
    pub(crate) fn datum_near(&self, id: usize, set: &AddressSet) -> Result<Datum, AllocError>
        requires within { id < vec_len self.now.nodes }
        requires sound { IsSound self.now.nodes.items }
        ensures { IfOk result (IsNearDatum self.now.nodes.items id set.now) }
    {
        if set.is_whole() {
            return self.datum(id);
        }
        match self.nodes[id].kind() {
            Kind::Table => self.table_near(id, set),
            Kind::Array => self.array_near(id, set),
            Kind::Scalar(kind, token) => scalar_datum(self.alloc, kind, token),
        }
    }

    /// The data at the node of a table: of its names those that the set has.
    #[cycle(near)]
    fn table_near(&self, id: usize, set: &AddressSet) -> Result<Datum, AllocError>
        requires within { id < vec_len self.now.nodes }
        requires sound { IsSound self.now.nodes.items }
        requires table { IsOfKind self.now.nodes.items id a_table }
        requires part { is_whole set.now ≡ false }
        ensures { IfOk result (IsNearDatum self.now.nodes.items id set.now) }
    {
        let mut members = BTreeMap::new(self.alloc);
        for (name, part) in set.names() {
            if let Some(below) = self.nodes[id].child(name.as_str()) {
                let member = self.datum_near(below, part)?;
                add_member(self.alloc, &mut members, name.as_str(), member)?;
            }
        }
        Ok(Datum::Table(members))
    }

    /// The data at the node of an array: of each element what the set does not hide.
    #[cycle(near)]
    fn array_near(&self, id: usize, set: &AddressSet) -> Result<Datum, AllocError>
        requires within { id < vec_len self.now.nodes }
        requires sound { IsSound self.now.nodes.items }
        requires array { IsOfKind self.now.nodes.items id an_array }
        requires part { is_whole set.now ≡ false }
        ensures { IfOk result (IsNearDatum self.now.nodes.items id set.now) }
    {
        let elements = self.nodes[id].elements();
        let mut items = Vec::with_capacity(self.alloc, elements.len())?;
        for index in 0..elements.len() {
            items.push(self.element_near(elements[index], index, set)?)?;
        }
        Ok(Datum::Array(items))
    }

    /// The data at the node of an element of an array, which stands at the index. Where the set has nothing there, it stands
    /// alone.
    #[cycle(near)]
    fn element_near(&self, id: usize, index: usize, set: &AddressSet) -> Result<Datum, AllocError>
        requires within { id < vec_len self.now.nodes }
        requires sound { IsSound self.now.nodes.items }
        ensures { IfOk result (λ d. IsNearIn self.now.nodes.items (Index index) (below set.now (Index index)) (Some id) (Some d)) }
    {
        match set.below_index(index as u64) {
            Some(part) => self.datum_near(id, part),
            None => self.lone(id),
        }
    }

    /// What stands at a node, with nothing below it.
    fn lone(&self, id: usize) -> Result<Datum, AllocError>
        requires within { id < vec_len self.now.nodes }
        ensures { IfOk result (IsOnly (slice_index_or self.now.nodes.items id nowhere).kind) }
    {
        match self.nodes[id].kind() {
            Kind::Table => Ok(Datum::Table(BTreeMap::new(self.alloc))),
            Kind::Array => Ok(Datum::Array(Vec::new(self.alloc))),
            Kind::Scalar(kind, token) => scalar_datum(self.alloc, kind, token),
        }
    }
}
