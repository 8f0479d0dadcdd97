//! Whether a tree of names is another one where a set of addresses hides it, and elsewhere has what data tell.
ghost use Rattle.std.specs.Prelude.{◌≡◌, ◌↔◌, ◌<◌, [], Some, IsTrue, IfOk, slice_index_or, vec_len};
ghost use Rattle.toml_names.specs.declared.model.address.Step.TheVariants.{Index};
ghost use Rattle.toml_names.specs.model.Data.{kind_at};
ghost use Rattle.toml_names.specs.tree.EnteringLines.{IsWithin};
ghost use Rattle.toml_names.specs.tree.HeldBeside.{HoldElements, HoldNames, HoldsAlone, HoldsBeside, HoldsName, IsHeldAtStep};
ghost use Rattle.toml_names.specs.tree.NameTree.{IsTree};
ghost use Rattle.toml_names.specs.tree.Nodes.{nowhere};

use crate::mentions::mention::Kind;
use crate::model::address_set::AddressSet;
use crate::model::datum::Datum;
use crate::tree::holding::is_value;
use crate::tree::name_tree::NameTree;
use std::alloc::AllocError;

impl<'t> NameTree<'t> {
    /// Whether at a node and below it stands what the datum has, and where the set hides it what the other tree has at its
    /// node, if there is one.
    #[cycle(beside)]
    pub(crate) fn holds_beside(
        &self,
        id: usize,
        other: &NameTree<'_>,
        there: Option<usize>,
        set: &AddressSet,
        datum: &Datum,
    ) -> Result<bool, AllocError>
        requires within { id < vec_len self.now.nodes }
        requires tree { IsTree self.now.nodes.items }
        requires other_within { IsWithin there other.now.nodes.items }
        requires other_tree { IsTree other.now.nodes.items }
        ensures { IfOk result (λ b. IsTrue b ↔ HoldsBeside self.now.nodes.items id other.now.nodes.items there set.now datum.now) }
    {
        if set.is_whole() {
            return self.holds(id, datum);
        }
        if !self.is_of_kind(id, datum)? {
            return Ok(false);
        }
        if !self.has_members(id, set, datum) {
            return Ok(false);
        }
        if !self.has_names_of(id, other, there, set) {
            return Ok(false);
        }
        if !self.hold_names(id, other, there, set, datum)? {
            return Ok(false);
        }
        self.hold_elements(id, other, there, set, datum.items())
    }

    /// Whether a node is of the datum's kind, and a scalar of its value.
    fn is_of_kind(&self, id: usize, datum: &Datum) -> Result<bool, AllocError>
        requires within { id < vec_len self.now.nodes }
        ensures { IfOk result (λ b. IsTrue b ↔ (kind_at datum.now [] ≡ Some (slice_index_or self.now.nodes.items id nowhere).kind)) }
    {
        match (self.nodes[id].kind(), datum) {
            (Kind::Table, Datum::Table(_)) => Ok(true),
            (Kind::Array, Datum::Array(_)) => Ok(true),
            (Kind::Scalar(kind, token), Datum::Scalar(scalar)) => {
                is_value(self.alloc, kind, token, scalar)
            }
            _ => Ok(false),
        }
    }

    /// Whether at each name of a node stands what is wanted there.
    #[cycle(beside)]
    fn hold_names(
        &self,
        id: usize,
        other: &NameTree<'_>,
        there: Option<usize>,
        set: &AddressSet,
        datum: &Datum,
    ) -> Result<bool, AllocError>
        requires within { id < vec_len self.now.nodes }
        requires tree { IsTree self.now.nodes.items }
        requires other_within { IsWithin there other.now.nodes.items }
        requires other_tree { IsTree other.now.nodes.items }
        ensures { IfOk result (λ b. IsTrue b ↔ HoldNames self.now.nodes.items id other.now.nodes.items there set.now datum.now) }
    {
        let Some(names) = self.nodes[id].names() else {
            return Ok(true);
        };
        let mut guess = 0;
        for place in 0..names.len() {
            if let Some((name, below)) = names.nth(place) {
                if !self.holds_name(below, name, &mut guess, other, there, set, datum)? {
                    return Ok(false);
                }
            }
        }
        Ok(true)
    }

    /// Whether at the node of a name stands what is wanted there.
    #[cycle(beside)]
    fn holds_name(
        &self,
        id: usize,
        name: &str,
        guess: &mut usize,
        other: &NameTree<'_>,
        there: Option<usize>,
        set: &AddressSet,
        datum: &Datum,
    ) -> Result<bool, AllocError>
        requires within { id < vec_len self.now.nodes }
        requires tree { IsTree self.now.nodes.items }
        requires other_within { IsWithin there other.now.nodes.items }
        requires other_tree { IsTree other.now.nodes.items }
        ensures { IfOk result (λ b. IsTrue b ↔ HoldsName self.now.nodes.items id other.now.nodes.items there set.now datum.now name.now) }
    {
        let Some(part) = set.below_name(name) else {
            return self.same_beside(id, name, guess, other, there, set);
        };
        match datum.member(name) {
            Some(member) => {
                self.holds_beside(id, other, other.child_in(there, name), part, member)
            }
            None => Ok(false),
        }
    }

    /// Whether at each index stands what is wanted there: what the items and the elements of the other node make of it.
    #[cycle(beside)]
    fn hold_elements(
        &self,
        id: usize,
        other: &NameTree<'_>,
        there: Option<usize>,
        set: &AddressSet,
        items: &[Datum],
    ) -> Result<bool, AllocError>
        requires within { id < vec_len self.now.nodes }
        requires tree { IsTree self.now.nodes.items }
        requires other_within { IsWithin there other.now.nodes.items }
        requires other_tree { IsTree other.now.nodes.items }
        ensures { IfOk result (λ b. IsTrue b ↔ HoldElements self.now.nodes.items id other.now.nodes.items there set.now items.now) }
    {
        let elements = self.nodes[id].elements();
        if elements.len() != items.len() {
            return Ok(false);
        }
        for index in 0..elements.len() {
            let across = other.element_in(there, index);
            if !self.holds_element(elements[index], index, other, across, set, &items[index])? {
                return Ok(false);
            }
        }
        Ok(other.shows_behind(there, elements.len(), set))
    }

    /// Whether at the node of an element stands what is wanted there: below one that the set lacks the same as below the
    /// other's.
    #[cycle(beside)]
    fn holds_element(
        &self,
        id: usize,
        index: usize,
        other: &NameTree<'_>,
        there: Option<usize>,
        set: &AddressSet,
        item: &Datum,
    ) -> Result<bool, AllocError>
        requires within { id < vec_len self.now.nodes }
        requires tree { IsTree self.now.nodes.items }
        requires other_within { IsWithin there other.now.nodes.items }
        requires other_tree { IsTree other.now.nodes.items }
        ensures { let nodes = self.now.nodes.items in
            let others = other.now.nodes.items in
            IfOk result (λ b. IsTrue b ↔ IsHeldAtStep nodes (Some id) others there set.now (Index index) (kind_at item.now)) }
    {
        match set.below_index(index as u64) {
            Some(part) => self.holds_beside(id, other, there, part, item),
            None => self.holds_alone(id, other, there, item),
        }
    }

    /// Whether a node is of the datum's kind, and the same stands below it as below the other node.
    fn holds_alone(
        &self,
        id: usize,
        other: &NameTree<'_>,
        there: Option<usize>,
        datum: &Datum,
    ) -> Result<bool, AllocError>
        requires within { id < vec_len self.now.nodes }
        requires tree { IsTree self.now.nodes.items }
        requires other_within { IsWithin there other.now.nodes.items }
        requires other_tree { IsTree other.now.nodes.items }
        ensures { IfOk result (λ b. IsTrue b ↔ HoldsAlone self.now.nodes.items id other.now.nodes.items there datum.now) }
    {
        if !self.is_of_kind(id, datum)? {
            return Ok(false);
        }
        let Some(there) = there else {
            return Ok(self.nodes[id].is_leaf());
        };
        if !self.same_names(id, other, there)? {
            return Ok(false);
        }
        self.same_elements(id, other, there)
    }
}
