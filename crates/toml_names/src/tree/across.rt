//! The names and elements of a node, and those of a node of another tree that it is compared with.
ghost use Rattle.std.specs.Prelude.{◌≡◌, ◌↔◌, ◌<◌, Some, IsSome, IsTrue, IfOk, vec_len};
ghost use Rattle.toml_names.specs.declared.model.address.Step.TheVariants.{Name, Index};
ghost use Rattle.toml_names.specs.model.AddressSets.{below};
ghost use Rattle.toml_names.specs.tree.EnteringLines.{IsWithin};
ghost use Rattle.toml_names.specs.tree.HeldBeside.{HasMembers, HasNamesOf, HasOrShows, ShowsBehind};
ghost use Rattle.toml_names.specs.tree.NameTree.{IsTree};
ghost use Rattle.toml_names.specs.tree.SameBelow.{SameAtName, child_of, step_in};

use crate::model::address_set::AddressSet;
use crate::model::datum::Datum;
use crate::tree::name_tree::NameTree;
use std::alloc::AllocError;

impl<'t> NameTree<'t> {
    /// The node of a name of a node, if there are both.
    pub(crate) fn child_in(&self, id: Option<usize>, name: &str) -> Option<usize>
        requires within { IsWithin id self.now.nodes.items }
        requires tree { IsTree self.now.nodes.items }
        ensures child { result ≡ step_in self.now.nodes.items id (Name name.now) }
        ensures within { IsWithin result self.now.nodes.items }
    {
        match id {
            Some(id) => self.nodes[id].child(name),
            None => None,
        }
    }

    /// The node of an element of a node, if there are both.
    pub(crate) fn element_in(&self, id: Option<usize>, index: usize) -> Option<usize>
        requires within { IsWithin id self.now.nodes.items }
        requires tree { IsTree self.now.nodes.items }
        ensures element { result ≡ step_in self.now.nodes.items id (Index index) }
        ensures within { IsWithin result self.now.nodes.items }
    {
        match id {
            Some(id) => self.nodes[id].elements().get(index).copied(),
            None => None,
        }
    }

    /// Whether the set hides nothing of what stands at the elements of a node from this index on.
    pub(crate) fn shows_behind(&self, id: Option<usize>, from: usize, set: &AddressSet) -> bool
        requires within { IsWithin id self.now.nodes.items }
        requires tree { IsTree self.now.nodes.items }
        ensures { IsTrue result ↔ ShowsBehind self.now.nodes.items id from set.now }
    {
        match id {
            Some(id) => self.are_elements_shown(id, from, set),
            None => true,
        }
    }

    /// Whether each member whose name the set has is a name of the node.
    pub(crate) fn has_members(&self, id: usize, set: &AddressSet, datum: &Datum) -> bool
        requires within { id < vec_len self.now.nodes }
        requires tree { IsTree self.now.nodes.items }
        ensures { IsTrue result ↔ HasMembers self.now.nodes.items id set.now datum.now }
    {
        let Datum::Table(members) = datum else {
            return true;
        };
        for (name, _) in members {
            if !self.has_or_lacks(id, name.as_str(), set) {
                return false;
            }
        }
        true
    }

    /// Whether the node has the name, unless the set lacks it.
    fn has_or_lacks(&self, id: usize, name: &str, set: &AddressSet) -> bool
        requires within { id < vec_len self.now.nodes }
        requires tree { IsTree self.now.nodes.items }
        ensures { IsTrue result ↔ (IsSome (below set.now (Name name.now)) → IsSome (child_of self.now.nodes.items id name.now)) }
    {
        if set.below_name(name).is_none() {
            return true;
        }
        self.nodes[id].child(name).is_some()
    }

    /// Whether the node has each name of the other node at which the set hides anything.
    pub(crate) fn has_names_of(
        &self,
        id: usize,
        other: &NameTree<'_>,
        there: Option<usize>,
        set: &AddressSet,
    ) -> bool
        requires within { id < vec_len self.now.nodes }
        requires tree { IsTree self.now.nodes.items }
        requires other_within { IsWithin there other.now.nodes.items }
        requires other_tree { IsTree other.now.nodes.items }
        ensures { IsTrue result ↔ HasNamesOf self.now.nodes.items id other.now.nodes.items there set.now }
    {
        let Some(there) = there else {
            return true;
        };
        let Some(names) = other.nodes[there].names() else {
            return true;
        };
        let mut guess = 0;
        for place in 0..names.len() {
            if let Some((name, across)) = names.nth(place) {
                if !self.has_or_shows(id, name, &mut guess, other, across, set) {
                    return false;
                }
            }
        }
        true
    }

    /// Whether the node has the name, or the set hides nothing of what stands there in the other tree. A name that the set
    /// lacks is looked for as in `same_beside`.
    fn has_or_shows(
        &self,
        id: usize,
        name: &str,
        guess: &mut usize,
        other: &NameTree<'_>,
        across: usize,
        set: &AddressSet,
    ) -> bool
        requires within { id < vec_len self.now.nodes }
        requires tree { IsTree self.now.nodes.items }
        requires other_within { across < vec_len other.now.nodes }
        requires other_tree { IsTree other.now.nodes.items }
        ensures { IsTrue result ↔ HasOrShows self.now.nodes.items id other.now.nodes.items (Some across) set.now name.now }
    {
        let Some(part) = set.below_name(name) else {
            let place = self.place_beside(id, set, *guess);
            *guess = place.saturating_add(1);
            return self.nodes[id].child_from(place, name).is_some();
        };
        if self.nodes[id].child(name).is_some() {
            return true;
        }
        other.is_shown(across, part)
    }

    /// Whether at the node of a name that the set lacks the same stands as at that name of the other node, if there is one.
    /// There the name is looked for first at the guessed place, or the next one with a name that the set lacks; the next
    /// guess is the place behind it.
    pub(crate) fn same_beside(
        &self,
        id: usize,
        name: &str,
        guess: &mut usize,
        other: &NameTree<'_>,
        there: Option<usize>,
        set: &AddressSet,
    ) -> Result<bool, AllocError>
        requires within { id < vec_len self.now.nodes }
        requires tree { IsTree self.now.nodes.items }
        requires other_within { IsWithin there other.now.nodes.items }
        requires other_tree { IsTree other.now.nodes.items }
        ensures { IfOk result (λ b. IsTrue b ↔ SameAtName self.now.nodes.items id other.now.nodes.items there name.now) }
    {
        let Some(there) = there else {
            return Ok(false);
        };
        let place = other.place_beside(there, set, *guess);
        *guess = place.saturating_add(1);
        self.same_at(id, other, there, place, name)
    }

    /// The first place from this one on where the node has a name that the set lacks. Names beside the set mostly stand in
    /// one order in both trees, so a name is guessed to stand there; no answer depends on it.
    fn place_beside(&self, id: usize, set: &AddressSet, from: usize) -> usize
        requires within { id < vec_len self.now.nodes }
    {
        let Some(names) = self.nodes[id].names() else {
            return from;
        };
        for place in from..names.len() {
            if let Some((name, _)) = names.nth(place) {
                if set.below_name(name).is_none() {
                    return place;
                }
            }
        }
        from
    }
}
