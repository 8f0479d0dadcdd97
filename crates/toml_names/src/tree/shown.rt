//! Whether a set of addresses hides nothing of what stands at a node and below it.
ghost use Rattle.std.specs.Prelude.{◌↔◌, ◌<◌, IsTrue, Some, vec_len};
ghost use Rattle.toml_names.specs.declared.model.address.Step.TheVariants.{Name, Index};
ghost use Rattle.toml_names.specs.model.AddressSets.{below};
ghost use Rattle.toml_names.specs.tree.NameTree.{IsTree};
ghost use Rattle.toml_names.specs.tree.Shown.{AreElementsShown, AreNamesShown, IsShown, IsShownIn};

use crate::model::address_set::AddressSet;
use crate::tree::name_tree::NameTree;

impl<'t> NameTree<'t> {
    /// Whether the set hides nothing of what stands at a node and below it.
    #[cycle(shown)]
    pub(crate) fn is_shown(&self, id: usize, set: &AddressSet) -> bool
        requires within { id < vec_len self.now.nodes }
        requires tree { IsTree self.now.nodes.items }
        ensures { IsTrue result ↔ IsShown self.now.nodes.items id set.now }
    {
        if set.is_whole() {
            return true;
        }
        if !self.are_names_shown(id, set) {
            return false;
        }
        self.are_elements_shown(id, 0, set)
    }

    /// Whether the set hides nothing of what stands at the names of a node and below them.
    #[cycle(shown)]
    fn are_names_shown(&self, id: usize, set: &AddressSet) -> bool
        requires within { id < vec_len self.now.nodes }
        requires tree { IsTree self.now.nodes.items }
        ensures { IsTrue result ↔ AreNamesShown self.now.nodes.items id set.now }
    {
        let Some(names) = self.nodes[id].names() else {
            return true;
        };
        for place in 0..names.len() {
            if let Some((name, below)) = names.nth(place) {
                if !self.is_name_shown(below, name, set) {
                    return false;
                }
            }
        }
        true
    }

    /// Whether the set hides nothing at the node of a name. It is hidden where the set lacks the name.
    #[cycle(shown)]
    fn is_name_shown(&self, id: usize, name: &str, set: &AddressSet) -> bool
        requires within { id < vec_len self.now.nodes }
        requires tree { IsTree self.now.nodes.items }
        ensures { IsTrue result ↔ IsShownIn self.now.nodes.items (Some id) (Name name.now) (below set.now (Name name.now)) }
    {
        match set.below_name(name) {
            Some(part) => self.is_shown(id, part),
            None => false,
        }
    }

    /// Whether the set hides nothing of what stands at the elements of a node from this index on, and below them.
    #[cycle(shown)]
    pub(crate) fn are_elements_shown(&self, id: usize, from: usize, set: &AddressSet) -> bool
        requires within { id < vec_len self.now.nodes }
        requires tree { IsTree self.now.nodes.items }
        ensures { IsTrue result ↔ AreElementsShown self.now.nodes.items id from set.now }
    {
        let elements = self.nodes[id].elements();
        for index in from..elements.len() {
            if !self.is_element_shown(elements[index], index, set) {
                return false;
            }
        }
        true
    }

    /// Whether the set hides nothing at the node of an element. Below it all is hidden where the set lacks its index.
    #[cycle(shown)]
    fn is_element_shown(&self, id: usize, index: usize, set: &AddressSet) -> bool
        requires within { id < vec_len self.now.nodes }
        requires tree { IsTree self.now.nodes.items }
        ensures { IsTrue result ↔ IsShownIn self.now.nodes.items (Some id) (Index index) (below set.now (Index index)) }
    {
        match set.below_index(index as u64) {
            Some(part) => self.is_shown(id, part),
            None => self.nodes[id].is_leaf(),
        }
    }
}
