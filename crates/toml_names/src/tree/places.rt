//! Where the things of the data stand in the text, by the finished tree of names.
ghost use Rattle.std.specs.Prelude.{◌≡◌, ◌∷◌, ◌++◌, ◌<◌, [], slice_index_or, vec_len};
ghost use Rattle.toml_names.specs.tree.NameTree.{IsTree};
ghost use Rattle.toml_names.specs.tree.Nodes.{Spot, address_at, addresses, place_of};
ghost use Rattle.toml_names.specs.tree.Placing.{IsPlaceOf, IsWalked, first_of, own_place, value_line};

use crate::mentions::mention::Role;
use crate::model::address::{Address, Step};
use crate::model::place::Place;
use crate::tree::name_tree::NameTree;

impl<'t> NameTree<'t> {
    /// Where what stands at the address stands in the text; none where nothing is named there.
    pub(crate) fn place(&self, at: &Address) -> Option<Place>
        requires tree { IsTree self.now.nodes.items }
        ensures { IsPlaceOf self.now.nodes.items at.now result }
    {
        if at.steps().is_empty() {
            return Some(Place::Root);
        }
        let (here, value) = self.walk(at.steps())?;
        match value {
            Some(line) => Some(Place::Inside(line)),
            None => self.own_place(here),
        }
    }

    /// The node that the steps lead to from the root, and the line of the first value above it.
    fn walk(&self, steps: &[Step]) -> Option<(usize, Option<usize>)>
        requires tree { IsTree self.now.nodes.items }
        ensures { IsWalked self.now.nodes.items steps.now result }
    {
        let mut here = 0;
        let mut value = None;
        for step in steps {
            value = self.value_line(here, value);
            here = self.below(here, step)?;
        }
        Some((here, value))
    }

    /// The node one step below a node.
    fn below(&self, id: usize, step: &Step) -> Option<usize>
        requires within { id < vec_len self.now.nodes }
        requires tree { IsTree self.now.nodes.items }
        ensures { result ≡ place_of (address_at self.now.nodes.items id ++ step.now ∷ []) (addresses self.now.nodes.items) }
    {
        let node = &self.nodes[id];
        match step {
            Step::Name(name) => node.child(name.as_str()),
            Step::Index(index) => node.elements().get(*index as usize).copied(),
        }
    }

    /// The line of the value above, or else that of the node if it is one.
    fn value_line(&self, id: usize, above: Option<usize>) -> Option<usize>
        requires within { id < vec_len self.now.nodes }
        ensures { (d : Spot) → result ≡ first_of above (value_line (slice_index_or self.now.nodes.items id d)) }
    {
        if above.is_some() {
            return above;
        }
        match self.nodes[id].role() {
            Role::Valued => Some(self.nodes[id].line()),
            _ => None,
        }
    }

    /// The place of what stands at a node and in no value, by its mark.
    fn own_place(&self, id: usize) -> Option<Place>
        requires within { id < vec_len self.now.nodes }
        ensures { (d : Spot) → result ≡ own_place (slice_index_or self.now.nodes.items id d) }
    {
        let line = self.nodes[id].line();
        match self.nodes[id].role() {
            Role::Valued => Some(Place::KeyVal(line)),
            Role::Header | Role::Element => Some(Place::Header(line)),
            Role::Dotted => Some(Place::Dotted(line)),
            Role::Tables => Some(Place::Tables(line)),
            Role::Passed => Some(Place::Implicit(line)),
            Role::Bare => None,
        }
    }
}
