//! The addresses of the nodes of a tree of names.
ghost use Rattle.std.specs.Prelude.{◌≡◌, ◌<◌, OnOk, IfOk, slice_index_or, vec_len, []};
ghost use Rattle.toml_names.specs.tree.NameTree.{IsTree};
ghost use Rattle.toml_names.specs.tree.Nodes.{Spot, AreSteps, BeginsAt, address_at, last_step};

use crate::meaning::keys::{own_name, spelled_name};
use crate::model::address::{Address, Step};
use crate::tree::name_tree::NameTree;
use crate::tree::node::Under;
use std::alloc::AllocError;

impl<'t> NameTree<'t> {
    /// The address of a node.
    pub(crate) fn address(&self, id: usize) -> Result<Address, AllocError>
        requires within { id < vec_len self.now.nodes }
        requires tree { IsTree self.now.nodes.items }
        ensures { IfOk result (λ a. a ≡ address_at self.now.nodes.items id) }
    {
        self.address_by(&[], id)
    }

    /// Makes an address that of a node, in its own memory. Where memory lacks, nothing is said of it any more.
    pub(crate) fn set_to_node(&self, here: &mut Address, id: usize) -> Result<(), AllocError>
        requires within { id < vec_len self.now.nodes }
        requires tree { IsTree self.now.nodes.items }
        ensures { OnOk result (here.new ≡ address_at self.now.nodes.items id) }
    {
        self.set_fronts(here, id)?;
        here.truncate(self.nodes[id].depth());
        Ok(())
    }

    /// Makes the first steps of an address those of a node. Of those behind them nothing is said.
    #[cycle(way)]
    fn set_fronts(&self, here: &mut Address, id: usize) -> Result<(), AllocError>
        requires within { id < vec_len self.now.nodes }
        requires tree { IsTree self.now.nodes.items }
        ensures { OnOk result (BeginsAt self.now.nodes.items id here.new) }
    {
        match self.nodes[id].under() {
            Under::Root => Ok(()),
            Under::Name(above, text) => {
                self.set_fronts(here, above)?;
                let name = spelled_name(self.alloc, text)?;
                here.put_name(self.alloc, self.nodes[above].depth(), name.as_str())
            }
            Under::Index(above, index) => {
                self.set_fronts(here, above)?;
                here.put_index(self.nodes[above].depth(), index)
            }
        }
    }

    /// The address of a node, of which these steps are the last ones of the first nodes: it shares the texts of their
    /// long names.
    pub(crate) fn address_by(&self, steps: &[Step], id: usize) -> Result<Address, AllocError>
        requires within { id < vec_len self.now.nodes }
        requires tree { IsTree self.now.nodes.items }
        requires steps { AreSteps self.now.nodes.items steps.now }
        ensures { IfOk result (λ a. a ≡ address_at self.now.nodes.items id) }
    {
        let room = Vec::with_capacity(self.alloc, self.nodes[id].depth())?;
        self.climb(steps, room, id)
    }

    /// The address of a node, its steps written into this list, which is empty.
    fn climb(&self, steps: &[Step], room: Vec<Step>, id: usize) -> Result<Address, AllocError>
        requires within { id < vec_len self.now.nodes }
        requires tree { IsTree self.now.nodes.items }
        requires steps { AreSteps self.now.nodes.items steps.now }
        requires empty { room.items ≡ [] }
        ensures { IfOk result (λ a. a ≡ address_at self.now.nodes.items id) }
    {
        let mut way = room;
        let mut here = id;
        while let Some((above, step)) = self.above(steps, here)? {
            way.push(step)?;
            here = above;
        }
        way.reverse();
        Ok(Address::of(way))
    }

    /// The node above a node, and the step from there; none for the root.
    fn above(&self, steps: &[Step], id: usize) -> Result<Option<(usize, Step)>, AllocError>
        requires within { id < vec_len self.now.nodes }
        requires steps { AreSteps self.now.nodes.items steps.now }
        ensures { IfOk result (λ above. (d : Spot) → above ≡ (slice_index_or self.now.nodes.items id d).under) }
    {
        match self.nodes[id].under() {
            Under::Root => Ok(None),
            Under::Name(above, _) => Ok(Some((above, self.step_by(steps, id)?))),
            Under::Index(above, _) => Ok(Some((above, self.step_by(steps, id)?))),
        }
    }

    /// The step from the node above a node to it, shared where it is among the steps.
    fn step_by(&self, steps: &[Step], id: usize) -> Result<Step, AllocError>
        requires within { id < vec_len self.now.nodes }
        requires steps { AreSteps self.now.nodes.items steps.now }
        ensures { IfOk result (λ step. (d : Spot) → step ≡ last_step (slice_index_or self.now.nodes.items id d)) }
    {
        match steps.get(id) {
            Some(step) => step.copy(),
            None => self.last_step(id),
        }
    }

    /// The step from the node above a node to it; of the root, which has none, some step.
    pub(crate) fn last_step(&self, id: usize) -> Result<Step, AllocError>
        requires { id < vec_len self.now.nodes }
        ensures { IfOk result (λ step. (d : Spot) → step ≡ last_step (slice_index_or self.now.nodes.items id d)) }
    {
        match self.nodes[id].under() {
            Under::Root => Ok(Step::Index(0)),
            Under::Name(_, text) => Ok(Step::Name(own_name(self.alloc, text)?)),
            Under::Index(_, index) => Ok(Step::Index(index)),
        }
    }
}
