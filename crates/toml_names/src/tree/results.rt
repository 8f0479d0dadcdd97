//! What the finished tree of names tells: the data, the first mentions, and whether addresses are short.
ghost use Rattle.std.specs.Prelude.{◌≡◌, ◌<◌, ◌≤◌, ◌↔◌, ℕ, Option, IsTrue, IfOk, map, option_map, slice_index_or, length, vec_len};
ghost use Rattle.toml_names.specs.model.Building.{IsOnly};
ghost use Rattle.toml_names.specs.tree.EnteringLines.{IsWithin};
ghost use Rattle.toml_names.specs.tree.Finished.{AreFirstMentions, AreRanks, AreShortFrom, IsDatumAt, IsOfKind};
ghost use Rattle.toml_names.specs.mentions.Mentions.{a_table, an_array, is_mentioned, token_kind};
ghost use Rattle.toml_names.specs.tree.NameTree.{IsTree};
ghost use Rattle.toml_names.specs.tree.Nodes.{AreSteps, address_at};

use crate::meaning::scalars::value_spelled;
use crate::mentions::mention::{Kind, Role};
use crate::mentions::rules::MAX_STEPS;
use crate::model::address::{Address, Step};
use crate::model::datum::{Datum, add_member};
use crate::tree::name_tree::NameTree;
use std::alloc::{AllocError, Global};
use std::collections::BTreeMap;
use toml_scalar::ScalarKind;

impl<'t> NameTree<'t> {
    /// The data at a node: what stands at its address and below.
    #[cycle(datum)]
    pub(crate) fn datum(&self, id: usize) -> Result<Datum, AllocError>
        requires within { id < vec_len self.now.nodes }
        requires tree { IsTree self.now.nodes.items }
        ensures { IfOk result (IsDatumAt self.now.nodes.items id) }
    {
        match self.nodes[id].kind() {
            Kind::Table => self.table_datum(id),
            Kind::Array => self.array_datum(id),
            Kind::Scalar(kind, token) => scalar_datum(self.alloc, kind, token),
        }
    }

    /// The data at the node of a table: the data at the nodes of its names.
    #[cycle(datum)]
    fn table_datum(&self, id: usize) -> Result<Datum, AllocError>
        requires within { id < vec_len self.now.nodes }
        requires tree { IsTree self.now.nodes.items }
        requires table { IsOfKind self.now.nodes.items id a_table }
        ensures { IfOk result (IsDatumAt self.now.nodes.items id) }
    {
        let mut members = BTreeMap::new(self.alloc);
        let Some(names) = self.nodes[id].names() else {
            return Ok(Datum::Table(members));
        };
        for place in 0..names.len() {
            if let Some((name, below)) = names.nth(place) {
                let member = self.datum(below)?;
                add_member(self.alloc, &mut members, name, member)?;
            }
        }
        Ok(Datum::Table(members))
    }

    /// The data at the node of an array: the data at the nodes of its elements.
    #[cycle(datum)]
    fn array_datum(&self, id: usize) -> Result<Datum, AllocError>
        requires within { id < vec_len self.now.nodes }
        requires tree { IsTree self.now.nodes.items }
        requires array { IsOfKind self.now.nodes.items id an_array }
        ensures { IfOk result (IsDatumAt self.now.nodes.items id) }
    {
        let elements = self.nodes[id].elements();
        let mut items = Vec::with_capacity(self.alloc, elements.len())?;
        for below in elements {
            items.push(self.datum(*below)?)?;
        }
        Ok(Datum::Array(items))
    }

    /// The addresses of the mentions, each once, in the order of their first mentions.
    pub(crate) fn first_mentions(&self) -> Result<Vec<Address>, AllocError>
        requires tree { IsTree self.now.nodes.items }
        ensures { IfOk result (λ list. AreFirstMentions self.now.nodes.items list.items) }
    {
        let steps = self.last_steps()?;
        let mut list = Vec::new(self.alloc);
        for (id, node) in self.nodes.iter().enumerate() {
            if is_mention(node.role()) {
                list.push(self.address_by(&steps, id)?)?;
            }
        }
        Ok(list)
    }

    /// The last step of each node. Addresses that are made of these share the texts of long names.
    fn last_steps(&self) -> Result<Vec<Step>, AllocError>
        ensures { IfOk result (λ steps. AreSteps self.now.nodes.items steps.items) }
    {
        let mut steps = Vec::with_capacity(self.alloc, self.nodes.len())?;
        for id in 0..self.nodes.len() {
            steps.push(self.last_step(id)?)?;
        }
        Ok(steps)
    }

    /// The addresses of nodes, where there are any.
    pub(crate) fn addresses_of(
        &self,
        nodes: &[Option<usize>],
    ) -> Result<Vec<Option<Address>>, AllocError>
        requires within { (l : ℕ) (d : Option ℕ) → l < length nodes.now → IsWithin (slice_index_or nodes.now l d) self.now.nodes.items }
        requires tree { IsTree self.now.nodes.items }
        ensures { IfOk result (λ list. list.items ≡ map (option_map (address_at self.now.nodes.items)) nodes.now) }
    {
        let steps = self.last_steps()?;
        let mut list = Vec::with_capacity(self.alloc, nodes.len())?;
        for node in nodes {
            list.push(self.address_of(&steps, *node)?)?;
        }
        Ok(list)
    }

    /// The address of a node, if there is one, made of the last steps of the nodes.
    fn address_of(&self, steps: &[Step], node: Option<usize>) -> Result<Option<Address>, AllocError>
        requires within { IsWithin node self.now.nodes.items }
        requires tree { IsTree self.now.nodes.items }
        requires steps { AreSteps self.now.nodes.items steps.now }
        ensures { IfOk result (λ at. at ≡ option_map (address_at self.now.nodes.items) node) }
    {
        match node {
            Some(id) => Ok(Some(self.address_by(steps, id)?)),
            None => Ok(None),
        }
    }

    /// How many nodes before each node are mentions: the place of its address among the first mentions, if it is one.
    pub(crate) fn ranks(&self) -> Result<Vec<usize>, AllocError>
        requires tree { IsTree self.now.nodes.items }
        ensures all { IfOk result (λ list. vec_len list ≡ vec_len self.now.nodes) }
        ensures places { IfOk result (λ list. AreRanks self.now.nodes.items list.items) }
    {
        let mut ranks = Vec::with_capacity(self.alloc, self.nodes.len())?;
        let mut count = 0;
        for node in &self.nodes {
            ranks.push(count)?;
            if is_mention(node.role()) {
                count += 1;
            }
        }
        Ok(ranks)
    }

    /// Whether no address of the nodes from this one on has more than 100 steps.
    pub(crate) fn are_short_from(&self, start: usize) -> bool
        requires within { start ≤ vec_len self.now.nodes }
        requires tree { IsTree self.now.nodes.items }
        ensures { IsTrue result ↔ AreShortFrom start self.now.nodes.items }
    {
        self.nodes[start..]
            .iter()
            .all(|node| node.depth() <= MAX_STEPS)
    }
}

/// Whether the role is a mention's.
fn is_mention(role: Role) -> bool
    ensures { result ≡ is_mentioned role }
{
    !matches!(role, Role::Bare)
}

/// The datum of a scalar: the value that its token spells.
pub(crate) fn scalar_datum(
    alloc: Global,
    kind: ScalarKind,
    token: &str,
) -> Result<Datum, AllocError>
    ensures { IfOk result (IsOnly (token_kind kind token.now)) }
{
    Ok(Datum::Scalar(value_spelled(alloc, kind, token)?))
}
