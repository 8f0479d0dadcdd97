//! Whether data are what stands in the tree of names. No data are built of the tree for that: the value of a scalar alone is
//! made, to be compared, and let go. All is judged by the links of the nodes, whatever the kinds are, so a scalar is asked
//! whether something hangs under it too.
ghost use Rattle.std.specs.Prelude.{◌≡◌, ◌↔◌, ◌<◌, IsTrue, IfOk, vec_len};
ghost use Rattle.toml_scalar.specs.Values.{scalar_value};
ghost use Rattle.toml_names.specs.declared.model.datum.Datum.{Table, Array};
ghost use Rattle.toml_names.specs.tree.Finished.{IsOfKind};
ghost use Rattle.toml_names.specs.tree.Held.{Holds};
ghost use Rattle.toml_names.specs.mentions.Mentions.{a_table, an_array, token_value};
ghost use Rattle.toml_names.specs.tree.NameTree.{IsTree};

use crate::meaning::scalars::value_spelled;
use crate::mentions::mention::Kind;
use crate::model::datum::Datum;
use crate::tree::name_tree::NameTree;
use std::alloc::{AllocError, Global};
use std::collections::BTreeMap;
use toml_scalar::{Scalar, ScalarKind, is_same};

impl<'t> NameTree<'t> {
    /// Whether the datum has what stands at the node's address and below it, and nothing else.
    #[cycle(holds)]
    pub(crate) fn holds(&self, id: usize, datum: &Datum) -> Result<bool, AllocError>
        requires within { id < vec_len self.now.nodes }
        requires tree { IsTree self.now.nodes.items }
        ensures { IfOk result (λ b. IsTrue b ↔ Holds self.now.nodes.items id datum.now) }
    {
        match (self.nodes[id].kind(), datum) {
            (Kind::Table, Datum::Table(members)) => self.holds_members(id, members),
            (Kind::Array, Datum::Array(items)) => self.holds_items(id, items),
            (Kind::Scalar(kind, token), Datum::Scalar(scalar)) => {
                if self.nodes[id].is_leaf() {
                    is_value(self.alloc, kind, token, scalar)
                } else {
                    Ok(false)
                }
            }
            _ => Ok(false),
        }
    }

    /// Whether the members are those of the table at the node. Each is looked up once in the tree; that it has no more
    /// names is told by their count.
    #[cycle(holds)]
    fn holds_members(
        &self,
        id: usize,
        members: &BTreeMap<String, Datum>,
    ) -> Result<bool, AllocError>
        requires within { id < vec_len self.now.nodes }
        requires tree { IsTree self.now.nodes.items }
        requires table { IsOfKind self.now.nodes.items id a_table }
        ensures { IfOk result (λ b. IsTrue b ↔ Holds self.now.nodes.items id (Table members.now)) }
    {
        if !self.nodes[id].elements().is_empty() {
            return Ok(false);
        }
        if self.nodes[id].name_count() != members.len() {
            return Ok(false);
        }
        for (name, member) in members {
            let Some(below) = self.nodes[id].child(name.as_str()) else {
                return Ok(false);
            };
            if !self.holds(below, member)? {
                return Ok(false);
            }
        }
        Ok(true)
    }

    /// Whether the items are the elements of the array at the node.
    #[cycle(holds)]
    fn holds_items(&self, id: usize, items: &Vec<Datum>) -> Result<bool, AllocError>
        requires within { id < vec_len self.now.nodes }
        requires tree { IsTree self.now.nodes.items }
        requires array { IsOfKind self.now.nodes.items id an_array }
        ensures { IfOk result (λ b. IsTrue b ↔ Holds self.now.nodes.items id (Array items.now)) }
    {
        let elements = self.nodes[id].elements();
        if self.nodes[id].name_count() != 0 {
            return Ok(false);
        }
        if elements.len() != items.len() {
            return Ok(false);
        }
        for (index, item) in items.iter().enumerate() {
            if !self.holds(elements[index], item)? {
                return Ok(false);
            }
        }
        Ok(true)
    }
}

/// Whether the scalar is the value that a token of the kind spells.
pub(crate) fn is_value(
    alloc: Global,
    kind: ScalarKind,
    token: &str,
    scalar: &Scalar,
) -> Result<bool, AllocError>
    ensures { IfOk result (λ b. IsTrue b ↔ (token_value kind token.now ≡ scalar_value scalar.now)) }
{
    let value = value_spelled(alloc, kind, token)?;
    Ok(is_same(&value, scalar))
}
