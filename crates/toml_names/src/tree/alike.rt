//! Whether the same stands in two trees of names, at a node of each and below it. As in `holding.rt` nothing is built for
//! that, and all is judged by the links of the nodes. Of two scalars that are spelled alike no value is made.
ghost use Rattle.std.specs.Prelude.{◌≡◌, ◌↔◌, ◌<◌, IsTrue, IfOk, Some, vec_len};
ghost use Rattle.toml_names.specs.mentions.Mentions.{token_value};
ghost use Rattle.toml_names.specs.mentions.View.{kind as kind_of};
ghost use Rattle.toml_names.specs.tree.NameTree.{IsTree};
ghost use Rattle.toml_names.specs.tree.SameBelow.{SameBelow, SameNames, SameElements, SameAtName};

use crate::meaning::scalars::value_spelled;
use crate::mentions::mention::Kind;
use crate::tree::name_tree::NameTree;
use std::alloc::{AllocError, Global};
use toml_scalar::{ScalarKind, is_same};

impl<'t> NameTree<'t> {
    /// Whether at a node and below it the same stands as at a node of another tree and below that.
    #[cycle(alike)]
    pub(crate) fn same_below(
        &self,
        id: usize,
        other: &NameTree<'_>,
        other_id: usize,
    ) -> Result<bool, AllocError>
        requires within { id < vec_len self.now.nodes }
        requires tree { IsTree self.now.nodes.items }
        requires other_within { other_id < vec_len other.now.nodes }
        requires other_tree { IsTree other.now.nodes.items }
        ensures { IfOk result (λ b. IsTrue b ↔ SameBelow self.now.nodes.items id other.now.nodes.items other_id) }
    {
        let kind = self.nodes[id].kind();
        let other_kind = other.nodes[other_id].kind();
        if !is_same_kind(self.alloc, kind, other_kind)? {
            return Ok(false);
        }
        if !self.same_names(id, other, other_id)? {
            return Ok(false);
        }
        self.same_elements(id, other, other_id)
    }

    /// Whether the same stands at the names of two nodes and below them. That the other node has no more names is told by
    /// their count.
    #[cycle(alike)]
    pub(crate) fn same_names(
        &self,
        id: usize,
        other: &NameTree<'_>,
        other_id: usize,
    ) -> Result<bool, AllocError>
        requires within { id < vec_len self.now.nodes }
        requires tree { IsTree self.now.nodes.items }
        requires other_within { other_id < vec_len other.now.nodes }
        requires other_tree { IsTree other.now.nodes.items }
        ensures { IfOk result (λ b. IsTrue b ↔ SameNames self.now.nodes.items id other.now.nodes.items other_id) }
    {
        if self.nodes[id].name_count() != other.nodes[other_id].name_count() {
            return Ok(false);
        }
        let Some(names) = self.nodes[id].names() else {
            return Ok(true);
        };
        for place in 0..names.len() {
            if let Some((name, below)) = names.nth(place) {
                if !self.same_at(below, other, other_id, place, name)? {
                    return Ok(false);
                }
            }
        }
        Ok(true)
    }

    /// Whether the same stands at a node and below it as at a name of a node of another tree, which is looked for at the
    /// place first, and below that.
    #[cycle(alike)]
    pub(crate) fn same_at(
        &self,
        id: usize,
        other: &NameTree<'_>,
        other_id: usize,
        place: usize,
        name: &str,
    ) -> Result<bool, AllocError>
        requires within { id < vec_len self.now.nodes }
        requires tree { IsTree self.now.nodes.items }
        requires other_within { other_id < vec_len other.now.nodes }
        requires other_tree { IsTree other.now.nodes.items }
        ensures { IfOk result (λ b. IsTrue b ↔ SameAtName self.now.nodes.items id other.now.nodes.items (Some other_id) name.now) }
    {
        match other.nodes[other_id].child_from(place, name) {
            Some(there) => self.same_below(id, other, there),
            None => Ok(false),
        }
    }

    /// Whether the same stands at the elements of two nodes and below them.
    #[cycle(alike)]
    pub(crate) fn same_elements(
        &self,
        id: usize,
        other: &NameTree<'_>,
        other_id: usize,
    ) -> Result<bool, AllocError>
        requires within { id < vec_len self.now.nodes }
        requires tree { IsTree self.now.nodes.items }
        requires other_within { other_id < vec_len other.now.nodes }
        requires other_tree { IsTree other.now.nodes.items }
        ensures { IfOk result (λ b. IsTrue b ↔ SameElements self.now.nodes.items id other.now.nodes.items other_id) }
    {
        let elements = self.nodes[id].elements();
        let others = other.nodes[other_id].elements();
        if elements.len() != others.len() {
            return Ok(false);
        }
        for index in 0..elements.len() {
            if !self.same_below(elements[index], other, others[index])? {
                return Ok(false);
            }
        }
        Ok(true)
    }
}

/// Whether two kinds are one.
fn is_same_kind(alloc: Global, one: Kind<'_>, other: Kind<'_>) -> Result<bool, AllocError>
    ensures { IfOk result (λ b. IsTrue b ↔ (kind_of one.entry ≡ kind_of other.entry)) }
{
    match (one, other) {
        (Kind::Table, Kind::Table) => Ok(true),
        (Kind::Array, Kind::Array) => Ok(true),
        (Kind::Scalar(kind, token), Kind::Scalar(other_kind, other_token)) => {
            is_same_value(alloc, kind, token, other_kind, other_token)
        }
        _ => Ok(false),
    }
}

/// Whether two tokens spell the same value.
fn is_same_value(
    alloc: Global,
    kind: ScalarKind,
    token: &str,
    other_kind: ScalarKind,
    other_token: &str,
) -> Result<bool, AllocError>
    ensures { IfOk result (λ b. IsTrue b ↔ (token_value kind token.now ≡ token_value other_kind other_token.now)) }
{
    if kind == other_kind && token == other_token {
        return Ok(true);
    }
    let value = value_spelled(alloc, kind, token)?;
    let other_value = value_spelled(alloc, other_kind, other_token)?;
    Ok(is_same(&value, &other_value))
}
