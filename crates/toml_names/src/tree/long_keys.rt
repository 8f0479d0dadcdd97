//! Lines whose key alone may be too long for an address. Where a name of such a key is new, so is all behind it: nothing
//! there can clash, and the line is refused with no node for each of its parts.
ghost use Rattle.std.specs.Prelude.{◌≡◌, ◌+◌, ◌<◌, ℕ, length, IsTrue, MatchOption, []};
ghost use Rattle.toml_tree.specs.View.{key as tree_key, value, keyval as tree_keyval};
ghost use Rattle.toml_names.specs.model.Addresses.{Address, below};
ghost use Rattle.toml_names.specs.tree.EnteringHeaders.{EntersHeader, table_names, tables_names, next_table};
ghost use Rattle.toml_names.specs.mentions.Keys.{key_names};
ghost use Rattle.toml_names.specs.mentions.KeyParts.{keyval_key_parts};
ghost use Rattle.toml_names.specs.tree.LongKeys.{CanEnter, CanEnterHeader, IsLongKey};
ghost use Rattle.toml_names.specs.mentions.Mentions as mentions;
ghost use Rattle.toml_names.specs.mentions.Mentions.{pair_named};
ghost use Rattle.toml_names.specs.reader.Names.{header_end};
ghost use Rattle.toml_names.specs.tree.NameTree.{IsTree, Clashes, ClashesAfter, EntersTo};
ghost use Rattle.toml_names.specs.tree.Nodes.{address_at};
ghost use Rattle.toml_names.specs.mentions.Rules.{max_steps};
ghost use Rattle.toml_names.specs.tree.Steps.{IsNode, Steps};

use crate::mentions::mention::{Kind, Role};
use crate::mentions::rules::MAX_STEPS;
use crate::tree::name_tree::{EnterFault, NameTree};
use toml_tree::{Key, KeyVal, Value};

impl<'t> NameTree<'t> {
    /// Enters a pair in the table of a node, and gives the node of its value; none where it goes, its value is a scalar
    /// and its address is too long.
    pub(crate) fn pair_unless_long(
        &mut self,
        at: usize,
        pair: &KeyVal<'t>,
        line: usize,
    ) -> Result<Option<usize>, EnterFault>
        requires there { IsNode self.old.nodes.items at }
        ensures { let before = self.old.nodes.items in
            let after = self.new.nodes.items in
            let p = tree_keyval pair.now in
            let here = address_at before at in
            let names = pair_named line here p.assign p.value in
            Steps (keyval_key_parts p.assign p.value) self.old self.new result
            (λ r. MatchOption r (CanEnter before names × IsLongKey here (key_names p.assign.key))
            (EntersTo before after names (below here (key_names p.assign.key))))
            (Clashes before names) }
    {
        let key = &pair.assign.key;
        if !is_scalar(&pair.value) || !is_long(self.nodes[at].depth(), key) {
            return self.enter_pair(false, at, pair, line);
        }
        self.enter_pair(true, at, pair, line)
    }

    /// Enters a table's header, and gives the table's node; none where it goes and its address is too long.
    pub(crate) fn table_unless_long(
        &mut self,
        key: &Key<'t>,
        line: usize,
    ) -> Result<Option<usize>, EnterFault>
        requires tree { IsTree self.old.nodes.items }
        ensures { let before = self.old.nodes.items in
            let after = self.new.nodes.items in
            let names = key_names (tree_key key.now) in
            Steps (length names) self.old self.new result
            (λ r. MatchOption r (CanEnterHeader before (table_names line names) (λ ms. header_end ms [] names) × IsLongKey [] names)
            (λ id. EntersHeader before after id (table_names line names) (λ ms. header_end ms [] names)))
            (ClashesAfter before (table_names line names)) }
    {
        match self.pass_fronts(key, line)? {
            Some((here, part)) => self.enter(false, here, part, Role::Header, Kind::Table, line),
            None => Ok(None),
        }
    }

    /// Enters a header of an array of tables, and gives the node of the array's next element; none where it goes and its
    /// address is too long.
    pub(crate) fn tables_unless_long(
        &mut self,
        key: &Key<'t>,
        line: usize,
    ) -> Result<Option<usize>, EnterFault>
        requires tree { IsTree self.old.nodes.items }
        ensures { let before = self.old.nodes.items in
            let after = self.new.nodes.items in
            let names = key_names (tree_key key.now) in
            Steps (length names) self.old self.new result
            (λ r. MatchOption r (CanEnterHeader before (tables_names line names) (λ ms. next_table ms names) × IsLongKey [] names)
            (λ id. EntersHeader before after id (tables_names line names) (λ ms. next_table ms names)))
            (ClashesAfter before (tables_names line names)) }
    {
        match self.pass_fronts(key, line)? {
            Some((here, part)) => Ok(Some(self.enter_tables(here, part, line)?)),
            None => Ok(None),
        }
    }
}

/// Whether a key, from an address of so many steps, is too long for an address.
pub(crate) fn is_long(depth: usize, key: &Key<'_>) -> bool
    ensures { IsTrue result → max_steps < depth + length (key_names (tree_key key.now)) }
{
    depth.saturating_add(key.rest.len()) >= MAX_STEPS
}

/// Whether a value is a scalar.
fn is_scalar(v: &Value<'_>) -> bool
    ensures { IsTrue result → (line : ℕ) (at : Address) → mentions.inside line at (value v.now) ≡ [] }
{
    matches!(v, Value::Scalar(_, _))
}
