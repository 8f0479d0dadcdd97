//! The data of one value alone.
ghost use Rattle.std.specs.Prelude.{IfOk, IfErr};
ghost use Rattle.toml_tree.specs.View.{value as tree_value};
ghost use Rattle.toml_names.specs.model.Data.{IsDataOf, kind_at};
ghost use Rattle.toml_names.specs.mentions.Mentions.{value_facts};
ghost use Rattle.toml_names.specs.tree.NameTree.{IsTreeOf};
ghost use Rattle.toml_names.specs.reader.Values.{AreGoodFacts, RefusesFacts};

use crate::fault::ValueFault;
use crate::meaning::keys::kind_of;
use crate::mentions::mention::Role;
use crate::model::datum::Datum;
use crate::tree::hash_key::{HashKey, key_in};
use crate::tree::name_tree::{EnterFault, NameTree};
use std::alloc::Global;
use toml_tree::Value;

/// The data of a value: Ok exactly where the mentions inside it keep the table rules and no address, counted from the
/// value, has more than 100 steps.
///
/// Else `Rules` where they break the rules, and `Long` where they keep them and an address is longer.
pub fn read_value(alloc: Global, value: &Value<'_>) -> Result<Datum, ValueFault>
    ensures good { IfOk result (λ d. AreGoodFacts (value_facts (tree_value value.now))) }
    ensures data { IfOk result (λ d. IsDataOf (value_facts (tree_value value.now)) (kind_at d)) }
    ensures refused { IfErr result (RefusesFacts (value_facts (tree_value value.now))) }
{
    let tree = enter_whole(alloc, value)?;
    Ok(tree.datum(0)?)
}

/// The tree of all that a value names, itself at the root.
fn enter_whole<'t>(alloc: Global, value: &Value<'t>) -> Result<NameTree<'t>, ValueFault>
    ensures good { IfOk result (λ tree. AreGoodFacts (value_facts (tree_value value.now))) }
    ensures stands { IfOk result (λ tree. IsTreeOf tree.nodes.items (value_facts (tree_value value.now))) }
    ensures refused { IfErr result (RefusesFacts (value_facts (tree_value value.now))) }
{
    let key = HashKey::known(key_in(value));
    let mut tree = NameTree::new(alloc, key, Role::Valued, kind_of(value))?;
    match tree.enter_inside(0, value, 0) {
        Ok(()) => {}
        Err(EnterFault::Clash(_)) => return Err(ValueFault::Rules),
        Err(EnterFault::NoMemory) => return Err(ValueFault::NoMemory),
    }
    if tree.are_short_from(0) {
        Ok(tree)
    } else {
        Err(ValueFault::Long)
    }
}
