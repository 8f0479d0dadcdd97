//! Values inside a value, by the steps to them.
ghost use Rattle.std.specs.Option.{option_copied};
ghost use Rattle.std.specs.Prelude.{◌≡◌, ◌≢◌, ◌∷◌, ◌++◌, IfOk, List, MatchOption, map};
ghost use Rattle.toml_tree.specs.Pieces.{piece_of};
ghost use Rattle.toml_tree.specs.View.{element, keyval, member, value as tree_value};
ghost use Rattle.toml_names.specs.declared.model.address.Step.{Step as AnyStep};
ghost use Rattle.toml_print.specs.Searching.{Finds, FindsInItems, FindsInPair, FindsInPairs, item_at};

use std::alloc::{AllocError, Global};
use toml_names::{Address, Step, key_address};
use toml_tree::{Item, KeyVal, Pair, Value};

/// The steps behind a beginning; none where they don't begin so.
pub(crate) fn behind<'s>(front: &[Step], steps: &'s [Step]) -> Option<&'s [Step]>
    ensures { MatchOption result ((rest : List AnyStep) → steps.now ≢ front.now ++ rest) (λ rest. steps.now ≡ front.now ++ rest.now) }
{
    if steps.len() < front.len() {
        return None;
    }
    for (index, step) in front.iter().enumerate() {
        if !step.is_same(&steps[index]) {
            return None;
        }
    }
    Some(&steps[front.len()..])
}

/// The bytes of a value.
fn text_of<'t>(value: &Value<'t>) -> &'t str
    ensures { result.now ≡ (piece_of (tree_value value.now)).text }
{
    match value {
        Value::Scalar(_, token) => token.text,
        Value::Array(array) => array.whole.text,
        Value::Inline(table) => table.whole.text,
    }
}

/// The text of the value that stands in a value at the steps, if one does.
#[cycle(find)]
pub(crate) fn find_in<'t>(
    alloc: Global,
    value: &Value<'t>,
    steps: &[Step],
) -> Result<Option<&'t str>, AllocError>
    ensures { IfOk result (Finds (tree_value value.now) steps.now) }
{
    let Some((first, rest)) = steps.split_first() else {
        return Ok(Some(text_of(value)));
    };
    match value {
        Value::Scalar(_, _) => Ok(None),
        Value::Array(array) => find_in_items(alloc, &array.items, first, rest),
        Value::Inline(table) => find_in_pairs(alloc, &table.pairs, steps),
    }
}

/// The element at a step of an array, if it has one there.
fn item_at<'v, 't>(items: &'v [Item<'t>], step: &Step) -> Option<&'v Item<'t>>
    ensures { option_copied result ≡ item_at items.now step.now }
{
    match step {
        Step::Index(index) => items.get(*index as usize),
        Step::Name(_) => None,
    }
}

/// The spelling of what stands in one of the elements of an array, at a first step and those behind it.
#[cycle(find)]
fn find_in_items<'t>(
    alloc: Global,
    items: &[Item<'t>],
    first: &Step,
    rest: &[Step],
) -> Result<Option<&'t str>, AllocError>
    ensures { IfOk result (FindsInItems (map element items.now) (first.now ∷ rest.now)) }
{
    match item_at(items, first) {
        Some(item) => find_in(alloc, &item.value, rest),
        None => Ok(None),
    }
}

/// The spelling of what stands in one of the pairs of an inline table.
#[cycle(find)]
fn find_in_pairs<'t>(
    alloc: Global,
    pairs: &[Pair<'t>],
    steps: &[Step],
) -> Result<Option<&'t str>, AllocError>
    ensures { IfOk result (FindsInPairs (map member pairs.now) steps.now) }
{
    for pair in pairs {
        let found = find_in_pair(alloc, &pair.keyval, steps)?;
        if found.is_some() {
            return Ok(found);
        }
    }
    Ok(None)
}

/// The spelling of what stands in a pair, at the steps of its key and those behind them.
#[cycle(find)]
fn find_in_pair<'t>(
    alloc: Global,
    pair: &KeyVal<'t>,
    steps: &[Step],
) -> Result<Option<&'t str>, AllocError>
    ensures { IfOk result (FindsInPair (keyval pair.now) steps.now) }
{
    let key = key_address(alloc, &Address::root(alloc), &pair.assign.key)?;
    match behind(key.steps(), steps) {
        Some(rest) => find_in(alloc, &pair.value, rest),
        None => Ok(None),
    }
}
