//! The units of values.
ghost use Rattle.std.specs.Prelude.{◌≡◌, map, option_map, OnOk, IfOk};
ghost use Rattle.toml_tree.specs.View.{piece, gap, value, element as tree_element, member};
ghost use Rattle.toml_names.specs.model.Addresses.{lent};
ghost use Rattle.toml_units.specs.Plain.{AreInside, comment_spans, element_units_at, end_units, pair_units, plain_inside, spanned, valued_units};
ghost use Rattle.toml_tree.specs.Pieces.{piece_of};
ghost use Rattle.toml_units.specs.Units.{gap_units};
ghost use Rattle.toml_units.specs.View.{AddsUnits};

use crate::unit::{Unit, UnitKind};
use std::alloc::{AllocError, Global};
use toml_names::{Address, key_address};
use toml_text::Span;
use toml_tree::{Gap, Item, Pair, Piece, Value};

/// An address of its own that is the same, where there is one.
pub(crate) fn copied(alloc: Global, at: Option<&Address>) -> Result<Option<Address>, AllocError>
    ensures { IfOk result (λ own. own ≡ lent at.entry) }
{
    match at {
        Some(address) => Ok(Some(address.copy(alloc)?)),
        None => Ok(None),
    }
}

/// Adds a comment, where there is one.
pub(crate) fn push_comment(
    alloc: Global,
    units: &mut Vec<Unit>,
    kind: UnitKind,
    at: Option<&Address>,
    comment: Option<Piece>,
) -> Result<(), AllocError>
    ensures { let new = comment_spans kind (lent at.entry) (option_map piece comment.entry) in
        OnOk result (AddsUnits units.old.items units.new.items new) }
{
    if let Some(found) = comment {
        units.push(Unit {
            kind,
            span: found.span(),
            address: copied(alloc, at)?,
            base: None,
        })?;
    }
    Ok(())
}

/// Adds the comments of a gap of the array or inline table at the address.
fn push_gap(alloc: Global, units: &mut Vec<Unit>, at: &Address, g: &Gap) -> Result<(), AllocError>
    ensures { OnOk result (AddsUnits units.old.items units.new.items (map spanned (gap_units at.now (gap g.now)))) }
{
    for line in g.lines() {
        push_comment(
            alloc,
            units,
            UnitKind::InnerComment,
            Some(at),
            line.blank.comment,
        )?;
    }
    Ok(())
}

/// Adds the comments behind a last comma, where there is one.
pub(crate) fn push_end(
    alloc: Global,
    units: &mut Vec<Unit>,
    at: &Address,
    end: &Option<Gap>,
) -> Result<(), AllocError>
    ensures { OnOk result (AddsUnits units.old.items units.new.items (end_units at.now (option_map gap end.now))) }
{
    match end {
        Some(g) => push_gap(alloc, units, at, g),
        None => Ok(()),
    }
}

/// The piece that a value is spelled by.
fn whole<'t>(v: &Value<'t>) -> Piece<'t>
    ensures { piece result ≡ piece_of (value v.now) }
{
    match v {
        Value::Scalar(_, token) => *token,
        Value::Array(array) => array.whole,
        Value::Inline(table) => table.whole,
    }
}

/// Adds what lies in a value at the address.
#[cycle(inside)]
pub(crate) fn push_inside(
    alloc: Global,
    units: &mut Vec<Unit>,
    at: &Address,
    v: &Value,
) -> Result<(), AllocError>
    ensures { OnOk result (AddsUnits units.old.items units.new.items (plain_inside at.now (value v.now))) }
{
    match v {
        Value::Scalar(_, _) => Ok(()),
        Value::Array(array) => {
            for (index, item) in array.items.iter().enumerate() {
                let here = at.element(alloc, index as u64)?;
                push_element(alloc, units, at, here, item)?;
            }
            push_end(alloc, units, at, &array.end)
        }
        Value::Inline(table) => {
            for pair in &table.pairs {
                push_pair(alloc, units, at, pair)?;
            }
            push_end(alloc, units, at, &table.end)
        }
    }
}

/// Adds an element of the array at the address, with its gaps; `here` is its own address.
#[cycle(inside)]
pub(crate) fn push_element(
    alloc: Global,
    units: &mut Vec<Unit>,
    at: &Address,
    here: Address,
    item: &Item,
) -> Result<(), AllocError>
    ensures { OnOk result (AddsUnits units.old.items units.new.items (element_units_at at.now here (tree_element item.now))) }
{
    push_gap(alloc, units, at, &item.before)?;
    let span = whole(&item.value).span();
    push_valued(
        alloc,
        units,
        UnitKind::Element,
        span,
        None,
        here,
        &item.value,
    )?;
    push_gap(alloc, units, at, &item.after)
}

/// Adds a pair of the table at the address, with its gaps.
#[cycle(inside)]
fn push_pair(
    alloc: Global,
    units: &mut Vec<Unit>,
    at: &Address,
    pair: &Pair,
) -> Result<(), AllocError>
    ensures { OnOk result (AddsUnits units.old.items units.new.items (pair_units at.now (member pair.now))) }
{
    push_gap(alloc, units, at, &pair.before)?;
    let keyval = &pair.keyval;
    let here = key_address(alloc, at, &keyval.assign.key)?;
    let span = Span {
        start: keyval.assign.key.first.start,
        end: whole(&keyval.value).span().end,
    };
    let base = Some(at.steps().len());
    push_valued(
        alloc,
        units,
        UnitKind::Pair,
        span,
        base,
        here,
        &keyval.value,
    )?;
    push_gap(alloc, units, at, &pair.after)
}

/// Adds a unit that has a value, at the value's address, and what lies in the value.
#[cycle(inside)]
fn push_valued(
    alloc: Global,
    units: &mut Vec<Unit>,
    kind: UnitKind,
    span: Span,
    base: Option<usize>,
    here: Address,
    v: &Value,
) -> Result<(), AllocError>
    ensures { OnOk result (AddsUnits units.old.items units.new.items (valued_units kind span base here (value v.now))) }
{
    // most values have nothing in them, and then the address is not copied
    if let Value::Scalar(_, _) = v {
        units.push(Unit {
            kind,
            span,
            address: Some(here),
            base,
        })?;
        return Ok(());
    }
    units.push(Unit {
        kind,
        span,
        address: Some(here.copy(alloc)?),
        base,
    })?;
    push_inside(alloc, units, &here, v)
}

/// What lies in a value, in text order, an outer unit before what lies in it. The value's own address is taken to be the
/// root's, and the places are those of the text of which it is a tree.
pub fn units_inside(alloc: Global, v: &Value) -> Result<Vec<Unit>, AllocError>
    ensures { IfOk result (λ us. AreInside (value v.now) us.items) }
{
    let mut units = Vec::new(alloc);
    push_inside(alloc, &mut units, &Address::root(alloc), v)?;
    Ok(units)
}
