//! A line whose value is an array, the units of which are handed out item by item.
ghost use Rattle.std.specs.Prelude.{◌≡◌, ◌<◌, ◌↔◌, IfOk, IsTrue};
ghost use Rattle.toml_tree.specs.View.{expr};
ghost use Rattle.toml_units.specs.Arrays.{FindsArray, HasItems, items_in};

use crate::unit::{Unit, UnitKind};
use crate::walk::{push_comment, push_element, push_end};
use std::alloc::{AllocError, Global};
use toml_names::Address;
use toml_tree::{Array, Blank, Expr, Line, Value};

/// A line whose value is an array, with an item or more that were not handed out yet.
#[derive(Drop)]
pub(crate) struct Opened<'t> {
    line: Line<'t>,
    /// The address of the array.
    at: Address,
    /// How many of its items were handed out.
    item: usize,
    // so each step hands out a unit or more
    ghost more: { item < items_in (expr line.expr) },
    // no `Vec` has more; so the steps to the end have a number
    ghost few: { items_in (expr line.expr) < 18446744073709551616 },
}

/// The array that is the value of a line, if it is one, and what stands at the line's end.
fn array_of<'e, 't>(e: &'e Expr<'t>) -> Option<(&'e Array<'t>, &'e Blank<'t>)>
    ensures { FindsArray (expr e.now) result }
{
    let Expr::KeyVal { keyval, tail, .. } = e else {
        return None;
    };
    match &keyval.value {
        Value::Array(array) => Some((array, tail)),
        Value::Scalar(_, _) | Value::Inline(_) => None,
    }
}

/// Whether the value of a line is an array that has an item.
pub(crate) fn has_items(e: &Expr) -> bool
    ensures { IsTrue result ↔ HasItems (expr e.now) }
{
    match array_of(e) {
        Some((array, _)) => !array.items.is_empty(),
        None => false,
    }
}

impl<'t> Opened<'t> {
    ghost use Rattle.std.specs.Prelude.{◌∷◌, Some};
    ghost use Rattle.toml_units.specs.Opened.{HandsItem, rest_of};
    ghost use Rattle.toml_units.specs.Plain.{line_span, line_spans};

    /// The line's own unit was handed out, and no item.
    pub(crate) fn of(line: Line<'t>, at: Address) -> Opened<'t>
        requires { HasItems (expr line.expr) }
        ensures { let e = expr line.entry.expr in line_spans (Some at) e ≡ line_span (Some at) e ∷ rest_of result }
    {
        Opened { line, at, item: 0 }
    }

    /// Adds the units of the next item: the comments around it, itself, and what lies in it; behind the last item the
    /// comments behind the last comma and the one at the line's end. Tells whether there is more. The address of the
    /// element is made in the memory of the spare one.
    pub(crate) fn next(
        &mut self,
        alloc: Global,
        units: &mut Vec<Unit>,
        spare: Address,
    ) -> Result<bool, AllocError>
        ensures { IfOk result (HandsItem self.old units.old.items self.new units.new.items) }
    {
        let Some((array, tail)) = array_of(self.line.expr()) else {
            unreachable!()
        };
        let mut here = spare;
        here.set_to_element(&self.at, self.item as u64)?;
        push_element(alloc, units, &self.at, here, &array.items[self.item])?;
        if self.item + 1 < array.items.len() {
            self.item += 1;
            return Ok(true);
        }
        push_end(alloc, units, &self.at, &array.end)?;
        push_comment(
            alloc,
            units,
            UnitKind::TailComment,
            Some(&self.at),
            tail.comment,
        )?;
        Ok(false)
    }
}
