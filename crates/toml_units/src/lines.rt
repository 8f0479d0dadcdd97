//! The units of lines and of documents.
ghost use Rattle.std.specs.Prelude.{◌≡◌, ◌<◌, ◌∷◌, [], ℕ, Option, None, IsTrue, slice_index_or, length, map, OnOk, IfOk};
ghost use Rattle.toml_tree.specs.Document.{document};
ghost use Rattle.toml_tree.specs.View.{blank, key as tree_key, expr};
ghost use Rattle.toml_names.specs.mentions.Keys.{key_names};
ghost use Rattle.toml_names.specs.model.Addresses.{Address as Steps, lent};
ghost use Rattle.toml_names.specs.mentions.Mentions.{named};
ghost use Rattle.toml_names.specs.reader.Names.{AreOwnAddresses};
ghost use Rattle.toml_units.specs.Arrays.{Begins, IsOwn, TellsArray};
ghost use Rattle.toml_units.specs.Ends.{blank_end, expr_end};
ghost use Rattle.toml_units.specs.Plain.{own_base, line_span, line_spans, plain_line};
ghost use Rattle.toml_units.specs.View.{AddsUnits, spanned, all_units, unit};
ghost use Rattle.toml_tree.specs.Pieces.{expr_start};
ghost use Rattle.toml_units.specs.Units.{units as units_of};

use crate::opened::has_items;
use crate::unit::{Unit, UnitKind};
use crate::walk::{copied, push_comment, push_inside};
use std::alloc::{AllocError, Global};
use toml_names::{Address, Names};
use toml_text::Span;
use toml_tree::{Blank, Doc, Expr, Key, Value};

/// The place behind whitespace and a comment.
fn blank_end(b: &Blank) -> usize
    ensures { result ≡ blank_end (blank b.now) }
{
    match b.comment {
        Some(comment) => comment.span().end,
        None => b.ws.span().end,
    }
}

/// Where an expression stands, with its whitespace and its comment.
fn expr_span(e: &Expr) -> Span
    ensures start { result.start ≡ expr_start (expr e.now) }
    ensures end { result.end ≡ expr_end (expr e.now) }
{
    match e {
        Expr::Blank(tail) => Span {
            start: tail.ws.start,
            end: blank_end(tail),
        },
        Expr::KeyVal { ws, tail, .. } | Expr::Std { ws, tail, .. } | Expr::Array { ws, tail, .. } =>
            {
                Span {
                    start: ws.start,
                    end: blank_end(tail),
                }
            }
    }
}

/// How many parts a key has.
pub(crate) fn parts(key: &Key) -> usize
    ensures { result ≡ length (key_names (tree_key key.now)) }
{
    key.rest.len() + 1
}

/// The base of a line, read off its own address.
fn own_base(own: Option<&Address>, e: &Expr) -> Option<usize>
    ensures { result ≡ own_base (lent own.entry) (expr e.now) }
{
    match e {
        Expr::KeyVal { keyval, .. } => {
            let at = own?;
            Some(at.steps().len().saturating_sub(parts(&keyval.assign.key)))
        }
        _ => None,
    }
}

/// Adds a line's own unit, at the address, which is given away.
fn push_own(units: &mut Vec<Unit>, own: Option<Address>, e: &Expr) -> Result<(), AllocError>
    ensures { OnOk result (AddsUnits units.old.items units.new.items (line_span own (expr e.now) ∷ [])) }
{
    let base = own_base(own.as_ref(), e);
    let line = Unit {
        kind: UnitKind::Line,
        span: expr_span(e),
        address: own,
        base,
    };
    units.push(line)?;
    Ok(())
}

/// Adds what lies in a line at its own address, and the comment at its end.
fn push_rest(
    alloc: Global,
    units: &mut Vec<Unit>,
    own: Option<&Address>,
    e: &Expr,
) -> Result<(), AllocError>
    ensures { OnOk result (AddsUnits units.old.items units.new.items (plain_line (lent own.entry) (expr e.now))) }
{
    match e {
        Expr::KeyVal { keyval, tail, .. } => {
            if let Some(at) = own {
                push_inside(alloc, units, at, &keyval.value)?;
            }
            push_comment(alloc, units, UnitKind::TailComment, own, tail.comment)
        }
        Expr::Blank(tail) | Expr::Std { tail, .. } | Expr::Array { tail, .. } => {
            push_comment(alloc, units, UnitKind::TailComment, own, tail.comment)
        }
    }
}

/// Adds the units of a line at its own address.
fn push_line(
    alloc: Global,
    units: &mut Vec<Unit>,
    own: Option<&Address>,
    e: &Expr,
) -> Result<(), AllocError>
    ensures { OnOk result (AddsUnits units.old.items units.new.items (line_spans (lent own.entry) (expr e.now))) }
{
    push_own(units, copied(alloc, own)?, e)?;
    push_rest(alloc, units, own, e)
}

/// Whether a line is one unit: it has no comment, and nothing lies in a value of it.
fn is_lone(e: &Expr) -> bool
    ensures { (own : Option Steps) → IsTrue result → line_spans own (expr e.now) ≡ line_span own (expr e.now) ∷ [] }
{
    match e {
        Expr::KeyVal { keyval, tail, .. } => {
            tail.comment.is_none() && matches!(&keyval.value, Value::Scalar(_, _))
        }
        Expr::Std { tail, .. } | Expr::Array { tail, .. } | Expr::Blank(tail) => {
            tail.comment.is_none()
        }
    }
}

/// Adds the units of a line whose own address is given away: most lines are one unit, and then it is not copied.
pub(crate) fn push_line_at(
    alloc: Global,
    units: &mut Vec<Unit>,
    own: Option<Address>,
    e: &Expr,
) -> Result<(), AllocError>
    ensures { OnOk result (AddsUnits units.old.items units.new.items (line_spans own (expr e.now))) }
{
    if !is_lone(e) {
        return push_line(alloc, units, own.as_ref(), e);
    }
    push_own(units, own, e)
}

/// The address of a line's value, copied, where this is an array with an item.
fn array_at(alloc: Global, own: Option<&Address>, e: &Expr) -> Result<Option<Address>, AllocError>
    ensures { IfOk result (TellsArray (lent own.entry) (expr e.now)) }
{
    if has_items(e) {
        copied(alloc, own)
    } else {
        Ok(None)
    }
}

/// Holds one unit, the first of those that were held, where there were some.
pub(crate) fn hold_one(units: &mut Vec<Unit>) -> Result<(), AllocError>
    ensures { OnOk result (length units.new.items ≡ 1) }
{
    if units.is_empty() {
        units.push(Unit {
            kind: UnitKind::Line,
            span: Span { start: 0, end: 0 },
            address: None,
            base: None,
        })?;
    }
    units.truncate(1);
    Ok(())
}

/// Makes a unit a line's own, which has the line's address already.
pub(crate) fn set_line(line: &mut Unit, e: &Expr)
    ensures { unit line.new ≡ line_span line.old.address (expr e.now) }
{
    line.base = own_base(line.address.as_ref(), e);
    line.span = expr_span(e);
    line.kind = UnitKind::Line;
}

/// Adds the units of a line behind its own one. Where its value is an array with an item it adds none, and tells the array's
/// address.
pub(crate) fn push_behind(
    alloc: Global,
    units: &mut Vec<Unit>,
    e: &Expr,
) -> Result<Option<Address>, AllocError>
    requires { (own : Option Steps) × IsOwn own (expr e.now) units.old.items }
    ensures { (own : Option Steps) → IsOwn own (expr e.now) units.old.items → IfOk result (Begins units.new.items own (expr e.now)) }
{
    if let Some(array) = array_at(alloc, units[0].address.as_ref(), e)? {
        return Ok(Some(array));
    }
    if !is_lone(e) {
        let own = copied(alloc, units[0].address.as_ref())?;
        push_rest(alloc, units, own.as_ref(), e)?;
    }
    Ok(None)
}

/// The address at the place, which is given away.
fn take_at(own: &mut Vec<Option<Address>>, place: usize) -> Option<Address>
    ensures taken { result ≡ slice_index_or own.old.items place None }
    ensures left { (k : ℕ) (d : Option Steps) → place < k → slice_index_or own.new.items k d ≡ slice_index_or own.old.items k d }
{
    match own.get_mut(place) {
        Some(at) => at.take(),
        None => None,
    }
}

/// The units of a document whose lines have these addresses of their own, as `units` answers them.
pub fn units_at(
    alloc: Global,
    doc: &Doc,
    own: Vec<Option<Address>>,
) -> Result<Vec<Unit>, AllocError>
    requires { AreOwnAddresses (document doc.now).lines own.items }
    ensures { IfOk result (λ us. all_units us.items ≡ map spanned (units_of (document doc.now).lines)) }
{
    let mut left = own;
    let mut all = Vec::new(alloc);
    for (number, line) in doc.lines().iter().enumerate() {
        push_line_at(alloc, &mut all, take_at(&mut left, number), line.expr())?;
    }
    Ok(all)
}

/// The units of a document, in text order, an outer one before what lies in it: each line; behind it what lies in the
/// value of its key, where it has one, that is the comments and elements of arrays and the comments and pairs of inline
/// tables at every depth; and then the comment at its end. The mark is in no unit, nor is a line's newline.
///
/// The names are those of the document.
pub fn units(alloc: Global, doc: &Doc, names: &Names) -> Result<Vec<Unit>, AllocError>
    requires { names.now.named ≡ named (document doc.now).lines }
    ensures { IfOk result (λ us. all_units us.items ≡ map spanned (units_of (document doc.now).lines)) }
{
    let mut units = Vec::new(alloc);
    for (number, line) in doc.lines().iter().enumerate() {
        push_line(alloc, &mut units, names.address_of(number), line.expr())?;
    }
    Ok(units)
}
