//! A part of data by value, for another one: what was taken out on the way is put back. No memory is taken.
ghost use Rattle.std.specs.Prelude.{◌≡◌, ◌++◌, [], IsSome, option_copied, true};
ghost use Rattle.toml_names.specs.model.Addresses.{Address};
ghost use Rattle.toml_names.specs.model.Data.{kind_at, kind_in};
ghost use Rattle.toml_edits.specs.Changed.{below};
ghost use Rattle.toml_edits.specs.Drafts.{elements_at, filled, is_array};

use crate::change::hole;
use std::alloc::Global;
use std::mem;
use toml_names::{Datum, Step};

/// Puts a part in the place of what the steps lead to, and gives the whole, and what stood there.
fn exchange_at(datum: Datum, steps: &[Step], part: Datum) -> (Datum, Datum)
    requires { IsSome (kind_at datum steps.now) }
    ensures whole { (at : Address) → kind_at result.0 at ≡ below steps.now (λ old. kind_at part) (kind_at datum) at }
    ensures part { (at : Address) → kind_at result.1 at ≡ kind_at datum (steps.now ++ at) }
{
    let Some((step, rest)) = steps.split_first() else {
        return (part, datum);
    };
    let (hollow, inner) = datum.swap_child(step, hole());
    let (inner, old) = exchange_at(inner, rest, part);
    let (whole, _hole) = hollow.swap_child(step, inner);
    (whole, old)
}

/// Puts a part in the place of what the steps lead to, and gives what stood there.
fn exchange(root: &mut Datum, steps: &[Step], part: Datum) -> Datum
    requires { IsSome (kind_at root.old steps.now) }
    ensures whole { (at : Address) → kind_at root.new at ≡ below steps.now (λ old. kind_at part) (kind_at root.old) at }
    ensures part { (at : Address) → kind_at result at ≡ kind_at root.old (steps.now ++ at) }
{
    let whole = mem::replace(root, hole());
    let (whole, old) = exchange_at(whole, steps, part);
    *root = whole;
    old
}

/// Whether it is an array.
fn is_an_array(found: Option<&Datum>) -> bool
    ensures { result ≡ is_array (kind_in (option_copied found.entry) []) }
{
    match found {
        Some(Datum::Array(_)) => true,
        Some(Datum::Scalar(_)) | Some(Datum::Table(_)) | None => false,
    }
}

/// Whether an array stands at the steps.
pub(crate) fn has_array(root: &Datum, steps: &[Step]) -> bool
    ensures { result ≡ is_array (kind_at root.now steps.now) }
{
    is_an_array(root.part(steps))
}

/// The elements of an array.
fn elements_of(alloc: Global, array: Datum) -> Vec<Datum>
    requires { is_array (kind_at array []) ≡ true }
    ensures { (at : Address) → elements_at result.items at ≡ kind_at array at }
{
    match array {
        Datum::Array(items) => items,
        Datum::Scalar(_) | Datum::Table(_) => Vec::new(alloc),
    }
}

/// Takes the elements out of the array at the steps, which stays there, empty.
pub(crate) fn empty(alloc: Global, root: &mut Datum, steps: &[Step]) -> Vec<Datum>
    requires { is_array (kind_at root.old steps.now) ≡ true }
    ensures emptied { is_array (kind_at root.new steps.now) ≡ true }
    ensures elements { (at : Address) → filled steps.now result.items (kind_at root.new) at ≡ kind_at root.old at }
{
    let array = exchange(root, steps, Datum::Array(Vec::new(alloc)));
    elements_of(alloc, array)
}

/// Puts these elements in the place of those of the array at the steps, if there is one.
pub(crate) fn fill(root: &mut Datum, steps: &[Step], elements: Vec<Datum>)
    ensures { (at : Address) → kind_at root.new at ≡ filled steps.now elements.items (kind_at root.old) at }
{
    if has_array(root, steps) {
        let _old = exchange(root, steps, Datum::Array(elements));
    }
}
