//! How deep data reach; no memory is taken.
ghost use Rattle.std.specs.BTreeMap.{get_by_text};
ghost use Rattle.std.specs.Prelude.{◌≡◌, ◌↔◌, ◌∷◌, ◌++◌, ℕ, List, slice_get, IsTrue, IsSome};
ghost use Rattle.toml_names.specs.model.Data.{kind_at, kind_in};
ghost use Rattle.toml_edits.specs.Reach.{Reaches};

use std::collections::BTreeMap;
use toml_names::Datum;

/// Whether something stands so many steps below the datum's root.
#[cycle(reaches)]
pub(crate) fn reaches(datum: &Datum, steps: usize) -> bool
    ensures { IsTrue result ↔ Reaches (kind_at datum.now) steps }
{
    if steps == 0 {
        return true;
    }
    match datum {
        Datum::Scalar(_) => false,
        Datum::Array(items) => item_reaches(items, steps - 1),
        Datum::Table(members) => member_reaches(members, steps - 1),
    }
}

/// Whether something stands so many steps below an element.
#[cycle(reaches)]
fn item_reaches(items: &[Datum], steps: usize) -> bool
    ensures { IsTrue result ↔ ((index : ℕ) × Reaches (kind_in (slice_get items.now index)) steps) }
{
    for item in items {
        if reaches(item, steps) {
            return true;
        }
    }
    false
}

/// Whether something stands so many steps below a member.
#[cycle(reaches)]
fn member_reaches(members: &BTreeMap<String, Datum>, steps: usize) -> bool
    ensures { IsTrue result ↔ ((name : List ℕ) × Reaches (kind_in (get_by_text members.now name)) steps) }
{
    for (_, member) in members {
        if reaches(member, steps) {
            return true;
        }
    }
    false
}
