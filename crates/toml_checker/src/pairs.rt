//! Whether the units of a pair are the same, but for where the edits carry them.
ghost use Rattle.std.specs.Prelude.{◌≡◌, ◌↔◌, IsTrue, IfOk};
ghost use Rattle.toml_checker.specs.Added.{has_no_bytes};
ghost use Rattle.toml_checker.specs.EditLists.{changes};
ghost use Rattle.toml_checker.specs.Sights.{HasSight};
ghost use Rattle.toml_checker.specs.Traces.{KeepsLine};
ghost use Rattle.toml_checker.specs.Walking.{AreAlikeAt, bytes_at};

use crate::arriving::is_carried_to;
use crate::edit_list::EditList;
use crate::unmarked::text_at;
use std::alloc::{AllocError, Global};
use toml_edits::Sight;
use toml_units::{Unit, UnitKind};

/// A unit of a text, and the newline of its line.
#[derive(Clone, Copy)]
pub(crate) struct Spot<'x> {
    pub(crate) text: &'x [u8],
    pub(crate) unit: &'x Unit,
    pub(crate) newline: &'x str,
}

/// Whether a newline has no bytes: that of the last line of a text.
pub(crate) fn has_no_bytes(newline: &str) -> bool
    ensures { result ≡ has_no_bytes newline.now }
{
    newline.is_empty()
}

/// Whether two lines have one newline, or one of them has none.
fn keeps_line(one: &str, other: &str) -> bool
    ensures { IsTrue result ↔ KeepsLine one.now other.now }
{
    let same = one == other;
    same | has_no_bytes(one) | has_no_bytes(other)
}

/// Whether the units have the same bytes.
fn has_same_text(one: Spot, other: Spot) -> bool
    ensures { IsTrue result ↔ (bytes_at one.entry ≡ bytes_at other.entry) }
{
    text_at(one.text, one.unit) == text_at(other.text, other.unit)
}

/// Whether the units are of one kind, with the same bytes, the edits carry the one's address to the other's, and lines have
/// one newline or are the last of a text.
pub(crate) fn are_alike(
    alloc: Global,
    list: &EditList,
    sight: Sight,
    one: Spot,
    other: Spot,
) -> Result<bool, AllocError>
    requires { HasSight list.now one.unit.now.address sight }
    ensures { IfOk result (λ holds. IsTrue holds ↔ AreAlikeAt (changes list.now) one.entry other.entry) }
{
    if one.unit.kind != other.unit.kind || !has_same_text(one, other) {
        return Ok(false);
    }
    if matches!(one.unit.kind, UnitKind::Line) && !keeps_line(one.newline, other.newline) {
        return Ok(false);
    }
    let from = one.unit.address.as_ref();
    is_carried_to(alloc, list, sight, from, other.unit.address.as_ref())
}
