//! Tables in which no table stands: all their lines stand in one section.
ghost use Rattle.std.specs.Prelude.{◌≡◌, ℕ, IsTrue, Some, option_copied, slice_get};
ghost use Rattle.toml_scalar.specs.declared.scalar.Scalar.{Scalar as Token};
ghost use Rattle.toml_names.specs.declared.model.datum.Datum.{Datum as Item, Scalar};
ghost use Rattle.toml_names.specs.mentions.Mentions.{a_table};
ghost use Rattle.toml_names.specs.model.Addresses.{Address as Steps};
ghost use Rattle.toml_names.specs.model.Data.{kind_at};
ghost use Rattle.toml_working.specs.FlatTables.{IsFlat};
ghost use Rattle.toml_working.specs.FollowingHeaders.{is_header_line};
ghost use Rattle.toml_working.specs.NextHeaders.{FindsFirst};
ghost use Rattle.toml_working.specs.RemovingBelow.{FindsFirstBelow, TellsAny};

use crate::lines::Slot;
use crate::working::{Before, TablePlace, Tree};
use toml_names::{Address, Datum, Place};
use toml_units::Unit;

/// Whether it is a table in which no table stands: one of scalars and arrays of scalars.
pub fn is_flat(found: Option<&Datum>) -> bool
    ensures { IsTrue result → IsFlat (option_copied found.entry) }
{
    let Some(Datum::Table(members)) = found else {
        return false;
    };
    for (_, member) in members {
        if !has_no_table(member) {
            return false;
        }
    }
    true
}

/// Whether it is a scalar or an array of scalars.
fn has_no_table(member: &Datum) -> bool
    ensures { IsTrue result → (a : Steps) → ¬ (kind_at member.now a ≡ Some a_table) }
{
    match member {
        Datum::Scalar(_) => true,
        Datum::Array(items) => are_scalars(items),
        Datum::Table(_) => false,
    }
}

/// Whether all are scalars.
fn are_scalars(items: &[Datum]) -> bool
    ensures { IsTrue result → (i : ℕ) (d : Item) → slice_get items.now i ≡ Some d → (s : Token) × (d ≡ Scalar s) }
{
    for item in items {
        if !matches!(item, Datum::Scalar(_)) {
            return false;
        }
    }
    true
}

impl<'x> Tree<'x> {
    /// The slot before which no line stands at the address or below, where the lines there begin with a header: those of an
    /// element of an array of tables, and of a table in which no table stands.
    pub(crate) fn first_slot(
        &self,
        before: Before<'_, 'x>,
        named: Option<Place>,
        at: &Address,
        begins: bool,
    ) -> usize
        ensures headers { FindsFirst at.now before.entry.units.now self.now.slots.items result }
        ensures lines { FindsFirstBelow at.now before.entry.units.now self.now.slots.items begins result }
    {
        match self.near_table(before, named, at) {
            Some(TablePlace::Header(header)) if begins => header.slot,
            _ => 0,
        }
    }
}

impl<'t> Slot<'t> {
    /// Whether one of its lines is a header.
    pub(crate) fn has_header<'a>(&'a self, units: &'a [Unit]) -> bool
        ensures { TellsAny is_header_line units.now self.now result }
    {
        for index in 0..self.count() {
            let Some(line) = self.seen(units, index) else {
                return false;
            };
            if line.is_header() {
                return true;
            }
        }
        false
    }
}
