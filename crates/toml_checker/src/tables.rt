//! What edits take away and change, read off where their places lie.
ghost use Rattle.std.specs.Prelude.{◌≡◌};
ghost use Rattle.toml_edits.specs.Edits.{change};
ghost use Rattle.toml_edits.specs.Sides.{is_at_or_above};
ghost use Rattle.toml_checker.specs.Plain.{removes, sets, sets_above, sets_it, renames, renames_in, part_is_gone, line_is_gone, line_is_changed, is_named};

use toml_edits::{Edit, Side};

/// What a unit is asked for.
#[derive(Clone, Copy, Debug, Drop, PartialEq, Eq)]
pub enum Part {
    /// A line or a pair: whether it stays as it is.
    Line,
    /// The line of a comment: whether it is still there.
    Home,
    /// An element.
    Element,
    /// A comment of an array or an inline table.
    Comment,
}

/// Whether the place is the address or lies above it.
fn is_at_or_above(side: Side) -> bool
    ensures { result ≡ is_at_or_above side }
{
    match side {
        Side::Above | Side::At => true,
        Side::Apart | Side::Below => false,
    }
}

/// Whether the edit removes what stands at the address or above it.
fn removes(edit: &Edit, side: Side) -> bool
    ensures { result ≡ removes (change edit.now) side }
{
    match edit {
        Edit::Remove { .. } => is_at_or_above(side),
        _ => false,
    }
}

/// Whether it sets what stands at the address or above it.
fn sets(edit: &Edit, side: Side) -> bool
    ensures { result ≡ sets (change edit.now) side }
{
    match edit {
        Edit::Set { .. } => is_at_or_above(side),
        _ => false,
    }
}

/// Whether it sets what stands strictly above the address.
fn sets_above(edit: &Edit, side: Side) -> bool
    ensures { result ≡ sets_above (change edit.now) side }
{
    match edit {
        Edit::Set { .. } => side == Side::Above,
        _ => false,
    }
}

/// Whether it sets what stands at the address.
fn sets_it(edit: &Edit, side: Side) -> bool
    ensures { result ≡ sets_it (change edit.now) side }
{
    match edit {
        Edit::Set { .. } => side == Side::At,
        _ => false,
    }
}

/// Whether it renames what stands at the address or above it.
fn renames(edit: &Edit, side: Side) -> bool
    ensures { result ≡ renames (change edit.now) side }
{
    match edit {
        Edit::Rename { .. } => is_at_or_above(side),
        _ => false,
    }
}

/// Whether it renames so at a place of more than so many steps.
fn renames_in(edit: &Edit, steps: usize, side: Side) -> bool
    ensures { result ≡ renames_in (change edit.now) steps side }
{
    match edit {
        Edit::Rename { at, .. } => is_at_or_above(side) && steps < at.steps().len(),
        _ => false,
    }
}

/// Whether a header line, an element or a comment of an array or an inline table goes.
fn part_is_gone(edit: &Edit, side: Side) -> bool
    ensures { result ≡ part_is_gone (change edit.now) side }
{
    removes(edit, side) || sets(edit, side)
}

/// Whether a line or a pair goes; `base` is, but for a header line, how many steps the address of the table has in which it stands.
fn line_is_gone(edit: &Edit, base: Option<usize>, side: Side) -> bool
    ensures { result ≡ line_is_gone (change edit.now) base side }
{
    match base {
        None => part_is_gone(edit, side),
        Some(_) => removes(edit, side) || sets_above(edit, side),
    }
}

/// Whether a line or a pair changes.
fn line_is_changed(edit: &Edit, base: Option<usize>, side: Side) -> bool
    ensures { result ≡ line_is_changed (change edit.now) base side }
{
    match base {
        None => renames(edit, side),
        Some(steps) => {
            sets_it(edit, side) || side == Side::Below || renames_in(edit, steps, side)
        }
    }
}

/// Whether the edit, whose place lies so, names what is asked for.
pub(crate) fn is_named(part: Part, edit: &Edit, base: Option<usize>, side: Side) -> bool
    ensures { result ≡ is_named part (change edit.now) base side }
{
    match part {
        Part::Line => line_is_gone(edit, base, side) || line_is_changed(edit, base, side),
        Part::Home => line_is_gone(edit, base, side),
        Part::Element => part_is_gone(edit, side) || side == Side::Below,
        Part::Comment => part_is_gone(edit, side),
    }
}
