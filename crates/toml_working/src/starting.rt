//! How the working tree begins: with the lines as they stand in the document.
ghost use Rattle.std.specs.Prelude.{◌≡◌, IfOk, List, map};
ghost use Rattle.toml_layout.specs.KnownLines.{lines_known};
ghost use Rattle.toml_tree.specs.Tree.{Line as Lined};
ghost use Rattle.toml_layout.specs.OpenOutlines.{leaf_text};
ghost use Rattle.toml_working.specs.Reading.{fact_of};
ghost use Rattle.toml_working.specs.Starting.{StandForUnits, TakesLine};
ghost use Rattle.toml_working.specs.Manners.{style_of as newline_style};

use crate::lines::{Kept, Slot};
use crate::reading::LineFacts;
use std::alloc::{AllocError, Global};
use toml_layout::{KnownLine, Leaf};
use toml_units::{Unit, UnitKind};

/// A slot for each line of the document, which is as it was.
pub(crate) fn kept_slots<'x>(
    alloc: Global,
    units: &[Unit],
    facts: &[LineFacts],
) -> Result<Vec<Slot<'x>>, AllocError>
    ensures { IfOk result (λ slots. StandForUnits units.now facts.now slots.items) }
{
    let mut slots = Vec::with_capacity(alloc, facts.len())?;
    for (first, unit) in units.iter().enumerate() {
        if let Some(kept) = kept_of(facts, slots.len(), unit, first) {
            slots.push(Slot::Kept(kept))?;
        }
    }
    Ok(slots)
}

/// Of a line's own unit, which has the number `first` among the units, the line, which has the number among the lines; of
/// another unit none.
fn kept_of(facts: &[LineFacts], number: usize, unit: &Unit, first: usize) -> Option<Kept>
    ensures { (lines : List Lined) → facts.now ≡ map fact_of lines → TakesLine lines number unit.now first result }
{
    if !matches!(unit.kind, UnitKind::Line) {
        return None;
    }
    let facts = facts.get(number)?;
    Some(Kept {
        line: number,
        span: facts.span,
        is_last: facts.is_last,
        first,
    })
}

/// The newline of the first line, or LF where it has none.
pub(crate) fn style_of<'x>(alloc: Global, known: &[KnownLine<'x>]) -> Result<Leaf<'x>, AllocError>
    ensures { IfOk result (λ style. leaf_text style ≡ newline_style (lines_known known.now)) }
{
    let Some(first) = known.first() else {
        return Ok(Leaf::New("\n"));
    };
    let newline = first.newline(alloc)?;
    Ok(if newline.is_empty() {
        Leaf::New("\n")
    } else {
        Leaf::New(newline)
    })
}
