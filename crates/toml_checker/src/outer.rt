//! Which protected units lie in no other one.
ghost use Rattle.std.specs.Prelude.{◌≡◌, ◌&&◌, not, IfOk, false, length, map, slice_index_or, vec_len};
ghost use Rattle.toml_edits.specs.Edits.{change};
ghost use Rattle.toml_checker.specs.Marks.{TellFree};
ghost use Rattle.toml_checker.specs.Outer.{TellOuterOf};

use crate::marks::{reach_with, reaches};
use crate::protection::protected;
use std::alloc::{AllocError, Global};
use toml_edits::Edit;
use toml_units::Unit;

/// Whether a unit is marked, and lies in no marked one.
fn stands_alone(marked: bool, inside: bool) -> bool
    ensures { result ≡ (marked && not inside) }
{
    marked && !inside
}

/// Whether the unit with the index is marked.
fn is_marked(marks: &[bool], index: usize) -> bool
    ensures { result ≡ slice_index_or marks.now index false }
{
    match marks.get(index) {
        Some(marked) => *marked,
        None => false,
    }
}

/// Which units are marked and end further than each marked one before them: in a document, where the starts do not fall, lie
/// in no other marked one.
fn free(alloc: Global, units: &[Unit], marks: &[bool]) -> Result<Vec<bool>, AllocError>
    ensures len { IfOk result (λ v. vec_len v ≡ length units.now) }
    ensures free { IfOk result (λ v. TellFree units.now marks.now v.items) }
{
    let mut free = Vec::new(alloc);
    let mut reach = None;
    for (index, unit) in units.iter().enumerate() {
        let end = unit.span.end;
        let marked = is_marked(marks, index);
        free.push(stands_alone(marked, reaches(reach, end)))?;
        reach = reach_with(reach, marked, end);
    }
    Ok(free)
}

/// Which units of a document are protected under the edits and lie in no other protected unit. All protected units are these
/// and those that lie in them.
pub fn outermost(alloc: Global, units: &[Unit], edits: &[Edit]) -> Result<Vec<bool>, AllocError>
    ensures { IfOk result (λ flags. TellOuterOf units.now (map change edits.now) flags.items) }
{
    let flags = protected(alloc, units, edits)?;
    let outer = free(alloc, units, &flags)?;
    Ok(outer)
}
