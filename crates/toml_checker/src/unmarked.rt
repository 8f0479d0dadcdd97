//! Comments without a mark, and the texts of comments.
ghost use Rattle.std.specs.Prelude.{◌≡◌, ◌&&◌, IfOk, length, map, not};
ghost use Rattle.toml_checker.specs.Comments.{is_comment};
ghost use Rattle.toml_checker.specs.Counts.{plain};
ghost use Rattle.toml_checker.specs.UnmarkedComments.{text_at, unmarked};
ghost use Rattle.toml_units.specs.View.{unit, all_units};

use std::alloc::{AllocError, Global};
use toml_units::{Unit, UnitKind};

/// What stands at the span of a unit; outside of the text nothing.
pub(crate) fn text_at<'t>(text: &'t [u8], comment: &Unit) -> &'t [u8]
    ensures { result.now ≡ text_at text.now (unit comment.now) }
{
    let start = comment.span.start;
    let end = comment.span.end;
    if start <= end && end <= text.len() {
        &text[start..end]
    } else {
        &text[..0]
    }
}

/// Whether the unit is a comment without a mark.
pub(crate) fn is_unmarked(comment: &Unit, marked: bool) -> bool
    ensures { result ≡ is_comment comment.now.kind && not marked }
{
    match comment.kind {
        UnitKind::TailComment => !marked,
        UnitKind::InnerComment => !marked,
        _ => false,
    }
}

/// The comments without a mark, in order.
pub(crate) fn unmarked<'u>(
    alloc: Global,
    units: &'u [Unit],
    marks: &[bool],
) -> Result<Vec<&'u Unit>, AllocError>
    requires { length marks.now ≡ length units.now }
    ensures { IfOk result (λ us. all_units (map (λ u. u.now) us.items) ≡ unmarked marks.now (all_units units.now)) }
{
    let mut found = Vec::new(alloc);
    for (index, unit) in units.iter().enumerate() {
        if is_unmarked(unit, marks[index]) {
            found.push(unit)?;
        }
    }
    Ok(found)
}

/// The texts of comments.
pub(crate) fn texts_of<'t>(
    alloc: Global,
    text: &'t [u8],
    comments: &[&Unit],
) -> Result<Vec<&'t [u8]>, AllocError>
    ensures { IfOk result (λ ts. plain ts.items ≡ map (text_at text.now) (all_units (map (λ u. u.now) comments.now))) }
{
    let mut texts = Vec::with_capacity(alloc, comments.len())?;
    for comment in comments {
        texts.push(text_at(text, comment))?;
    }
    Ok(texts)
}
