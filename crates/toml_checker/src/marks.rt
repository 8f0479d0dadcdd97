//! Marks on units, and how far marked units reach.
ghost use Rattle.std.specs.Prelude.{◌≡◌, ℕ, IfOk, vec_len};
ghost use Rattle.toml_checker.specs.Marks.{IsSet, reach_with, reaches};

use std::alloc::{AllocError, Global};

/// The furthest end of marked units so far, with that of one more that may be marked.
pub(crate) fn reach_with(reach: Option<usize>, marked: bool, end: usize) -> Option<usize>
    ensures { result ≡ reach_with reach marked end }
{
    if !marked {
        return reach;
    }
    match reach {
        Some(far) if end <= far => Some(far),
        _ => Some(end),
    }
}

/// Whether the end is no further.
pub(crate) fn reaches(reach: Option<usize>, end: usize) -> bool
    ensures { result ≡ reaches reach end }
{
    match reach {
        Some(far) => end <= far,
        None => false,
    }
}

/// No marks on so many units.
pub(crate) fn no_marks(alloc: Global, count: usize) -> Result<Vec<bool>, AllocError>
    ensures len { IfOk result (λ v. vec_len v ≡ count) }
    ensures none { IfOk result (λ v. (i : ℕ) → ¬ (IsSet v.items i)) }
{
    let mut marks = Vec::with_capacity(alloc, count)?;
    for _ in 0..count {
        marks.push(false)?;
    }
    Ok(marks)
}
