//! Vectors that mostly hold one thing where they hold any.
ghost use Rattle.std.specs.Prelude.{◌≡◌, ◌∷◌, ◌++◌, OnOk, []};

use std::alloc::AllocError;

/// Adds a thing at the end. The first takes room for itself alone: a vector that grows by itself takes room for four.
pub(crate) fn push_sparing<T: Drop>(list: &mut Vec<T>, thing: T) -> Result<(), AllocError>
    ensures items { OnOk result (list.new.items ≡ list.old.items ++ thing ∷ []) }
{
    if list.is_empty() {
        list.reserve_exact(1)?;
    }
    list.push(thing)?;
    Ok(())
}
