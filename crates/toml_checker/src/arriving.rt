//! Whether edits carry an address to another.
ghost use Rattle.std.specs.Prelude.{◌≡◌, ◌↔◌, IsTrue, IfOk, Some};
ghost use Rattle.toml_names.specs.model.Addresses.{lent};
ghost use Rattle.toml_edits.specs.Lists.{carried};
ghost use Rattle.toml_checker.specs.CarriedTo.{IsCarriedTo};
ghost use Rattle.toml_checker.specs.EditLists.{changes};
ghost use Rattle.toml_checker.specs.Sights.{HasSight, StaysBy};

use crate::edit_list::EditList;
use std::alloc::{AllocError, Global};
use toml_edits::Sight;
use toml_names::Address;

/// Whether what has the sight stays where it is; where not, it is not known.
fn stays(sight: Sight) -> bool
    ensures { StaysBy sight result }
{
    match sight {
        Sight::Unknown | Sight::Nowhere => false,
        Sight::Somewhere(trace) => !trace.moved,
    }
}

/// Whether the edits carry the one address to the other. An address is made only where an edit moves it.
fn arrives(
    alloc: Global,
    list: &EditList,
    sight: Sight,
    from: &Address,
    to: &Address,
) -> Result<bool, AllocError>
    requires { HasSight list.now (Some from.now) sight }
    ensures { IfOk result (λ arrived. IsTrue arrived ↔ (carried (changes list.now) from.now ≡ Some to.now)) }
{
    if stays(sight) {
        return Ok(from.is_same(to));
    }
    match list.carry(alloc, from)? {
        Some(at) => Ok(at.is_same(to)),
        None => Ok(false),
    }
}

/// Whether there is no address, or the edits carry the one to the other.
pub(crate) fn is_carried_to(
    alloc: Global,
    list: &EditList,
    sight: Sight,
    from: Option<&Address>,
    to: Option<&Address>,
) -> Result<bool, AllocError>
    requires { HasSight list.now (lent from) sight }
    ensures { IfOk result (λ arrived. IsTrue arrived ↔ IsCarriedTo (changes list.now) (lent from.entry) (lent to.entry)) }
{
    match (from, to) {
        (None, None) => Ok(true),
        (Some(from), Some(to)) => arrives(alloc, list, sight, from, to),
        _ => Ok(false),
    }
}
