//! Whether an address is at or above another.
ghost use Rattle.std.specs.Prelude.{◌≡◌, ◌↔◌, IsTrue};
ghost use Rattle.toml_checker.specs.CarriedTo.{IsAtOrAbove};

use toml_names::Address;

/// Whether the address is the other or above it. It takes no memory.
pub(crate) fn is_at_or_above(at: &Address, other: &Address) -> bool
    ensures { IsTrue result ↔ IsAtOrAbove at.now other.now }
{
    at.is_same(other) || at.is_above(other)
}
