//! How the place of an edit and an address lie to each other.
ghost use Rattle.std.specs.Prelude.{◌≡◌};
ghost use Rattle.toml_edits.specs.Sides.{side};

use toml_names::Step;

/// Where a place lies, seen from an address.
#[derive(Clone, Copy, Debug, Drop, PartialEq, Eq)]
pub enum Side {
    /// Neither is a beginning of the other.
    Apart,
    /// Strictly above it.
    Above,
    /// At it.
    At,
    /// Strictly below it.
    Below,
}

/// Where the place lies. It takes no memory, and stops at the first steps that differ.
pub fn side_of(place: &[Step], steps: &[Step]) -> Side
    ensures { result ≡ side place.now steps.now }
{
    let mut left = steps;
    for step in place {
        let Some((first, rest)) = left.split_first() else {
            return Side::Below;
        };
        if !step.is_same(first) {
            return Side::Apart;
        }
        left = rest;
    }
    if left.is_empty() {
        Side::At
    } else {
        Side::Above
    }
}
