//! Which steps of a place are names, and which are indices.
ghost use Rattle.std.specs.Prelude.{◌≡◌};
ghost use Rattle.toml_one.specs.Steps.{ends_behind, ends_in_name, is_behind, is_index, is_name};

use toml_places::PlaceStep;

/// Whether the step is a name.
fn is_name(step: &PlaceStep) -> bool
    ensures { result ≡ is_name step.now }
{
    match step {
        PlaceStep::Name(_) => true,
        PlaceStep::Index(_) => false,
        PlaceStep::FromEnd(_) => false,
        PlaceStep::Behind => false,
    }
}

/// Whether the step is one that an array has.
pub(crate) fn is_index(step: &PlaceStep) -> bool
    ensures { result ≡ is_index step.now }
{
    match step {
        PlaceStep::Name(_) => false,
        PlaceStep::Index(_) => true,
        PlaceStep::FromEnd(_) => true,
        PlaceStep::Behind => true,
    }
}

/// Whether the step is `[+]`.
pub(crate) fn is_behind(step: &PlaceStep) -> bool
    ensures { result ≡ is_behind step.now }
{
    match step {
        PlaceStep::Name(_) => false,
        PlaceStep::Index(_) => false,
        PlaceStep::FromEnd(_) => false,
        PlaceStep::Behind => true,
    }
}

/// Whether the last step is a name.
pub(crate) fn ends_in_name(place: &[PlaceStep]) -> bool
    ensures { result ≡ ends_in_name place.now }
{
    match place.last() {
        Some(step) => is_name(step),
        None => false,
    }
}

/// Whether the last step is `[+]`.
pub(crate) fn ends_behind(place: &[PlaceStep]) -> bool
    ensures { result ≡ ends_behind place.now }
{
    match place.last() {
        Some(step) => is_behind(step),
        None => false,
    }
}
