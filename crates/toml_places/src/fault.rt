//! Why a text is no place.
ghost use Rattle.std.specs.Prelude.{◌≡◌};
ghost use Rattle.toml_places.specs.declared.fault.PlaceFault.TheVariants.{NoMemory};

use std::alloc::{AllocError, AllocFailed};

/// Why a text is refused as a place.
#[derive(Clone, Copy, Debug, Drop, PartialEq, Eq)]
pub enum PlaceFault {
    /// It is no place, which a program refuses with code 340. The reader can't go on at the byte `at`, from 0; of a bad string
    /// this is its first mark, of a number past 18446744073709551615 its first digit. Bytes that are no UTF-8 are refused
    /// before all else, at the length of the longest front that is, and longer texts than 16 MiB at that limit.
    BadPlace { at: usize },
    /// A growth was refused.
    NoMemory,
}

impl From<AllocError> for PlaceFault {
    ghost from_gives = { λ _ e. e ≡ NoMemory };

    fn from(_: AllocError) -> PlaceFault {
        PlaceFault::NoMemory
    }
}

impl<T: Drop> From<AllocFailed<T>> for PlaceFault {
    ghost from_gives = { λ _ e. e ≡ NoMemory };

    fn from(_: AllocFailed<T>) -> PlaceFault {
        PlaceFault::NoMemory
    }
}
