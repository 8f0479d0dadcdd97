//! How a command ends where it has nothing good to print.
ghost use Rattle.std.specs.Prelude.{◌≡◌};

use crate::refusal::Refusal;
use std::alloc::AllocError;

/// Why a command has nothing good to print.
#[derive(Clone, Copy, Debug, PartialEq, Eq)]
pub enum Ending {
    /// What was handed in is refused.
    Refused(Refusal),
    /// There was no memory.
    NoMemory,
}

impl From<AllocError> for Ending {
    ghost use Rattle.toml_delivery.specs.declared.ending.Ending.TheVariants.{NoMemory};

    ghost from_gives = { λ _ ending. ending ≡ NoMemory };

    fn from(_error: AllocError) -> Ending {
        Ending::NoMemory
    }
}
