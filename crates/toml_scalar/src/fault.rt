ghost use Rattle.std.specs.Prelude.{◌≡◌};
ghost use Rattle.toml_scalar.specs.Faults.{IsAt, byte_fault};
ghost use Rattle.toml_scalar.specs.declared.fault.SyntaxFault.TheVariants.{NoMemory};

use std::alloc::{AllocError, AllocFailed};

/// Why a text is refused. A place `at` is a byte offset from 0, U+FEFF counted, and at most the text's length.
#[derive(Clone, Copy, Debug, Drop, PartialEq, Eq)]
pub enum SyntaxFault {
    /// A control character stands where the reader can't go on.
    BadCharacter { at: usize },
    /// Something else stands where the reader can't go on, or the text ends there.
    Expected { at: usize },
    /// A string is bad or not closed; `at` is its first mark.
    BadString { at: usize },
    /// What begins as a number does is none.
    BadNumber { at: usize },
    /// An integer lies outside -2^63 to 2^63 - 1.
    IntegerRange { at: usize },
    /// What begins as a date or a time does is none.
    BadDate { at: usize },
    /// Values nest more than 100 deep.
    TooDeep { at: usize },
    /// A growth was refused.
    NoMemory,
}

impl SyntaxFault {
    /// The refusal of what stands at a place, where nothing that may stand there does.
    pub fn of_byte(rest: &[u8], at: usize) -> SyntaxFault
        ensures fault { result ≡ byte_fault rest.now at }
        ensures place { IsAt at result }
    {
        match rest {
            [b'\t', ..] | [b'\n', ..] | [b'\r', b'\n', ..] => SyntaxFault::Expected { at },
            [first, ..] if *first < 0x20 || *first == 0x7F => SyntaxFault::BadCharacter { at },
            _ => SyntaxFault::Expected { at },
        }
    }
}

impl From<AllocError> for SyntaxFault {
    ghost from_gives = { λ _ e. e ≡ NoMemory };

    fn from(_: AllocError) -> SyntaxFault {
        SyntaxFault::NoMemory
    }
}

impl<T: Drop> From<AllocFailed<T>> for SyntaxFault {
    ghost from_gives = { λ _ e. e ≡ NoMemory };

    fn from(_: AllocFailed<T>) -> SyntaxFault {
        SyntaxFault::NoMemory
    }
}
