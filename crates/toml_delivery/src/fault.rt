//! Why a run has no outcome, and how it then ends.
ghost use Rattle.std.specs.Prelude.{◌≡◌};

use crate::input::TakeFault;
use std::alloc::{AllocError, AllocFailed};
use std::io;

/// Why a run has no outcome.
#[derive(Clone, Copy)]
pub enum RunFault {
    /// The words make no request.
    Words,
    /// A file, or the output, failed.
    File,
    /// There was no memory.
    Memory,
}

impl RunFault {
    ghost use Rattle.toml_delivery.specs.RunFaults.{fault_of_kind, status_of, told};

    /// The exit status.
    pub fn status(self) -> u8
        ensures { result ≡ status_of self }
    {
        match self {
            RunFault::Words => 2,
            RunFault::File => 3,
            RunFault::Memory => 4,
        }
    }

    /// What a file that could not be opened comes to, by the kind of the error.
    pub fn of_kind(kind: io::ErrorKind) -> RunFault
        ensures { result ≡ fault_of_kind kind }
    {
        match kind {
            io::ErrorKind::OutOfMemory => RunFault::Memory,
            _ => RunFault::File,
        }
    }

    /// What standard error is told.
    pub fn text(self) -> &'static str
        ensures { result.now ≡ told self }
    {
        match self {
            RunFault::Words => "bad words\n",
            RunFault::File => "file fault\n",
            RunFault::Memory => "no memory\n",
        }
    }
}

impl From<AllocError> for RunFault {
    ghost use Rattle.toml_delivery.specs.declared.fault.RunFault.TheVariants.{Memory};

    ghost from_gives = { λ _ fault. fault ≡ Memory };

    fn from(_error: AllocError) -> RunFault {
        RunFault::Memory
    }
}

impl<T: Drop> From<AllocFailed<T>> for RunFault {
    ghost use Rattle.toml_delivery.specs.declared.fault.RunFault.TheVariants.{Memory};

    ghost from_gives = { λ _ fault. fault ≡ Memory };

    fn from(_error: AllocFailed<T>) -> RunFault {
        RunFault::Memory
    }
}

impl From<TakeFault> for RunFault {
    ghost use Rattle.toml_delivery.specs.RunFaults.{fault_of_take};

    ghost from_gives = { λ error fault. fault ≡ fault_of_take error };

    fn from(error: TakeFault) -> RunFault {
        match error {
            TakeFault::Device => RunFault::File,
            TakeFault::NoMemory => RunFault::Memory,
        }
    }
}

impl From<io::Error> for RunFault {
    ghost use Rattle.std.specs.IoError.{error_kind};
    ghost use Rattle.toml_delivery.specs.RunFaults.{fault_of_kind};

    ghost from_gives = { λ error fault. fault ≡ fault_of_kind (error_kind error) };

    fn from(error: io::Error) -> RunFault {
        RunFault::of_kind(error.kind())
    }
}
