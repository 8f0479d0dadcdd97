//! Why a file did not get its text.
use std::io;

/// Why a file did not get its text. It has the old one, and no new file is left where that could be taken away. Want of memory
/// is an error of the kind `OutOfMemory`.
#[derive(Debug, Drop)]
pub enum ReplaceFault {
    /// A call on the file or on the new one beside it failed.
    File(io::Error),
    /// The certificate could not be written.
    Certificate(io::Error),
}

/// An error is the file's, where it is not said to be the certificate's.
impl From<io::Error> for ReplaceFault {
    ghost use Rattle.std.specs.Prelude.{◌≡◌};
    ghost use Rattle.toml_replace.specs.declared.fault.ReplaceFault.TheVariants.{File};

    ghost from_gives = { λ error fault. fault ≡ File error };

    fn from(error: io::Error) -> ReplaceFault {
        ReplaceFault::File(error)
    }
}
