//! The data of documents, built whole.
ghost use Rattle.std.specs.Prelude.{◌≡◌, OnOk};
ghost use Rattle.toml_scalar.specs.declared.fault.SyntaxFault.TheVariants.{NoMemory};

use std::alloc::{AllocError, Global};
use toml_names::{Data, NameFault, read_lines};
use toml_text::Source;
use toml_tree::{Profile, SyntaxFault, parse_in};

/// Passes on that there was no memory.
pub(crate) fn told_names(fault: NameFault) -> Result<(), AllocError> {
    match fault {
        NameFault::NoMemory => Err(AllocError),
        _ => Ok(()),
    }
}

/// Passes on that there was no memory for reading the syntax.
pub(crate) fn told_syntax(fault: SyntaxFault) -> Result<(), AllocError>
    ensures { OnOk result (¬ (fault ≡ NoMemory)) }
{
    match fault {
        SyntaxFault::NoMemory => Err(AllocError),
        _ => Ok(()),
    }
}

/// The data of a document of the profile; none of other bytes.
pub(crate) fn data_of(
    alloc: Global,
    bytes: &[u8],
    profile: Profile,
) -> Result<Option<Data>, AllocError> {
    let Ok(source) = Source::new(bytes) else {
        return Ok(None);
    };
    let doc = match parse_in(alloc, source, profile) {
        Ok(doc) => doc,
        Err(fault) => {
            told_syntax(fault)?;
            return Ok(None);
        }
    };
    match read_lines(alloc, &doc) {
        Ok(names) => Ok(Some(names.data()?)),
        Err(fault) => {
            told_names(fault)?;
            Ok(None)
        }
    }
}
