//! New files beside a file.
ghost use Rattle.std.specs.Prelude.{IfOk, string_bytes};
ghost use Rattle.toml_replace.specs.Beside.{IsBeside};
ghost use Rattle.toml_replace.specs.Calls.{Made};
ghost use Rattle.toml_replace.specs.Steps.{IsMaking};

use crate::disk::Disk;
use std::alloc::{AllocError, Global};
use std::io;

/// How many names are tried. A run that was cut off may have left a file under one.
const MOST_NAMES: usize = 100;

/// A path in the file's folder: a dot, the file's name, and a suffix with the number.
fn path_beside(alloc: Global, file: &str, number: usize) -> Result<String, AllocError>
    ensures { IfOk result (λ new. IsBeside file.now (string_bytes new)) }
{
    match file.rsplit_once('/') {
        Some((folder, name)) => format!(in alloc; "{folder}/.{name}.tomled{number}"),
        None => format!(in alloc; ".{file}.tomled{number}"),
    }
}

/// Makes a new file beside a file, and answers its path.
pub(crate) fn make_beside<D: Disk>(alloc: Global, disk: &mut D, file: &str) -> io::Result<String>
    ensures { Made (D.calls disk.old) (D.calls disk.new) (IsMaking file.now result) }
{
    for number in 0..MOST_NAMES {
        let new = path_beside(alloc, file, number)?;
        if disk.create_new(new.as_str())? {
            return Ok(new);
        }
    }
    Err(io::Error::from(io::ErrorKind::AlreadyExists))
}
