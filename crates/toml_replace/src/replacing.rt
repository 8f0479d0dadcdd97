//! A file gets another text.
ghost use Rattle.std.specs.Prelude.{string_bytes};
ghost use Rattle.toml_replace.specs.Calls.{Made};
ghost use Rattle.toml_replace.specs.Replacement.{IsReplacement, pair_of};
ghost use Rattle.toml_replace.specs.Steps.{IsBeginning, IsCertifying, IsComparing, IsFilling, IsFinishing};

use crate::beside::make_beside;
use crate::disk::Disk;
use crate::fault::ReplaceFault;
use std::alloc::Global;
use std::io;

/// A file, and a new one beside it.
#[derive(Drop)]
struct Place {
    /// The file's path, behind all links.
    file: String,
    /// The file's permissions.
    mode: u32,
    /// The path of the new file.
    new: String,
}

/// Finds the file, and makes a new one beside it. Where it fails, nothing is made.
fn begin<D: Disk>(alloc: Global, disk: &mut D, path: &str) -> io::Result<Place>
    ensures { Made (D.calls disk.old) (D.calls disk.new) (IsBeginning path.now result) }
{
    let file = disk.real_path(alloc, path)?;
    let mode = disk.mode(file.as_str())?;
    let new = make_beside(alloc, disk, file.as_str())?;
    Ok(Place { file, mode, new })
}

/// Writes the new file.
fn fill<D: Disk>(disk: &mut D, text: &[u8], mode: u32) -> io::Result<()>
    ensures { Made (D.calls disk.old) (D.calls disk.new) (IsFilling text.now mode result) }
{
    disk.write_all(text)?;
    disk.sync()?;
    disk.set_mode(mode)
}

/// Refuses a path of a certificate that leads to a file of ours.
pub fn refuse_same<D: Disk>(disk: &mut D, path: &str, other: &str) -> io::Result<()>
    ensures { Made (D.calls disk.old) (D.calls disk.new) (IsComparing path.now other.now result) }
{
    if disk.is_same(path, other)? {
        let message = "the certificate may not take the place of what is read or edited";
        return Err(io::Error::new(io::ErrorKind::InvalidInput, message));
    }
    Ok(())
}

/// Writes the certificate, if there is one, to a path that leads neither to the file nor to the new one.
fn certify<D: Disk>(
    disk: &mut D,
    place: &Place,
    certificate: Option<(&str, &[u8])>,
) -> io::Result<()>
    ensures { Made (D.calls disk.old) (D.calls disk.new)
        (IsCertifying (string_bytes place.now.file) (string_bytes place.now.new) (pair_of certificate.entry) result) }
{
    let Some((path, bytes)) = certificate else {
        return Ok(());
    };
    refuse_same(disk, path, place.file.as_str())?;
    refuse_same(disk, path, place.new.as_str())?;
    disk.store(path, bytes)
}

/// What is to do once the new file is made.
fn finish<D: Disk>(
    disk: &mut D,
    place: &Place,
    text: &[u8],
    certificate: Option<(&str, &[u8])>,
) -> Result<(), ReplaceFault>
    ensures { Made (D.calls disk.old) (D.calls disk.new)
        (IsFinishing (string_bytes place.now.file) (string_bytes place.now.new) text.now place.now.mode (pair_of certificate.entry) result) }
{
    fill(disk, text, place.mode)?;
    if let Err(error) = certify(disk, place, certificate) {
        return Err(ReplaceFault::Certificate(error));
    }
    disk.rename(place.new.as_str(), place.file.as_str())?;
    Ok(())
}

/// Gives the file at a path the text, and writes a certificate, if there is one, to a path of its own. A symbolic link is followed
/// and stays. The text is written to a new file beside the file, synced, given the file's permissions, and renamed over it, behind
/// the certificate. Where anything fails the file is as it was, and the new one is taken away. The certificate may then be written.
pub fn replace<D: Disk>(
    alloc: Global,
    disk: &mut D,
    path: &str,
    text: &[u8],
    certificate: Option<(&str, &[u8])>,
) -> Result<(), ReplaceFault>
    ensures { Made (D.calls disk.old) (D.calls disk.new)
        (IsReplacement path.now text.now (pair_of certificate.entry) result) }
{
    let place = begin(alloc, disk, path)?;
    match finish(disk, &place, text, certificate) {
        Ok(()) => Ok(()),
        Err(fault) => {
            let _ = disk.remove(place.new.as_str());
            Err(fault)
        }
    }
}
