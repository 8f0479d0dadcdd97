//! The disk of the system.
use crate::disk::Disk;
use std::alloc::Global;
use std::fs::{File, Metadata, OpenFile, OpenOptions, Permissions};
use std::io::{ErrorKind, Write};
use std::os::unix::fs::{MetadataExt, OpenOptionsExt, PermissionsExt};
use std::rt::Files;
use std::{fs, io};

/// The permissions of a new file, until it gets those that it is to have.
const OWNER_ALONE: u32 = 0o600;

/// The disk of the system, and the file that was made last. It keeps no list of its calls: each is one call of `std`, or a few.
#[derive(Drop)]
pub struct RealDisk<'r, R: Files> {
    rt: &'r R,
    made: Option<R::File>,
}

impl<'r, R: Files> RealDisk<'r, R> {
    /// The disk, with no file made yet.
    pub fn new(rt: &'r R) -> Self {
        RealDisk { rt, made: None }
    }
}

/// The answer of a call on the file that was made last, where there is none.
fn none_made() -> io::Error {
    io::Error::new(ErrorKind::NotFound, "no file was made")
}

/// What stands at a path, or none.
fn look<R: Files>(rt: &R, path: &str) -> io::Result<Option<Metadata>> {
    match fs::metadata(rt, path) {
        Ok(metadata) => Ok(Some(metadata)),
        Err(error) if error.kind() == ErrorKind::NotFound => Ok(None),
        Err(error) => Err(error),
    }
}

impl<R: Files> Disk for RealDisk<'_, R> {
    ghost use Rattle.std.specs.Prelude.{None};

    ghost calls = { λ _. None };

    fn real_path(&mut self, alloc: Global, path: &str) -> io::Result<String> {
        if fs::symlink_metadata(self.rt, path)?.is_symlink() {
            return Ok(self.rt.canonicalize(alloc, path)?.into_string());
        }
        Ok(String::from_str(alloc, path)?)
    }

    fn mode(&mut self, path: &str) -> io::Result<u32> {
        let metadata = fs::metadata(self.rt, path)?;
        if metadata.is_dir() {
            return Err(io::Error::from(ErrorKind::IsADirectory));
        }
        if !metadata.is_file() {
            return Err(io::Error::new(ErrorKind::InvalidInput, "not a plain file"));
        }
        Ok(metadata.permissions().mode())
    }

    fn create_new(&mut self, path: &str) -> io::Result<bool> {
        let mut options = OpenOptions::new();
        options.write(true).create_new(true).mode(OWNER_ALONE);
        match options.open(self.rt, path) {
            Ok(file) => {
                self.made = Some(file);
                Ok(true)
            }
            Err(error) if error.kind() == ErrorKind::AlreadyExists => Ok(false),
            Err(error) => Err(error),
        }
    }

    fn write_all(&mut self, text: &[u8]) -> io::Result<()> {
        match &mut self.made {
            Some(file) => file.write_all(text),
            None => Err(none_made()),
        }
    }

    fn sync(&mut self) -> io::Result<()> {
        match &self.made {
            Some(file) => file.sync_all(),
            None => Err(none_made()),
        }
    }

    fn set_mode(&mut self, mode: u32) -> io::Result<()> {
        match &self.made {
            Some(file) => file.set_permissions(Permissions::from_mode(mode)),
            None => Err(none_made()),
        }
    }

    fn is_same(&mut self, path: &str, other: &str) -> io::Result<bool> {
        if path == other {
            return Ok(true);
        }
        let Some(first) = look(self.rt, path)? else {
            return Ok(false);
        };
        let second = fs::metadata(self.rt, other)?;
        Ok(first.dev() == second.dev() && first.ino() == second.ino())
    }

    fn store(&mut self, path: &str, bytes: &[u8]) -> io::Result<()> {
        let mut file = File::create(self.rt, path)?;
        file.write_all(bytes)
    }

    fn rename(&mut self, from: &str, to: &str) -> io::Result<()> {
        self.made = None;
        fs::rename(self.rt, from, to)
    }

    fn remove(&mut self, path: &str) -> io::Result<()> {
        self.made = None;
        fs::remove_file(self.rt, path)
    }
}
