//! A reader that keeps why a read failed.
ghost use Rattle.std.specs.Prelude.{◌≡◌};

use std::io;
use std::io::Read;

/// A reader, and why the last of its reads failed that did.
#[derive(Drop)]
pub struct Reasoned<R> {
    reader: R,
    reason: Option<io::Error>,
}

impl<R> Reasoned<R> {
    /// A reader of which nothing has failed yet.
    pub fn of(reader: R) -> Self
        ensures { result.reader ≡ reader }
    {
        Reasoned {
            reader,
            reason: None,
        }
    }
}

impl<R: Drop> Reasoned<R> {
    /// Why it failed.
    pub fn into_reason(self) -> io::Error {
        match self.reason {
            Some(error) => error,
            None => io::Error::from(io::ErrorKind::Other),
        }
    }
}

impl<R: Read> Read for Reasoned<R> {
    ghost remaining = { λ r. R.remaining r.reader };

    fn read(&mut self, room: &mut [u8]) -> io::Result<usize> {
        match self.reader.read(room) {
            Ok(count) => Ok(count),
            Err(error) => {
                let kind = error.kind();
                self.reason = Some(error);
                Err(io::Error::from(kind))
            }
        }
    }
}
