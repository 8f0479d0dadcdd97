//! Readers and writers in memory, of which one read or write fails.

use std::alloc::Global;
use std::io;
use std::io::{Read, Write};

/// Gives one byte a read, and fails at the read with this number, from 1.
#[derive(Drop)]
pub struct Giver<'t> {
    pub bytes: &'t [u8],
    pub failing: usize,
    pub reads: usize,
}

impl<'t> Read for Giver<'t> {
    fn read(&mut self, room: &mut [u8]) -> io::Result<usize> {
        self.reads = self.reads.saturating_add(1);
        if self.reads == self.failing {
            return Err(io::Error::from(io::ErrorKind::Other));
        }
        if self.bytes.is_empty() || room.is_empty() {
            return Ok(0);
        }
        room[0] = self.bytes[0];
        self.bytes = &self.bytes[1..];
        Ok(1)
    }
}

/// Keeps at most `most` bytes a write, and fails at the write with this number, from 1.
#[derive(Drop)]
pub struct Keeper {
    pub bytes: Vec<u8>,
    most: usize,
    failing: usize,
    pub writes: usize,
}

impl Keeper {
    pub fn new(alloc: Global, most: usize, failing: usize) -> Keeper {
        Keeper {
            bytes: Vec::new(alloc),
            most,
            failing,
            writes: 0,
        }
    }
}

impl Write for Keeper {
    ghost use Rattle.std.specs.Prelude.{Some};

    ghost contents = { λ k. Some k.bytes.items };

    fn write(&mut self, bytes: &[u8]) -> io::Result<usize> {
        self.writes = self.writes.saturating_add(1);
        if self.writes == self.failing {
            return Err(io::Error::from(io::ErrorKind::Other));
        }
        let taken = bytes.len().min(self.most);
        self.bytes.extend_from_slice(&bytes[..taken])?;
        Ok(taken)
    }

    fn flush(&mut self) -> io::Result<()> {
        Ok(())
    }
}
