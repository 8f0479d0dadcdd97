//! A reader or a writer that counts its failed reads or writes.
ghost use Rattle.std.specs.Prelude.{◌≡◌};

use std::io;
use std::io::{Read, Write};
use std::marker::Model;

/// A reader or a writer, and the count of its failed reads or writes. A read fails where it answers an error; a write
/// too, and where it takes no byte of a text that has one. The count stays at the greatest u64.
#[derive(Drop)]
pub struct Counting<W> {
    device: W,
    failed: u64,
}

impl<W> Model for Counting<W> {
    ghost use Rattle.toml_delivery.specs.Counts.{Counted};

    ghost Value = { Counted W };

    ghost view = { λ c. record { device = c.device; failures = c.failed } };
}

impl<W> Counting<W> {
    /// A reader or a writer of which nothing has failed yet.
    pub fn new(device: W) -> Self
        ensures { result ≡ record { device = device; failures = 0 } }
    {
        Counting { device, failed: 0 }
    }

    /// How many reads or writes failed.
    pub fn failed(&self) -> u64
        ensures { result ≡ self.now.failures }
    {
        self.failed
    }
}

impl<W: Write> Counting<W> {
    ghost use Rattle.std.specs.Io.{WritesAtMost};
    ghost use Rattle.std.specs.Io.KnownBytes.{WriteAppends};
    ghost use Rattle.toml_delivery.specs.Counts.{count_after};

    /// Answers what the writer's own write answers: how many of the first bytes it took.
    pub fn write(&mut self, bytes: &[u8]) -> io::Result<usize>
        ensures bound { WritesAtMost result bytes.now }
        ensures bytes { WriteAppends (W.contents self.old.device) (W.contents self.new.device)
            result bytes.now }
        ensures count { self.new.failures ≡ count_after bytes.now result self.old.failures }
    {
        let answer = self.device.write(bytes);
        let failed = match &answer {
            Ok(taken) => *taken == 0 && !bytes.is_empty(),
            Err(_) => true,
        };
        if failed {
            self.failed = self.failed.saturating_add(1);
        }
        answer
    }
}

impl<R: Read> Counting<R> {
    ghost use Rattle.std.specs.Io.{ReadsAtMost};
    ghost use Rattle.std.specs.Io.KnownBytes.{ReadConsumes};
    ghost use Rattle.toml_delivery.specs.Counts.{count_after_read};

    /// Answers what the reader's own read answers: how many bytes it put at the front of the room.
    pub fn read(&mut self, room: &mut [u8]) -> io::Result<usize>
        ensures bound { ReadsAtMost result room.new }
        ensures bytes { ReadConsumes (R.remaining self.old.device) (R.remaining self.new.device)
            result room.new }
        ensures count { self.new.failures ≡ count_after_read result self.old.failures }
    {
        let answer = self.device.read(room);
        if answer.is_err() {
            self.failed = self.failed.saturating_add(1);
        }
        answer
    }
}
