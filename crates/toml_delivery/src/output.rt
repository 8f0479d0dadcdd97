//! Writing a whole text to a writer that counts its failed writes.
ghost use Rattle.std.specs.Prelude.{◌≡◌, ◌<◌, IfErr, length};
ghost use Rattle.std.specs.Io.KnownBytes.{Appends};
ghost use Rattle.toml_delivery.specs.Counts.{accepted_bytes, emit_count};

#[cfg(test)]
mod tests;

use crate::counting::Counting;
use std::io::Write;

/// Where writing a whole text stopped.
#[derive(Clone, Copy, Debug, PartialEq, Eq)]
pub struct EmitFault {
    /// How many of the first bytes were accepted.
    pub written: usize,
}

/// Writes all the bytes, or stops at the first write that fails and does not try again. It takes no
/// memory.
pub fn emit<W: Write>(writer: &mut Counting<W>, bytes: &[u8]) -> Result<(), EmitFault>
    ensures bytes { Appends (W.contents writer.old.device) (W.contents writer.new.device)
        (accepted_bytes bytes.now result) }
    ensures fewer { IfErr result (λ fault. fault.written < length bytes.now) }
    ensures count { writer.new.failures ≡ emit_count result writer.old.failures }
{
    let mut written = 0;
    while written < bytes.len() {
        match writer.write(&bytes[written..]) {
            Ok(taken) if taken > 0 => written += taken,
            _ => return Err(EmitFault { written }),
        }
    }
    Ok(())
}
