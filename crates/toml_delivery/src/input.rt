//! Reading a whole input from a reader that counts its failed reads.
ghost use Rattle.std.specs.Prelude.{◌≡◌, IfErr, IfOk};
ghost use Rattle.toml_delivery.specs.Takes.{IsLost, IsTaken, ReadsNothing, take_count};

use crate::counting::Counting;
use std::alloc::Global;
use std::io::Read;

/// How many bytes are asked for at most in one read.
const CHUNK: usize = 8192;

/// Why an input was not read. The bytes that were read so far are lost.
#[derive(Clone, Copy, Debug, PartialEq, Eq)]
pub enum TakeFault {
    /// A read failed.
    Device,
    /// There was no memory.
    NoMemory,
}

/// The bytes up to the end of the reader, or the first `limit` ones. It stops at the first read that fails and does not
/// try again. With the limit 0 it reads nothing.
pub fn take<R: Read>(
    alloc: Global,
    reader: &mut Counting<R>,
    limit: usize,
) -> Result<Vec<u8>, TakeFault>
    ensures taken { IfOk result (λ bytes. IsTaken limit (R.remaining reader.old.device) (R.remaining reader.new.device) bytes.items) }
    ensures lost { IfErr result (λ _. IsLost limit (R.remaining reader.old.device) (R.remaining reader.new.device)) }
    ensures count { reader.new.failures ≡ take_count result reader.old.failures }
    ensures nothing { limit ≡ 0 → ReadsNothing reader.old reader.new result }
{
    let mut bytes = Vec::new(alloc);
    let mut chunk = [0u8; CHUNK];
    while bytes.len() < limit {
        let room = CHUNK.min(limit - bytes.len());
        match reader.read(&mut chunk[..room]) {
            Ok(0) => return Ok(bytes),
            Ok(count) => {
                if bytes.extend_from_slice(&chunk[..count]).is_err() {
                    return Err(TakeFault::NoMemory);
                }
            }
            Err(_) => return Err(TakeFault::Device),
        }
    }
    Ok(bytes)
}
