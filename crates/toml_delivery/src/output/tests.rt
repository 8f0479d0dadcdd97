use super::{Counting, EmitFault, emit};
use crate::devices::{Giver, Keeper};
use std::io;
use std::io::ErrorKind;

/// Whether this is the answer where bytes are emitted to the writer, and these are accepted, in so many writes.
fn is_emitted(
    mut keeper: Keeper,
    bytes: &[u8],
    answer: Result<(), EmitFault>,
    accepted: &[u8],
    writes: usize,
) -> bool {
    let mut counting = Counting::new(&mut keeper);
    let emitted = emit(&mut counting, bytes);
    let failed = if answer.is_ok() { 0 } else { 1 };
    emitted == answer
        && counting.failed() == failed
        && keeper.bytes.as_slice() == accepted
        && keeper.writes == writes
}

fn fault(written: usize) -> Result<(), EmitFault> {
    Err(EmitFault { written })
}

#[test]
fn emits(rt: HostRuntime) {
    let alloc = rt.alloc();
    assert!(rt; is_emitted(Keeper::new(alloc, 1, 0), b"abc", Ok(()), b"abc", 3));
    assert!(rt; is_emitted(Keeper::new(alloc, 9, 0), b"abc", Ok(()), b"abc", 1));
    assert!(rt; is_emitted(Keeper::new(alloc, 1, 1), b"abc", fault(0), b"", 1));
    assert!(rt; is_emitted(Keeper::new(alloc, 1, 3), b"abc", fault(2), b"ab", 3));
    assert!(rt; is_emitted(Keeper::new(alloc, 0, 0), b"abc", fault(0), b"", 1));
    assert!(rt; is_emitted(Keeper::new(alloc, 0, 1), b"", Ok(()), b"", 0));
}

fn takes(answer: io::Result<usize>, count: usize) -> bool {
    matches!(answer, Ok(taken) if taken == count)
}

fn fails(answer: io::Result<usize>) -> bool {
    matches!(answer, Err(error) if error.kind() == ErrorKind::Other)
}

/// The answer of the device is handed on.
#[test]
fn counts_writes(rt: HostRuntime) {
    let mut keeper = Keeper::new(rt.alloc(), 1, 2);
    let mut writer = Counting::new(&mut keeper);
    let good = takes(writer.write(b"ab"), 1)
        && fails(writer.write(b"b"))
        && takes(writer.write(b""), 0)
        && writer.failed() == 1;
    assert!(rt; good && keeper.writes == 3);
}

#[test]
fn counts_reads(rt: HostRuntime) {
    let mut giver = Giver {
        bytes: b"a",
        failing: 3,
        reads: 0,
    };
    let mut reader = Counting::new(&mut giver);
    let mut room = [0u8; 2];
    let good = takes(reader.read(&mut room), 1)
        && takes(reader.read(&mut room), 0)
        && reader.failed() == 0
        && fails(reader.read(&mut room))
        && reader.failed() == 1;
    assert!(rt; good && giver.reads == 3);
}
