//! One failing read or write: what becomes of the bytes, and how the run ends.

use crate::counting::Counting;
use crate::delivery::{deliver, tell};
use crate::devices::{Giver, Keeper};
use crate::ending::Ending;
use crate::fault::RunFault;
use crate::input::{TakeFault, take};
use crate::outcome::{Answer, Outcome};
use crate::refusal::Refusal;
use std::alloc::{AllocError, Global};
use std::io;
use std::test::Fail;

const FILE: &[u8] = b"port = 1_000 # keep\n";

const EDITS: &[u8] = b"[{\"op\":\"set\",\"at\":[\"port\"],\"value\":\"0x1F\"}]";

const OUT: &[u8] = b"port = 0x1F # keep\n";

const CERT: &[u8] = b"kept 1\n1 1\n2 2\n";

const FAULT: &[u8] = b"file fault\n";

/// An outcome with two files to write.
fn edited(alloc: Global) -> Result<Outcome, AllocError> {
    let out = Vec::from_slice(alloc, b"ok\n")?;
    let files = vec![in alloc; Vec::from_slice(alloc, OUT)?, Vec::from_slice(alloc, CERT)?]?;
    Outcome::of(alloc, Ok(Answer { out, files }))
}

/// Whether the fault of the read with the number is told, and no further read is made.
fn read_fails(alloc: Global, bytes: &[u8], failing: usize) -> bool {
    let mut giver = Giver {
        bytes,
        failing,
        reads: 0,
    };
    let mut reader = Counting::new(&mut giver);
    let told = matches!(take(alloc, &mut reader, usize::MAX), Err(TakeFault::Device));
    told && reader.failed() == 1 && giver.reads == failing
}

#[test]
fn each_read_fails(rt: HostRuntime) {
    // the last read sees the end
    for failing in 1..22usize {
        assert!(rt; read_fails(rt.alloc(), FILE, failing), "read {failing}");
    }
    for failing in 1..45usize {
        assert!(rt; read_fails(rt.alloc(), EDITS, failing), "read {failing}");
    }
}

/// Whether so many reads are made to take the file up to the limit, and give so many bytes.
fn is_taken(alloc: Global, limit: usize, taken: usize, reads: usize) -> bool {
    let mut giver = Giver {
        bytes: FILE,
        failing: 0,
        reads: 0,
    };
    let mut reader = Counting::new(&mut giver);
    let Ok(bytes) = take(alloc, &mut reader, limit) else {
        return false;
    };
    let failed = reader.failed();
    bytes.as_slice() == front(FILE, taken) && failed == 0 && giver.reads == reads
}

#[test]
fn takes_up_to_the_limit(rt: HostRuntime) {
    let alloc = rt.alloc();
    // the limit, and how many bytes are taken in how many reads
    assert!(rt; is_taken(alloc, 0, 0, 0));
    assert!(rt; is_taken(alloc, 3, 3, 3));
    assert!(rt; is_taken(alloc, 20, 20, 20));
    assert!(rt; is_taken(alloc, 21, 20, 21));
    assert!(rt; is_taken(alloc, 99, 20, 21));
}

/// The front of so many bytes at most.
fn front(bytes: &[u8], count: usize) -> &[u8] {
    &bytes[..bytes.len().min(count)]
}

/// What is handed to writers of the two files and of both outputs, and the status.
fn delivered(
    alloc: Global,
    text: &mut Keeper,
    cert: &mut Keeper,
    out: &mut Keeper,
    err: &mut Keeper,
) -> Result<u8, Fail> {
    let outcome = edited(alloc)?;
    let mut files = Vec::new(alloc);
    files.push(Counting::new(text))?;
    files.push(Counting::new(cert))?;
    if files.len() != outcome.files.len() {
        return Err(Fail::from("not two files"));
    }
    Ok(deliver(
        files.as_mut_slice(),
        &mut Counting::new(out),
        &mut Counting::new(err),
        &outcome,
    ))
}

/// How many bytes the outcome has to write: 19 of the text, 15 of the certificate, 3 on standard output.
const ALL: usize = 37;

/// Whether just the first so many of these bytes are written, and a fault is told if they are not all.
fn is_delivered(
    alloc: Global,
    text: &mut Keeper,
    cert: &mut Keeper,
    out: &mut Keeper,
    accepted: usize,
) -> Result<bool, Fail> {
    let mut err = Keeper::new(alloc, 1, 0);
    let status = delivered(alloc, text, cert, out, &mut err)?;
    let (wanted, told) = if accepted < ALL {
        (3, FAULT)
    } else {
        (0, b"".as_slice())
    };
    Ok(
        status == wanted
            && text.bytes.as_slice() == front(OUT, accepted)
            && cert.bytes.as_slice() == front(CERT, accepted.saturating_sub(19))
            && out.bytes.as_slice() == front(b"ok\n", accepted.saturating_sub(34))
            && err.bytes.as_slice() == told,
    )
}

#[test]
fn each_write_fails(rt: HostRuntime) -> Result<(), Fail> {
    let alloc = rt.alloc();
    // one byte a write; at 0 none fails
    for failing in 0..38usize {
        let mut text = Keeper::new(alloc, 1, failing);
        let mut cert = Keeper::new(alloc, 1, failing.saturating_sub(19));
        let mut out = Keeper::new(alloc, 1, failing.saturating_sub(34));
        let accepted = if failing == 0 { ALL } else { failing - 1 };
        let good = is_delivered(alloc, &mut text, &mut cert, &mut out, accepted)?;
        assert!(rt; good, "write {failing}");
    }
    Ok(())
}

/// Whether a delivery stops where it has to, to writers that take so many bytes a write.
fn stops(alloc: Global, most: [usize; 3], accepted: usize) -> Result<bool, Fail> {
    let mut text = Keeper::new(alloc, most[0], 0);
    let mut cert = Keeper::new(alloc, most[1], 0);
    let mut out = Keeper::new(alloc, most[2], 0);
    is_delivered(alloc, &mut text, &mut cert, &mut out, accepted)
}

#[test]
fn writes_that_take_no_byte(rt: HostRuntime) -> Result<(), Fail> {
    let alloc = rt.alloc();
    assert!(rt; stops(alloc, [0, 9, 9], 0)?);
    assert!(rt; stops(alloc, [9, 0, 9], 19)?);
    assert!(rt; stops(alloc, [9, 9, 0], 34)?);
    Ok(())
}

/// What is handed to writers of both outputs of a refusal, and the status.
fn refused(alloc: Global, out: &mut Keeper, err: &mut Keeper) -> Result<u8, Fail> {
    let refusal = Ending::Refused(Refusal {
        code: 321,
        place: 0,
    });
    let outcome = Outcome::of(alloc, Err(refusal))?;
    let mut files: Vec<Counting<Keeper>> = Vec::new(alloc);
    if files.len() != outcome.files.len() {
        return Err(Fail::from("files of a refusal"));
    }
    Ok(deliver(
        files.as_mut_slice(),
        &mut Counting::new(out),
        &mut Counting::new(err),
        &outcome,
    ))
}

#[test]
fn each_write_of_a_refusal_fails(rt: HostRuntime) -> Result<(), Fail> {
    let refusal = b"refused 321 0\n".as_slice();
    // One byte a write; at 0 none fails.
    for failing in 0..15usize {
        let mut out = Keeper::new(rt.alloc(), 1, 0);
        let mut err = Keeper::new(rt.alloc(), 1, failing);
        let status = refused(rt.alloc(), &mut out, &mut err)?;
        let (wanted, accepted, told) = if failing == 0 {
            (1, 14, b"".as_slice())
        } else {
            (3, failing - 1, FAULT)
        };
        let taken = accepted.min(err.bytes.len());
        let good = status == wanted
            && out.writes == 0
            && &err.bytes[..taken] == front(refusal, accepted)
            && &err.bytes[taken..] == told;
        assert!(rt; good, "write {failing}");
    }
    Ok(())
}

/// Standard error takes no byte: neither of the refusal nor of the one try to tell the fault.
#[test]
fn a_fault_that_is_not_told(rt: HostRuntime) -> Result<(), Fail> {
    let mut out = Keeper::new(rt.alloc(), 9, 0);
    let mut err = Keeper::new(rt.alloc(), 0, 0);
    let status = refused(rt.alloc(), &mut out, &mut err)?;
    assert!(rt; status == 3 && err.writes == 2 && err.bytes.is_empty());
    Ok(())
}

/// Whether the fault is told with this status and this line.
fn is_told(alloc: Global, fault: RunFault, status: u8, line: &[u8]) -> bool {
    let mut err = Keeper::new(alloc, 1, 0);
    tell(&mut Counting::new(&mut err), fault) == status && err.bytes.as_slice() == line
}

#[test]
fn faults_of_a_run(rt: HostRuntime) {
    let (alloc, no_memory) = (rt.alloc(), b"no memory\n");
    assert!(rt; is_told(alloc, RunFault::Words, 2, b"bad words\n"));
    assert!(rt; is_told(alloc, RunFault::from(TakeFault::Device), 3, FAULT));
    assert!(rt; is_told(alloc, RunFault::from(TakeFault::NoMemory), 4, no_memory));
    assert!(rt; is_told(alloc, RunFault::from(AllocError), 4, no_memory));
    let not_found = io::Error::from(io::ErrorKind::NotFound);
    assert!(rt; is_told(alloc, RunFault::from(not_found), 3, FAULT));
    let out_of_memory = io::Error::from(io::ErrorKind::OutOfMemory);
    assert!(rt; is_told(alloc, RunFault::from(out_of_memory), 4, no_memory));
}
