//! Writing what a run comes to: its files first, and then both outputs.
ghost use Rattle.std.specs.Prelude.{◌≡◌, length, MatchResult};
ghost use Rattle.toml_delivery.specs.Delivery.{IsDelivered, IsGiven, AreSent, AreGiven, IsTried};
ghost use Rattle.toml_delivery.specs.RunFaults.{status_of, told};

use crate::counting::Counting;
use crate::fault::RunFault;
use crate::outcome::Outcome;
use crate::output::{EmitFault, emit};
use std::io::Write;

/// Writes the files in order, and then prints the outcome on `out` and on `err`, up to the first fault. Gives the
/// outcome's status, or behind a fault 3, after one try to print `file fault` on `err`. It takes no memory.
pub fn deliver<F: Write, O: Write, E: Write>(
    files: &mut [Counting<F>],
    out: &mut Counting<O>,
    err: &mut Counting<E>,
    outcome: &Outcome,
) -> u8
    requires { length files.old ≡ length outcome.now.files.items }
    ensures { IsDelivered F.contents O.contents E.contents files.old files.new out.old out.new err.old err.new outcome.now result }
{
    match emit_all(files, out, err, outcome) {
        Ok(()) => outcome.status,
        Err(_) => tell(err, RunFault::File),
    }
}

/// Prints why there is no outcome, in one try, and gives the exit status.
pub fn tell<E: Write>(err: &mut Counting<E>, fault: RunFault) -> u8
    ensures tried { IsTried E.contents err.old err.new (told fault) }
    ensures status { result ≡ status_of fault }
{
    let _ = emit(err, fault.text().as_bytes());
    fault.status()
}

/// Writes the bytes of each file, and then those of both outputs.
fn emit_all<F: Write, O: Write, E: Write>(
    files: &mut [Counting<F>],
    out: &mut Counting<O>,
    err: &mut Counting<E>,
    outcome: &Outcome,
) -> Result<(), EmitFault>
    requires { length files.old ≡ length outcome.now.files.items }
    ensures { IsGiven F.contents O.contents E.contents files.old files.new out.old out.new err.old err.new outcome.now result }
{
    emit_files(files, &outcome.files)?;
    emit(out, &outcome.out)?;
    emit(err, &outcome.err)
}

/// Writes the bytes of each file.
fn emit_files<F: Write>(files: &mut [Counting<F>], texts: &[Vec<u8>]) -> Result<(), EmitFault>
    requires { length files.old ≡ length texts.now }
    ensures { AreGiven F.contents files.old files.new texts.now result }
{
    let mut at = 0;
    while at < files.len() {
        emit(&mut files[at], &texts[at])?;
        at += 1;
    }
    Ok(())
}
