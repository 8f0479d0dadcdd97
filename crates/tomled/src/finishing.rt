//! What is done with an outcome: files written, a file replaced, both outputs printed.
ghost use Rattle.std.specs.Prelude.{◌≡◌, ◌↔◌, IsTrue};
ghost use Rattle.toml_replace.specs.Calls.{Made};
ghost use Rattle.toml_replace.specs.Replacement.{pair_of};
ghost use Rattle.tomled.specs.Asking.{Asked};
ghost use Rattle.tomled.specs.Ending.{IsGivenOut, IsPrintedAlone, IsPrintedIfAny, TellsUnopened};
ghost use Rattle.tomled.specs.Finishing.{HasNamed, IsCertifySettled, IsCompared, IsEditSettled, IsFileFault, IsFirst, IsReplaced, IsSettled, IsPlaced, IsUnreplaced};
ghost use Rattle.tomled.specs.Finishing.{all_compared, certificate_at, compared, judged_compared, path_or, words_compared, written};

use crate::opening::{Opener, written_out};
use crate::reading::{FileFault, file_fault};
use std::alloc::Global;
use std::io;
use std::io::Write;
use toml_commands::explains;
use toml_delivery::{Counting, Outcome, RunFault, deliver};
use toml_replace::{Disk, ReplaceFault, refuse_same, replace};
use toml_words::{Destination, Request, is_input};

/// Both outputs.
#[derive(Drop)]
pub struct Streams<O, E> {
    pub out: Counting<O>,
    pub err: Counting<E>,
}

/// Opens the files of what is left of an outcome, writes them, and prints it. It gives the status, and the files, as they are then.
pub fn given_out<'a, S: Opener<F>, F: Write + Drop, O: Write, E: Write>(
    alloc: Global,
    opener: &mut S,
    request: &Request<'a>,
    left: Outcome,
    streams: &mut Streams<O, E>,
) -> Result<(u8, Vec<Counting<F>>), RunFault>
    ensures { Asked (S.opened opener.old) (S.opened opener.new)
        (IsGivenOut F.contents O.contents E.contents streams.old streams.new request.now left result) }
{
    match written_out(alloc, opener, request, &left, streams) {
        Ok(given) => Ok(given),
        Err(fault) => {
            let told = unopened(alloc, explains(request), fault);
            printed_if_any(alloc, told, streams)
        }
    }
}

/// What an outcome comes to of which a file was not opened.
fn unopened(alloc: Global, explains: bool, fault: FileFault<'_>) -> Result<Outcome, RunFault>
    ensures { TellsUnopened explains fault.entry result }
{
    match fault {
        FileFault::Failed { word, error } => failed(alloc, explains, word, error),
        FileFault::NoMemory => Err(RunFault::Memory),
    }
}

/// Prints an outcome, where there is one, and writes no file. It gives the status, and no files.
pub fn printed_if_any<F: Write + Drop, O: Write, E: Write>(
    alloc: Global,
    told: Result<Outcome, RunFault>,
    streams: &mut Streams<O, E>,
) -> Result<(u8, Vec<Counting<F>>), RunFault>
    ensures { IsPrintedIfAny F.contents O.contents E.contents streams.old streams.new told result }
{
    match told {
        Ok(outcome) => Ok(printed(alloc, outcome, streams)),
        Err(fault) => Err(fault),
    }
}

/// Prints an outcome, and writes no file.
fn printed<F: Write + Drop, O: Write, E: Write>(
    alloc: Global,
    outcome: Outcome,
    streams: &mut Streams<O, E>,
) -> (u8, Vec<Counting<F>>)
    ensures { IsPrintedAlone F.contents O.contents E.contents streams.old streams.new outcome result }
{
    let outcome = outcome.without_files(alloc);
    let mut none: Vec<Counting<F>> = Vec::new(alloc);
    let status = deliver(
        none.as_mut_slice(),
        &mut streams.out,
        &mut streams.err,
        &outcome,
    );
    (status, Vec::new(alloc))
}

/// The outcome with the files alone that the words name; of a change in place what is left to print once it is made.
pub fn settled<D: Disk>(
    alloc: Global,
    disk: &mut D,
    request: &Request<'_>,
    inputs: &[Vec<u8>],
    outcome: Outcome,
) -> Result<Outcome, RunFault>
    ensures { Made (D.calls disk.old) (D.calls disk.new) (IsSettled request.now inputs.now outcome result) }
{
    match *request {
        Request::Certify {
            before,
            edits,
            after,
            cert,
            ..
        } => certified(alloc, disk, before, edits, after, cert, outcome),
        Request::One {
            file,
            destination,
            ..
        } => edited(alloc, disk, file, None, destination, inputs, outcome),
        Request::Apply {
            file,
            edits,
            destination,
            ..
        } => edited(alloc, disk, file, Some(edits), destination, inputs, outcome),
        _ => Ok(outcome),
    }
}

/// What is left of an outcome of `certify`. Its certificate may not take the place of what was read: then nothing is written.
fn certified<D: Disk>(
    alloc: Global,
    disk: &mut D,
    before: &str,
    edits: &str,
    after: &str,
    cert: Option<&str>,
    outcome: Outcome,
) -> Result<Outcome, RunFault>
    ensures { Made (D.calls disk.old) (D.calls disk.new) (IsCertifySettled before.now edits.now after.now cert.entry outcome result) }
{
    let Some(path) = cert else {
        return Ok(outcome.without_files(alloc));
    };
    if outcome.status != 0 {
        return Ok(outcome);
    }
    match refuse_judged(disk, path, before, edits, after) {
        Ok(()) => Ok(outcome),
        Err(error) => failed(alloc, true, path, error),
    }
}

/// Refuses a path that leads to the file of one of the words that `certify` reads.
fn refuse_judged<D: Disk>(
    disk: &mut D,
    path: &str,
    before: &str,
    edits: &str,
    after: &str,
) -> io::Result<()>
    ensures { Made (D.calls disk.old) (D.calls disk.new) (IsCompared (judged_compared path.now before.now edits.now after.now) result) }
{
    refuse_word(disk, path, before)?;
    refuse_words(disk, path, edits, Some(after))
}

/// The outcome, without its files where the words name none.
fn with_named(alloc: Global, path: Option<&str>, outcome: Outcome) -> Outcome
    ensures { HasNamed path.entry outcome result }
{
    match path {
        Some(_) => outcome,
        None => outcome.without_files(alloc),
    }
}

/// What is left to print and to write of an edited text, once a change in place is made. A certificate may not take the place of what
/// was read, the file and the edit list if there is one: then nothing is written. A file that has the text already stays as it is.
fn edited<D: Disk>(
    alloc: Global,
    disk: &mut D,
    file: &str,
    list: Option<&str>,
    destination: Destination<'_>,
    inputs: &[Vec<u8>],
    outcome: Outcome,
) -> Result<Outcome, RunFault>
    ensures { Made (D.calls disk.old) (D.calls disk.new) (IsEditSettled file.now list.entry destination.entry inputs.now outcome result) }
{
    if outcome.status != 0 {
        return Ok(outcome);
    }
    if let Err(error) = refuse_read(disk, destination.certificate, file, list) {
        return failed(alloc, true, path_or(destination.certificate, file), error);
    }
    placed(alloc, disk, file, destination, inputs, outcome)
}

/// Replaces FILE by the text of a good outcome, or leaves what is to be printed, once the path of the certificate is good.
fn placed<D: Disk>(
    alloc: Global,
    disk: &mut D,
    file: &str,
    destination: Destination<'_>,
    inputs: &[Vec<u8>],
    outcome: Outcome,
) -> Result<Outcome, RunFault>
    ensures { Made (D.calls disk.old) (D.calls disk.new) (IsPlaced file.now destination.entry inputs.now outcome result) }
{
    let certificate = destination.certificate;
    if !destination.in_place {
        return Ok(with_named(alloc, certificate, outcome));
    }
    if is_first(inputs, &outcome.out) {
        return Ok(with_named(alloc, certificate, outcome.without_text(alloc)));
    }
    replaced(alloc, disk, file, certificate, outcome)
}

/// Whether what was read first is the text.
fn is_first(inputs: &[Vec<u8>], text: &[u8]) -> bool
    ensures { IsTrue result ↔ IsFirst inputs.now text.now }
{
    match inputs {
        [old, ..] => old.as_slice() == text,
        [] => false,
    }
}

/// Refuses a path of the certificate that leads to something that was read.
fn refuse_read<D: Disk>(
    disk: &mut D,
    certificate: Option<&str>,
    file: &str,
    list: Option<&str>,
) -> io::Result<()>
    ensures { Made (D.calls disk.old) (D.calls disk.new) (IsCompared (all_compared certificate.entry file.now list.entry) result) }
{
    match certificate {
        Some(path) => refuse_words(disk, path, file, list),
        None => Ok(()),
    }
}

/// Refuses a path that leads to the file of one of the words.
fn refuse_words<D: Disk>(disk: &mut D, path: &str, file: &str, list: Option<&str>) -> io::Result<()>
    ensures { Made (D.calls disk.old) (D.calls disk.new) (IsCompared (words_compared path.now file.now list.entry) result) }
{
    refuse_word(disk, path, file)?;
    match list {
        Some(list) => refuse_word(disk, path, list),
        None => Ok(()),
    }
}

/// Refuses a path that leads to the file of a word that was read. Standard input is no such file.
fn refuse_word<D: Disk>(disk: &mut D, path: &str, read: &str) -> io::Result<()>
    ensures { Made (D.calls disk.old) (D.calls disk.new) (IsCompared (compared path.now read.now) result) }
{
    if is_input(read) {
        return Ok(());
    }
    refuse_same(disk, path, read)
}

/// Puts the text of the outcome in the place of the file, and leaves what is then to be printed: nothing.
fn replaced<D: Disk>(
    alloc: Global,
    disk: &mut D,
    file: &str,
    certificate: Option<&str>,
    outcome: Outcome,
) -> Result<Outcome, RunFault>
    ensures { Made (D.calls disk.old) (D.calls disk.new) (IsReplaced file.now certificate.entry outcome result) }
{
    let shown = certificate_at(certificate, &outcome.files);
    match replace(alloc, disk, file, &outcome.out, shown) {
        Ok(()) => Ok(outcome.without_text(alloc).without_files(alloc)),
        Err(fault) => unreplaced(alloc, file, certificate, fault),
    }
}

/// The certificate's path and bytes, where the words name a path.
fn certificate_at<'a>(path: Option<&'a str>, files: &'a [Vec<u8>]) -> Option<(&'a str, &'a [u8])>
    ensures { pair_of result ≡ certificate_at path.entry files.entry.now }
{
    match (path, files) {
        (Some(path), [bytes, ..]) => Some((path, bytes.as_slice())),
        _ => None,
    }
}

/// What a file that did not get its text comes to.
fn unreplaced(
    alloc: Global,
    file: &str,
    certificate: Option<&str>,
    fault: ReplaceFault,
) -> Result<Outcome, RunFault>
    ensures { IsUnreplaced file.now certificate.entry fault result }
{
    match fault {
        ReplaceFault::File(error) => failed(alloc, true, file, error),
        ReplaceFault::Certificate(error) => {
            failed(alloc, true, path_or(certificate, file), error)
        }
    }
}

/// The path, or the word where there is none.
fn path_or<'a>(path: Option<&'a str>, word: &'a str) -> &'a str
    ensures { result.now ≡ path_or path.entry word.entry.now }
{
    match path {
        Some(path) => path,
        None => word,
    }
}

/// What a file that could not be written comes to: a file fault, whatever the system's reason, since another one may be written or
/// emptied by then. The reason is told where that is wished and there is memory for it.
fn failed(alloc: Global, explains: bool, word: &str, error: io::Error) -> Result<Outcome, RunFault>
    ensures { IsFileFault explains word.now result }
{
    match file_fault(alloc, explains, word, &error) {
        Ok(outcome) => Ok(outcome),
        Err(_) => Err(RunFault::File),
    }
}
