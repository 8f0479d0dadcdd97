//! The files that a run writes.
ghost use Rattle.std.specs.Prelude.{◌≡◌, List, [], ◌∷◌, Option, IfOk, length, slice_get};
ghost use Rattle.std.specs.Prelude.{option_to_list};
ghost use Rattle.tomled.specs.Asking.{Adds, Asked};
ghost use Rattle.tomled.specs.Ending.{IsWrittenOut};
ghost use Rattle.tomled.specs.Finishing.{written};
ghost use Rattle.tomled.specs.Opening.{AreOpened, IsCreated, Opening};
ghost use Rattle.tomled.specs.Validating.{words_of};

use crate::finishing::Streams;
use crate::reading::FileFault;
use std::alloc::Global;
use std::fs::File;
use std::io;
use std::io::Write;
use std::rt::Files;
use toml_delivery::{Counting, Outcome, deliver};
use toml_words::Request;

/// What opens files. Contracts see it as the list of the paths that it was given, with its answers.
pub trait Opener<F> {
    /// The openings so far, in order. None where no list of them is kept: of such an opener the clauses claim nothing.
    ghost opened: { Self → Option (List (Opening F)) };

    /// Makes or empties the file at a path, to be written.
    fn create(&mut self, path: &str) -> io::Result<F>
        ensures { Adds (record { path = path.now; gave = result } ∷ []) (opened self.old) (opened self.new) };
}

/// The files of the system. No list of the openings is kept.
#[derive(Drop)]
pub struct RealOpener<'r, R> {
    rt: &'r R,
}

impl<'r, R> RealOpener<'r, R> {
    /// What opens the system's files.
    pub fn new(rt: &'r R) -> Self {
        RealOpener { rt }
    }
}

impl<R: Files> Opener<R::File> for RealOpener<'_, R> {
    ghost use Rattle.std.specs.Prelude.{None};

    ghost opened = { λ _. None };

    fn create(&mut self, path: &str) -> io::Result<R::File> {
        File::create(self.rt, path)
    }
}

/// Opens the files that the outcome has bytes for, writes these, and prints it. It gives the status, and the files as they are then.
/// Where one can't be opened nothing is written.
pub fn written_out<'a, S: Opener<F>, F: Write + Drop, O: Write, E: Write>(
    alloc: Global,
    opener: &mut S,
    request: &Request<'a>,
    outcome: &Outcome,
    streams: &mut Streams<O, E>,
) -> Result<(u8, Vec<Counting<F>>), FileFault<'a>>
    ensures { Asked (S.opened opener.old) (S.opened opener.new)
        (IsWrittenOut F.contents O.contents E.contents streams.old streams.new request.now outcome.now result) }
{
    let mut files = match outputs(alloc, opener, request, outcome) {
        Ok(files) => files,
        Err(fault) => return Err(fault),
    };
    let status = deliver(
        files.as_mut_slice(),
        &mut streams.out,
        &mut streams.err,
        outcome,
    );
    Ok((status, files))
}

/// The files that the outcome has bytes for, made or emptied. None of them is opened for a refusal. Their memory is taken
/// before the first is opened.
fn outputs<'a, S: Opener<F>, F: Drop>(
    alloc: Global,
    opener: &mut S,
    request: &Request<'a>,
    outcome: &Outcome,
) -> Result<Vec<Counting<F>>, FileFault<'a>>
    ensures count { IfOk result (λ files. length files.items ≡ length outcome.now.files.items) }
    ensures opened { Asked (S.opened opener.old) (S.opened opener.new) (AreOpened (words_of (written request.now)) (length outcome.now.files.items) result) }
{
    let Ok(mut files) = Vec::with_capacity(alloc, outcome.files.len()) else {
        return Err(FileFault::NoMemory);
    };
    for index in 0..outcome.files.len() {
        let Some(word) = path_of(request, index) else {
            return Err(unnamed());
        };
        let file = created(opener, word)?;
        let Ok(()) = files.push(Counting::new(file)) else {
            return Err(FileFault::NoMemory);
        };
    }
    Ok(files)
}

/// The file at the path of a word, made or emptied.
fn created<'a, S: Opener<F>, F>(opener: &mut S, word: &'a str) -> Result<F, FileFault<'a>>
    ensures { Asked (S.opened opener.old) (S.opened opener.new) (IsCreated word.entry.now result) }
{
    match opener.create(word) {
        Ok(file) => Ok(file),
        Err(error) => Err(FileFault::Failed { word, error }),
    }
}

/// The fault of an outcome with a file that the words do not name. There is none.
fn unnamed() -> FileFault<'static> {
    let message = "the words name no file for it";
    FileFault::Failed {
        word: "output",
        error: io::Error::new(io::ErrorKind::InvalidInput, message),
    }
}

/// The path that the words name for the file with the number.
fn path_of<'a>(request: &Request<'a>, index: usize) -> Option<&'a str>
    ensures { result ≡ slice_get (written request.now) index }
{
    match *request {
        Request::Edit { out, cert, .. } => match index {
            0 => Some(out),
            1 => Some(cert),
            _ => None,
        },
        Request::Certify { cert, .. } => first(cert, index),
        Request::One { destination, .. } => first(destination.certificate, index),
        Request::Apply { destination, .. } => first(destination.certificate, index),
        _ => None,
    }
}

/// The path, if there is one, of the first file.
fn first<'a>(path: Option<&'a str>, index: usize) -> Option<&'a str>
    ensures { result ≡ slice_get (option_to_list path.entry) index }
{
    if index == 0 { path } else { None }
}
