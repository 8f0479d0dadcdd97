//! Reading what the words name.
ghost use Rattle.std.specs.Prelude.{IfErr, IfOk, string_bytes};
ghost use Rattle.tomled.specs.Asking.{Asked};
ghost use Rattle.tomled.specs.Finishing.{HasReason, TellsFault};
ghost use Rattle.tomled.specs.Reads.{AreBytesOf, AreRead, IsOfWord};
ghost use Rattle.tomled.specs.Validating.{IsOutcomeOf};

use crate::inputs::Inputs;
use crate::reasoned::Reasoned;
use std::alloc::{AllocError, Global};
use std::fs::File;
use std::io;
use std::io::{Input, Read};
use std::rt::Files;
use toml_commands::Source;
use toml_delivery::{Counting, Outcome, RunFault, TakeFault, take};
use toml_words::is_input;

/// Why a file was not read, or not opened to be written.
#[derive(Drop)]
pub enum FileFault<'a> {
    /// The system says why.
    Failed { word: &'a str, error: io::Error },
    /// There was no memory.
    NoMemory,
}

impl<'a> FileFault<'a> {
    /// Why a file was not read: an error of the system for want of memory is that.
    fn of(word: &'a str, error: io::Error) -> FileFault<'a>
        ensures { IsOfWord word.entry.now result }
    {
        match RunFault::of_kind(error.kind()) {
            RunFault::Memory => FileFault::NoMemory,
            _ => FileFault::Failed { word, error },
        }
    }

    /// What the run then comes to: `file fault`, and where it is explained the word and the system's reason.
    pub fn outcome(self, alloc: Global, explains: bool) -> Result<Outcome, RunFault>
        ensures { IsOutcomeOf explains self.entry result }
    {
        match self {
            FileFault::Failed { word, error } => { Ok(file_fault(alloc, explains, word, &error)?) }
            FileFault::NoMemory => Err(RunFault::Memory),
        }
    }
}

/// What is told of a file that failed: `file fault`, and where it is explained the word and the system's reason.
pub fn file_fault(
    alloc: Global,
    explains: bool,
    word: &str,
    error: &io::Error,
) -> Result<Outcome, AllocError>
    ensures { IfOk result (TellsFault explains word.now) }
{
    let line = RunFault::File.text().to_string(alloc)?;
    if !explains {
        return Ok(Outcome::failed(alloc, RunFault::File.status(), line.into_bytes()));
    }
    let lines = with_reason(alloc, line, word, error)?;
    Ok(Outcome::failed(alloc, RunFault::File.status(), lines.into_bytes()))
}

/// The text, and behind it the word, a colon and what the system says.
fn with_reason(
    alloc: Global,
    text: String,
    word: &str,
    error: &io::Error,
) -> Result<String, AllocError>
    ensures { IfOk result (λ lines. HasReason (string_bytes text) word.now (string_bytes lines)) }
{
    let reason = format!(in alloc; "{error}\n")?;
    let mut lines = text;
    lines.push_str(word)?;
    lines.push_str(": ")?;
    lines.push_str(reason.as_str())?;
    Ok(lines)
}

/// The bytes of all, in their order. It stops at the first that can't be read.
pub fn read_all<'a, I: Inputs>(
    alloc: Global,
    inputs: &mut I,
    sources: &[Source<'a>],
) -> Result<Vec<Vec<u8>>, FileFault<'a>>
    ensures { Asked (I.reads inputs.old) (I.reads inputs.new) (AreRead sources.now result) }
{
    let mut list = match Vec::with_capacity(alloc, sources.len()) {
        Ok(list) => list,
        Err(_) => return Err(FileFault::NoMemory),
    };
    for source in sources {
        let bytes = inputs.read(alloc, *source)?;
        let Ok(()) = list.push(bytes) else {
            return Err(FileFault::NoMemory);
        };
    }
    Ok(list)
}

/// The bytes of a source, and of a longer one the first as many as its limit.
pub fn read<'a, R: Files + Input + AllocGlobal>(
    rt: &R,
    source: Source<'a>,
) -> Result<Vec<u8>, FileFault<'a>>
    ensures { IfErr result (IsOfWord source.entry.word.now) }
{
    let word = source.word;
    if source.may_be_input && is_input(word) {
        return read_from(rt.alloc(), rt.reader(), source);
    }
    match File::open(rt, word) {
        Ok(file) => read_from(rt.alloc(), file, source),
        Err(error) => Err(FileFault::of(word, error)),
    }
}

/// The bytes that a reader gives of a source.
fn read_from<'a, R: Read + Drop>(
    alloc: Global,
    reader: R,
    source: Source<'a>,
) -> Result<Vec<u8>, FileFault<'a>>
    ensures bytes { AreBytesOf source.entry.limit (R.remaining reader) result }
    ensures word { IfErr result (IsOfWord source.entry.word.now) }
{
    let mut reader = Reasoned::of(reader);
    match take(alloc, &mut Counting::new(&mut reader), source.limit) {
        Ok(bytes) => Ok(bytes),
        Err(TakeFault::Device) => Err(FileFault::Failed {
            word: source.word,
            error: reader.into_reason(),
        }),
        Err(TakeFault::NoMemory) => Err(FileFault::NoMemory),
    }
}
