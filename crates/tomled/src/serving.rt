//! What words come to: what is read for them, what is asked of a disk, which files are written, and what is printed.
ghost use Rattle.std.specs.Prelude.{◌≡◌, IfOk, map, string_bytes};
ghost use Rattle.tomled.specs.Ending.{AsksAll, IsWholeRun, IsObeyed, IsOutcomeOfWords, IsServed, TellsWords};
ghost use Rattle.tomled.specs.Validating.{words_of};

use crate::finishing::{Streams, given_out, printed_if_any, settled};
use crate::inputs::Inputs;
use crate::opening::Opener;
use crate::replying::{Reply, reply_to};
use std::alloc::{AllocError, Global};
use std::io::Write;
use toml_delivery::{Counting, Outcome, RunFault, tell};
use toml_replace::Disk;
use toml_words::{Request, WordsFault, marked_words, parser_text, read_words};

/// What a run works with: what is read by words, a disk on which files are replaced, and what opens files that are written.
#[derive(Drop)]
pub struct System<I, D, S> {
    pub inputs: I,
    pub disk: D,
    pub opener: S,
}

/// A whole run: does what the words of a process ask, its own name first, and tells why where that comes to nothing. It gives the
/// status, and the files that it wrote, as they are then.
pub fn whole_run<I: Inputs, D: Disk, S: Opener<F>, F: Write + Drop, O: Write, E: Write>(
    alloc: Global,
    system: &mut System<I, D, S>,
    words: &[String],
    streams: &mut Streams<O, E>,
) -> (u8, Vec<Counting<F>>)
    ensures { AsksAll I.reads D.calls S.opened system.old system.new
        (IsWholeRun F.contents O.contents E.contents streams.old streams.new (map string_bytes words.now) result) }
{
    match obeyed(alloc, system, words, streams) {
        Ok(given) => given,
        Err(fault) => (tell(&mut streams.err, fault), Vec::new(alloc)),
    }
}

/// Does what the words ask.
fn obeyed<I: Inputs, D: Disk, S: Opener<F>, F: Write + Drop, O: Write, E: Write>(
    alloc: Global,
    system: &mut System<I, D, S>,
    words: &[String],
    streams: &mut Streams<O, E>,
) -> Result<(u8, Vec<Counting<F>>), RunFault>
    ensures { AsksAll I.reads D.calls S.opened system.old system.new
        (IsObeyed F.contents O.contents E.contents streams.old streams.new (map string_bytes words.now) result) }
{
    let marked = marked_words(alloc, words)?;
    let texts = texts_of(alloc, &marked)?;
    match read_words(alloc, texts.as_slice()) {
        Ok(request) => served(alloc, system, &request, streams),
        Err(fault) => told_words(alloc, fault, streams),
    }
}

/// The texts of words.
fn texts_of<'a>(alloc: Global, words: &'a [String]) -> Result<Vec<&'a str>, AllocError>
    ensures { IfOk result (λ list. words_of list.items ≡ map string_bytes words.entry.now) }
{
    let mut list = Vec::with_capacity(alloc, words.len())?;
    for word in words {
        list.push(word.as_str())?;
    }
    Ok(list)
}

/// Does what the request asks.
fn served<I: Inputs, D: Disk, S: Opener<F>, F: Write + Drop, O: Write, E: Write>(
    alloc: Global,
    system: &mut System<I, D, S>,
    request: &Request<'_>,
    streams: &mut Streams<O, E>,
) -> Result<(u8, Vec<Counting<F>>), RunFault>
    ensures { AsksAll I.reads D.calls S.opened system.old system.new
        (IsServed F.contents O.contents E.contents streams.old streams.new request.now result) }
{
    let Reply { inputs, outcome } = match reply_to(alloc, &mut system.inputs, request) {
        Ok(reply) => reply,
        Err(fault) => return Err(fault),
    };
    match settled(alloc, &mut system.disk, request, &inputs, outcome) {
        Ok(left) => given_out(alloc, &mut system.opener, request, left, streams),
        Err(fault) => Err(fault),
    }
}

/// Tells why words make no request.
fn told_words<F: Write + Drop, O: Write, E: Write>(
    alloc: Global,
    fault: WordsFault,
    streams: &mut Streams<O, E>,
) -> Result<(u8, Vec<Counting<F>>), RunFault>
    ensures { TellsWords F.contents O.contents E.contents streams.old streams.new fault result }
{
    printed_if_any(alloc, outcome_of_words(alloc, fault), streams)
}

/// What words come to that make no request: the parser's text, on standard output where it was asked for, else on standard error with
/// status 2.
fn outcome_of_words(alloc: Global, fault: WordsFault) -> Result<Outcome, RunFault>
    ensures { IsOutcomeOfWords fault result }
{
    let error = match fault {
        WordsFault::Parser(error) => error,
        WordsFault::Nothing => return Err(RunFault::Words),
        WordsFault::NoMemory => return Err(RunFault::Memory),
    };
    let told = parser_text(alloc, &error)?;
    let text = told.text.into_bytes();
    if told.is_help {
        return Ok(Outcome::printed(alloc, text));
    }
    Ok(Outcome::failed(alloc, 2, text))
}
