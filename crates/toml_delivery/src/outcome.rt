//! What a run of the program answers.
ghost use Rattle.std.specs.Prelude.{◌≡◌, [], IfOk};
ghost use Rattle.toml_delivery.specs.Outcomes.{Answers, ComesTo, Fails, Gives, IsMissing};

use crate::ending::Ending;
use crate::refusal::Refusal;
use std::alloc::{AllocError, Global};

/// What a command answers where nothing is refused.
#[derive(Drop)]
pub struct Answer {
    /// The bytes for standard output.
    pub out: Vec<u8>,
    /// The bytes of each file to be written.
    pub files: Vec<Vec<u8>>,
}

/// What a request came to. Nothing of it is printed or written yet.
#[derive(Debug, Drop)]
pub struct Outcome {
    /// The exit status of the process.
    pub status: u8,
    /// What was refused, if anything was.
    pub refusal: Option<Refusal>,
    /// The bytes for standard output.
    pub out: Vec<u8>,
    /// The bytes for standard error.
    pub err: Vec<u8>,
    /// The bytes of each file to be written.
    pub files: Vec<Vec<u8>>,
}

impl Outcome {
    /// The outcome of a command: status 0, its bytes on standard output and its files, or status 1, the line of its
    /// refusal on standard error and no file.
    pub fn of(alloc: Global, answer: Result<Answer, Ending>) -> Result<Outcome, AllocError>
        ensures { IfOk result (Answers answer) }
    {
        match answer {
            Ok(Answer { out, files }) => Ok(Outcome {
                status: 0,
                refusal: None,
                out,
                err: Vec::new(alloc),
                files,
            }),
            Err(Ending::Refused(refusal)) => Ok(Outcome {
                status: 1,
                refusal: Some(refusal),
                out: Vec::new(alloc),
                err: refusal.line(alloc)?.into_bytes(),
                files: Vec::new(alloc),
            }),
            Err(Ending::NoMemory) => Err(AllocError),
        }
    }

    /// The outcome of a command that writes no file.
    pub fn of_text(alloc: Global, text: Result<Vec<u8>, Ending>) -> Result<Outcome, AllocError>
        ensures { IfOk result (ComesTo text) }
    {
        match text {
            Ok(out) => {
                let none = Vec::new(alloc);
                Outcome::of(alloc, Ok(Answer { out, files: none }))
            }
            Err(ending) => Outcome::of(alloc, Err(ending)),
        }
    }

    /// The outcome with nothing on standard output.
    pub fn without_text(self, alloc: Global) -> Outcome
        ensures out { result.out.items ≡ [] }
        ensures rest { result ≡ record self { out = result.out } }
    {
        Outcome {
            out: Vec::new(alloc),
            ..self
        }
    }

    /// The outcome of a command that looks for what is not there: status 5, so that a script tells it from a refused document, and
    /// the line `refused 301 0` on standard error.
    pub fn missing(alloc: Global) -> Result<Outcome, AllocError>
        ensures { IfOk result IsMissing }
    {
        let refusal = Refusal {
            code: 301,
            place: 0,
        };
        Ok(Outcome {
            status: 5,
            refusal: Some(refusal),
            out: Vec::new(alloc),
            err: refusal.line(alloc)?.into_bytes(),
            files: Vec::new(alloc),
        })
    }

    /// What is printed, with no file to be written.
    pub fn without_files(self, alloc: Global) -> Outcome
        ensures files { result.files.items ≡ [] }
        ensures rest { result ≡ record self { files = result.files } }
    {
        Outcome {
            files: Vec::new(alloc),
            ..self
        }
    }

    /// Status 0 and a text on standard output.
    pub fn printed(alloc: Global, text: Vec<u8>) -> Outcome
        ensures { Gives text.items [] result }
    {
        Outcome {
            status: 0,
            refusal: None,
            out: text,
            err: Vec::new(alloc),
            files: Vec::new(alloc),
        }
    }

    /// A status and a text on standard error, and nothing else.
    pub fn failed(alloc: Global, status: u8, text: Vec<u8>) -> Outcome
        ensures { Fails status text.items result }
    {
        Outcome {
            status,
            refusal: None,
            out: Vec::new(alloc),
            err: text,
            files: Vec::new(alloc),
        }
    }
}
