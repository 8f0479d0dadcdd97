//! What is read by the words of the command line.
ghost use Rattle.std.specs.Prelude.{List, [], ◌∷◌, Option, IfErr};
ghost use Rattle.tomled.specs.Asking.{Adds};
ghost use Rattle.tomled.specs.Reads.{IsOfWord, Read, read_of};

use crate::reading::{FileFault, read};
use std::alloc::Global;
use std::io::Input;
use std::rt::Files;
use toml_commands::Source;

/// What can be read by a word. Contracts see it as the list of its reads with what they gave.
pub trait Inputs {
    /// The reads so far, in order. None where no list of them is kept: of such inputs the clauses claim nothing.
    ghost reads: { Self → Option (List Read) };

    /// The bytes of a source, and of a longer one the first as many as its limit; or why it was not read, by its word.
    fn read<'a>(&mut self, alloc: Global, source: Source<'a>) -> Result<Vec<u8>, FileFault<'a>>
        ensures added { Adds (read_of source.entry result ∷ []) (reads self.old) (reads self.new) }
        ensures word { IfErr result (IsOfWord source.entry.word.now) };
}

/// The files and the standard input of the process. No list of the reads is kept: no contract can say what a file gives.
#[derive(Drop)]
pub struct RealInputs<'r, R> {
    rt: &'r R,
}

impl<'r, R> RealInputs<'r, R> {
    /// What the process can read.
    pub fn new(rt: &'r R) -> Self {
        RealInputs { rt }
    }
}

impl<R: Files + Input + AllocGlobal> Inputs for RealInputs<'_, R> {
    ghost use Rattle.std.specs.Prelude.{None};

    ghost reads = { λ _. None };

    fn read<'a>(&mut self, _alloc: Global, source: Source<'a>) -> Result<Vec<u8>, FileFault<'a>> {
        read(self.rt, source)
    }
}
