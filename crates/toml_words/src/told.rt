//! What the parser tells of words that it does not take, or of who asks for help.
ghost use Rattle.std.specs.Prelude.{IfOk};
ghost use Rattle.toml_words.specs.Told.{IsTold};

use crate::marking::MARK;
use clap::Error;
use clap::error::ErrorKind;
use std::alloc::{AllocError, Global};

/// A text of the parser.
#[derive(Drop)]
pub struct ParserText {
    pub text: String,
    /// It is the help that was asked for, and no mistake in the words.
    pub is_help: bool,
}

/// The parser's text, or none where the error is want of memory. Marks of words are left out of it.
pub fn parser_text(alloc: Global, error: &Error) -> Result<ParserText, AllocError>
    ensures { IfOk result (IsTold error.now) }
{
    if error.kind() == ErrorKind::OutOfMemory {
        return Err(AllocError);
    }
    let told = error.to_string(alloc)?;
    Ok(ParserText {
        text: told.replace(alloc, MARK, "")?,
        is_help: !error.use_stderr(),
    })
}
