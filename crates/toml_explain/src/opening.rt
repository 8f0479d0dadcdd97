//! With what an explanation begins.
ghost use Rattle.std.specs.Prelude.{◌≡◌, ◌++◌, IfOk, string_bytes};
ghost use Rattle.toml_explain.specs.Openings.{EndsIn, OpensAt, OpensBare, OpensInFile, bare_opening, opening, place_opening};

use crate::input::Input;
use itoa::Buffer;
use std::alloc::{AllocError, Global};
use toml_text::{Position, position};

/// A text, behind the word of a file and a line and a column.
fn positioned(alloc: Global, word: &str, place: Position, rest: &str) -> Result<String, AllocError>
    ensures { IfOk result (λ text. string_bytes text ≡ opening word.now place ++ rest.now) }
{
    let mut digits = Buffer::new();
    let mut text = String::from_str(alloc, word)?;
    text.push_str(":")?;
    text.push_str(digits.format(place.line))?;
    text.push_str(":")?;
    text.push_str(digits.format(place.column))?;
    text.push_str(": ")?;
    text.push_str(rest)?;
    Ok(text)
}

/// A text, behind the word of a file and the line and the column of a place in it; a place behind its end is the end.
pub(crate) fn opened(
    alloc: Global,
    file: Input<'_>,
    at: usize,
    rest: &str,
) -> Result<String, AllocError>
    ensures file { IfOk result (λ text. OpensInFile file.entry.word.now file.entry.bytes.now (string_bytes text)) }
    ensures position { IfOk result (λ text. OpensAt file.entry.word.now file.entry.bytes.now at (string_bytes text)) }
    ensures behind { IfOk result (λ text. EndsIn rest.now (string_bytes text)) }
{
    let place = position(file.bytes, at.min(file.bytes.len()));
    positioned(alloc, file.word, place, rest)
}

/// A text, behind a word and a colon.
fn behind_word(alloc: Global, word: &str, rest: &str) -> Result<String, AllocError>
    ensures { IfOk result (λ text. string_bytes text ≡ bare_opening word.now ++ rest.now) }
{
    let mut text = String::from_str(alloc, word)?;
    text.push_str(": ")?;
    text.push_str(rest)?;
    Ok(text)
}

/// A text, behind the word of a file.
pub(crate) fn bare_opened(alloc: Global, word: &str, rest: &str) -> Result<String, AllocError>
    ensures { IfOk result (λ text. OpensBare word.now (string_bytes text)) }
{
    behind_word(alloc, word, rest)
}

/// A text, behind a place of a command line and a column.
pub(crate) fn place_opened(
    alloc: Global,
    place: &str,
    column: usize,
    rest: &str,
) -> Result<String, AllocError>
    ensures { IfOk result (λ text. string_bytes text ≡ place_opening place.now column ++ rest.now) }
{
    let mut digits = Buffer::new();
    let mut text = String::from_str(alloc, place)?;
    text.push_str(":")?;
    text.push_str(digits.format(column))?;
    text.push_str(": ")?;
    text.push_str(rest)?;
    Ok(text)
}
