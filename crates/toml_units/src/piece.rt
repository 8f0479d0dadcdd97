//! Texts in pieces.
ghost use Rattle.std.specs.Prelude.{◌≡◌, IfOk, string_bytes};
ghost use Rattle.toml_text.specs.Source.{text_of};
ghost use Rattle.toml_units.specs.Pieces.{AreHeld, joined_text};

use std::alloc::{AllocError, Global};
use toml_text::{Source, Span};

/// A piece of an edited text.
#[derive(Debug, Drop, PartialEq, Eq)]
pub enum Piece {
    /// A part of the text before the edits.
    Kept(Span),
    /// A text that edits have written.
    New(String),
}

/// The text of the pieces, one behind the other. The source holds each span that is kept.
pub fn join(alloc: Global, source: Source<'_>, pieces: &[Piece]) -> Result<String, AllocError>
    requires { AreHeld (text_of source) pieces.now }
    ensures { IfOk result (λ text. string_bytes text ≡ joined_text (text_of source.entry) pieces.now) }
{
    let mut text = String::new(alloc);
    for piece in pieces {
        match piece {
            Piece::Kept(span) => text.push_str(source.slice(*span))?,
            Piece::New(new) => text.push_str(new)?,
        }
    }
    Ok(text)
}
