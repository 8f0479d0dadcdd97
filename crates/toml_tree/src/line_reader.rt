//! The lines of a text one after another.
ghost use Rattle.std.specs.Prelude.{◌≡◌, [], IfOk, length};
ghost use Rattle.toml_text.specs.Source.{text_of};
ghost use Rattle.toml_tree.specs.HandedOut.{HandsNext, HandsOut, front_of, line_ahead};
ghost use Rattle.toml_tree.specs.Lines.{line};
ghost use Rattle.toml_tree.specs.Reading.{here};
ghost use Rattle.toml_tree.specs.Spells.{mark_of};
ghost use Rattle.toml_tree.specs.View.{piece};

use crate::line::Line;
use crate::piece::Piece;
use crate::profile::Profile;
use crate::reader::Reader;
use crate::step::Step;
use std::alloc::Global;
use toml_scalar::SyntaxFault;
use toml_text::Source;

/// Hands out the lines of a text in text order. It keeps none, so whoever judges a text by its lines needs memory for one
/// of them at a time.
#[derive(Clone, Copy)]
pub struct LineReader<'t> {
    reader: Reader<'t>,
    profile: Profile,
}

impl<'t> LineReader<'t> {
    /// A reader that stands before the first line, behind the optional mark U+FEFF.
    pub fn new(source: Source<'t>, profile: Profile) -> LineReader<'t>
        ensures { HandsOut profile (text_of source.entry) [] result }
    {
        let mut reader = Reader { source, at: 0 };
        let _ = reader.mark();
        LineReader { reader, profile }
    }

    /// The next line, and the reader if there is one more. Once the last line is handed out all of them together are those
    /// of `parse_in`. A fault says of the whole text that it has no tree of the profile; `NoMemory` says nothing of it.
    /// A reader that is asked again hands out the same line.
    pub fn next(self, alloc: Global) -> Result<(Line<'t>, Option<LineReader<'t>>), SyntaxFault>
        ensures same { IfOk result (λ r. line r.0 ≡ line_ahead self.entry) }
        ensures hands { HandsNext self.entry result }
    {
        let LineReader {
            mut reader,
            profile,
        } = self;
        match reader.line_step(alloc, profile)? {
            Step::Next(line) => Ok((line, Some(LineReader { reader, profile }))),
            Step::Done(line) => Ok((line, None)),
        }
    }
}

/// The mark U+FEFF at the front of a text, or an empty piece.
pub fn mark<'t>(source: Source<'t>) -> Piece<'t>
    ensures { let text = text_of source.entry in piece result ≡ here (length (mark_of text)) (front_of text) }
{
    let mut reader = Reader { source, at: 0 };
    reader.mark()
}
