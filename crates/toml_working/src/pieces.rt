//! The pieces of the edited text: kept spans of the text before the edits, and new texts.
ghost use Rattle.std.specs.Prelude.{◌≡◌, ◌↔◌, [], IsTrue, slice_range};
ghost use Rattle.toml_text.specs.Source.{IsHeld, text_of};
ghost use Rattle.toml_working.specs.Tidy.{ArePieces};
ghost use Rattle.toml_layout.specs.OpenOutlines.{leaf_text};
ghost use Rattle.toml_working.specs.Tidy.{IsKeptTo, IsNew, EndsWith, TakesKept, TakesNew};
ghost use Rattle.toml_working.specs.Writing.{Writes};

use std::alloc::{AllocError, Global};
use std::marker::Model;
use toml_layout::Leaf;
use toml_text::{Source, Span};
use toml_units::Piece;

/// Pieces that are written one behind the other. No piece is empty, new texts that meet are one, and so are kept spans that
/// touch. Clauses see them as the text before the edits and what is written so
/// far. Where memory runs out the piece that was written last may be lost.
#[derive(Drop)]
pub struct Pieces<'t> {
    pub alloc: Global,
    pub source: Source<'t>,
    pub list: Vec<Piece>,
    /// Where the last kept span ends; the next one begins there or behind it.
    pub end: usize,
    /// Where the piece that was written last ends in the text before the edits, if it is one of that text.
    pub at: Option<usize>,
}

impl<'t> Model for Pieces<'t> {
    ghost use Rattle.toml_text.specs.Source.{text_of};
    ghost use Rattle.toml_units.specs.Pieces.{joined_text};
    ghost use Rattle.toml_working.specs.Tidy.{AreTidyUpTo};
    ghost use Rattle.toml_working.specs.Writing.{Written};

    ghost Value = { Written };

    ghost view = { λ p. record { before = text_of p.source; out = joined_text (text_of p.source) p.list.items } };

    ghost invariant = { λ p. AreTidyUpTo (text_of p.source) p.end p.list.items };
}

impl<'t> Pieces<'t> {
    /// No pieces.
    pub(crate) fn none(alloc: Global, source: Source<'t>) -> Pieces<'t>
        ensures { result ≡ record { before = text_of source.entry; out = [] } }
    {
        Pieces {
            alloc,
            source,
            list: Vec::new(alloc),
            end: 0,
            at: Some(0),
        }
    }

    /// The pieces.
    pub fn into_list(self) -> Vec<Piece>
        ensures { ArePieces self.entry.before self.entry.out result.items }
    {
        self.list
    }

    /// Writes a piece of the working tree.
    pub(crate) fn leaf(&mut self, leaf: Leaf<'t>) -> Result<(), AllocError>
        ensures { Writes (leaf_text leaf.entry) self.old self.new result }
    {
        match leaf {
            Leaf::Kept { start, text } => self.place(start, text),
            Leaf::New(text) => self.write(text),
        }
    }

    /// Keeps a span. One that does not lie behind the last one is written as a new text.
    pub(crate) fn keep(&mut self, span: Span) -> Result<(), AllocError>
        ensures before { self.new.before ≡ self.old.before }
        ensures kept { IsHeld self.old.before span → Writes (slice_range self.old.before span.start span.end) self.old self.new result }
    {
        if !self.source.holds(span) {
            return Ok(());
        }
        if span.start < self.end {
            return self.write(self.source.slice(span));
        }
        self.at = Some(span.end);
        if span.start == span.end {
            return Ok(());
        }
        self.end = span.end;
        let start = match take_kept(&mut self.list, span.start) {
            Some(last) => last.start,
            None => span.start,
        };
        let end = span.end;
        self.list.push(Piece::Kept(Span { start, end }))?;
        Ok(())
    }

    /// Writes a new text.
    fn write(&mut self, text: &str) -> Result<(), AllocError>
        ensures { Writes text.now self.old self.new result }
    {
        if text.is_empty() {
            return Ok(());
        }
        self.at = None;
        let mut new = match take_new(&mut self.list) {
            Some(last) => last,
            None => String::new(self.alloc),
        };
        new.push_str(text)?;
        self.list.push(Piece::New(new))?;
        Ok(())
    }

    /// Begins a line of the document, or a new one. The brackets of a new header line are new too, so that they are not taken
    /// from the header line behind it.
    pub(crate) fn begin(&mut self, is_new: bool)
        ensures { self.new ≡ self.old }
    {
        if is_new {
            self.at = None;
        }
    }

    /// Writes a symbol between two pieces. It is kept where it stands in the text before the edits behind the piece that was
    /// written last.
    pub(crate) fn symbol(&mut self, text: &str) -> Result<(), AllocError>
        ensures { Writes text.now self.old self.new result }
    {
        match self.at {
            Some(start) => self.place(start, text),
            None => self.write(text),
        }
    }

    /// Writes a text, and keeps it where it stands there in the text before the edits.
    pub(crate) fn place(&mut self, start: usize, text: &str) -> Result<(), AllocError>
        ensures { Writes text.now self.old self.new result }
    {
        let span = Span {
            start,
            end: start.saturating_add(text.len()),
        };
        if self.source.holds(span) && self.source.slice(span) == text {
            return self.keep(span);
        }
        self.write(text)
    }
}

/// Takes the last piece out, if it is kept and ends at the place.
fn take_kept(pieces: &mut Vec<Piece>, place: usize) -> Option<Span>
    ensures { TakesKept place pieces.old.items pieces.new.items result }
{
    if !ends_at(pieces, place) {
        return None;
    }
    match pieces.pop() {
        Some(Piece::Kept(last)) => Some(last),
        Some(Piece::New(_)) => None,
        None => None,
    }
}

/// Takes the last piece out, if it is new.
fn take_new(pieces: &mut Vec<Piece>) -> Option<String>
    ensures { TakesNew pieces.old.items pieces.new.items result }
{
    if !ends_new(pieces) {
        return None;
    }
    match pieces.pop() {
        Some(Piece::New(last)) => Some(last),
        Some(Piece::Kept(_)) => None,
        None => None,
    }
}

/// Whether the last piece is kept, and ends at the place.
fn ends_at(pieces: &[Piece], place: usize) -> bool
    ensures { IsTrue result ↔ EndsWith (IsKeptTo place) pieces.now }
{
    match pieces.last() {
        Some(Piece::Kept(last)) => last.end == place,
        Some(Piece::New(_)) => false,
        None => false,
    }
}

/// Whether the last piece is new.
fn ends_new(pieces: &[Piece]) -> bool
    ensures { IsTrue result ↔ EndsWith IsNew pieces.now }
{
    match pieces.last() {
        Some(Piece::New(_)) => true,
        Some(Piece::Kept(_)) => false,
        None => false,
    }
}
