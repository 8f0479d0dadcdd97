//! Lines of a text as they are shown: each with its number, and carets below what is meant.
ghost use Rattle.std.specs.Prelude.{◌≡◌, ◌≤◌, ◌++◌, ◌∷◌, [], IfOk, OnOk, decimal, length, replicate, string_bytes};
ghost use Rattle.toml_explain.specs.Excerpts.{Gains, GainsCarets, GainsLine, GainsMore, IsDrawnAt, below_line, labelled, line_number, margin, noted};

use crate::drawing::{Drawing, draw};
use itoa::Buffer;
use std::alloc::{AllocError, Global};
use toml_text::{Span, position};

/// Lines that are shown one below the other, as wide in front as the longest number.
#[derive(Drop)]
pub(crate) struct Excerpt {
    alloc: Global,
    text: String,
    width: usize,
}

/// The span of the one place.
pub(crate) fn at_place(at: usize) -> Span
    ensures { result.start ≡ at }
{
    Span {
        start: at,
        end: at.saturating_add(1),
    }
}

/// The number of the line in which the place stands, from 1.
pub(crate) fn line_number(bytes: &[u8], at: usize) -> usize
    ensures { result ≡ line_number bytes.now at }
{
    position(bytes, at.min(bytes.len())).line
}

impl Excerpt {
    /// No line, with room in front for a number.
    pub fn new(alloc: Global, largest: usize) -> Excerpt
        ensures text { string_bytes result.text ≡ [] }
        ensures width { result.width ≡ length (decimal largest) }
    {
        let mut digits = Buffer::new();
        let width = digits.format(largest).len();
        Excerpt {
            alloc,
            text: String::new(alloc),
            width,
        }
    }

    /// No line, for lines without a number.
    pub fn unnumbered(alloc: Global) -> Excerpt {
        Excerpt {
            alloc,
            text: String::new(alloc),
            width: 0,
        }
    }

    /// The lines.
    pub fn into_text(self) -> String
        ensures { result ≡ self.text }
    {
        self.text
    }

    /// Adds what stands in front of a line.
    fn push_front(&mut self, label: &str) -> Result<(), AllocError>
        ensures { OnOk result (Gains self.old self.new (margin self.old.width label.now)) }
    {
        self.text.push_str("  ")?;
        push_spaces(&mut self.text, self.width.saturating_sub(label.len()))?;
        self.text.push_str(label)?;
        push_spaces(&mut self.text, self.width.min(1))?;
        self.text.push_str("| ")?;
        Ok(())
    }

    /// Adds a line, and below it the carets, and a word behind these.
    fn push(&mut self, label: &str, drawing: &Drawing, note: &str) -> Result<(), AllocError>
        ensures { OnOk result (Gains self.old self.new
            (labelled self.old.width label.now (string_bytes drawing.now.text) (string_bytes drawing.now.below) note.now)) }
    {
        self.push_front(label)?;
        self.text.push_str(drawing.text.as_str())?;
        self.text.push_str("\n")?;
        self.push_below(drawing, note)?;
        Ok(())
    }

    /// Adds the carets below a line, and a word behind these.
    fn push_below(&mut self, drawing: &Drawing, note: &str) -> Result<(), AllocError>
        ensures { OnOk result (Gains self.old self.new (below_line self.old.width (string_bytes drawing.now.below) note.now)) }
    {
        self.push_front("")?;
        self.text.push_str(drawing.below.as_str())?;
        push_note(&mut self.text, note)?;
        self.text.push_str("\n")?;
        Ok(())
    }

    /// Adds a whole text as one line without a number, and carets below what is meant in it.
    pub fn push_text(&mut self, text: &[u8], meant: Span) -> Result<(), AllocError> {
        let drawing = draw(self.alloc, text, meant)?;
        self.push("", &drawing, "")
    }

    /// Adds the line of a text in which a span begins, and carets below what it has of it.
    pub fn push_line(&mut self, bytes: &[u8], meant: Span, note: &str) -> Result<(), AllocError>
        ensures { OnOk result (GainsLine self.old self.new bytes.now meant.start note.now) }
    {
        let mut digits = Buffer::new();
        let drawing = line_drawing(self.alloc, bytes, meant)?;
        self.push(
            digits.format(line_number(bytes, meant.start)),
            &drawing,
            note,
        )
    }

    /// Adds the line of a text without its number.
    pub fn push_unnumbered(&mut self, bytes: &[u8], meant: Span) -> Result<(), AllocError>
        ensures { OnOk result (GainsMore self.old self.new) }
    {
        let drawing = line_drawing(self.alloc, bytes, meant)?;
        self.push("", &drawing, "")
    }

    /// Adds carets below the line of a text that was added last.
    pub fn push_more(&mut self, bytes: &[u8], meant: Span, note: &str) -> Result<(), AllocError>
        ensures { OnOk result (GainsCarets self.old self.new bytes.now meant.start note.now) }
    {
        let drawing = line_drawing(self.alloc, bytes, meant)?;
        self.push_below(&drawing, note)
    }
}

/// Adds so many spaces.
fn push_spaces(text: &mut String, count: usize) -> Result<(), AllocError>
    ensures { OnOk result (string_bytes text.new ≡ string_bytes text.old ++ replicate count 0x20) }
{
    for i in 0..count {
        text.push_str(" ")?;
    }
    Ok(())
}

/// Adds a word behind a space, if there is one.
fn push_note(text: &mut String, note: &str) -> Result<(), AllocError>
    ensures { OnOk result (string_bytes text.new ≡ string_bytes text.old ++ noted note.now) }
{
    if note.is_empty() {
        return Ok(());
    }
    text.push_str(" ")?;
    text.push_str(note)?;
    Ok(())
}

/// Draws the line of a text in which a span begins.
fn line_drawing(alloc: Global, bytes: &[u8], meant: Span) -> Result<Drawing, AllocError>
    ensures { IfOk result (IsDrawnAt bytes.now meant.start) }
{
    let line = position(bytes, meant.start.min(bytes.len())).line_span;
    let inside = Span {
        start: meant.start.saturating_sub(line.start),
        end: meant.end.saturating_sub(line.start),
    };
    draw(alloc, &bytes[line.start..line.end], inside)
}
