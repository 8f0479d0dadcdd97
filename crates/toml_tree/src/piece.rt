ghost use Rattle.std.specs.Prelude.{◌≡◌, ◌+◌, length};
ghost use Rattle.toml_tree.specs.Bounded.{Fits};

use std::slice;
use toml_text::Span;

/// A slice of the text; `start` is the place of its first byte there.
#[derive(Clone, Copy)]
pub struct Piece<'t> {
    pub text: &'t str,
    pub start: usize,
    // it ends within the limit of a text, so its end can't overflow
    ghost fits: { Fits start text.now },
}

/// Whitespace, and a comment if one follows.
#[derive(Clone, Copy)]
pub struct Blank<'t> {
    pub ws: Piece<'t>,
    pub comment: Option<Piece<'t>>,
}

/// A line inside an array or an inline table: whitespace, a comment or none, and a newline.
#[derive(Clone, Copy)]
pub struct GapLine<'t> {
    pub blank: Blank<'t>,
    pub newline: Piece<'t>,
}

/// What may stand before and behind a value of an array (TOML v1.0.0, Array; `ws-comment-newline`): whitespace,
/// newlines, and comments that a newline follows. The same may stand before and behind a pair of an inline table, in
/// profile 1 without newlines and comments. Whitespace alone takes no memory of its own.
#[derive(Drop)]
pub enum Gap<'t> {
    Ws(Piece<'t>),
    Line(Box<LineGap<'t>>),
    Lines(Box<LinesGap<'t>>),
}

/// A gap of one line.
#[derive(Drop)]
pub struct LineGap<'t> {
    pub line: GapLine<'t>,
    /// Behind the newline.
    pub ws: Piece<'t>,
}

/// A gap of more lines.
#[derive(Drop)]
pub struct LinesGap<'t> {
    pub lines: Vec<GapLine<'t>>,
    /// Behind the last newline.
    pub ws: Piece<'t>,
}

impl<'t> Gap<'t> {
    ghost use Rattle.std.specs.Prelude.{map};
    ghost use Rattle.toml_tree.specs.View.{gap, gap_line, piece};

    /// The lines in text order.
    pub fn lines(&self) -> &[GapLine<'t>]
        ensures { map gap_line result.now ≡ (gap self.now).lines }
    {
        match self {
            Gap::Ws(_) => &[],
            Gap::Line(gap) => slice::from_ref(&gap.line),
            Gap::Lines(gap) => gap.lines.as_slice(),
        }
    }

    /// What stands behind the last newline.
    pub fn ws(&self) -> Piece<'t>
        ensures { piece result ≡ (gap self.now).ws }
    {
        match self {
            Gap::Ws(ws) => *ws,
            Gap::Line(gap) => gap.ws,
            Gap::Lines(gap) => gap.ws,
        }
    }
}

impl Piece<'_> {
    /// Where it stands in the text.
    pub fn span(self) -> Span
        ensures start { result.start ≡ self.entry.start }
        ensures end { result.end ≡ self.entry.start + length self.entry.text.now }
    {
        Span {
            start: self.start,
            end: self.start + self.text.len(),
        }
    }
}
