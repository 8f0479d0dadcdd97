/// A part of a text, from the byte `start` up to the byte `end`, both counted from 0.
#[derive(Clone, Copy, Debug, PartialEq, Eq)]
pub struct Span {
    pub start: usize,
    pub end: usize,
}

/// Where a place in a text stands.
#[derive(Clone, Copy, Debug, PartialEq, Eq)]
pub struct Position {
    /// The number of its line, from 1. A line ends behind its LF.
    pub line: usize,
    /// The number of its column, from 1, in characters. The mark U+FEFF at the front of the text is none.
    pub column: usize,
    /// Its line, without the newline, and without that mark.
    pub line_span: Span,
}
