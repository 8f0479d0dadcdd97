use toml_names::Address;
use toml_text::Span;

/// What a unit is.
#[derive(Clone, Copy, Debug, Drop, PartialEq, Eq)]
pub enum UnitKind {
    /// The expression of a line, with its whitespace and without its newline; a value over several physical lines is in
    /// one. Its address is that of its value, table or element; a blank line has none.
    Line,
    /// A comment at the end of a line (TOML v1.0.0, Comment), also of a blank one; it has its line's address.
    TailComment,
    /// A comment in an array (TOML v1.0.0, Array) or, in profile 2, in an inline table. Its address is that of the innermost
    /// of these in which it stands.
    InnerComment,
    /// The value of an array's element, at its own address.
    Element,
    /// A pair of an inline table (TOML v1.0.0, Inline Table), from its key to its value's end; its address is that of the
    /// value.
    Pair,
}

/// A unit of a document.
#[derive(Drop)]
pub struct Unit {
    pub kind: UnitKind,
    /// Where it stands in the text.
    pub span: Span,
    pub address: Option<Address>,
    /// Of a line with a key and a value, and of a pair: how many steps the address of the table has in which it stands.
    pub base: Option<usize>,
}
