//! An opened line, and what is in it, as the edits made so far have left it. It has the shapes of the tree of a document, but
//! its pieces are kept or new.
ghost use Rattle.std.specs.Prelude.{◌≡◌, ◌↔◌, ◌++◌, ◌∷◌, [], IfOk, OnOk, IsTrue, None, option_map};
ghost use Rattle.toml_layout.specs.OpenOutlines.{leaf_text, gap_part_text, gap_read, line as outlined};
ghost use Rattle.toml_layout.specs.Outlines.{no_line};
ghost use Rattle.toml_layout.specs.TreeOutlines.{ws_part};

use std::alloc::{AllocError, Global};
use toml_lists::GapList;

/// A piece of the working text.
#[derive(Clone, Copy)]
pub enum Leaf<'t> {
    /// It begins here in the text before the edits.
    Kept { start: usize, text: &'t str },
    /// An edit has written it.
    New(&'t str),
}

/// What stands between the values of an array, or the pairs of an inline table, but for the commas.
#[derive(Drop)]
pub struct Gap<'t> {
    pub parts: Vec<GapPart<'t>>,
}

/// A part of a gap; the parts are in text order.
#[derive(Clone, Copy)]
pub enum GapPart<'t> {
    Ws(Leaf<'t>),
    /// Behind it, in the same gap, stands its newline.
    Comment(Leaf<'t>),
    Newline(Leaf<'t>),
    /// Lines of the document with the whitespace around them, not taken apart yet.
    Lines(Leaf<'t>),
}

/// `.` between whitespace, and the key part behind it.
#[derive(Clone, Copy)]
pub struct Dotted<'t> {
    pub before_dot: Leaf<'t>,
    pub after_dot: Leaf<'t>,
    pub part: Leaf<'t>,
}

/// A key by its parts.
#[derive(Drop)]
pub struct Key<'t> {
    pub first: Leaf<'t>,
    pub rest: Vec<Dotted<'t>>,
}

/// A key, and `=` between whitespace.
#[derive(Drop)]
pub struct Assign<'t> {
    pub key: Key<'t>,
    pub before_equals: Leaf<'t>,
    pub after_equals: Leaf<'t>,
}

/// A value.
#[derive(Drop)]
#[cycle(value)]
pub enum Value<'t> {
    Scalar(Leaf<'t>),
    Array(Box<Entries<'t>>),
    Inline(Box<Entries<'t>>),
}

/// What stands between the brackets of an array, or the braces of an inline table.
#[derive(Drop)]
#[cycle(value)]
pub struct Entries<'t> {
    /// The bracket or the brace with which it begins. What stands before an element may be new or taken out, so this tells
    /// where the element is kept from.
    pub opening: Leaf<'t>,
    /// A list with a gap, since elements that are put in or taken out near one another then move few others.
    pub list: GapList<Entry<'t>>,
    /// What stands behind the last comma, where one follows the last entry; without an entry all that stands there.
    pub end: Option<Gap<'t>>,
}

/// An element of an array, or a pair of an inline table, with what stands around it up to the brackets or the commas.
#[derive(Drop)]
#[cycle(value)]
pub struct Entry<'t> {
    pub before: Gap<'t>,
    /// A pair's key; an element has none, and most entries are elements.
    pub assign: Option<Box<Assign<'t>>>,
    pub value: Value<'t>,
    pub after: Gap<'t>,
}

/// Whitespace, and a comment if one follows.
#[derive(Clone, Copy)]
pub struct Blank<'t> {
    pub ws: Leaf<'t>,
    pub comment: Option<Leaf<'t>>,
}

/// A key/value pair of a line.
#[derive(Drop)]
pub struct KeyVal<'t> {
    pub assign: Assign<'t>,
    pub value: Value<'t>,
}

/// A header between its brackets.
#[derive(Drop)]
pub struct Header<'t> {
    pub brackets: Brackets,
    pub before: Leaf<'t>,
    pub key: Key<'t>,
    pub after: Leaf<'t>,
}

/// What stands on a line, behind the whitespace before it.
#[derive(Drop)]
pub enum Expr<'t> {
    Blank,
    Pair(KeyVal<'t>),
    Header(Header<'t>),
}

/// How many brackets stand on each side of a header.
#[derive(Clone, Copy)]
pub enum Brackets {
    /// `[table]`
    One,
    /// `[[array of tables]]`
    Two,
}

/// A line whose pieces can be changed.
#[derive(Drop)]
pub struct OpenLine<'t> {
    /// Whether an edit has written it.
    pub is_new: bool,
    pub ws: Leaf<'t>,
    pub expr: Expr<'t>,
    pub tail: Blank<'t>,
    pub newline: Leaf<'t>,
}

impl<'t> Leaf<'t> {
    /// The piece of no bytes.
    pub const EMPTY: Leaf<'static> = Leaf::New("");

    /// Its text.
    pub fn text(self) -> &'t str
        ensures { result.now ≡ leaf_text self.entry }
    {
        match self {
            Leaf::Kept { text, .. } | Leaf::New(text) => text,
        }
    }

    /// Whether it has no bytes.
    pub fn is_empty(self) -> bool
        ensures { IsTrue result ↔ (leaf_text self.entry ≡ []) }
    {
        self.text().is_empty()
    }
}

impl<'t> GapPart<'t> {
    /// What stands there.
    pub fn leaf(self) -> Leaf<'t>
        ensures { leaf_text result ≡ gap_part_text self.entry }
    {
        match self {
            GapPart::Ws(leaf)
            | GapPart::Comment(leaf)
            | GapPart::Newline(leaf)
            | GapPart::Lines(leaf) => leaf,
        }
    }
}

impl OpenLine<'_> {
    /// Whether it has no bytes, and ends in no newline.
    pub fn has_no_bytes(&self) -> bool
        ensures { IsTrue result ↔ (outlined self.now ≡ no_line) }
    {
        matches!(self.expr, Expr::Blank)
            && self.ws.is_empty()
            && self.tail.has_no_bytes()
            && self.newline.is_empty()
    }
}

impl Blank<'_> {
    /// Whether nothing stands there.
    fn has_no_bytes(&self) -> bool
        ensures { IsTrue result ↔ ((leaf_text self.now.ws ≡ []) × (option_map leaf_text self.now.comment ≡ None)) }
    {
        self.ws.is_empty() && self.comment.is_none()
    }
}

impl<'t> Gap<'t> {
    /// A gap of nothing.
    pub(crate) fn empty(alloc: Global) -> Gap<'t>
        ensures { result.parts.items ≡ [] }
    {
        Gap {
            parts: Vec::new(alloc),
        }
    }

    /// A gap of this one part.
    pub(crate) fn one(alloc: Global, part: GapPart<'t>) -> Result<Gap<'t>, AllocError>
        ensures { IfOk result (λ g. g.parts.items ≡ part.entry ∷ []) }
    {
        let mut parts = Vec::with_capacity(alloc, 1)?;
        parts.push(part)?;
        Ok(Gap { parts })
    }

    /// A gap of this whitespace.
    pub(crate) fn space(alloc: Global, ws: Leaf<'t>) -> Result<Gap<'t>, AllocError>
        ensures { IfOk result (λ g. gap_read g ≡ ws_part (leaf_text ws.entry)) }
    {
        if ws.is_empty() {
            return Ok(Gap::empty(alloc));
        }
        Gap::one(alloc, GapPart::Ws(ws))
    }

    /// Puts whitespace behind it, unless it has no bytes.
    pub(crate) fn push_ws(&mut self, ws: Leaf<'t>) -> Result<(), AllocError>
        ensures { OnOk result (gap_read self.new ≡ gap_read self.old ++ ws_part (leaf_text ws.entry)) }
    {
        if !ws.is_empty() {
            self.parts.push(GapPart::Ws(ws))?;
        }
        Ok(())
    }

    /// Puts another gap behind it.
    pub(crate) fn join(&mut self, other: Gap<'t>) -> Result<(), AllocError>
        ensures { OnOk result (self.new.parts.items ≡ self.old.parts.items ++ other.entry.parts.items) }
    {
        self.parts.extend_from_slice(&other.parts)
    }
}
