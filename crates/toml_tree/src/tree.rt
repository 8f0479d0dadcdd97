use crate::piece::{Blank, Gap, Piece};
use toml_scalar::ScalarKind;

/// `.` between whitespace, and the key part behind it.
#[derive(Clone, Copy)]
pub struct Dotted<'t> {
    pub before_dot: Piece<'t>,
    pub after_dot: Piece<'t>,
    pub part: Piece<'t>,
}

/// A key (TOML v1.0.0, Keys) by its parts.
#[derive(Drop)]
pub struct Key<'t> {
    pub first: Piece<'t>,
    pub rest: Vec<Dotted<'t>>,
}

/// A key, and `=` between whitespace.
#[derive(Drop)]
pub struct Assign<'t> {
    pub key: Key<'t>,
    pub before_equals: Piece<'t>,
    pub after_equals: Piece<'t>,
}

/// A value (TOML v1.0.0, String to Inline Table; `val`). Arrays and inline tables are boxed, so that a scalar takes no more room than it needs.
#[derive(Drop)]
#[cycle(value)]
pub enum Value<'t> {
    Scalar(ScalarKind, Piece<'t>),
    Array(Box<Array<'t>>),
    Inline(Box<InlineTable<'t>>),
}

/// An array (TOML v1.0.0, Array).
#[derive(Drop)]
#[cycle(value)]
pub struct Array<'t> {
    /// From `[` to `]`.
    pub whole: Piece<'t>,
    pub items: Vec<Item<'t>>,
    /// What stands behind the last comma, where one follows the last value; of an array of no value all that
    /// stands in it.
    pub end: Option<Gap<'t>>,
}

/// A value of an array, and what stands around it up to the bracket or the comma.
#[derive(Drop)]
#[cycle(value)]
pub struct Item<'t> {
    pub before: Gap<'t>,
    pub value: Value<'t>,
    pub after: Gap<'t>,
}

/// An inline table (TOML v1.0.0, Inline Table).
#[derive(Drop)]
#[cycle(value)]
pub struct InlineTable<'t> {
    /// From `{` to `}`.
    pub whole: Piece<'t>,
    pub pairs: Vec<Pair<'t>>,
    /// What stands behind the last comma, where one follows the last pair (profile 2); of an inline table of no pair
    /// all that stands in it.
    pub end: Option<Gap<'t>>,
}

/// A pair of an inline table, and what stands around it up to the brace or the comma: in profile 1 whitespace alone.
#[derive(Drop)]
#[cycle(value)]
pub struct Pair<'t> {
    pub before: Gap<'t>,
    pub keyval: KeyVal<'t>,
    pub after: Gap<'t>,
}

/// A key/value pair (TOML v1.0.0, Key/Value Pair).
#[derive(Drop)]
#[cycle(value)]
pub struct KeyVal<'t> {
    pub assign: Assign<'t>,
    pub value: Value<'t>,
}

/// A header between its brackets (TOML v1.0.0, Table and Array of Tables).
#[derive(Drop)]
pub struct Header<'t> {
    pub before: Piece<'t>,
    pub key: Key<'t>,
    pub after: Piece<'t>,
}

/// What stands on a line; `ws` is the whitespace before it, `tail` what stands behind it.
#[derive(Drop)]
pub enum Expr<'t> {
    Blank(Blank<'t>),
    KeyVal {
        ws: Piece<'t>,
        keyval: KeyVal<'t>,
        tail: Blank<'t>,
    },
    /// `[table]`
    Std {
        ws: Piece<'t>,
        header: Header<'t>,
        tail: Blank<'t>,
    },
    /// `[[array of tables]]`
    Array {
        ws: Piece<'t>,
        header: Header<'t>,
        tail: Blank<'t>,
    },
}
