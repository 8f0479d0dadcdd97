//! In what role a line names an address, and what stands there.
use toml_scalar::ScalarKind;

/// What a mention says of its address.
#[derive(Clone, Copy, Drop)]
pub enum Role {
    /// A longer header passes through the table.
    Passed,
    /// The table's own header, `[table]`.
    Header,
    /// A longer dotted key passes through the table.
    Dotted,
    /// A key's value.
    Valued,
    /// A header of an array of tables, `[[tables]]`.
    Tables,
    /// The element that such a header begins.
    Element,
    /// No mention: the root, and an element of an array in a value.
    Bare,
}

/// What stands at an address; a scalar by its token.
#[derive(Clone, Copy, Drop)]
pub enum Kind<'t> {
    Table,
    Array,
    Scalar(ScalarKind, &'t str),
}
