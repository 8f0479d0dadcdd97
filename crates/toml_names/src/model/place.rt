//! Where the things of the data stand in the text.
ghost use Rattle.std.specs.Prelude.{◌≡◌};
ghost use Rattle.toml_names.specs.model.Places.{same_role};

use crate::mentions::mention::Role;

/// Where a thing of the data stands in the text. Lines are counted from 0, as the tree has them.
#[derive(Clone, Copy, Debug, Drop, PartialEq, Eq)]
pub enum Place {
    /// The root, which no line makes.
    Root,
    /// The value of this line.
    KeyVal(usize),
    /// Inside the value of this line.
    Inside(usize),
    /// A table whose `[..]` line, or an element whose `[[..]]` line, this is.
    Header(usize),
    /// A table that dotted keys of lines make; this is the first of these lines.
    Dotted(usize),
    /// A table made only by longer headers; this is the first.
    Implicit(usize),
    /// An array of tables; this is its first header.
    Tables(usize),
}

/// Whether the roles are the same.
pub(crate) fn same_role(one: Role, other: Role) -> bool
    ensures { result ≡ same_role one other }
{
    matches!(
        (one, other),
        (Role::Passed, Role::Passed)
            | (Role::Header, Role::Header)
            | (Role::Dotted, Role::Dotted)
            | (Role::Valued, Role::Valued)
            | (Role::Tables, Role::Tables)
            | (Role::Element, Role::Element)
            | (Role::Bare, Role::Bare)
    )
}
