//! In what roles key parts name addresses, and which may follow which (TOML v1.0.0, Keys, Table, Inline Table, Array of Tables).
ghost use Rattle.std.specs.Prelude.{◌≡◌};
ghost use Rattle.toml_names.specs.mentions.Rules.{may_follow};
ghost use Rattle.toml_mentions.specs.Sought.{role_of};

/// What a mention says of its address.
#[derive(Clone, Copy, Debug, PartialEq, Eq)]
pub enum Role {
    /// A longer header passes through the table.
    Passed,
    /// The table's own header, `[table]`.
    Header,
    /// A longer dotted key passes through the table.
    Dotted,
    /// A key's value.
    Valued,
    /// A header of an array of tables, `[[tables]]`.
    Tables,
    /// The element that such a header begins.
    Element,
}

/// Whether an address that was mentioned in the first role may be mentioned in the second.
pub(crate) fn may_follow(earlier: Role, later: Role) -> bool
    ensures { result ≡ may_follow (role_of earlier) (role_of later) }
{
    match earlier {
        Role::Passed => matches!(later, Role::Passed | Role::Header | Role::Dotted),
        Role::Header => matches!(later, Role::Passed),
        Role::Dotted => matches!(later, Role::Dotted | Role::Passed),
        Role::Valued => false,
        Role::Tables => matches!(later, Role::Tables),
        Role::Element => matches!(later, Role::Passed),
    }
}
