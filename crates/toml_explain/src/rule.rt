//! What the table rules say of names that are defined again.

use toml_mentions::Role;

/// What the table rules say of two roles that may not stand together, behind the address.
pub(crate) fn rule(earlier: Role, later: Role) -> &'static str {
    match (earlier, later) {
        (Role::Valued, Role::Valued) => "has a value already",
        (Role::Valued, _) => "has a value already, to which nothing can be added",
        (Role::Tables, _) => "is an array of tables already",
        (_, Role::Tables) => "is a table already, and no array of tables",
        (_, Role::Valued) => "is a table already",
        (Role::Dotted, _) => "is defined by dotted keys already, and has no header",
        (_, Role::Dotted) => "is defined by its header already, and dotted keys can't add to it",
        _ => "is defined already",
    }
}
