//! The table rules: which roles may meet at one address (TOML v1.0.0, Keys, Table, Inline Table, Array of Tables).
ghost use Rattle.std.specs.Prelude.{◌≡◌};
ghost use Rattle.toml_names.specs.mentions.Rules.{may_follow};

use crate::mentions::mention::Role;

/// How many steps an address may have.
pub const MAX_STEPS: usize = 100;

/// Whether an address that was mentioned in the first role may be mentioned in the second.
pub(crate) fn may_follow(earlier: Role, later: Role) -> bool
    ensures { result ≡ may_follow earlier later }
{
    matches!(
        (earlier, later),
        (Role::Bare, _)
            | (_, Role::Bare)
            | (Role::Passed, Role::Passed | Role::Header | Role::Dotted)
            | (Role::Header, Role::Passed)
            | (Role::Dotted, Role::Dotted | Role::Passed)
            | (Role::Tables, Role::Tables)
            | (Role::Element, Role::Passed)
    )
}
