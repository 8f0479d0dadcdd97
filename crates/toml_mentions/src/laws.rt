//! Laws of a name that is defined again: nothing is run.
ghost use Rattle.toml_mentions.specs.Redefined.{OffenceClashes, OffenceStands};

/// Where the names of a text are refused since a line breaks the table rules, a key part stands for the mention that breaks them, and
/// that mention clashes with an earlier one.
pub fn offences()
    ensures stands { OffenceStands }
    ensures clashes { OffenceClashes }
{}
