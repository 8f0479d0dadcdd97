//! The text of an edit's value.
ghost use Rattle.std.specs.Prelude.{◌≡◌, ◌↔◌, IfOk, IsTrue};
ghost use Rattle.toml_edits.specs.declared.value.Reading.TheVariants.{Bad};
ghost use Rattle.toml_edits.specs.Readings.{IsReading, IsTreeReading};
ghost use Rattle.toml_tree.specs.View.{value as tree_value};

use std::alloc::{AllocError, Global};
use toml_names::{Datum, ValueFault, read_value};
use toml_text::Source;
use toml_tree::{Profile, SyntaxFault, Value, parse_value_in};

/// What the text of an edit's value is.
#[derive(Drop)]
pub(crate) enum Reading {
    /// One value of the profile that keeps the table rules: its data.
    Good(Datum),
    /// None.
    Bad,
    /// One that keeps the rules, with an address of more than 100 steps in it.
    Long,
}

impl Reading {
    /// Whether the text is no value of the profile that keeps the table rules.
    pub(crate) fn is_bad(&self) -> bool
        ensures { IsTrue result ↔ (self.now ≡ Bad) }
    {
        matches!(self, Reading::Bad)
    }
}

/// Reads the text of an edit's value in the profile.
pub(crate) fn read_text(alloc: Global, text: &str, profile: Profile) -> Result<Reading, AllocError>
    ensures { IfOk result (IsReading profile text.now) }
{
    let Ok(source) = Source::new(text.as_bytes()) else {
        return Ok(Reading::Bad);
    };
    match parse_value_in(alloc, source, profile) {
        Ok(value) => Ok(read_tree(alloc, &value)?),
        Err(SyntaxFault::NoMemory) => Err(AllocError),
        Err(_) => Ok(Reading::Bad),
    }
}

/// Reads the value of a text.
fn read_tree(alloc: Global, value: &Value<'_>) -> Result<Reading, AllocError>
    ensures { IfOk result (IsTreeReading (tree_value value.now)) }
{
    match read_value(alloc, value) {
        Ok(datum) => Ok(Reading::Good(datum)),
        Err(ValueFault::Rules) => Ok(Reading::Bad),
        Err(ValueFault::Long) => Ok(Reading::Long),
        Err(ValueFault::NoMemory) => Err(AllocError),
    }
}
