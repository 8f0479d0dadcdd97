//! How an address is spelled as a place.
ghost use Rattle.std.specs.Prelude.{◌≡◌, ◌++◌, IfOk, OnOk, option_map};
ghost use Rattle.std.specs.List.{flat_map};
ghost use Rattle.std.specs.String.{string_bytes};
ghost use Rattle.toml_places.specs.Spelled.{place_text, step_text};

use itoa::Buffer;
use std::alloc::{AllocError, Global};
use toml_names::{Address, Step};
use toml_scalar::spell_key;

/// Adds a step behind the first.
fn push_step(alloc: Global, text: &mut String, step: &Step) -> Result<(), AllocError>
    ensures { OnOk result (string_bytes text.new ≡ string_bytes text.old ++ step_text step.now) }
{
    match step {
        Step::Name(name) => {
            text.push_str(".")?;
            let spelled = spell_key(alloc, name.as_str())?;
            text.push_str(&spelled)?;
        }
        Step::Index(index) => {
            let mut digits = Buffer::new();
            text.push_str("[")?;
            text.push_str(digits.format(*index))?;
            text.push_str("]")?;
        }
    }
    Ok(())
}

/// Adds the steps behind the first.
fn push_steps(alloc: Global, text: &mut String, steps: &[Step]) -> Result<(), AllocError>
    ensures { OnOk result (string_bytes text.new ≡ string_bytes text.old ++ flat_map step_text steps.now) }
{
    for step in steps {
        push_step(alloc, text, step)?;
    }
    Ok(())
}

/// The text of an address as a place: its names bare where they can be, else as basic strings. None where it begins with an
/// index, which no place does.
pub fn spell_place(alloc: Global, address: &Address) -> Result<Option<String>, AllocError>
    ensures { IfOk result (λ text. option_map string_bytes text ≡ place_text address.now) }
{
    match address.steps() {
        [] => Ok(Some(String::from_str(alloc, ".")?)),
        [Step::Name(name), more @ ..] => {
            let mut text = spell_key(alloc, name.as_str())?;
            push_steps(alloc, &mut text, more)?;
            Ok(Some(text))
        }
        [Step::Index(_), ..] => Ok(None),
    }
}
