//! Scalars, as JSON has them, with their types, and by their text alone.
ghost use Rattle.std.specs.Prelude.{◌≡◌, ◌++◌, ◌∷◌, [], OnOk};
ghost use Rattle.json.specs.Token.{string};
ghost use Rattle.toml_scalar.specs.Values.{scalar_value};
ghost use Rattle.toml_print.specs.Tagged.{tag_of, text_of};
ghost use Rattle.toml_print.specs.Tokens.{WritesTokens, float_token, json_token, scalar_tokens, told_tokens};

use crate::style::Style;
use crate::tagged_json::moment_tag;
use json::Writer;
use std::alloc::{AllocError, Global};
use toml_scalar::Scalar;

/// Writes a scalar in a style.
pub(crate) fn write_scalar(
    writer: &mut Writer,
    style: Style,
    scalar: &Scalar,
) -> Result<(), AllocError>
    ensures { OnOk result (WritesTokens (scalar_tokens style (scalar_value scalar.now)) writer.old writer.new) }
{
    match style {
        Style::Plain => write_json_scalar(writer, scalar),
        Style::Tagged => write_tagged_scalar(writer, scalar),
    }
}

/// Writes a scalar as JSON has it, a date or a time as a string.
fn write_json_scalar(writer: &mut Writer, scalar: &Scalar) -> Result<(), AllocError>
    ensures { OnOk result (WritesTokens (json_token (scalar_value scalar.now) ∷ []) writer.old writer.new) }
{
    match scalar {
        Scalar::Text(text) => writer.string(text.as_str()),
        Scalar::Integer(number) => writer.i64(*number),
        Scalar::Float(float) => write_float(writer, float.text.as_str()),
        Scalar::Bool(truth) => writer.boolean(*truth),
        Scalar::Moment(moment) => writer.string(moment.text.as_str()),
    }
}

/// Writes a float's text, as a string where JSON has no number for it. The names of a text do not say that it is a float of TOML, so
/// JSON is asked.
fn write_float(writer: &mut Writer, text: &str) -> Result<(), AllocError>
    ensures { OnOk result (WritesTokens (float_token text.now ∷ []) writer.old writer.new) }
{
    if json::is_number(text) {
        return writer.number(text);
    }
    writer.string(text)
}

/// Writes a scalar as an object of its type and its text.
fn write_tagged_scalar(writer: &mut Writer, scalar: &Scalar) -> Result<(), AllocError>
    ensures { OnOk result (WritesTokens
        (told_tokens (tag_of (scalar_value scalar.now)) (text_of (scalar_value scalar.now))) writer.old writer.new) }
{
    writer.begin_object()?;
    writer.key("type")?;
    writer.string(tag_of(scalar))?;
    writer.key("value")?;
    write_text(writer, scalar)?;
    writer.end_object()?;
    Ok(())
}

/// Writes the text of a scalar as a string.
fn write_text(writer: &mut Writer, scalar: &Scalar) -> Result<(), AllocError>
    ensures { OnOk result (WritesTokens (string (text_of (scalar_value scalar.now)) ∷ []) writer.old writer.new) }
{
    match scalar {
        Scalar::Text(text) => writer.string(text.as_str()),
        Scalar::Integer(number) => writer.quoted_i64(*number),
        Scalar::Float(float) => writer.string(float.text.as_str()),
        Scalar::Bool(truth) => writer.string(if *truth { "true" } else { "false" }),
        Scalar::Moment(moment) => writer.string(moment.text.as_str()),
    }
}

/// Writes a text as it is.
pub(crate) fn write_plain(out: &mut Vec<u8>, text: &str) -> Result<(), AllocError>
    ensures { OnOk result (out.new.items ≡ out.old.items ++ text.now) }
{
    out.extend_from_slice(text.as_bytes())?;
    Ok(())
}

/// Writes the text of a scalar alone.
pub(crate) fn write_scalar_text(
    alloc: Global,
    out: &mut Vec<u8>,
    scalar: &Scalar,
) -> Result<(), AllocError>
    ensures { OnOk result (out.new.items ≡ out.old.items ++ text_of (scalar_value scalar.now)) }
{
    match scalar {
        Scalar::Text(text) => write_plain(out, text.as_str()),
        Scalar::Integer(number) => write_plain(out, number.to_string(alloc)?.as_str()),
        Scalar::Float(float) => write_plain(out, float.text.as_str()),
        Scalar::Bool(truth) => write_plain(out, if *truth { "true" } else { "false" }),
        Scalar::Moment(moment) => write_plain(out, moment.text.as_str()),
    }
}

/// The name of a scalar's type.
pub(crate) fn tag_of(scalar: &Scalar) -> &'static str
    ensures { result.now ≡ tag_of (scalar_value scalar.now) }
{
    match scalar {
        Scalar::Text(_) => "string",
        Scalar::Integer(_) => "integer",
        Scalar::Float(_) => "float",
        Scalar::Bool(_) => "bool",
        Scalar::Moment(moment) => moment_tag(moment.kind),
    }
}
