//! What stands at a place of a text's data, in a form.
ghost use Rattle.std.specs.Prelude.{◌≡◌, ◌++◌, IfOk, OnOk};
ghost use Rattle.toml_names.specs.reader.Parts.{IsPart, part_kinds, shape_kind};
ghost use Rattle.toml_places.specs.Leading.{below_steps};
ghost use Rattle.toml_places.specs.Parts.{Stands};
ghost use Rattle.toml_print.specs.Printed.{IsPrinted, IsPrintedAt, type_name};
ghost use Rattle.toml_print.specs.Writing.{PrintsBehind};
ghost use Rattle.toml_print.specs.declared.form.Form.TheVariants.{Plain};

use crate::form::Form;
use crate::json_text::write_json;
use crate::scalars::{tag_of, write_plain, write_scalar_text};
use crate::style::Style;
use std::alloc::{AllocError, Global};
use toml_names::{Address, NamedText, Shape};
use toml_places::Place;

/// What stands at a place of a text's data: its bytes in a form, without a newline; None where nothing stands there. No data are
/// built: of them one scalar's value stands in memory at a time, and for each table around it the list of its names.
pub fn print_at(
    alloc: Global,
    names: &NamedText<'_>,
    place: &Place,
    form: Form,
) -> Result<Option<Vec<u8>>, AllocError>
    ensures { IfOk result (IsPrintedAt form (part_kinds names.now 0) place.now) }
{
    let Some(at) = place.address(alloc, names)? else {
        return Ok(None);
    };
    match part_at(names, &at)? {
        Some(part) => Ok(Some(print_part(alloc, names, part, form)?)),
        None => Ok(None),
    }
}

/// The part that stands at an address; None where nothing stands there.
pub(crate) fn part_at(names: &NamedText<'_>, at: &Address) -> Result<Option<usize>, AllocError>
    ensures { IfOk result (λ part. Stands names.now part (below_steps at.now (part_kinds names.now 0))) }
{
    toml_places::part_at(names, at.steps())
}

/// The bytes of a part in a form.
fn print_part(
    alloc: Global,
    names: &NamedText<'_>,
    id: usize,
    form: Form,
) -> Result<Vec<u8>, AllocError>
    requires { IsPart names.now id }
    ensures { IfOk result (λ text. IsPrinted form (part_kinds names.now id) text.items) }
{
    let mut out = Vec::new(alloc);
    write_form(alloc, &mut out, names, id, form)?;
    Ok(out)
}

/// Writes a part in a form behind what `out` has.
fn write_form(
    alloc: Global,
    out: &mut Vec<u8>,
    names: &NamedText<'_>,
    id: usize,
    form: Form,
) -> Result<(), AllocError>
    requires { IsPart names.now id }
    ensures { OnOk result (PrintsBehind form (part_kinds names.now id) out.old.items out.new.items) }
{
    match form {
        Form::Plain => write_plainly(alloc, out, names, id),
        Form::Json => write_json(alloc, out, names, Style::Plain, id),
        Form::Tagged => write_json(alloc, out, names, Style::Tagged, id),
        Form::TypeName => write_type(out, &names.shape(id)?),
    }
}

/// Writes a scalar's text, and else JSON.
fn write_plainly(
    alloc: Global,
    out: &mut Vec<u8>,
    names: &NamedText<'_>,
    id: usize,
) -> Result<(), AllocError>
    requires { IsPart names.now id }
    ensures { OnOk result (PrintsBehind Plain (part_kinds names.now id) out.old.items out.new.items) }
{
    match names.shape(id)? {
        Shape::Scalar(scalar) => write_scalar_text(alloc, out, &scalar),
        Shape::Array | Shape::Table => write_json(alloc, out, names, Style::Plain, id),
    }
}

/// Writes the name of the type of what stands at a part.
fn write_type(out: &mut Vec<u8>, shape: &Shape) -> Result<(), AllocError>
    ensures { OnOk result (out.new.items ≡ out.old.items ++ type_name (shape_kind shape.now)) }
{
    match shape {
        Shape::Table => write_plain(out, "table"),
        Shape::Array => write_plain(out, "array"),
        Shape::Scalar(scalar) => write_plain(out, tag_of(scalar)),
    }
}
