//! JSON as compact text, written straight from the names of a text: no data and no JSON stand in memory.
ghost use Rattle.std.specs.Prelude.{◌≡◌, [], Some, OnOk};
ghost use Rattle.toml_names.specs.mentions.Mentions.{a_table, an_array};
ghost use Rattle.toml_names.specs.reader.Parts.{IsPart, part_kinds};
ghost use Rattle.toml_print.specs.JsonTexts.{scalar_text};
ghost use Rattle.toml_print.specs.TaggedText.{WritesTagged};
ghost use Rattle.toml_print.specs.Tokens.{WritesTree};
ghost use Rattle.toml_print.specs.Writing.{Writes};

use crate::scalars::write_scalar;
use crate::style::Style;
use json::Writer;
use std::alloc::{AllocError, Global};
use std::mem;
use toml_names::{NamedText, Shape};

/// Writes the tagged JSON of a text's data behind what `out` has. Of the data one scalar's value stands in memory at a
/// time, and for each table around it the list of its names.
pub fn write_tagged(
    alloc: Global,
    out: &mut Vec<u8>,
    whole: &NamedText<'_>,
) -> Result<(), AllocError>
    ensures { OnOk result (WritesTagged (part_kinds whole.now 0) out.old.items out.new.items) }
{
    write_json(alloc, out, whole, Style::Tagged, whole.root())
}

/// Writes the JSON of a part behind what `out` has.
pub(crate) fn write_json(
    alloc: Global,
    out: &mut Vec<u8>,
    whole: &NamedText<'_>,
    style: Style,
    id: usize,
) -> Result<(), AllocError>
    requires { IsPart whole.now id }
    ensures { OnOk result (Writes (scalar_text style) (part_kinds whole.now id) out.old.items out.new.items) }
{
    let mut writer = Writer::new(mem::replace(out, Vec::new(alloc)));
    let written = write_part(&mut writer, whole, style, id);
    *out = writer.into_inner();
    written
}

/// Writes a part.
#[cycle(write)]
fn write_part(
    writer: &mut Writer,
    whole: &NamedText<'_>,
    style: Style,
    id: usize,
) -> Result<(), AllocError>
    requires { IsPart whole.now id }
    ensures { OnOk result (WritesTree style (part_kinds whole.now id) writer.old writer.new) }
{
    match whole.shape(id)? {
        Shape::Scalar(scalar) => write_scalar(writer, style, &scalar),
        Shape::Array => write_items(writer, whole, style, id),
        Shape::Table => write_members(writer, whole, style, id),
    }
}

/// Writes an array, its elements in order.
#[cycle(write)]
fn write_items(
    writer: &mut Writer,
    whole: &NamedText<'_>,
    style: Style,
    id: usize,
) -> Result<(), AllocError>
    requires part { IsPart whole.now id }
    requires array { part_kinds whole.now id [] ≡ Some an_array }
    ensures { OnOk result (WritesTree style (part_kinds whole.now id) writer.old writer.new) }
{
    writer.begin_array()?;
    for item in whole.items(id) {
        write_part(writer, whole, style, *item)?;
    }
    writer.end_array()?;
    Ok(())
}

/// Writes the members of a table, in the order of their names' bytes, which is that of an object's keys.
#[cycle(write)]
fn write_members(
    writer: &mut Writer,
    whole: &NamedText<'_>,
    style: Style,
    id: usize,
) -> Result<(), AllocError>
    requires part { IsPart whole.now id }
    requires table { part_kinds whole.now id [] ≡ Some a_table }
    ensures { OnOk result (WritesTree style (part_kinds whole.now id) writer.old writer.new) }
{
    let members = whole.members(id)?;
    writer.begin_object()?;
    for (name, member) in &members {
        writer.key(name)?;
        write_part(writer, whole, style, *member)?;
    }
    writer.end_object()?;
    Ok(())
}
