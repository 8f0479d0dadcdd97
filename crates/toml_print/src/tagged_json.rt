//! Tagged JSON, toml-test's convention: data as JSON in which each scalar tells its type.
ghost use Rattle.std.specs.Prelude.{◌≡◌, IfOk, false, map};
ghost use Rattle.serde_json.specs.Data.{array, object};
ghost use Rattle.serde_json.specs.View.{view, items_view, members_view};
ghost use Rattle.serde_json.specs.Written.{has_float};
ghost use Rattle.toml_scalar.specs.Values.{scalar_value};
ghost use Rattle.toml_names.specs.model.Data.{in_array, in_table, kind_at};
ghost use Rattle.toml_print.specs.Tagged.{IsTagged, kinds_of, moment_tag, tag_of, text_of, told};

use serde_json::{Map, Value, json, put};
use std::alloc::{AllocError, Global};
use std::collections::BTreeMap;
use toml_names::{Data, Datum};
use toml_scalar::{MomentKind, Scalar};

/// The data of a document as tagged JSON.
pub fn tagged(alloc: Global, data: &Data) -> Result<Value, AllocError>
    ensures tagged { IfOk result (λ j. IsTagged (kind_at «data».now.root) (view j)) }
    ensures printed { IfOk result (λ j. has_float (view j) ≡ false) }
{
    tagged_datum(alloc, &data.root)
}

/// A datum as tagged JSON.
#[cycle(tagged)]
fn tagged_datum(alloc: Global, datum: &Datum) -> Result<Value, AllocError>
    ensures { IfOk result (λ j. IsTagged (kind_at datum.now) (view j)) }
{
    match datum {
        Datum::Scalar(scalar) => tagged_scalar(alloc, scalar),
        Datum::Array(items) => Ok(Value::Array(tagged_items(alloc, items)?)),
        Datum::Table(members) => Ok(Value::Object(tagged_members(alloc, members)?)),
    }
}

/// The elements of an array as tagged JSON, in order.
#[cycle(tagged)]
fn tagged_items(alloc: Global, items: &[Datum]) -> Result<Vec<Value>, AllocError>
    ensures { IfOk result (λ list.
        IsTagged (in_array (map kind_at items.now)) (array (items_view list.items))) }
{
    let mut list = Vec::with_capacity(alloc, items.len())?;
    for item in items {
        list.push(tagged_datum(alloc, item)?)?;
    }
    Ok(list)
}

/// The members of a table as tagged JSON, by their names.
#[cycle(tagged)]
fn tagged_members(
    alloc: Global,
    members: &BTreeMap<String, Datum>,
) -> Result<Map<String, Value>, AllocError>
    ensures { IfOk result (λ found.
        IsTagged (in_table (map kinds_of members.now.entries)) (object (members_view found.entries))) }
{
    let mut found = Map::new(alloc);
    for (name, member) in members.iter() {
        let value = tagged_datum(alloc, member)?;
        put(&mut found, alloc, name.as_str(), value)?;
    }
    Ok(found)
}

/// A scalar as an object of its type and its text.
fn tagged_scalar(alloc: Global, scalar: &Scalar) -> Result<Value, AllocError>
    ensures { let v = scalar_value scalar.now in IfOk result (λ j. view j ≡ object (told (tag_of v) (text_of v))) }
{
    match scalar {
        Scalar::Text(text) => tell(alloc, "string", text.as_str()),
        Scalar::Integer(number) => tell(alloc, "integer", number.to_string(alloc)?.as_str()),
        Scalar::Float(float) => tell(alloc, "float", float.text.as_str()),
        Scalar::Bool(truth) => tell(alloc, "bool", if *truth { "true" } else { "false" }),
        Scalar::Moment(moment) => tell(alloc, moment_tag(moment.kind), moment.text.as_str()),
    }
}

/// The type that is told of a date or a time.
pub fn moment_tag(kind: MomentKind) -> &'static str
    ensures { result.now ≡ moment_tag kind }
{
    match kind {
        MomentKind::Offset => "datetime",
        MomentKind::Local => "datetime-local",
        MomentKind::Date => "date-local",
        MomentKind::Time => "time-local",
    }
}

/// An object of a type and a text.
fn tell(alloc: Global, tag: &str, text: &str) -> Result<Value, AllocError>
    ensures { IfOk result (λ j. view j ≡ object (told tag.now text.now)) }
{
    json!(in alloc; {"type": tag, "value": text})
}
