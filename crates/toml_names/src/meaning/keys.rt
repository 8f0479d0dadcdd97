//! What a key part, a key and a value stand for (TOML v1.0.0, Keys).
ghost use Rattle.std.specs.Cow.{cow_str_bytes};
ghost use Rattle.std.specs.Prelude.{◌≡◌, IfOk, OnOk};
ghost use Rattle.toml_tree.specs.View.{key as tree_key, value};
ghost use Rattle.toml_names.specs.model.Addresses.{below};
ghost use Rattle.toml_names.specs.mentions.Keys.{spelled_name, key_names, rest_names};
ghost use Rattle.toml_names.specs.mentions.Mentions.{kind_of};
ghost use Rattle.toml_names.specs.mentions.View.{kind};

use crate::mentions::mention::Kind;
use crate::model::address::{Address, Step};
use crate::model::name::Name;
use std::alloc::{AllocError, Global};
use std::borrow::CowStr;
use toml_scalar::name_of;
use toml_tree::{Key, Value};

/// What a value is.
pub(crate) fn kind_of<'t>(v: &Value<'t>) -> Kind<'t>
    ensures { kind result ≡ kind_of (value v.now) }
{
    match v {
        Value::Scalar(kind, token) => Kind::Scalar(*kind, token.text),
        Value::Array(_) => Kind::Array,
        Value::Inline(_) => Kind::Table,
    }
}

/// The name that the text of a key part spells, lent where it is the text itself; an empty one for a text that is no key
/// part.
pub(crate) fn spelled_name<'t>(alloc: Global, text: &'t str) -> Result<CowStr<'t>, AllocError>
    ensures { IfOk result (λ name. cow_str_bytes name ≡ spelled_name text.now) }
{
    match name_of(alloc, text)? {
        Some(name) => Ok(name),
        None => Ok(CowStr::Borrowed("")),
    }
}

/// The name that the text of a key part spells, as a name of its own.
pub(crate) fn own_name(alloc: Global, text: &str) -> Result<Name, AllocError>
    ensures { IfOk result (λ name. name ≡ spelled_name text.now) }
{
    let name = spelled_name(alloc, text)?;
    Name::spelled(alloc, name.as_str())
}

/// Goes down to where the parts of a key behind its first one lead.
fn follow_rest(alloc: Global, at: &mut Address, key: &Key) -> Result<(), AllocError>
    ensures { OnOk result (at.new ≡ below at.old (rest_names (tree_key key.now).rest)) }
{
    for dotted in &key.rest {
        at.push(Step::Name(own_name(alloc, dotted.part.text)?))?;
    }
    Ok(())
}

/// The address of a whole key in the table at the address (TOML v1.0.0, Keys).
pub fn key_address(alloc: Global, at: &Address, key: &Key) -> Result<Address, AllocError>
    ensures { IfOk result (λ here. here ≡ below at.now (key_names (tree_key key.now))) }
{
    let room = key.rest.len().saturating_add(1);
    let mut here = Address::of(at.copy_steps(alloc, room)?);
    here.push(Step::Name(own_name(alloc, key.first.text)?))?;
    follow_rest(alloc, &mut here, key)?;
    Ok(here)
}

/// Makes an address that of a whole key in the table at the other (TOML v1.0.0, Keys), in its own memory. Where memory lacks,
/// nothing is said of it any more.
pub fn set_to_key(
    alloc: Global,
    here: &mut Address,
    at: &Address,
    key: &Key,
) -> Result<(), AllocError>
    ensures { OnOk result (here.new ≡ below at.now (key_names (tree_key key.now))) }
{
    let first = spelled_name(alloc, key.first.text)?;
    here.set_to_child(alloc, at, first.as_str())?;
    follow_rest(alloc, here, key)
}
