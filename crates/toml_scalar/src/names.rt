//! The names of key parts.
ghost use Rattle.std.specs.Cow.{cow_str_bytes};
ghost use Rattle.std.specs.Prelude.{◌≡◌, option_map, IfOk, string_bytes};
ghost use Rattle.toml_text.specs.Source.{text_of, IsHeld};
ghost use Rattle.toml_scalar.specs.Faults.{key_fault};
ghost use Rattle.toml_scalar.specs.Reads.{ReadsKey};
ghost use Rattle.toml_scalar.specs.Values.{name_of, quoted_name};

use crate::class::{bare_len, is_bare};
use crate::fault::SyntaxFault;
use crate::strings::{StringKind, kind_at, read_string};
use std::alloc::{AllocError, Global};
use std::borrow::CowStr;
use toml_text::{Source, Span};

/// The name of the key part that the span holds.
///
/// A text that is no key part is refused at the span's start.
pub fn read_key(alloc: Global, source: Source<'_>, span: Span) -> Result<String, SyntaxFault>
    requires { IsHeld (text_of source) span }
    ensures { ReadsKey (text_of source.entry) span result }
{
    let part = source.slice(span);
    match name_of(alloc, part)? {
        Some(name) => Ok(name.into_owned(alloc)?),
        None => Err(key_fault(part.as_bytes(), span.start)),
    }
}

/// The name of a text, if it is a key part: a bare key names itself, and is lent; a one-line string names its value.
///
/// `simple-key = quoted-key / unquoted-key`
#[tactic(auto, unfolding(crate::specs::Values::name_of))]
pub fn name_of<'t>(alloc: Global, part: &'t str) -> Result<Option<CowStr<'t, Global>>, AllocError>
    ensures { IfOk result (λ name. option_map cow_str_bytes name ≡ name_of part.now) }
{
    match part.as_bytes() {
        [first, ..] if is_bare(*first) => {
            if bare_len(part.as_bytes()) != part.len() {
                return Ok(None);
            }
            Ok(Some(CowStr::Borrowed(part)))
        }
        _ => match quoted_name(alloc, part)? {
            Some(name) => Ok(Some(CowStr::Owned(name))),
            None => Ok(None),
        },
    }
}

/// `quoted-key = basic-string / literal-string`
fn quoted_name(alloc: Global, part: &str) -> Result<Option<String>, AllocError>
    ensures { IfOk result (λ name. option_map string_bytes name ≡ quoted_name part.now) }
{
    match kind_at(part.as_bytes()) {
        Some(StringKind::Basic | StringKind::Literal) => read_string(alloc, part),
        _ => Ok(None),
    }
}

/// The fault of a text that is no key part.
#[tactic(auto, unfolding(crate::specs::Faults::key_fault))]
fn key_fault(part: &[u8], at: usize) -> SyntaxFault
    ensures { result ≡ key_fault part.now at }
{
    match part {
        [b'"' | b'\'', ..] => SyntaxFault::BadString { at },
        _ => SyntaxFault::of_byte(part, at),
    }
}
