//! The value of a string.
ghost use Rattle.std.specs.Prelude.{◌≡◌, ◌≤◌, ℕ, List, length, option_map, IfOk, Some, string_bytes};
ghost use Rattle.toml_text.specs.Runs.{run_len};
ghost use Rattle.toml_scalar.specs.StringValues.{Unescapes, Unescaped, EndsAscii, IsContentOf, is_verbatim};
ghost use Rattle.toml_scalar.specs.Strings.{IsString};
ghost use Rattle.toml_scalar.specs.StringRuns.{string_len, string_value};

use crate::strings::escapes::escape;
use crate::strings::kind::StringKind;
use crate::strings::runs::dropped_len;
use crate::strings::scan::{first_len, kind_at, marks_len, string_len};
use std::alloc::{AllocError, Global};

/// How many bytes at the front stand before the first `\`.
fn verbatim_len(bytes: &[u8]) -> usize
    ensures run { result ≡ run_len is_verbatim bytes.now }
    ensures within { result ≤ length bytes.now }
{
    for (i, byte) in bytes.iter().enumerate() {
        if *byte == b'\\' {
            return i;
        }
    }
    bytes.len()
}

/// Writes what the escape or the dropped stretch of which this stands behind the `\` stands for. The
/// answer is how many of these bytes are of it.
fn push_escape(value: &mut String, bytes: &[u8]) -> Result<usize, AllocError>
    ensures value { IfOk result (λ n. Unescaped bytes.now (string_bytes value.old) (string_bytes value.new) n) }
    ensures within { IfOk result (λ n. n ≤ length bytes.now) }
    ensures ascii { IfOk result (λ n. EndsAscii bytes.now n) }
{
    let dropped = dropped_len(bytes);
    if dropped > 0 {
        return Ok(dropped);
    }
    // Behind a `\` in a string stands an escape or a dropped stretch: this is never reached there.
    let Some(escaped) = escape(bytes) else {
        return Ok(0);
    };
    value.push(escaped.value)?;
    Ok(escaped.len)
}

/// What content of a basic string stands for.
fn unescape(alloc: Global, content: &str) -> Result<String, AllocError>
    ensures { IfOk result (λ s. (value : List ℕ) → Unescapes content.now value → string_bytes s ≡ value) }
{
    let bytes = content.as_bytes();
    let mut value = String::with_capacity(alloc, content.len())?;
    let mut from = 0;
    loop {
        let at = from + verbatim_len(&bytes[from..]);
        value.push_str(&content[from..at])?;
        if at == bytes.len() {
            return Ok(value);
        }
        from = at + 1 + push_escape(&mut value, &bytes[at + 1..])?;
    }
}

/// The text alone.
fn copy(alloc: Global, text: &str) -> Result<String, AllocError>
    ensures { IfOk result (λ s. string_bytes s ≡ text.now) }
{
    let mut value = String::with_capacity(alloc, text.len())?;
    value.push_str(text)?;
    Ok(value)
}

/// What stands between the marks of a string, behind the first newline.
fn content(kind: StringKind, text: &str) -> &str
    requires { IsString kind text.now }
    ensures { IsContentOf kind text.now result.now }
{
    let marks = marks_len(kind);
    let start = marks + first_len(kind, &text.as_bytes()[marks..]);
    &text[start..text.len() - marks]
}

/// The value of a string, which takes no more memory than its text.
fn string_value(alloc: Global, text: &str) -> Result<String, AllocError>
    requires { string_len text.now ≡ Some (length text.now) }
    ensures { IfOk result (λ value. string_value text.now ≡ Some (string_bytes value)) }
{
    // A whole string has a kind: this is never reached.
    let Some(kind) = kind_at(text.as_bytes()) else {
        return Ok(String::new(alloc));
    };
    let content = content(kind, text);
    match kind {
        StringKind::Basic | StringKind::MultiLineBasic => unescape(alloc, content),
        StringKind::Literal | StringKind::MultiLineLiteral => copy(alloc, content),
    }
}

/// The value of a text, if it is a string.
#[tactic(auto, using(crate::proofs::Wholes::not_whole, crate::proofs::Wholes::no_string))]
pub(crate) fn read_string(alloc: Global, text: &str) -> Result<Option<String>, AllocError>
    ensures { IfOk result (λ value. option_map string_bytes value ≡ string_value text.now) }
{
    match string_len(text.as_bytes()) {
        Some(len) if len == text.len() => Ok(Some(string_value(alloc, text)?)),
        _ => Ok(None),
    }
}
