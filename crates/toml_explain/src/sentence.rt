//! What is wrong where a byte is the place of a refusal.
ghost use Rattle.std.specs.Prelude.{◌≡◌};

use crate::excerpt::at_place;
use crate::expected::unexpected;
use crate::runs::{bad_date, bad_number};
use crate::strays::stray;
use crate::token::token_span;
use std::alloc::{AllocError, Global};
use toml_text::{MAX_LEN, Span};

/// What is wrong with a control character, by its code point.
fn bad_character(alloc: Global, bytes: &[u8], at: usize) -> Result<String, AllocError> {
    match bytes.get(at) {
        Some(b'\r') => String::from_str(alloc, "a carriage return stands before a line feed alone"),
        Some(byte) => {
            format!(in alloc; "the control character U+{:04X} may not stand here", *byte)
        }
        None => String::from_str(alloc, "a control character may not stand here"),
    }
}

/// Whether a newline stands at a place.
fn is_newline(bytes: &[u8], at: usize) -> bool {
    matches!(bytes.get(at..), Some([b'\n', ..] | [b'\r', b'\n', ..]))
}

/// What is wrong with a string on one line, by the bytes behind its first mark.
fn bad_quoted(mark: u8, bytes: &[u8]) -> &'static str {
    let mut is_escaped = false;
    for (at, byte) in bytes.iter().enumerate() {
        if is_newline(bytes, at) {
            return "this string is not closed in its line";
        }
        if byte.is_ascii_control() && *byte != b'\t' {
            return "a control character may not stand in a string";
        }
        if *byte == mark && !is_escaped {
            return "an escape in this string is none; between ' marks a backslash stands for itself";
        }
        is_escaped = mark == b'"' && *byte == b'\\' && !is_escaped;
    }
    "this string is not closed"
}

/// What is wrong with a string: the end of its line or of the text comes first, or something in it may not stand there.
fn bad_string(bytes: &[u8], at: usize) -> &'static str {
    match bytes.get(at..) {
        Some([b'"', b'"', b'"', ..]) => {
            "this string is not closed, or has an escape or a character that is none"
        }
        Some([b'\'', b'\'', b'\'', ..]) => {
            "this string is not closed, or has a control character"
        }
        Some([mark, rest @ ..]) => bad_quoted(*mark, rest),
        _ => "this string is not closed",
    }
}

/// The bytes of a token that begins at the place.
fn token(bytes: &[u8], at: usize) -> &[u8] {
    let span = token_span(bytes, at);
    match bytes.get(span.start..span.end) {
        Some(run) => run,
        None => &[],
    }
}

/// The sentence of a place where a text may not go on so.
fn unexpected_sentence(alloc: Global, bytes: &[u8], at: usize) -> Result<String, AllocError> {
    match stray(alloc, bytes, at)? {
        Some(sentence) => Ok(sentence),
        None => String::from_str(alloc, unexpected(alloc, bytes, at)?),
    }
}

/// The sentence of a refusal whose place is a byte.
pub(crate) fn byte_sentence(
    alloc: Global,
    bytes: &[u8],
    code: u16,
    at: usize,
) -> Result<String, AllocError> {
    let fixed = match code {
        101 if bytes.len() > MAX_LEN => {
            "no UTF-8 stands here, or a character is cut: the text is longer than 16777216 bytes"
        }
        101 => "this byte is no UTF-8, and the file may be in another encoding",
        103 => return bad_character(alloc, bytes, at),
        104 => return unexpected_sentence(alloc, bytes, at),
        105 => bad_string(bytes, at),
        106 => bad_number(token(bytes, at)),
        107 => "an integer lies between -9223372036854775808 and 9223372036854775807",
        108 => bad_date(token(bytes, at)),
        109 => "values nest at most 100 deep",
        _ => "this is refused",
    };
    String::from_str(alloc, fixed)
}

/// What is meant where a byte is the place of a refusal: the whole number, date or time, else the one character.
pub(crate) fn meant_at(bytes: &[u8], code: u16, at: usize) -> Span
    ensures { result.start ≡ at }
{
    match code {
        106 | 107 | 108 => token_span(bytes, at),
        _ => at_place(at),
    }
}
