//! How a name is spelled as a key part.
ghost use Rattle.std.specs.Prelude.{◌≡◌, ◌<◌, ◌++◌, IfOk, OnOk, encode_utf8};
ghost use Rattle.std.specs.List.{flat_map};
ghost use Rattle.std.specs.String.{string_bytes};
ghost use Rattle.toml_scalar.specs.Spelling.{is_bare_key, hex_digit, hex_escape, spelled_byte, quoted, spelled};

use crate::class::is_bare;
use std::alloc::{AllocError, Global};

/// The spelling of a name: bare where it can be, else a basic string.
pub fn spell_key(alloc: Global, name: &str) -> Result<String, AllocError>
    ensures { IfOk result (λ text. string_bytes text ≡ spelled name.now) }
{
    if is_bare_key(name.as_bytes()) {
        String::from_str(alloc, name)
    } else {
        spell_string(alloc, name)
    }
}

/// Whether a name may stand bare.
fn is_bare_key(name: &[u8]) -> bool
    ensures { result ≡ is_bare_key name.now }
{
    for byte in name {
        if !is_bare(*byte) {
            return false;
        }
    }
    !name.is_empty()
}

/// The spelling of characters as a basic string.
pub fn spell_string(alloc: Global, characters: &str) -> Result<String, AllocError>
    ensures { IfOk result (λ text. string_bytes text ≡ quoted characters.now) }
{
    let mut text = String::with_capacity(alloc, characters.len() + 2)?;
    text.push('"')?;
    for character in characters.chars() {
        push_spelled(&mut text, character)?;
    }
    text.push('"')?;
    Ok(text)
}

/// Spells a character of a name in a basic string. TOML counts U+007F to the control characters, and
/// none past ASCII.
fn push_spelled(text: &mut String, character: char) -> Result<(), AllocError>
    ensures { OnOk result (string_bytes text.new ≡ string_bytes text.old ++ flat_map spelled_byte (encode_utf8 character)) }
{
    match character {
        '\u{8}' => text.push_str("\\b"),
        '\t' => text.push_str("\\t"),
        '\n' => text.push_str("\\n"),
        '\u{C}' => text.push_str("\\f"),
        '\r' => text.push_str("\\r"),
        '"' => text.push_str("\\\""),
        '\\' => text.push_str("\\\\"),
        '\0'..='\u{1F}' | '\u{7F}' => push_hex_escape(text, character as u8),
        _ => text.push(character),
    }
}

/// Pushes `\u00XX`.
fn push_hex_escape(text: &mut String, byte: u8) -> Result<(), AllocError>
    ensures { OnOk result (string_bytes text.new ≡ string_bytes text.old ++ hex_escape byte) }
{
    text.push_str("\\u00")?;
    text.push(hex_digit(byte / 16))?;
    text.push(hex_digit(byte % 16))
}

/// The digit of a number, in upper case.
fn hex_digit(number: u8) -> char
    requires { number < 16 }
    ensures digit { result ≡ hex_digit number }
    ensures ascii { result < 128 }
{
    char::from(if number < 10 {
        b'0' + number
    } else {
        b'A' - 10 + number
    })
}
