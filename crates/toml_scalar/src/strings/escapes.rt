//! Escapes: what stands behind a `\`.
ghost use Rattle.std.specs.Prelude.{◌≡◌, ◌≤◌, ℕ, ◌+◌, length, option_map, if◌then◌else◌, Some, None, IfSome};
ghost use Rattle.toml_scalar.specs.Strings.{escaped};
ghost use Rattle.toml_scalar.specs.StringRuns.{hex_after, is_escape, unicode_at, escape_at, multi_line_escape_at};

use crate::strings::runs::dropped_len;

/// The character that an escape means, and how many bytes of it stand behind the `\`.
#[derive(Clone, Copy)]
pub struct EscapedChar {
    pub value: char,
    pub len: usize,
}

ghost use Rattle.toml_scalar.specs.StringScan.{escaped_char, behind_len};

/// The number that hexadecimal digits spell, if all of the bytes are digits.
fn hex_value(digits: &[u8]) -> Option<u32>
    requires { length digits.now ≤ 8 }
    ensures { result ≡ hex_after 0 digits.now }
{
    let mut value = 0;
    for digit in digits {
        value = value * 16 + (*digit as char).to_digit(16)?;
    }
    Some(value)
}

/// The escape by `count` digits that stand behind `u` or `U`.
///
/// `%x75 4HEXDIG / %x55 8HEXDIG`, of a Unicode scalar value
fn unicode(count: usize, bytes: &[u8]) -> Option<EscapedChar>
    requires { count ≤ 8 }
    ensures value { (letter : ℕ) → result ≡ option_map escaped_char (unicode_at letter count bytes.now) }
    ensures within { IfSome result (λ e. e.len ≤ length bytes.now + 1) }
{
    if bytes.len() < count {
        return None;
    }
    let value = char::from_u32(hex_value(&bytes[..count])?)?;
    Some(EscapedChar {
        value,
        len: count + 1,
    })
}

/// The character that `\` and a letter mean, but for `u` and `U`.
fn letter(byte: u8) -> Option<char>
    ensures { result ≡ (if is_escape byte then Some (escaped byte) else None) }
{
    match byte {
        b'b' => Some('\u{8}'),
        b't' => Some('\t'),
        b'n' => Some('\n'),
        b'f' => Some('\u{c}'),
        b'r' => Some('\r'),
        b'"' => Some('"'),
        b'\\' => Some('\\'),
        _ => None,
    }
}

/// The escape of which this stands behind the `\`.
///
/// `escaped = escape escape-seq-char`
pub(crate) fn escape(bytes: &[u8]) -> Option<EscapedChar>
    ensures value { result ≡ option_map escaped_char (escape_at bytes.now) }
    ensures within { IfSome result (λ e. e.len ≤ length bytes.now) }
{
    match bytes {
        [b'u', digits @ ..] => unicode(4, digits),
        [b'U', digits @ ..] => unicode(8, digits),
        [byte, ..] => Some(EscapedChar {
            value: letter(*byte)?,
            len: 1,
        }),
        [] => None,
    }
}

/// How many bytes of the escape or the dropped stretch stand behind the `\`.
///
/// `mlb-escaped-nl = escape ws newline *( wschar / newline )`
pub(crate) fn multi_line_escape_len(bytes: &[u8]) -> Option<usize>
    ensures value { result ≡ option_map behind_len (multi_line_escape_at bytes.now) }
    ensures within { IfSome result (λ n. n ≤ length bytes.now) }
{
    match dropped_len(bytes) {
        0 => Some(escape(bytes)?.len),
        len => Some(len),
    }
}
